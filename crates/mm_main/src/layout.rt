// The records of an extent, back to back, and their documents.
ghost use Rattle.std.specs.Prelude.{◌≡◌, ℕ, ◌+◌, ◌≤◌, ◌<◌, ◌^◌, ◌↔◌, List, length, All, IsTrue, IfOk, IfSome, IfNone};
ghost use Rattle.mm_bson.specs.Tree.{Elements};
ghost use Rattle.mm_bson.specs.Spelling.{IsDocument, spelling};
ghost use Rattle.mm_main.specs.Room.{file_len, first_at};
ghost use Rattle.mm_main.specs.DataFile.{IsRest};
ghost use Rattle.mm_main.specs.Opening.{TakesRest};
ghost use Rattle.mm_main.specs.Findings.{Announces, IsDue, IsLaid, FailsAt, IsTiled, Breaks, IfFound};

use crate::answers::{EXTENT_AT, FILE_LEN, FIRST_AT, block_len, request};
use crate::finding::{Finding, Unreadable, What};
use mm_base::{NoMemory, frame, read_i32};
use mm_bson::{BsonFault, Doc, MAX_LEN};
use mm_frames::{DeletedHeader, REC_HEADER_LEN, read_deleted_header, read_rec_header};
use std::alloc::Global;

// The least length of a document.
const LEAST_DOC: i32 = 5;

// A fault of the layout or of a document.
fn wrong(at: usize, what: What) -> Unreadable
    ensures { result ≡ Unreadable.Found (record { at = at; what = what }) }
{
    Unreadable::Found(Finding { at, what })
}

// The length with which the room of a record begins, where it is one of a document.
fn announced(file: &[u8], at: usize) -> Option<usize>
    requires size { length file.now ≡ file_len }
    requires inside { at + 32 ≤ file_len }
    ensures some { IfSome result (λ n. Announces file.now at n) }
    ensures none { IfNone result ((n : ℕ) → Announces file.now at n → ⊥) }
{
    let len = read_i32(file, at + REC_HEADER_LEN);
    if len < LEAST_DOC || (MAX_LEN as i32) < len {
        return None;
    }
    Some(len as usize)
}

// Whether a record is as long as is due for a document of so many bytes.
fn is_due(file: &[u8], at: usize, len: usize) -> bool
    requires size { length file.now ≡ file_len }
    requires inside { at + 32 ≤ file_len }
    requires most { len ≤ 0x100_0000 }
    ensures { IsTrue result ↔ IsDue file.now at len }
{
    if FILE_LEN - at < request(len) {
        return false;
    }
    read_rec_header(file, at).length_with_headers == block_len(at, len) as i32
}

// The document that these bytes spell, all of them.
fn doc_of(alloc: Global, bytes: &[u8]) -> Result<Option<Doc>, NoMemory>
    ensures some { IfOk result (λ found. IfSome found (λ doc. IsDocument doc × (bytes.now ≡ spelling doc))) }
    ensures none { IfOk result (λ found. IfNone found ((doc : Elements) → IsDocument doc → bytes.now ≡ spelling doc → ⊥)) }
{
    match Doc::parse(alloc, bytes) {
        Ok(doc) => Ok(Some(doc)),
        Err(BsonFault::NoMemory) => Err(NoMemory),
        Err(_) => Ok(None),
    }
}

// The document that is laid at an offset.
fn doc_at(alloc: Global, file: &[u8], at: usize) -> Result<Doc, Unreadable>
    requires size { length file.now ≡ file_len }
    requires inside { at + 32 ≤ file_len }
    ensures laid { IfOk result (λ doc. IsLaid file.now at doc) }
    ensures found { IfFound result (λ place what. (place ≡ at) × FailsAt file.now at what) }
{
    let Some(len) = announced(file, at) else {
        return Err(wrong(at, What::Document));
    };
    if !is_due(file, at, len) {
        return Err(wrong(at, What::Tiling));
    }
    let found = doc_of(alloc, frame(file, at + REC_HEADER_LEN, len))?;
    let Some(doc) = found else {
        return Err(wrong(at, What::Document));
    };
    Ok(doc)
}

// Whether a deleted block is the rest of the extent from an offset on.
fn takes_rest(header: &DeletedHeader, at: usize) -> bool
    requires { at ≤ file_len }
    ensures { IsTrue result ↔ TakesRest header.now at }
{
    header.length_with_headers == (FILE_LEN - at) as i32
        && header.extent_ofs == EXTENT_AT as i32
        && header.next_deleted.is_null()
}

// Whether what is left of the extent is nothing, or one deleted block.
fn is_rest(file: &[u8], at: usize) -> bool
    requires size { length file.now ≡ file_len }
    requires inside { at ≤ file_len }
    requires no_crumb { at < file_len → at + 32 ≤ file_len }
    ensures { IsTrue result ↔ IsRest file.now at }
{
    if at == FILE_LEN {
        return true;
    }
    takes_rest(&read_deleted_header(file, at), at)
}

/// The documents of the records at these offsets, which the chain has in this order.
pub fn docs_at(alloc: Global, file: &[u8], ats: &[usize]) -> Result<Vec<Doc>, Unreadable>
    requires size { length file.now ≡ file_len }
    requires inside { All (λ at. at + 16 ≤ file_len) ats.now }
    ensures tiled { IfOk result (λ docs. IsTiled file.now docs.items ats.now) }
    ensures found { IfFound result (Breaks file.now ats.now) }
{
    let mut docs = Vec::new(alloc);
    let mut at = FIRST_AT;
    for place in ats {
        if *place != at {
            return Err(wrong(at, What::Tiling));
        }
        let doc = match doc_at(alloc, file, at) {
            Ok(doc) => doc,
            Err(fault) => return Err(fault),
        };
        at += block_len(at, doc.bytes().len());
        docs.push(doc)?;
    }
    if docs.is_empty() {
        return Err(wrong(at, What::Tiling));
    }
    if !is_rest(file, at) {
        return Err(wrong(at, What::Tiling));
    }
    Ok(docs)
}
