// A data file that is read back.
ghost use Rattle.std.specs.Prelude.{◌≡◌, ℕ, List, length, IfOk};
ghost use Rattle.mm_bson.specs.Tree.{Elements};
ghost use Rattle.mm_main.specs.Room.{file_len};
ghost use Rattle.mm_main.specs.DataFile.{HasFileHeader};
ghost use Rattle.mm_main.specs.Findings.{IsFinding, IfFound};
ghost use Rattle.mm_main.specs.Contents.{IsRead, HoldsDocs};

use crate::answers::EXTENT_AT;
use crate::chain::records_of;
use crate::finding::{Finding, Unreadable, What};
use crate::headers::{extent_of, unused_of};
use crate::layout::docs_at;
use mm_base::Name;
use mm_bson::Doc;
use std::alloc::Global;

/// The documents of the one collection that a file holds, in the order of its chain.
#[derive(Drop)]
pub struct Contents {
    pub namespace: Name,
    pub docs: Vec<Doc>,
}

// Something is wrong at an offset.
fn wrong(at: usize, what: What) -> Unreadable
    ensures { result ≡ Unreadable.Found (record { at = at; what = what }) }
{
    Unreadable::Found(Finding { at, what })
}

// Reads a file that has an extent.
fn read_extent(alloc: Global, file: &[u8]) -> Result<Contents, Unreadable>
    requires size { length file.now ≡ file_len }
    requires header { HasFileHeader file.now file_len }
    ensures read { IfOk result (λ contents. IsRead file.now (Some contents)) }
    ensures found { IfFound result (IsFinding file.now) }
{
    let Some(extent) = extent_of(file) else {
        return Err(wrong(EXTENT_AT, What::Extent));
    };
    let ats = match records_of(alloc, file, &extent) {
        Ok(ats) => ats,
        Err(fault) => return Err(fault),
    };
    let docs = match docs_at(alloc, file, &ats) {
        Ok(docs) => docs,
        Err(fault) => return Err(fault),
    };
    Ok(Contents {
        namespace: extent.namespace,
        docs,
    })
}

/// Reads a file whole, or finds what is first wrong in it.
pub fn read_file(alloc: Global, file: &[u8]) -> Result<Option<Contents>, Unreadable>
    // What is read is what the file was written with.
    ensures read { IfOk result (λ contents. IsRead file.now contents) }

    // What is found is the first that is wrong, and the file holds no documents.
    ensures found { IfFound result (IsFinding file.now) }
    ensures only { IfFound result (λ at what. (collection : List ℕ) (docs : List Elements) → HoldsDocs collection docs file.now → ⊥) }
{
    let Some(unused) = unused_of(file) else {
        return Err(wrong(0, What::File));
    };
    if unused == EXTENT_AT {
        return Ok(None);
    }
    match read_extent(alloc, file) {
        Ok(contents) => Ok(Some(contents)),
        Err(fault) => Err(fault),
    }
}
