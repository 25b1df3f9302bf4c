//! The texts of replies.

ghost use Rattle.std.specs.Prelude.{◌≡◌, ◌++◌, length, flat_map, codes, OnOk, OnErr};
ghost use Rattle.mm_notation.specs.Written.{Grows};
ghost use Rattle.mm_script.specs.Replies.{document_text, found_text, with_number, reply_text};

use crate::writing::{put, put_counted, put_named};
use mm_base::NoMemory;
use mm_bson::Doc;
use mm_model::Reply;
use mm_notation::write_doc;
use std::alloc::AllocError;

fn put_document(out: &mut Vec<u8>, document: &Doc) -> Result<(), AllocError>
    ensures ok { OnOk result (out.new.items ≡ out.old.items ++ document_text document.now) }
    ensures err { OnErr result (Grows out.old.items out.new.items) }
{
    put(out, b" ")?;
    match write_doc(document, out) {
        Ok(()) => Ok(()),
        Err(_) => Err(AllocError),
    }
}

fn put_documents(out: &mut Vec<u8>, documents: &[Doc]) -> Result<(), AllocError>
    ensures ok { OnOk result (out.new.items ≡ out.old.items ++ flat_map document_text documents.now) }
    ensures err { OnErr result (Grows out.old.items out.new.items) }
{
    for document in documents {
        put_document(out, document)?;
    }
    Ok(())
}

fn put_found(out: &mut Vec<u8>, documents: &[Doc]) -> Result<(), AllocError>
    ensures ok { OnOk result (out.new.items ≡ out.old.items ++ found_text documents.now) }
    ensures err { OnErr result (Grows out.old.items out.new.items) }
{
    put_counted(out, b"ok ", documents.len() as u64)?;
    put_documents(out, documents)
}

/// Puts a word and an index.
fn put_index(out: &mut Vec<u8>, word: &[u8], index: &[u8]) -> Result<(), AllocError>
    ensures ok { OnOk result (out.new.items ≡ out.old.items ++ (word.now ++ index.now)) }
    ensures err { OnErr result (Grows out.old.items out.new.items) }
{
    put(out, word)?;
    put(out, index)
}

/// Puts a word, an index and a number.
fn put_index_and_len(
    out: &mut Vec<u8>,
    word: &[u8],
    index: &[u8],
    len: u64,
) -> Result<(), AllocError>
    ensures ok { OnOk result (out.new.items ≡ out.old.items ++ (word.now ++ (index.now ++ with_number (codes " ") len))) }
    ensures err { OnErr result (Grows out.old.items out.new.items) }
{
    put(out, word)?;
    put(out, index)?;
    put_counted(out, b" ", len)
}

/// Puts a word, an index and a key.
fn put_index_and_key(
    out: &mut Vec<u8>,
    word: &[u8],
    index: &[u8],
    key: &Doc,
) -> Result<(), AllocError>
    ensures ok { OnOk result (out.new.items ≡ out.old.items ++ (word.now ++ (index.now ++ document_text key.now))) }
    ensures err { OnErr result (Grows out.old.items out.new.items) }
{
    put(out, word)?;
    put(out, index)?;
    put_document(out, key)
}

fn put_reply(out: &mut Vec<u8>, reply: &Reply) -> Result<(), AllocError>
    ensures ok { OnOk result (out.new.items ≡ out.old.items ++ reply_text reply.now) }
    ensures err { OnErr result (Grows out.old.items out.new.items) }
{
    match reply {
        Reply::Done(n) => put_counted(out, b"ok ", *n),
        Reply::Found(list) => put_found(out, list.documents()),
        Reply::DocTooLarge { len } => put_counted(out, b"DocTooLarge ", *len),
        Reply::DocTooDeep => put(out, b"DocTooDeep"),
        Reply::IdArray => put(out, b"IdArray"),
        Reply::BadOperator { name } => put_named(out, b"BadOperator ", name.as_bytes()),
        Reply::BadChange { name } => put_named(out, b"BadChange ", name.as_bytes()),
        Reply::ChangesId => put(out, b"ChangesId"),
        Reply::NotNumber { path } => put_named(out, b"NotNumber ", path.as_bytes()),
        Reply::IncOverflow { path } => put_named(out, b"IncOverflow ", path.as_bytes()),
        Reply::NoCollection { name } => put_named(out, b"NoCollection ", name.as_bytes()),
        Reply::NoIndex { name } => put_named(out, b"NoIndex ", name.as_bytes()),
        Reply::IdIndex => put(out, b"IdIndex"),
        Reply::IndexDiffers { name } => put_named(out, b"IndexDiffers ", name.as_bytes()),
        Reply::TooManyIndexes => put(out, b"TooManyIndexes"),
        Reply::ArrayKey { index } => put_index(out, b"ArrayKey ", index.as_bytes()),
        Reply::KeyTooLong { index, len } => {
            put_index_and_len(out, b"KeyTooLong ", index.as_bytes(), *len)
        }
        Reply::Duplicate { index, key } => {
            put_index_and_key(out, b"E11000 duplicate key ", index.as_bytes(), key)
        }
        Reply::NsFull => put(out, b"NsFull"),
        Reply::NoSpace => put(out, b"NoSpace"),
        Reply::OpTooLarge { weight } => put_counted(out, b"OpTooLarge ", *weight),
    }
}

/// Puts the text of a reply behind other bytes: `ok` and the number, `ok`, the
/// number and each document that was found, or the refusal's word and what it
/// is about. `out` is as before where memory runs out.
pub fn write_reply(reply: &Reply, out: &mut Vec<u8>) -> Result<(), NoMemory>
    ensures ok { OnOk result (out.new.items ≡ out.old.items ++ reply_text reply.now) }
    ensures err { OnErr result (out.new.items ≡ out.old.items) }
{
    let len = out.len();
    match put_reply(out, reply) {
        Ok(()) => Ok(()),
        Err(_) => {
            out.truncate(len);
            Err(NoMemory)
        }
    }
}
