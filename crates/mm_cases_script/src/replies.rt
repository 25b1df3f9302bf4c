//! Operations on replies.

use anyhow::{Result, bail, ensure};
use mm_bson::{Doc, DocList, Text};
use mm_model::Reply;
use mm_notation::read_doc;
use mm_script::write_reply;
use std::alloc::Global;

/// How many bytes a text has at most.
const MOST: usize = 0x1000_0000;

/// The document that a text is, in the notation.
fn one_doc(alloc: Global, text: &str) -> Result<Doc> {
    if text.len() > MOST {
        bail!("more than a document's text");
    }
    let (doc, end) = read_doc(alloc, text, 0)?;
    ensure!(end == text.len(), "more than a document");
    Ok(doc)
}

/// Appends the documents of a text, which are parted by bars.
fn put_found(alloc: Global, list: &mut DocList, text: &str) -> Result<()> {
    for part in text.split('|') {
        list.push(one_doc(alloc, part)?)?;
    }
    Ok(())
}

fn found(alloc: Global, text: &str) -> Result<Reply> {
    let mut list = DocList::new(alloc);
    if !text.is_empty() {
        put_found(alloc, &mut list, text)?;
    }
    Ok(Reply::Found(list))
}

/// The reply of a kind that has no parts.
fn bare(kind: &str) -> Result<Reply> {
    match kind {
        "DocTooDeep" => Ok(Reply::DocTooDeep),
        "IdArray" => Ok(Reply::IdArray),
        "ChangesId" => Ok(Reply::ChangesId),
        "IdIndex" => Ok(Reply::IdIndex),
        "TooManyIndexes" => Ok(Reply::TooManyIndexes),
        "NsFull" => Ok(Reply::NsFull),
        "NoSpace" => Ok(Reply::NoSpace),
        _ => bail!("no reply has this name"),
    }
}

/// The reply of a kind about a name.
fn about(alloc: Global, kind: &str, text: &str) -> Result<Reply> {
    let name = Text::from_str(alloc, text)?;
    match kind {
        "BadOperator" => Ok(Reply::BadOperator { name }),
        "BadChange" => Ok(Reply::BadChange { name }),
        "NotNumber" => Ok(Reply::NotNumber { path: name }),
        "IncOverflow" => Ok(Reply::IncOverflow { path: name }),
        "NoCollection" => Ok(Reply::NoCollection { name }),
        "NoIndex" => Ok(Reply::NoIndex { name }),
        "IndexDiffers" => Ok(Reply::IndexDiffers { name }),
        "ArrayKey" => Ok(Reply::ArrayKey { index: name }),
        _ => bare(kind),
    }
}

fn key_too_long(alloc: Global, text: &str) -> Result<Reply> {
    let (index, len) = text.split_once(' ').unwrap_or((text, ""));
    Ok(Reply::KeyTooLong {
        index: Text::from_str(alloc, index)?,
        len: len.parse::<u64>()?,
    })
}

fn duplicate(alloc: Global, text: &str) -> Result<Reply> {
    let (index, key) = text.split_once(' ').unwrap_or((text, ""));
    Ok(Reply::Duplicate {
        index: Text::from_str(alloc, index)?,
        key: one_doc(alloc, key)?,
    })
}

fn reply_of(alloc: Global, kind: &str, text: &str) -> Result<Reply> {
    match kind {
        "Done" => Ok(Reply::Done(text.parse::<u64>()?)),
        "Found" => found(alloc, text),
        "DocTooLarge" => Ok(Reply::DocTooLarge {
            len: text.parse::<u64>()?,
        }),
        "OpTooLarge" => Ok(Reply::OpTooLarge {
            weight: text.parse::<u64>()?,
        }),
        "KeyTooLong" => key_too_long(alloc, text),
        "Duplicate" => duplicate(alloc, text),
        _ => about(alloc, kind, text),
    }
}

fn text_of(alloc: Global, reply: &Reply) -> Result<String> {
    let mut out = Vec::new(alloc);
    write_reply(reply, &mut out)?;
    Ok(String::from_utf8(out)?)
}

/// The reply of a line: its kind, and its parts.
fn reply_in(alloc: Global, text: &str) -> Result<Reply> {
    let (kind, parts) = text.split_once(' ').unwrap_or((text, ""));
    reply_of(alloc, kind, parts)
}

/// `reply KIND PARTS`: the text of a reply.
pub fn reply(alloc: Global, text: &str) -> Result<String> {
    let reply = reply_in(alloc, text)?;
    text_of(alloc, &reply)
}

/// `reply_copy KIND PARTS`: the text of a reply's copy.
pub fn reply_copy(alloc: Global, text: &str) -> Result<String> {
    let reply = reply_in(alloc, text)?;
    let copy = reply.copy()?;
    text_of(alloc, &copy)
}
