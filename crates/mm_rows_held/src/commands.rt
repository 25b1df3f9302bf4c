//! Copies of commands and replies.

use mm_base::{Name, NoMemory};
use mm_bson::{Doc, DocList};
use mm_model::{Command, Reply};
use std::test::Fail;

/// `{"_id": 1}`.
const ONE: &[u8] = b"\x0e\0\0\0\x10_id\0\x01\0\0\0\0";

fn push_document(command: &Command, bytes: &mut Vec<u8>) -> Result<(), NoMemory> {
    if let Command::Insert { doc, .. } = command {
        bytes.extend_from_slice(doc.bytes())?;
    }
    Ok(())
}

fn push_copied(command: &Command, bytes: &mut Vec<u8>) -> Result<(), NoMemory> {
    let copy = command.copy()?;
    push_document(&copy, bytes)
}

// The bytes of the document in the copy of an insert.
fn copied_insert(coll: Name, doc: Doc, bytes: &mut Vec<u8>) -> Result<(), NoMemory> {
    push_copied(&Command::Insert { coll, doc }, bytes)
}

#[test]
fn a_command_is_copied(rt: HostRuntime) -> Result<(), Fail> {
    let coll = Name::new(b"c").ok_or(NoMemory)?;
    let mut bytes = Vec::new(rt.alloc());
    copied_insert(coll, Doc::parse(rt.alloc(), ONE)?, &mut bytes)?;
    assert_eq!(rt; bytes.as_slice(), ONE);
    Ok(())
}

fn found(reply: &Reply) -> usize {
    match reply {
        Reply::Found(documents) => documents.documents().len(),
        _ => 0,
    }
}

fn copied(reply: &Reply) -> Result<usize, NoMemory> {
    let copy = reply.copy()?;
    Ok(found(&copy))
}

// How many documents the copy of a find's reply has.
fn copied_found(documents: DocList) -> Result<usize, NoMemory> {
    copied(&Reply::Found(documents))
}

#[test]
fn a_reply_is_copied(rt: HostRuntime) -> Result<(), Fail> {
    let mut documents = DocList::new(rt.alloc());
    documents.push(Doc::parse(rt.alloc(), ONE)?)?;
    assert_eq!(rt; copied_found(documents)?, 1);
    Ok(())
}
