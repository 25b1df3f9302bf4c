//! Actions as answers: each with its line, in the words of the script language. What is written is the command's copy.

use mm_base::{DbNo, Name, NoMemory};
use mm_bson::Doc;
use mm_model::{Action, Command};
use mm_notation::write_doc;
use std::alloc::Global;

fn put_number(alloc: Global, out: &mut Vec<u8>, number: u32) -> Result<(), NoMemory> {
    let text = format!(in alloc; "{number}")?;
    out.extend_from_slice(text.as_bytes())?;
    Ok(())
}

/// Appends a word behind a blank.
fn put_word(out: &mut Vec<u8>, word: &[u8]) -> Result<(), NoMemory> {
    out.push(b' ')?;
    out.extend_from_slice(word)?;
    Ok(())
}

/// Appends a word where one is asked for.
fn put_flag(out: &mut Vec<u8>, asked: bool, word: &[u8]) -> Result<(), NoMemory> {
    if asked {
        return put_word(out, word);
    }
    Ok(())
}

fn put_doc(out: &mut Vec<u8>, doc: &Doc) -> Result<(), NoMemory> {
    out.push(b' ')?;
    match write_doc(doc, out) {
        Ok(()) => Ok(()),
        Err(_) => Err(NoMemory),
    }
}

/// Appends a verb and a collection.
fn put_verb(out: &mut Vec<u8>, verb: &[u8], coll: &Name) -> Result<(), NoMemory> {
    put_word(out, verb)?;
    put_word(out, coll.bytes())
}

fn put_find(
    out: &mut Vec<u8>,
    coll: &Name,
    filter: &Doc,
    index: &Option<Name>,
) -> Result<(), NoMemory> {
    put_verb(out, b"find", coll)?;
    put_doc(out, filter)?;
    match index {
        Some(index) => put_verb(out, b"index", index),
        None => Ok(()),
    }
}

fn put_update(
    out: &mut Vec<u8>,
    coll: &Name,
    filter: &Doc,
    change: &Doc,
    multi: bool,
) -> Result<(), NoMemory> {
    put_verb(out, b"update", coll)?;
    put_doc(out, filter)?;
    put_doc(out, change)?;
    put_flag(out, multi, b"multi")
}

fn put_ensure_index(
    out: &mut Vec<u8>,
    coll: &Name,
    name: &Name,
    spec: &Doc,
    unique: bool,
) -> Result<(), NoMemory> {
    put_verb(out, b"ensureIndex", coll)?;
    put_word(out, name.bytes())?;
    put_doc(out, spec)?;
    put_flag(out, unique, b"unique")
}

/// Appends a verb, a collection, a document, and a word where one is asked for.
fn put_on_one(
    out: &mut Vec<u8>,
    verb: &[u8],
    coll: &Name,
    doc: &Doc,
    asked: bool,
) -> Result<(), NoMemory> {
    put_verb(out, verb, coll)?;
    put_doc(out, doc)?;
    put_flag(out, asked, b"one")
}

fn put_drop_index(out: &mut Vec<u8>, coll: &Name, name: &Name) -> Result<(), NoMemory> {
    put_verb(out, b"dropIndex", coll)?;
    put_word(out, name.bytes())
}

fn put_command(out: &mut Vec<u8>, command: &Command) -> Result<(), NoMemory> {
    match command {
        Command::Insert { coll, doc } => put_on_one(out, b"insert", coll, doc, false),
        Command::Find {
            coll,
            filter,
            index,
        } => put_find(out, coll, filter, index),
        Command::Update {
            coll,
            filter,
            change,
            multi,
        } => put_update(out, coll, filter, change, *multi),
        Command::Remove { coll, filter, one } => put_on_one(out, b"remove", coll, filter, *one),
        Command::Create { coll } => put_verb(out, b"create", coll),
        Command::Drop { coll } => put_verb(out, b"drop", coll),
        Command::EnsureIndex {
            coll,
            name,
            spec,
            unique,
        } => put_ensure_index(out, coll, name, spec.document(), *unique),
        Command::DropIndex { coll, name } => put_drop_index(out, coll, name),
    }
}

fn put_copy(out: &mut Vec<u8>, command: &Command) -> Result<(), NoMemory> {
    let copy = command.copy()?;
    put_command(out, &copy)
}

/// Appends a blank and a number.
fn put_behind(alloc: Global, out: &mut Vec<u8>, number: u32) -> Result<(), NoMemory> {
    out.push(b' ')?;
    put_number(alloc, out, number)
}

fn put_flush(alloc: Global, out: &mut Vec<u8>, line: u32, db: DbNo) -> Result<(), NoMemory> {
    put_number(alloc, out, line)?;
    put_word(out, b"!flush")?;
    put_behind(alloc, out, db.0)
}

fn put_step(alloc: Global, out: &mut Vec<u8>, line: u32, word: &[u8]) -> Result<(), NoMemory> {
    put_number(alloc, out, line)?;
    put_word(out, word)
}

/// Appends a line, a session and the number of a database.
fn put_place(
    alloc: Global,
    out: &mut Vec<u8>,
    line: u32,
    session: u32,
    db: u32,
) -> Result<(), NoMemory> {
    put_number(alloc, out, line)?;
    put_behind(alloc, out, session)?;
    put_behind(alloc, out, db)
}

fn put_action(alloc: Global, out: &mut Vec<u8>, action: &Action) -> Result<(), NoMemory> {
    match action {
        Action::Run {
            line,
            session,
            db,
            command,
            j,
        } => {
            put_place(alloc, out, *line, session.0, db.0)?;
            put_copy(out, command)?;
            put_flag(out, *j, b"j")
        }
        Action::Close { line } => put_step(alloc, out, *line, b"!close"),
        Action::Log { line } => put_step(alloc, out, *line, b"!log"),
        Action::Apply { line } => put_step(alloc, out, *line, b"!apply"),
        Action::Remap { line } => put_step(alloc, out, *line, b"!remap"),
        Action::Commit { line } => put_step(alloc, out, *line, b"!commit"),
        Action::Flush { line, db } => put_flush(alloc, out, *line, *db),
        Action::Sync { line } => put_step(alloc, out, *line, b"!sync"),
        Action::Lsn { line } => put_step(alloc, out, *line, b"!lsn"),
        Action::Trim { line } => put_step(alloc, out, *line, b"!trim"),
    }
}

/// Appends the actions, parted by bars: each with its line, and then its step, or the session, the number of the
/// database and the command.
pub fn put_actions(alloc: Global, out: &mut Vec<u8>, actions: &[Action]) -> Result<(), NoMemory> {
    for action in actions {
        if !out.is_empty() {
            put_word(out, b"| ")?;
        }
        put_action(alloc, out, action)?;
    }
    Ok(())
}
