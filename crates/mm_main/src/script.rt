// A script of inserts into one collection.
ghost use Rattle.std.specs.Prelude.{◌≡◌, ℕ, List, codes, Some, None, IfOk, IfSome, IfNone, if◌then◌else◌};
ghost use Rattle.std.specs.Str.{bytes_eq};
ghost use Rattle.mm_script.specs.Render.{line_of as number_of};
ghost use Rattle.mm_script.specs.Script.{IfLine};
ghost use Rattle.mm_main.specs.Inserts.{IsInsert, AreInserts, IsFirstUnplayed, unplayed as unplayed_of, doc_of as document_of, collection_in as first_collection};
ghost use Rattle.mm_main.specs.Script.{IsPlayed, Refuses};

use mm_base::Name;
use mm_bson::Doc;
use mm_model::{Action, Command};
use mm_script::{LineWhat, Script, ScriptFault};
use std::alloc::Global;

/// The stamp of made `_id`s, in seconds.
const STAMP: u32 = 1_400_000_000;

// The name of the one database.
fn database() -> Name
    ensures { result ≡ codes "test" }
{
    match Name::new(b"test") {
        Some(name) => name,
        None => unreachable!(),
    }
}

/// The line on which an action stands.
pub fn line_of(action: &Action) -> u32
    ensures { result ≡ number_of action.now }
{
    match action {
        Action::Run { line, .. }
        | Action::Close { line }
        | Action::Log { line }
        | Action::Apply { line }
        | Action::Remap { line }
        | Action::Commit { line }
        | Action::Flush { line, .. }
        | Action::Sync { line }
        | Action::Lsn { line }
        | Action::Trim { line } => *line,
    }
}

/// The document that an action inserts.
pub fn doc_of(action: &Action) -> &Doc
    requires { (collection : List ℕ) × IsInsert collection action.now }
    ensures { result.now ≡ document_of action.now }
{
    match action {
        Action::Run {
            command: Command::Insert { doc, .. },
            ..
        } => doc,
        _ => unreachable!(),
    }
}

/// The collection into which the first action inserts.
pub fn collection_in(actions: &[Action]) -> &[u8]
    ensures { result.now ≡ first_collection actions.now }
{
    match actions {
        [
            Action::Run {
                command: Command::Insert { coll, .. },
                ..
            },
            ..
        ] => coll.bytes(),
        _ => &[],
    }
}

// What of an insert isn't played: another collection, or a final `j`.
fn unplayed_insert(collection: &[u8], coll: &Name, j: bool) -> Option<LineWhat>
    ensures { result ≡ (if bytes_eq coll.now collection.now then (if j then Some LineWhat.Word else None) else Some LineWhat.Verb) }
{
    if coll.bytes() != collection {
        return Some(LineWhat::Verb);
    }
    if j {
        return Some(LineWhat::Word);
    }
    None
}

// What of an action isn't played.
fn unplayed(collection: &[u8], action: &Action) -> Option<LineWhat>
    ensures { result ≡ unplayed_of collection.now action.now }
{
    match action {
        Action::Run {
            command: Command::Insert { coll, .. },
            j,
            ..
        } => unplayed_insert(collection, coll, *j),
        Action::Run { .. } => Some(LineWhat::Verb),
        _ => Some(LineWhat::Step),
    }
}

// The line of the first action that isn't played, and what of it isn't.
fn first_unplayed(actions: &[Action]) -> Option<(u32, LineWhat)>
    ensures some { IfSome result (λ found. IsFirstUnplayed (first_collection actions.now) found.0 found.1 actions.now) }
    ensures none { IfNone result (AreInserts (first_collection actions.now) actions.now) }
{
    let collection = collection_in(actions);
    for action in actions {
        if let Some(what) = unplayed(collection, action) {
            return Some((line_of(action), what));
        }
    }
    None
}

/// Reads a script whose lines all insert into one collection.
pub fn read_script(alloc: Global, bytes: &[u8]) -> Result<Script, ScriptFault>
    ensures script { IfOk result (λ script. IsPlayed script bytes.now) }
    ensures refused { IfLine result (λ number what. Refuses number what bytes.now) }
{
    let script = match Script::read(alloc, bytes, &[database()], STAMP, false) {
        Ok(script) => script,
        Err(fault) => return Err(fault),
    };
    match first_unplayed(script.actions()) {
        None => Ok(script),
        Some((number, what)) => Err(ScriptFault::Line { number, what }),
    }
}
