// The views of the database, in which the documents of a script are stored, one draft a line.
ghost use Rattle.std.specs.Prelude.{◌≡◌, ◌+◌, ◌-◌, ◌<◌, ◌≤◌, ◌^◌, ℕ, List, [], ◌∷◌, ◌++◌, length, map, OnOk, IfOk, IsTrue};
ghost use Rattle.mm_bson.specs.Built.{IsBuilt};
ghost use Rattle.mm_bson.specs.Spelling.{spelling};
ghost use Rattle.mm_ranges.specs.Overlay.{bytes_at};
ghost use Rattle.mm_views.specs.State.{no_views, drafting_of};
ghost use Rattle.mm_main.specs.Contents.{AreBuilt};
ghost use Rattle.mm_main.specs.DataFile.{HasFileHeader, IsFile};
ghost use Rattle.mm_main.specs.Drafted.{drafted, private_file, HoldsUpTo, Keeps};
ghost use Rattle.mm_main.specs.Inserts.{IsInsert, AreInserts, doc_of as document_of, docs_of};
ghost use Rattle.mm_main.specs.Room.{file_len, extent_at, request, replies_of, stored};
ghost use Rattle.mm_main.specs.Storing.{IsStore, IsAnswered};

use crate::answers::{EXTENT_AT, FILE_LEN, FIRST_AT, Reply, request};
use crate::file::{Chain, FILE, insert, put_header};
use crate::script::doc_of;
use mm_base::NoMemory;
use mm_model::Action;
use mm_views::{Draft, Views};
use std::alloc::Global;

/// The views, and the chain of records in the one data file.
#[derive(Drop)]
pub struct Store {
    pub views: Views,
    pub chain: Chain,
}

/// The data file with what was stored, and the reply to each document.
#[derive(Drop)]
pub struct Filed {
    pub file: Vec<u8>,
    pub replies: Vec<Reply>,
}

// Makes the data file in a draft.
fn make_file(draft: &mut Draft) -> Result<(), NoMemory>
    requires new { draft.old ≡ drafting_of no_views }
    ensures header { OnOk result (HasFileHeader (drafted draft.new) extent_at) }
    ensures size { OnOk result (length (drafted draft.new) ≡ file_len) }
    ensures views { draft.new.views ≡ no_views }
{
    draft.add_file(FILE, FILE_LEN as u32)?;
    put_header(draft, EXTENT_AT)
}

// The same, and what the draft needs to be adopted.
fn make_ready(draft: &mut Draft) -> Result<(), NoMemory>
    requires new { draft.old ≡ drafting_of no_views }
    ensures header { OnOk result (HasFileHeader (drafted draft.new) extent_at) }
    ensures size { OnOk result (length (drafted draft.new) ≡ file_len) }
    ensures reserved { OnOk result (IsTrue draft.new.is_reserved) }
    ensures views { draft.new.views ≡ no_views }
{
    make_file(draft)?;
    draft.reserve()
}

// The views with a data file that has its header alone.
fn new_store(alloc: Global) -> Result<Store, NoMemory>
    ensures { (collection : List ℕ) → IfOk result (λ store. IsStore collection [] store) }
{
    let mut draft = Views::new(alloc).draft();
    make_ready(&mut draft)?;
    Ok(Store {
        views: draft.adopt(),
        chain: Chain {
            end: FIRST_AT,
            last: None,
        },
    })
}

// Inserts a payload that has room, and takes what the draft needs to be adopted.
fn insert_ready(
    draft: &mut Draft,
    collection: &[u8],
    chain: Chain,
    payload: &[u8],
) -> Result<Chain, NoMemory>
    requires size { length (drafted draft.old) ≡ file_len }
    requires name { length collection.now ≤ 60 }
    requires payload { length payload.now < 2 ^ 63 }
    requires room { request (length payload.now) ≤ file_len - chain.end }
    requires stands { (payloads : List (List ℕ)) × HoldsUpTo collection.now payloads (drafted draft.old) chain.end chain.last }
    ensures stands { (payloads : List (List ℕ)) → HoldsUpTo collection.now payloads (drafted draft.old) chain.end chain.last
        → IfOk result (λ next. HoldsUpTo collection.now (payloads ++ payload.now ∷ []) (drafted draft.new) next.end next.last) }
    ensures reserved { OnOk result (IsTrue draft.new.is_reserved) }
    ensures keeps { Keeps draft.old draft.new }
{
    let next = insert(draft, collection, chain, payload)?;
    draft.reserve()?;
    Ok(next)
}

// Stores a payload, if it has room. Without room its draft is given up.
fn insert_line(store: Store, collection: &[u8], payload: &[u8]) -> Result<(Store, Reply), NoMemory>
    requires name { length collection.now ≤ 60 }
    requires payload { length payload.now < 2 ^ 63 }
    requires store { (payloads : List (List ℕ)) × IsStore collection.now payloads store }
    ensures { (payloads : List (List ℕ)) → IsStore collection.now payloads store → IfOk result (λ done. IsAnswered collection.now payloads payload.now done.0 done.1) }
{
    let Store { views, chain } = store;
    let mut draft = views.draft();
    if FILE_LEN - chain.end < request(payload.len()) {
        let views = draft.give_up();
        return Ok((Store { views, chain }, Reply::NoSpace));
    }
    let chain = insert_ready(&mut draft, collection, chain, payload)?;
    let views = draft.adopt();
    Ok((Store { views, chain }, Reply::Done))
}

// Stores the document that an action inserts, if it has room.
fn insert_of(store: Store, collection: &[u8], action: &Action) -> Result<(Store, Reply), NoMemory>
    requires name { length collection.now ≤ 60 }
    requires insert { IsInsert collection.now action.now }
    requires store { (payloads : List (List ℕ)) × IsStore collection.now payloads store }
    ensures answered { (payloads : List (List ℕ)) → IsStore collection.now payloads store
        → IfOk result (λ done. IsAnswered collection.now payloads (spelling (document_of action.now)) done.0 done.1) }
    ensures built { IfOk result (λ _. IsBuilt (document_of action.now)) }
{
    insert_line(store, collection, doc_of(action).bytes())
}

// Stores the documents that the actions insert, in their order, and answers each.
fn insert_all(
    alloc: Global,
    collection: &[u8],
    actions: &[Action],
) -> Result<(Store, Vec<Reply>), NoMemory>
    requires name { length collection.now ≤ 60 }
    requires inserts { AreInserts collection.now actions.now }
    ensures replies { IfOk result (λ done. done.1.items ≡ replies_of (docs_of actions.now)) }
    ensures store { IfOk result (λ done. IsStore collection.now (map spelling (stored (docs_of actions.now))) done.0) }
    ensures built { IfOk result (λ _. AreBuilt (docs_of actions.now)) }
{
    let mut store = new_store(alloc)?;
    let mut replies = Vec::new(alloc);
    for action in actions {
        let (next, reply) = insert_of(store, collection, action)?;
        store = next;
        replies.push(reply)?;
    }
    Ok((store, replies))
}

// Closes what is opened, and lays it over the shared image. No journal takes the part yet.
fn settle(views: &mut Views) -> Result<(), NoMemory>
    requires { views.old.closed ≡ [] }
    ensures { OnOk result (views.new.shared ≡ views.old.private) }
{
    views.ready()?;
    let _part = views.close();
    views.apply();
    Ok(())
}

// The shared bytes of the data file.
fn shared_file(alloc: Global, views: &Views) -> Result<Vec<u8>, NoMemory>
    requires { length (bytes_at views.now.shared 0) ≡ file_len }
    ensures { IfOk result (λ file. file.items ≡ bytes_at views.now.shared 0) }
{
    let mut file = Vec::with_capacity(alloc, FILE_LEN)?;
    'pieces: while file.len() < FILE_LEN {
        file.extend_from_slice(views.shared_piece(FILE, file.len() as u32))?;
    }
    Ok(file)
}

// The bytes of the data file, once what is opened is settled.
fn settled_file(alloc: Global, views: &mut Views) -> Result<Vec<u8>, NoMemory>
    requires closed { views.old.closed ≡ [] }
    requires size { length (private_file views.old) ≡ file_len }
    ensures { IfOk result (λ file. file.items ≡ private_file views.old) }
{
    settle(views)?;
    shared_file(alloc, views)
}

/// Stores the documents that the actions insert in a data file of the collection, and answers each.
pub fn file_docs(alloc: Global, collection: &[u8], actions: &[Action]) -> Result<Filed, NoMemory>
    requires name { length collection.now ≤ 60 }
    requires inserts { AreInserts collection.now actions.now }
    ensures replies { IfOk result (λ done. done.replies.items ≡ replies_of (docs_of actions.now)) }
    ensures written { IfOk result (λ done. IsFile collection.now (map spelling (stored (docs_of actions.now))) done.file.items) }
    ensures built { IfOk result (λ _. AreBuilt (docs_of actions.now)) }
{
    let (mut store, replies) = insert_all(alloc, collection, actions)?;
    let file = settled_file(alloc, &mut store.views)?;
    Ok(Filed { file, replies })
}
