//! The constant fields of a node's details.

ghost use Rattle.std.specs.Prelude.{◌≡◌, ◌≤◌, ◌==◌, ◌&&◌, not, ℕ, List, drop};
ghost use Rattle.std.specs.List.{list_all, list_any, prefix_len};
ghost use Rattle.mm_records.specs.Constants.{is_name, behind_dot, system_indexes, is_collection};
ghost use Rattle.mm_check.specs.CountQuestions.{is_index_count, is_spare, flag_is, is_uncapped, is_plain, others_right, constants_right};

use crate::numbers::{is_minus_one, is_pos};
use mm_frames::{Details, IndexPair, MAX_DOCS_UNCAPPED, PADDING};

// How many bytes stand before the first dot.
fn dot_at(name: &[u8]) -> usize
    ensures { result ≡ prefix_len (λ b. not (b == 46)) name.now }
{
    name.iter().take_while(|byte| **byte != b'.').count()
}

// What stands behind the first dot of a name.
fn behind_dot(name: &[u8]) -> &[u8]
    ensures { result.now ≡ behind_dot name.now }
{
    let at = dot_at(name);
    if name.len() <= at {
        return &name[name.len()..];
    }
    &name[at + 1..]
}

fn has_dollar(name: &[u8]) -> bool
    ensures { result ≡ list_any (λ b. b == 36) name.now }
{
    name.iter().any(|byte| *byte == b'$')
}

fn is_system_indexes(name: &[u8]) -> bool
    ensures { result ≡ is_name name.now system_indexes }
{
    name == b"system.indexes".as_slice()
}

// The name of a collection: neither of an index nor of the list of indexes.
pub(crate) fn is_collection(name: &[u8]) -> bool
    ensures { result ≡ is_collection name.now }
{
    let rest = behind_dot(name);
    if has_dollar(rest) {
        return false;
    }
    !is_system_indexes(rest)
}

// A number of indexes that a node may have.
fn is_index_count(collection: bool, n: i32) -> bool
    ensures { (name : List ℕ) → is_collection name ≡ collection → result ≡ is_index_count name n }
{
    0 <= n && n < 11 && (collection || n == 0)
}

fn is_spare(pair: &IndexPair) -> bool
    ensures { result ≡ is_spare pair.now }
{
    is_minus_one(pair.head.file) && is_minus_one(pair.info.file)
}

fn are_spare(pairs: &[IndexPair]) -> bool
    ensures { result ≡ list_all is_spare pairs.now }
{
    for i in 0..pairs.len() {
        if !is_spare(&pairs[i]) {
            return false;
        }
    }
    true
}

fn flag_is(collection: bool, flag: i32) -> bool
    ensures { (name : List ℕ) → is_collection name ≡ collection → result ≡ flag_is name flag }
{
    is_pos(flag, if collection { 1 } else { 0 })
}

fn is_uncapped(details: &Details) -> bool
    ensures { result ≡ is_uncapped details.now }
{
    is_pos(details.is_capped, 0)
        && details.max_docs_in_capped == MAX_DOCS_UNCAPPED
        && is_minus_one(details.cap_extent.file)
        && is_minus_one(details.cap_first_new_record.file)
}

fn is_plain(details: &Details) -> bool
    ensures { result ≡ is_plain details.now }
{
    details.data_file_version == 0
        && details.index_file_version == 0
        && details.multikey == 0
        && details.extra_offset == 0
        && is_pos(details.index_builds, 0)
}

// The pairs behind those of the indexes are of none.
fn rest_is_spare(details: &Details, n: usize) -> bool
    requires { n ≤ 10 }
    ensures { result ≡ list_all is_spare (drop n details.now.indexes) }
{
    are_spare(&details.indexes[n..])
}

// The flags are those of a collection or of none, and the rest is plain.
fn flags_right(collection: bool, details: &Details) -> bool
    ensures { (name : List ℕ) → is_collection name ≡ collection → result ≡ (flag_is name details.now.system_flags && (flag_is name details.now.user_flags && is_plain details.now)) }
{
    flag_is(collection, details.system_flags)
        && flag_is(collection, details.user_flags)
        && is_plain(details)
}

// The fields that don't count indexes.
fn others_right(collection: bool, details: &Details) -> bool
    ensures { (name : List ℕ) → is_collection name ≡ collection → result ≡ others_right name details.now }
{
    is_uncapped(details) && details.padding == PADDING && flags_right(collection, details)
}

/// The constant fields of the details of a node with this name are right.
pub(crate) fn constants_right(name: &[u8], details: &Details) -> bool
    ensures { result ≡ constants_right name.now details.now }
{
    let collection = is_collection(name);
    let n = details.n_indexes;
    if !is_index_count(collection, n) {
        return false;
    }
    rest_is_spare(details, n as usize) && others_right(collection, details)
}
