//! Whether bytes are a key.

ghost use Rattle.std.specs.Prelude.{◌≡◌, ◌↔◌, IsTrue};
ghost use Rattle.mm_bson.specs.Tree.{Elements};
ghost use Rattle.mm_bson.specs.Spelling.{IsDocument, spelling};
ghost use Rattle.mm_keys.specs.Key.{AreNameless};

use mm_bson::{DocRef, Fields};

fn are_nameless(fields: Fields<'_>) -> bool
    ensures { IsTrue result ↔ AreNameless fields.entry }
{
    let mut rest = fields;
    'fields: while let Some(field) = rest.next() {
        if !field.name.as_bytes().is_empty() {
            return false;
        }
    }
    true
}

/// Whether the bytes are a document, all of them, in which no element has a
/// name, as in each key. It takes no memory.
pub fn is_key(bytes: &[u8]) -> bool
    ensures { IsTrue result ↔ ((es : Elements) × IsDocument es × (bytes.now ≡ spelling es) × AreNameless es) }
{
    match DocRef::parse(bytes) {
        Ok(document) => are_nameless(document.fields()),
        Err(_) => false,
    }
}
