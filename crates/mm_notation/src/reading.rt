//! Reading a document that begins at a place of a text.

ghost use Rattle.std.specs.Prelude.{◌≤◌, length, IfOk};
ghost use Rattle.std.specs.Str.{IsCharBoundary};
ghost use Rattle.mm_notation.specs.Answer.{IsFound, IsRefused, IfRefused};

use crate::fault::NotationFault;
use crate::objects::document;
use crate::stop::Stop;
use mm_bson::Doc;
use std::alloc::Global;

/// Reads the document that begins at a byte of the text, and the place behind
/// its last byte. A text has at most 268,435,456 bytes.
///
/// # Errors
/// `Notation` where no document begins there, with the least place such that
/// the text through the byte at this place begins no document; or with the
/// text's length where it ends too early. `NoMemory`.
pub fn read_doc(alloc: Global, text: &str, at: usize) -> Result<(Doc, usize), NotationFault>
    requires short { length text.now ≤ 0x1000_0000 }
    requires boundary { IsCharBoundary text.now at }
    // What is read is the document whose text begins there, and no other is.
    ensures found { IfOk result (λ x. IsFound text.now at x.0 x.1) }
    // A fault comes only where no document's text begins there. Its place is
    // the least: the text up to it begins a document, and the text through
    // the byte at it begins none.
    ensures refused { IfRefused result (λ place. IsRefused text.now at place) }
{
    match document(alloc, &text.as_bytes()[at..]) {
        Ok((found, after)) => Ok((found, text.len() - after.len())),
        Err(Stop::At(left)) => Err(NotationFault::Notation {
            place: text.len() - left.len(),
        }),
        Err(Stop::NoMemory) => Err(NotationFault::NoMemory),
    }
}
