//! Laws of the definitions, each the contract of a function that does nothing.

ghost use Rattle.std.specs.Prelude.{◌≡◌, ◌<◌, ℕ, List};
ghost use Rattle.mm_bson.specs.Tree.{Elements, depth};
ghost use Rattle.mm_bson.specs.Spelling.{AreElements};
ghost use Rattle.mm_notation.specs.Grammar.{IsDocumentText};
ghost use Rattle.mm_notation.specs.Written.{written, AllHoldBytes};

/// A text is that of at most one document.
pub fn texts_are_unique()
    ensures { (d e : Elements) (text : List ℕ) → IsDocumentText d text → IsDocumentText e text → d ≡ e }
{}

/// The written form of a document is one of its texts, so that it is read as
/// this document.
pub fn written_is_text()
    ensures { (d : Elements) → AreElements d → AllHoldBytes d → depth d < 100 → IsDocumentText d (written d) }
{}
