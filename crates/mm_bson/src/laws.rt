//! Laws of the definitions, each the contract of a function that does nothing.

ghost use Rattle.std.specs.Prelude.{◌≡◌};
ghost use Rattle.mm_bson.specs.Tree.{Elements, Values};
ghost use Rattle.mm_bson.specs.Named.{named, unnamed};
ghost use Rattle.mm_bson.specs.Spelling.{spelling, array_spelling, IsDocument};

/// Two documents of the same bytes are one.
pub fn spellings_are_unique()
    ensures { (d e : Elements) → IsDocument d → IsDocument e → spelling d ≡ spelling e → d ≡ e }
{}

/// An array is spelled as the document of its values under "0", "1", .. in
/// order, which gives them back.
pub fn arrays_are_documents()
    ensures spelled { (vs : Values) → array_spelling vs ≡ spelling (named 0 vs) }
    ensures back { (vs : Values) → unnamed (named 0 vs) ≡ vs }
{}
