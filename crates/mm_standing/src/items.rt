//! The pairs of an index follow the documents of its collection.

ghost use Rattle.mm_standing.specs.Items.{LaidAreLow, OnceApart, ItemsCome, ItemsGo, ItemsAreSorted, ItemsLack, KeysAreKeys, KeysAreTaken};

/// A document more in a list is one pair more in its place, and a document less that pair less; the pairs of documents at different places are
/// in the order of the index, and a document at another place has a pair that isn't among theirs. It is said of places that a data file may have,
/// as those of live records are. A pair with a document's key is there exactly where one of the documents has the same key.
pub fn pairs_follow_documents()
    ensures low { LaidAreLow }
    ensures apart { OnceApart }
    ensures come { ItemsCome }
    ensures go { ItemsGo }
    ensures sorted { ItemsAreSorted }
    ensures lack { ItemsLack }
    ensures keys { KeysAreKeys }
    ensures taken { KeysAreTaken }
{}
