//! Laws of the documents of a namespace under the calls of its records, each the contract of a function that does nothing.

ghost use Rattle.mm_standing.specs.Records.{DocumentComes, DocumentGoes, DocumentIsRewritten};

/// The documents of a namespace follow its records: taking a place for a document's bytes adds it to what the namespace holds, freeing its
/// record takes it out, and a room that begins with another document puts that in its stead. What all other namespaces hold stays.
pub fn records_follow_documents()
    ensures comes { DocumentComes }
    ensures goes { DocumentGoes }
    ensures rewritten { DocumentIsRewritten }
{}
