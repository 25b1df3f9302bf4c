//! Laws of the definitions, each the contract of a function that does nothing.

ghost use Rattle.mm_model.specs.Examples.{OneIdOfTwoTypes, UniqueIndex, IncPastEnds, AllOrNone};
ghost use Rattle.mm_model.specs.Laws.{RefusedKeeps, FindKeeps, OthersStay, IndexingKeepsDocuments, DatabasesStay, FindCounts, RemoveCounts, UpdateCounts, InsertedIsFound, RemoveAllLeavesNone, FoldsJoin, FoldsPassPrefixes, RoomStays, CreateIsFull};

/// A refused command keeps the database.
pub fn refusals_keep_the_database()
    ensures { RefusedKeeps }
{}

/// A find changes nothing.
pub fn finds_keep_the_database()
    ensures { FindKeeps }
{}

/// A collection that a command doesn't name is the same after it.
pub fn other_collections_stay()
    ensures { OthersStay }
{}

/// An index comes or goes without a change of any document.
pub fn indexing_keeps_documents()
    ensures { IndexingKeepsDocuments }
{}

/// Every command keeps a database one: documents in the order of different
/// `_id`s, `_id_` first among at most ten indexes, a key of each document for
/// each index, and no two equal keys in a unique one.
pub fn databases_stay_databases()
    ensures { DatabasesStay }
{}

/// The number of a find is that of the documents that its filter selects.
pub fn find_counts_what_matches()
    ensures { FindCounts }
{}

/// The number of a remove is that of the documents that its filter selects, at
/// most 1 with `one`.
pub fn remove_counts_what_matches()
    ensures { RemoveCounts }
{}

/// The number of an update is that of the documents that its filter selects, at
/// most 1 without `multi`.
pub fn update_counts_what_matches()
    ensures { UpdateCounts }
{}

/// A find by the `_id` of a document that was put in gives exactly that
/// document.
pub fn inserted_is_found()
    ensures { InsertedIsFound }
{}

/// A remove without conditions leaves no document.
pub fn remove_all_leaves_none()
    ensures { RemoveAllLeavesNone }
{}

/// The fold of a joined list of groups is the fold of the folds.
pub fn folds_join()
    ensures { FoldsJoin }
{}

/// A prefix of a history is by whole groups, and its fold is on the way to that
/// of the whole.
pub fn folds_pass_prefixes()
    ensures { FoldsPassPrefixes }
{}

/// The worked examples of specs/Examples.
pub fn worked_examples()
    ensures types { OneIdOfTwoTypes }
    ensures unique { UniqueIndex }
    ensures ends { IncPastEnds }
    ensures whole { AllOrNone }
{}

/// A database that has room for its names keeps it.
pub fn room_stays()
    ensures { RoomStays }
{}

/// A new collection takes two nodes, and is refused exactly where fewer are
/// free.
pub fn create_is_full()
    ensures { CreateIsFull }
{}
