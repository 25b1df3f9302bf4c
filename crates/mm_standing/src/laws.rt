//! Laws of files that stand for a database, each the contract of a function that does nothing.

ghost use Rattle.mm_standing.specs.Laws.{OneDatabase, OneMap, StandsForOne, NewFilesStand, NodesAreCounted, OthersStay};

/// The files of a database have one database alone: two that they have hold the same under each collection's name, so they are one map.
/// Files that stand for two stand for one, also where no file is there.
pub fn one_database()
    ensures each { OneDatabase }
    ensures map { OneMap }
    ensures stands { StandsForOne }
{}

/// The files of a new database, as they are made, have the database without collections.
pub fn new_files_stand()
    ensures { NewFilesStand }
{}

/// A database takes as many nodes of its files as `nodes_in` says, and the others are free.
pub fn nodes_are_counted()
    ensures { NodesAreCounted }
{}

/// A change of the records of one collection and of its indexes leaves every other collection as it is, its indexes too: where the records of all
/// other namespaces stay, those of the list of indexes too, and all nodes but the collection's keep what records, extents and deleted lists don't
/// change of details.
pub fn others_stay()
    ensures { OthersStay }
{}
