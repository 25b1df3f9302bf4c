//! Laws of commands and of scripts, each the contract of a function that does nothing.

ghost use Rattle.mm_laws.specs.Answering.{EnsureCounts, DropCounts, TooLargeComesFirst};
ghost use Rattle.mm_laws.specs.Changing.{IncPuts, PushMakesArray, UnsetLeaves, NarrowStays, NarrowWidens, WideStays, OperandWidens};
ghost use Rattle.mm_laws.specs.Conditions.{FieldsJoin, InIsSomeEquality, ExistsTells, AbsenceTells};
ghost use Rattle.mm_laws.specs.Examples.{MadeIdInFront, MadeIdFound, NoType, OneMore, NoText, OtherText};
ghost use Rattle.mm_laws.specs.Fields.{FirstBytesDecide, TypesDecide, DepthsDecide, SizesDecide, NamesDecide};
ghost use Rattle.mm_laws.specs.Finding.{FindsWhatMatches, FindsById, FindsByKey};
ghost use Rattle.mm_laws.specs.Made.{MadeIdsAreFound};
ghost use Rattle.mm_laws.specs.Nodes.{FullByCount, RoomComesBack};
ghost use Rattle.mm_laws.specs.Refusing.{EachIsJudged, NoneIsBoth, ScriptsAreOne, RefusalsAreOne};

/// A command is refused for want of nodes exactly where it would leave a
/// database that takes more of them than there are.
pub fn nodes_are_counted()
    ensures { FullByCount }
{}

/// Behind a dropped collection there is room for a new one.
pub fn room_comes_back()
    ensures { RoomComesBack }
{}

/// A find gives each document that matches, once.
pub fn finds_give_what_matches()
    ensures { FindsWhatMatches }
{}

/// A find gives documents in the order of `_id`, and by an index in the order
/// of its keys and then of `_id`.
pub fn finds_are_sorted()
    ensures id { FindsById }
    ensures key { FindsByKey }
{}

/// The number of an `ensureIndex` is how many indexes came, that of a
/// `dropIndex` how many went.
pub fn indexing_counts_indexes()
    ensures ensure { EnsureCounts }
    ensures drop { DropCounts }
{}

/// A document that is too large is refused as such before its `_id` and its
/// keys are looked at.
pub fn too_large_comes_first()
    ensures { TooLargeComesFirst }
{}

/// A document that is put in without `_id` is found by the made one, and
/// nothing else is.
pub fn made_ids_are_found()
    ensures { MadeIdsAreFound }
{}

/// The worked examples of specs/Examples.
pub fn worked_examples()
    ensures front { MadeIdInFront }
    ensures found { MadeIdFound }
{}

/// Whatever the bytes are, they are a script, which asks for one list of
/// actions, or they are refused at one line and for one cause.
pub fn bytes_are_judged()
    ensures each { EachIsJudged }
    ensures apart { NoneIsBoth }
    ensures script { ScriptsAreOne }
    ensures refusal { RefusalsAreOne }
{}

/// Of two inputs of as many bytes that agree up to the end of the field at
/// which the first fault of the one lies, the other has the same fault.
pub fn first_bytes_decide()
    ensures { FirstBytesDecide }
{}

/// Where the fault alone tells the end of its field: behind the byte that is no
/// type or no boolean, behind a length, behind the 00 of a name.
pub fn faults_tell_ends()
    ensures kind { TypesDecide }
    ensures depth { DepthsDecide }
    ensures size { SizesDecide }
    ensures name { NamesDecide }
{}

/// The worked faults of specs/Examples.
pub fn worked_faults()
    ensures kind { NoType }
    ensures longer { OneMore }
    ensures text { NoText }
    ensures other { OtherText }
{}

/// Where a path leads to nothing, `$inc` puts its number, `$push` makes an
/// array of its value, and `$unset` leaves the document as it is.
pub fn nothing_is_there()
    ensures inc { IncPuts }
    ensures push { PushMakesArray }
    ensures unset { UnsetLeaves }
{}

/// A sum of two int32 is an int32 where that holds it; any other is an int64.
pub fn inc_keeps_widths()
    ensures narrow { NarrowStays }
    ensures wider { NarrowWidens }
    ensures wide { WideStays }
    ensures operand { OperandWidens }
{}

/// A filter's fields all have to match, in whatever order they stand.
pub fn conditions_join()
    ensures { FieldsJoin }
{}

/// `$in` is equality to some of its values, and `$exists` tells whether its path
/// leads to a value.
pub fn operators_tell()
    ensures some { InIsSomeEquality }
    ensures there { ExistsTells }
    ensures absent { AbsenceTells }
{}
