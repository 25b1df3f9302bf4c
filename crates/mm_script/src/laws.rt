//! Laws of the texts, each the contract of a function that does nothing.

ghost use Rattle.mm_script.specs.Examples.{WholeRun, StoppedRun};
ghost use Rattle.mm_script.specs.Render.{RepliesAreKnown, TextsTell};
ghost use Rattle.mm_script.specs.WellRead.{ScriptsAreWellRead};

/// A reply is known by its text and its command.
pub fn replies_are_known()
    ensures { RepliesAreKnown }
{}

/// Two runs of one script with one text ended their lines the same, and have
/// the same history: the text is the history.
pub fn texts_tell_histories()
    ensures { TextsTell }
{}

/// The actions of a script stand on rising lines, each for a session from 1 to
/// 8 and a database that there is, and each command is well formed.
pub fn scripts_are_well_read()
    ensures { ScriptsAreWellRead }
{}

/// The worked examples of specs/Examples.
pub fn worked_examples()
    ensures whole { WholeRun }
    ensures stopped { StoppedRun }
{}
