//! The trait of probes.

ghost use Rattle.std.specs.Prelude.{◌≡◌, ◌++◌, ℕ, List, OnOk, OnErr};
ghost use Rattle.mm_model.specs.declared.action.Entry.{Entry as Told};

use mm_base::NoMemory;
use mm_model::Entry;

/// What is told the entries of one database, one after another. A probe that is handed in has been told nothing: its state is `start`.
pub trait Probe: Drop {
    /// What it knows.
    ghost state: { Self → List ℕ };

    /// What it knows before it is told anything.
    ghost start: { Self → List ℕ };

    /// Its rule: what it knows once it is told an entry.
    ghost next: { Self → List ℕ → Told → List ℕ };

    /// Its report on what it knows.
    ghost shown: { Self → List ℕ → List ℕ };

    /// Tells it an entry. It takes no memory.
    fn note(&mut self, entry: &Entry)
        ensures state { state self.new ≡ next self.old (state self.old) entry.now }
        ensures start { start self.new ≡ start self.old }
        ensures next { next self.new ≡ next self.old }
        ensures shown { shown self.new ≡ shown self.old };

    /// Appends its report, without a line end.
    fn report(&self, out: &mut Vec<u8>) -> Result<(), NoMemory>
        ensures ok { OnOk result (out.new.items ≡ out.old.items ++ shown self.now (state self.now)) }
        ensures err { OnErr result (out.new.items ≡ out.old.items) };
}
