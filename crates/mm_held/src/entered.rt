//! An entry, told to its session, to the probe and to the log.

ghost use Rattle.std.specs.Prelude.{◌≡◌, ℕ, ◌+◌, ◌<◌, ◌++◌, ◌∷◌, [], List, Some, length, map, slice_get, vec_capacity};
ghost use Rattle.mm_tie.specs.Ends.{taken, taker_ring, taker_room, giver_ring, giver_room};
ghost use Rattle.mm_held.specs.declared.pass.Mark.{Mark as Told};
ghost use Rattle.mm_held.specs.Log.{IsAboveLast, AllGiven, mark};
ghost use Rattle.mm_held.specs.Held.{IsToldMore};

use crate::pass::{Mark, Pass};
use mm_model::Entry;
use mm_probe::Probe;
use mm_tie::{Giver, agree, hand_over};

/// Gives a session a mark, and answers it.
fn hand(givers: &mut Vec<Giver<Mark>>, pass: &mut Pass, mark: Mark) -> Mark
    requires seat { slice_get (map giver_ring givers.old.items) pass.old.place ≡ Some (taker_ring pass.old.taker) }
    requires room { (room : ℕ) × ((slice_get (map giver_room givers.old.items) pass.old.place ≡ Some room) × (length (taken pass.old.taker) < room)) }
    requires session { mark.entry.session ≡ pass.old.place + 1 }
    requires line { IsAboveLast mark.entry.line (taken pass.old.taker) }
    ensures mark { result ≡ mark }
    ensures given { (marks : List Told) → AllGiven givers.old.items marks → AllGiven givers.new.items (marks ++ mark ∷ []) }
    ensures taken { taken pass.new.taker ≡ taken pass.old.taker ++ mark ∷ [] }
    ensures sessions { length givers.new.items ≡ length givers.old.items }
    ensures rings { map giver_ring givers.new.items ≡ map giver_ring givers.old.items }
    ensures rooms { map giver_room givers.new.items ≡ map giver_room givers.old.items }
    ensures pass { (pass.new.place ≡ pass.old.place) × (taker_ring pass.new.taker ≡ taker_ring pass.old.taker) × (taker_room pass.new.taker ≡ taker_room pass.old.taker) }
{
    let giver = &mut givers[pass.place];
    agree(giver, &mut pass.taker);
    hand_over(giver, &mut pass.taker, mark)
}

/// Tells the probe of an entry, if there is one.
fn tell<P: Probe>(probe: &mut Option<P>, entry: &Entry)
    ensures { IsToldMore P.Probe entry.now probe.old probe.new }
{
    if let Some(probe) = probe {
        probe.note(entry);
    }
}

/// Gives a session the mark of its entry, tells the probe once, and puts the entry at the end of the log, for which there is space. It takes no
/// memory.
pub fn enter<P: Probe>(
    log: &mut Vec<Entry>,
    givers: &mut Vec<Giver<Mark>>,
    probe: &mut Option<P>,
    pass: &mut Pass,
    section: u64,
    entry: Entry,
)
    requires space { length log.old.items < vec_capacity log.old }
    requires seat { slice_get (map giver_ring givers.old.items) pass.old.place ≡ Some (taker_ring pass.old.taker) }
    requires room { (room : ℕ) × ((slice_get (map giver_room givers.old.items) pass.old.place ≡ Some room) × (length (taken pass.old.taker) < room)) }
    requires session { entry.session ≡ pass.old.place + 1 }
    requires line { IsAboveLast entry.line (taken pass.old.taker) }
    ensures log { log.new.items ≡ log.old.items ++ entry ∷ [] }
    ensures given { (marks : List Told) → AllGiven givers.old.items marks → AllGiven givers.new.items (marks ++ mark (length log.old.items) section entry ∷ []) }
    ensures told { IsToldMore P.Probe entry probe.old probe.new }
    ensures taken { taken pass.new.taker ≡ taken pass.old.taker ++ mark (length log.old.items) section entry ∷ [] }
    ensures sessions { length givers.new.items ≡ length givers.old.items }
    ensures rings { map giver_ring givers.new.items ≡ map giver_ring givers.old.items }
    ensures rooms { map giver_room givers.new.items ≡ map giver_room givers.old.items }
    ensures pass { (pass.new.place ≡ pass.old.place) × (taker_ring pass.new.taker ≡ taker_ring pass.old.taker) × (taker_room pass.new.taker ≡ taker_room pass.old.taker) }
{
    let mark = Mark {
        place: log.len() as u64,
        section,
        entry,
    };
    let mark = hand(givers, pass, mark);
    tell(probe, &mark.entry);
    log.push_reserved(mark.entry);
}
