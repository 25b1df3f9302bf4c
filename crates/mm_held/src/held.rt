//! The held database.

ghost use Rattle.std.specs.Prelude.{◌≡◌, ℕ, ◌+◌, ◌<◌, ◌≤◌, ◌^◌, ◌++◌, ◌∷◌, [], length, map, sum, slice_index, true, IfOk, IfErr, OnOk, OnErr};
ghost use Rattle.mm_views.specs.State.{weight_in};
ghost use Rattle.mm_tie.specs.Ends.{taken, taker_ring, taker_room};
ghost use Rattle.mm_held.specs.Meaning.{Stored};
ghost use Rattle.mm_held.specs.Steps.{IsStep, IsCause};
ghost use Rattle.mm_held.specs.Images.{IsApplied, last_up_to};
ghost use Rattle.mm_held.specs.Log.{IsAboveLast, LinesRise, mark, marks_of};
ghost use Rattle.mm_held.specs.Loaded.{StandsIfAny};
ghost use Rattle.mm_held.specs.Held.{IsStarted, IsTold, AreNewPasses, IsHeld, IsSeated, HasRoom, IsEntered, Closes, entry, section_of, all_marks, log_of};

use crate::engine::Engine;
use crate::entered::enter;
use crate::fault::Refused;
use crate::images::Images;
use crate::pass::{Mark, Pass};
use crate::seats::seats;
use mm_base::{DbNo, NoMemory};
use mm_model::{Command, Entry, Reply};
use mm_probe::Probe;
use mm_ranges::Closed;
use mm_tie::{Feed, Giver, Origin, agree};
use mm_views::Views;
use std::marker::Model;

/// One database with its log, its images and its probe, and the ends by which it tells its sessions and gives its items.
#[derive(Drop)]
pub struct Held<E: Engine, P: Probe> {
    engine: E,
    probe: Option<P>,
    images: Images,
    log: Vec<Entry>,
    // how many entries each closed group has, and how many these are in all
    counts: Vec<u64>,
    closed: usize,
    // of each session, counted from 1
    givers: Vec<Giver<Mark>>,
}

impl<E: Engine, P: Probe> Model for Held<E, P> {
    ghost use Rattle.std.specs.Prelude.{vec_capacity};
    ghost use Rattle.mm_held.specs.Held.{HeldView, IsSound, held_view};
    ghost use Rattle.mm_held.specs.Codes.{held_code};

    ghost Value = { HeldView E P };

    ghost coded = { held_code E.code P.code };

    ghost view = { λ h. held_view h.engine h.probe h.images h.counts.items h.log.items h.givers.items };

    ghost invariant = { λ h. IsSound (E.means h.engine) P.Probe h.engine h.probe h.images h.counts.items h.log.items h.givers.items h.closed (vec_capacity h.counts) };
}

/// A reply, and the number of the section that its group will have.
#[derive(Drop)]
pub struct Done {
    pub reply: Reply,
    pub section: u64,
}

/// What is left of a database in the end.
#[derive(Drop)]
pub struct Ended<P: Probe> {
    pub log: Vec<Entry>,
    /// How many entries each closed group has.
    pub groups: Vec<u64>,
    pub probe: Option<P>,
}

impl<E: Engine, P: Probe> Held<E, P> {
    /// Begins with loaded views, with a pass for each session and the feed of its items. A database without a file is set up by the engine.
    /// `next` is the section of the first group; each room is the most entries of its session, and `groups` the most that may be closed.
    pub fn start(
        engine: E,
        views: Views,
        _db: DbNo,
        next: u64,
        rooms: Vec<u32>,
        groups: u32,
        probe: Option<P>,
    ) -> Result<(Held<E, P>, Vec<Pass>, Feed), NoMemory>
        requires made { views.made ≡ [] }
        requires opened { views.opened ≡ [] }
        requires closed { views.closed ≡ [] }
        requires stands { StandsIfAny (E.means engine) views.private }
        requires next { 1 ≤ next }
        requires last { next + groups < 2 ^ 64 }
        requires some_room { (i : ℕ) → i < length rooms.items → 1 ≤ slice_index rooms.items i }
        requires all_rooms { sum rooms.items < 2 ^ 32 }
        requires untold { IsTold P.Probe [] probe }
        ensures started { IfOk result (λ r. IsStarted (E.means engine) engine probe views next rooms.items groups r.0) }
        ensures fact { IfOk result (λ r. IsHeld (E.means engine) P.Probe r.0) }
        ensures passes { IfOk result (λ r. AreNewPasses r.0 r.1.items) }
        ensures feed { IfOk result (λ r. (taken r.2 ≡ r.0.images.given) × (taker_ring r.2 ≡ r.0.images.ring) × (taker_room r.2 ≡ r.0.images.most)) }
    {
        let alloc = *rooms.allocator();
        let (images, feed) = Images::begin(&engine, alloc, views, next - 1, groups as usize + 1)?;
        let (givers, passes) = seats(alloc, &rooms)?;
        let counts = Vec::with_capacity(alloc, groups as usize)?;
        let held = Held {
            engine,
            probe,
            images,
            log: Vec::new(alloc),
            counts,
            closed: 0,
            givers,
        };
        Ok((held, passes, feed))
    }

    /// Carries a command of a session out. The log has one entry more, the session one mark, and the probe is told once; what the command
    /// changes is opened, and a refusal of the command changes no view. A step that isn't taken leaves all as it was.
    pub fn step(&mut self, pass: &mut Pass, line: u32, command: &Command) -> Result<Done, Refused>
        requires seat { IsSeated self.old pass.old }
        requires room { HasRoom self.old pass.old }
        requires line { IsAboveLast line (taken pass.old.taker) }
        ensures step { IfOk result (λ done. (db : Stored) → (E.means self.old.engine).stands self.old.images.views.private db
            → IsStep (E.means self.old.engine) db command.now self.old.images.views self.new.images.views done.reply) }
        ensures entered { IfOk result (λ done. IsEntered P.Probe
            (entry pass.old.place line command.now done.reply) self.old self.new) }
        ensures section { IfOk result (λ done. done.section ≡ section_of self.old) }
        ensures marked { IfOk result (λ done. taken pass.new.taker
            ≡ taken pass.old.taker ++ mark (length (log_of self.old)) done.section (entry pass.old.place line command.now done.reply) ∷ []) }
        ensures pass { (pass.new.place ≡ pass.old.place) × (taker_ring pass.new.taker ≡ taker_ring pass.old.taker) × (taker_room pass.new.taker ≡ taker_room pass.old.taker) }
        ensures full { IfErr result (λ refused. (db : Stored) → (E.means self.old.engine).stands self.old.images.views.private db
            → IsCause (E.means self.old.engine) db command.now self.old.images.views.private (weight_in self.old.images.views.made self.old.images.views.opened) refused) }
        ensures err { OnErr result ((self.new ≡ self.old) × (taken pass.new.taker ≡ taken pass.old.taker)) }
    {
        self.log.reserve(1)?;
        let kept = command.copy()?;
        let answer = self.images.step(&self.engine, command)?;
        let section = self.images.last() + 1;
        let entry = Entry {
            session: pass.place as u32 + 1,
            line,
            command: kept,
            reply: answer.kept,
        };
        enter(
            &mut self.log,
            &mut self.givers,
            &mut self.probe,
            pass,
            section,
            entry,
        );
        Ok(Done {
            reply: answer.reply,
            section,
        })
    }

    /// Takes the memory for a close.
    pub fn ready(&mut self) -> Result<(), NoMemory>
        ensures ok { OnOk result (self.new ≡ record self.old { images = record self.old.images { views = record self.old.images.views { is_ready = true } } }) }
        ensures err { OnErr result (self.new ≡ self.old) }
    {
        self.images.ready()
    }

    /// The marks that were given to this session are those of its pass, and their lines rise. Nothing changes, and it takes no memory.
    pub fn agree_pass(&mut self, pass: &mut Pass)
        requires { IsSeated self.old pass.old }
        ensures agree { taken pass.old.taker ≡ marks_of (pass.old.place + 1) (all_marks self.old) }
        ensures rise { LinesRise (taken pass.old.taker) }
        ensures same { self.new ≡ self.old }
        ensures taken { taken pass.new.taker ≡ taken pass.old.taker }
        ensures pass { (pass.new.place ≡ pass.old.place) × (taker_ring pass.new.taker ≡ taker_ring pass.old.taker) × (taker_room pass.new.taker ≡ taker_room pass.old.taker) }
    {
        agree(&mut self.givers[pass.place], &mut pass.taker);
    }

    /// Applies the closed parts of sections up to a number. It takes no memory.
    pub fn apply(&mut self, upto: u64)
        ensures applied { IsApplied self.old.images (last_up_to self.old.images upto) self.new.images }
        ensures same { self.new ≡ record self.old { images = self.new.images } }
    {
        self.images.apply(upto);
    }

    /// Gives memory back that holds the same in both images. No byte changes, and it takes no memory.
    pub fn remap(&mut self)
        ensures { self.new ≡ self.old }
    {
        self.images.remap();
    }

    /// The section of the last closed group, or that of item 0. It takes no memory.
    pub fn closed(&self) -> u64
        ensures { result ≡ self.now.images.first + length self.now.groups }
    {
        self.images.last()
    }

    /// How many entries the opened group has. It takes no memory.
    pub fn waiting(&self) -> u64
        ensures { result ≡ length self.now.waiting }
    {
        (self.log.len() - self.closed) as u64
    }

    /// The log, and what is true of it. It takes no memory.
    pub fn log(&self) -> &[Entry]
        ensures log { result.now ≡ log_of self.now }
        ensures fact { IsHeld (E.means self.now.engine) P.Probe self.now }
    {
        self.log.as_slice()
    }

    /// Ends the database: its log, how many entries each closed group has, and its probe. It takes no memory.
    pub fn into_end(self) -> Ended<P>
        ensures log { result.log.items ≡ log_of self }
        ensures groups { result.groups.items ≡ map length self.groups }
        ensures probe { result.probe ≡ self.probe }
        ensures fact { IsHeld (E.means self.engine) P.Probe self }
    {
        Ended {
            log: self.log,
            groups: self.counts,
            probe: self.probe,
        }
    }
}

impl<E: Engine, P: Probe> Origin for Held<E, P> {
    ghost given = { λ h. h.images.given };

    ghost most = { λ h. h.images.most };

    ghost own_ring = { λ h. h.images.ring };

    ghost is_ready = { λ h. h.images.views.is_ready };

    ghost applied_to = { λ h. h.images.applied };

    ghost viewed = { λ h. h.images.views };

    ghost closes = { λ old new. Closes old new };

    fn close(&mut self, feed: &mut Feed) -> Closed {
        let entries = (self.log.len() - self.closed) as u64;
        self.closed = self.log.len();
        self.counts.push_reserved(entries);
        self.images.close(feed, entries)
    }

    fn agree(&mut self, feed: &mut Feed) {
        self.images.agree(feed);
    }

    fn applied(&self) -> u64 {
        self.images.applied()
    }

    fn views(&self) -> &Views {
        self.images.views()
    }
}
