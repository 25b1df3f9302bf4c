// The two views of a database's files.
ghost use Rattle.std.specs.Prelude.{◌≡◌, ◌+◌, ◌^◌, ◌<◌, ◌≤◌, true, false, [], length, replicate, IsSome, OnOk, OnErr, IsTrue};
ghost use Rattle.std.specs.Option.{option_map};
ghost use Rattle.std.specs.FinMap.{get, insert};
ghost use Rattle.mm_bytes.specs.Files.{read_from};
ghost use Rattle.mm_ranges.specs.Limits.{is_file, most_of, IsAllowed};
ghost use Rattle.mm_ranges.specs.Overlay.{bytes_at, laid, over_all, ranges_of};
ghost use Rattle.mm_views.specs.State.{no_views, part_of, closed_from, applied, IsRemapped, IsCovered, KeepsLimits, PartFits, FileAllowed, weight_in};

use crate::image::Plain;
use crate::parts::{Kept, Prepared, part, zeros};
use mm_base::NoMemory;
use mm_ranges::{MadeList, Part, RoomSet};
use std::alloc::Global;
use std::collections::VecDeque;
use std::marker::Model;

/// Two views of a database's files: the shared one, which goes to disk, and the private one, which commands see.
#[derive(Drop)]
pub struct Views {
    pub(crate) alloc: Global,
    pub(crate) shared: Plain,
    pub(crate) private: Plain,
    pub(crate) made: MadeList,
    pub(crate) opened: RoomSet,
    pub(crate) closed: VecDeque<Kept>,
    pub(crate) prepared: Option<Prepared>,
}

impl Model for Views {
    ghost use Rattle.std.specs.VecDeque.{deque_len, deque_capacity};
    ghost use Rattle.mm_views.specs.State.{State};
    ghost use Rattle.mm_views.specs.Codes.{state_code};
    ghost use Rattle.mm_views.specs.Held.{state_of, IsHeld};

    ghost Value = { State };

    ghost coded = { state_code };

    ghost view = { λ v. state_of v.shared v.private v.made v.opened v.closed.items v.prepared };

    ghost invariant = { λ v. IsHeld (state_of v.shared v.private v.made v.opened v.closed.items v.prepared) v.prepared (deque_len v.closed) (deque_capacity v.closed) };
}

impl Views {
    /// No files.
    pub fn new(alloc: Global) -> Views
        ensures views { result ≡ no_views }
        ensures coverage { IsCovered result }
    {
        Views {
            alloc,
            shared: Plain::new(),
            private: Plain::new(),
            made: MadeList::new(Vec::new(alloc)),
            opened: RoomSet::new(alloc),
            closed: VecDeque::new(alloc),
            prepared: None,
        }
    }

    /// Makes a file of zeros in both images. Nothing is made, opened or closed.
    pub fn load(&mut self, file: u32, len: u32) -> Result<(), NoMemory>
        requires file { IsTrue (is_file file) }
        requires len { len ≤ most_of file }
        requires made { self.old.made ≡ [] }
        requires opened { self.old.opened ≡ [] }
        requires closed { self.old.closed ≡ [] }
        ensures ok { OnOk result
            (self.new ≡ record self.old { shared = insert self.old.shared file (replicate len 0); private = insert self.old.private file (replicate len 0); is_ready = false }) }
        ensures err { OnErr result (self.new ≡ self.old) }
        ensures coverage { IsCovered self.new }
    {
        let shared = zeros(self.alloc, len)?;
        let private = zeros(self.alloc, len)?;
        self.shared.put(file, shared);
        self.private.put(file, private);
        self.prepared = None;
        Ok(())
    }

    /// Writes bytes into a file of both images. Nothing is made, opened or closed.
    pub fn fill(&mut self, file: u32, at: u32, bytes: &[u8])
        requires there { IsSome (get self.old.private file) }
        requires inside { at + length bytes.now ≤ length (bytes_at self.old.private file) }
        requires made { self.old.made ≡ [] }
        requires opened { self.old.opened ≡ [] }
        requires closed { self.old.closed ≡ [] }
        ensures filled { self.new
            ≡ record self.old { shared = laid file at bytes.now self.old.shared; private = laid file at bytes.now self.old.private; is_ready = false } }
        ensures coverage { IsCovered self.new }
    {
        self.shared.lay(file, at as usize, bytes);
        self.private.lay(file, at as usize, bytes);
        self.prepared = None;
    }

    /// How long a file of the private image is.
    pub fn len(&self, file: u32) -> Option<u32>
        ensures len { result ≡ option_map length (get self.now.private file) }
        ensures allowed { FileAllowed file (get self.now.private file) }
    {
        match self.private.len(file) {
            Some(len) => Some(len as u32),
            None => None,
        }
    }

    /// Fills a buffer with the bytes of the private image from a place on.
    pub fn read(&self, file: u32, at: u32, out: &mut [u8])
        requires { at + length out.old ≤ length (bytes_at self.now.private file) }
        ensures { out.new ≡ read_from at (length out.old) (bytes_at self.now.private file) }
    {
        self.private.read(file, at as usize, out);
    }

    /// Some of the bytes of the private image from a place on, at least one.
    pub fn piece(&self, file: u32, at: u32) -> &[u8]
        requires { at < length (bytes_at self.now.private file) }
        ensures run { result.now ≡ read_from at (length result.now) (bytes_at self.now.private file) }
        ensures some { 0 < length result.now }
    {
        self.private.tail(file, at as usize)
    }

    /// How long a file of the shared image is.
    pub fn shared_len(&self, file: u32) -> Option<u32>
        ensures { result ≡ option_map length (get self.now.shared file) }
    {
        match self.shared.len(file) {
            Some(len) => Some(len as u32),
            None => None,
        }
    }

    /// Some of the bytes of the shared image from a place on, at least one.
    pub fn shared_piece(&self, file: u32, at: u32) -> &[u8]
        requires { at < length (bytes_at self.now.shared file) }
        ensures run { result.now ≡ read_from at (length result.now) (bytes_at self.now.shared file) }
        ensures some { 0 < length result.now }
    {
        self.shared.tail(file, at as usize)
    }

    /// What the opened intents and the made files weigh: an intent its length and 12, a made file 12.
    pub fn weight(&self) -> u64
        ensures weight { result ≡ weight_in self.now.made self.now.opened }
        ensures bound { result < 2 ^ 33 }
    {
        self.opened.weight() + 12 * self.made.as_slice().len() as u64
    }

    /// Takes what `close` and the `apply` of that part need.
    pub fn ready(&mut self) -> Result<(), NoMemory>
        ensures ok { OnOk result (self.new ≡ record self.old { is_ready = true }) }
        ensures err { OnErr result (self.new ≡ self.old) }
    {
        let given = part(
            self.alloc,
            &self.private,
            self.made.as_slice(),
            &self.opened,
        )?;
        let kept = part(
            self.alloc,
            &self.private,
            self.made.as_slice(),
            &self.opened,
        )?;
        let kept = Kept::new(self.alloc, kept)?;
        self.closed.reserve(1)?;
        self.prepared = Some(Prepared { given, kept });
        Ok(())
    }

    /// Gives what was made and opened, with its private bytes, and keeps it as the newest closed part.
    pub fn close(&mut self) -> Part
        requires { IsTrue self.old.is_ready }
        ensures part { result ≡ part_of self.old }
        ensures closed { self.new ≡ closed_from self.old }
        ensures coverage { IsCovered self.new }

        // The closed parts, laid over the shared image, are the private one.
        ensures whole { over_all self.new.closed self.new.shared ≡ self.new.private }

        // Its places are the opened intents.
        ensures ranges { ranges_of result.pieces ≡ self.old.opened }

        // The part can be laid over what was closed before it, and the journal may hold it.
        ensures fits { PartFits (over_all self.old.closed self.old.shared) result }
        ensures allowed { IsAllowed result }
    {
        match self.prepared.take() {
            Some(prepared) => {
                self.closed.push_back_reserved(prepared.kept);
                self.made = MadeList::new(Vec::new(self.alloc));
                self.opened = RoomSet::new(self.alloc);
                prepared.given
            }
            None => unreachable!(),
        }
    }

    /// Lays the oldest closed part over the shared image.
    pub fn apply(&mut self)
        requires { 0 < length self.old.closed }
        ensures applied { self.new ≡ applied self.old }
        ensures coverage { IsCovered self.new }
    {
        self.prepared = None;
        match self.closed.pop_front() {
            Some(kept) => kept.lay_over(&mut self.shared),
            None => unreachable!(),
        }
    }

    /// Gives back what the private image holds beside the shared one. No byte changes.
    pub fn remap(&mut self)
        ensures remapped { IsRemapped self.old self.new }
        ensures coverage { IsCovered self.new }
        ensures limits { KeepsLimits self.new.private }
    {
        // Whole images share no memory.
        let _ = &self.private;
    }
}
