// A draft of the private image.
ghost use Rattle.std.specs.Prelude.{◌≡◌, ℕ, ◌||◌, ◌+◌, ◌^◌, ◌<◌, ◌≤◌, ◌%◌, true, false, [], ◌∷◌, None, length, replicate, reverse, OnOk, OnErr, IfOk, IsTrue};
ghost use Rattle.std.specs.Option.{option_map};
ghost use Rattle.std.specs.FinMap.{get, insert};
ghost use Rattle.mm_bytes.specs.Files.{read_from};
ghost use Rattle.mm_ranges.specs.Limits.{is_file, most_of};
ghost use Rattle.mm_ranges.specs.Places.{Covers, inserted, is_covered, is_in};
ghost use Rattle.mm_ranges.specs.Overlay.{bytes_at, laid, laid_over};
ghost use Rattle.mm_views.specs.Made.{with_one, with_all, without_made, place_in, are_all_files};
ghost use Rattle.mm_views.specs.State.{PiecesInside, IsCovered, FileAllowed, drafting_of, IsAdopted, weight_in};

use crate::image::Plain;
use crate::parts::{Kept, Prepared, piece, zeros};
use crate::views::Views;
use mm_base::NoMemory;
use mm_ranges::{Made, MadeList, PAGE_LEN, Piece, RangeSet, RoomSet};
use std::alloc::Global;
use std::collections::VecDeque;
use std::marker::Model;

/// Changes of the private image that may be given up. It owns the views until `adopt` or `give_up` hands them back.
#[derive(Drop)]
pub struct Draft {
    alloc: Global,
    shared: Plain,
    image: Plain,
    // the declared bytes as they were, the oldest first
    saved: Vec<Piece>,
    made: Vec<Made>,
    declared: RangeSet,
    // what was made and opened before
    before: MadeList,
    opened: RoomSet,
    // all that is made after `adopt`
    reserved: Option<MadeList>,
    closed: VecDeque<Kept>,
    prepared: Option<Prepared>,
}

impl Model for Draft {
    ghost use Rattle.std.specs.Prelude.{is_some};
    ghost use Rattle.std.specs.VecDeque.{deque_len, deque_capacity};
    ghost use Rattle.mm_views.specs.State.{Drafting};
    ghost use Rattle.mm_views.specs.Codes.{drafting_code};
    ghost use Rattle.mm_views.specs.Held.{drafting_at, IsDrafted};

    ghost Value = { Drafting };

    ghost coded = { drafting_code };

    ghost view = { λ d. drafting_at d.shared d.image d.saved.items d.made.items d.declared d.before d.opened d.closed.items d.prepared (is_some d.reserved) };

    ghost invariant = { λ d. IsDrafted (drafting_at d.shared d.image d.saved.items d.made.items d.declared d.before d.opened d.closed.items d.prepared (is_some d.reserved)) d.saved.items d.opened d.reserved d.prepared (deque_len d.closed) (deque_capacity d.closed) };
}

impl Views {
    /// Begins a draft.
    pub fn draft(self) -> Draft
        ensures { result ≡ drafting_of self }
    {
        let Views {
            alloc,
            shared,
            private,
            made,
            opened,
            closed,
            prepared,
        } = self;
        Draft {
            alloc,
            shared,
            image: private,
            saved: Vec::new(alloc),
            made: Vec::new(alloc),
            declared: RangeSet::new(alloc),
            before: made,
            opened,
            reserved: None,
            closed,
            prepared,
        }
    }
}

impl Draft {
    /// How long a file of the draft is.
    pub fn len(&self, file: u32) -> Option<u32>
        ensures len { result ≡ option_map length (get self.now.image file) }
        ensures allowed { FileAllowed file (get self.now.image file) }
    {
        match self.image.len(file) {
            Some(len) => Some(len as u32),
            None => None,
        }
    }

    /// Fills a buffer with the draft's bytes from a place on.
    pub fn read(&self, file: u32, at: u32, out: &mut [u8])
        requires { at + length out.old ≤ length (bytes_at self.now.image file) }
        ensures { out.new ≡ read_from at (length out.old) (bytes_at self.now.image file) }
    {
        self.image.read(file, at as usize, out);
    }

    /// Some of the draft's bytes from a place on, at least one.
    pub fn piece(&self, file: u32, at: u32) -> &[u8]
        requires { at < length (bytes_at self.now.image file) }
        ensures run { result.now ≡ read_from at (length result.now) (bytes_at self.now.image file) }
        ensures some { 0 < length result.now }
    {
        self.image.tail(file, at as usize)
    }

    /// Makes a file of zeros, which isn't there.
    pub fn add_file(&mut self, file: u32, len: u32) -> Result<(), NoMemory>
        requires file { IsTrue (is_file file) }
        requires len { len ≤ most_of file }
        requires pages { len % PAGE_LEN ≡ 0 }
        requires absent { get self.old.image file ≡ None }
        ensures ok { OnOk result
            (self.new ≡ record self.old { image = insert self.old.image file (replicate len 0); made = with_one (record { file = file; len = len }) self.old.made; is_reserved = false }) }
        ensures err { OnErr result (self.new ≡ self.old) }
    {
        let bytes = zeros(self.alloc, len)?;
        insert_made(&mut self.made, Made { file, len })?;
        self.image.put(file, bytes);
        self.reserved = None;
        Ok(())
    }

    /// Declares that a range may be written.
    pub fn declare(&mut self, file: u32, at: u32, len: u32) -> Result<(), NoMemory>
        requires some { 0 < len }
        requires inside { at + len ≤ length (bytes_at self.old.image file) }
        ensures ok { OnOk result
            (self.new ≡ record self.old { declared = inserted (file, at, len) self.old.declared; is_reserved = false }) }
        ensures err { OnErr result (self.new ≡ self.old) }

        // It weighs at most its length and 12.
        ensures weight { weight_in self.new.made self.new.declared ≤ weight_in self.old.made self.old.declared + (len + 12) }

        // Its places are declared, and those that were declared before.
        ensures covers { OnOk result (Covers self.new.declared file at len) }
        ensures covered { OnOk result
            ((f p : ℕ) → is_covered self.new.declared f p ≡ (is_in f p (file, at, len) || is_covered self.old.declared f p)) }
    {
        let saved = piece(self.alloc, &self.image, file, at, len)?;
        self.saved.reserve(1)?;
        let Ok(()) = self.declared.insert(file, at, len) else {
            return Err(NoMemory);
        };
        self.saved.push_reserved(saved);
        self.reserved = None;
        Ok(())
    }

    /// Writes bytes to declared places. No bytes change nothing.
    pub fn write(&mut self, file: u32, at: u32, bytes: &[u8])
        requires { Covers self.old.declared file at (length bytes.now) }
        ensures written { 0 < length bytes.now
            → self.new ≡ record self.old { image = laid file at bytes.now self.old.image; is_reserved = false } }
        ensures none { length bytes.now ≡ 0 → self.new ≡ self.old }
    {
        if bytes.is_empty() {
            return;
        }
        self.image.lay(file, at as usize, bytes);
        self.reserved = None;
    }

    /// What the declared ranges and the made files weigh: a range its length and 12, a made file 12.
    pub fn weigh(&self) -> u64
        ensures weight { result ≡ weight_in self.now.made self.now.declared }
        ensures bound { result < 2 ^ 33 }
    {
        self.declared.weight() + 12 * self.made.len() as u64
    }

    /// Takes what `adopt` needs.
    pub fn reserve(&mut self) -> Result<(), NoMemory>
        ensures ok { OnOk result (self.new ≡ record self.old { is_reserved = true }) }
        ensures err { OnErr result (self.new ≡ self.old) }
    {
        let all = all_made(self.alloc, self.before.as_slice(), &self.made)?;
        let Ok(()) = self.opened.make_room(&self.declared) else {
            return Err(NoMemory);
        };
        self.reserved = Some(MadeList::new(all));
        Ok(())
    }

    /// The views with the draft's image, and with what it made and declared opened.
    pub fn adopt(self) -> Views
        requires { IsTrue self.is_reserved }
        ensures adopted { IsAdopted self result }
        ensures coverage { IsCovered result }

        // The weight rises by no more than `weigh`.
        ensures weight { weight_in result.made result.opened
            ≤ weight_in self.views.made self.views.opened + weight_in self.made self.declared }
    {
        let Draft {
            alloc,
            shared,
            image,
            saved: _,
            made: _,
            declared,
            before: _,
            mut opened,
            reserved,
            closed,
            prepared: _,
        } = self;
        let Some(made) = reserved else { unreachable!() };
        opened.merge(&declared);
        Views {
            alloc,
            shared,
            private: image,
            made,
            opened,
            closed,
            prepared: None,
        }
    }

    /// The views as they were before the draft.
    pub fn give_up(self) -> Views
        ensures same { result ≡ self.views }
        ensures coverage { IsCovered result }
    {
        let Draft {
            alloc,
            shared,
            mut image,
            saved,
            made,
            declared,
            before,
            mut opened,
            reserved: _,
            closed,
            prepared,
        } = self;
        lay_back(&mut image, saved);
        take_back(&mut image, made);
        opened.give_back(&declared);
        Views {
            alloc,
            shared,
            private: image,
            made: before,
            opened,
            closed,
            prepared,
        }
    }
}

// Where a made file belongs by its number.
fn place_of(made: &[Made], file: u32) -> usize
    ensures bound { result ≤ length made.now }
    ensures place { result ≡ place_in made.now file }
{
    for i in 0..made.len() {
        if file < made[i].file {
            return i;
        }
    }
    made.len()
}

// Puts a made file in, in its place by number.
fn insert_made(made: &mut Vec<Made>, new: Made) -> Result<(), NoMemory>
    ensures ok { OnOk result (made.new.items ≡ with_one new made.old.items) }
    ensures err { OnErr result (made.new.items ≡ made.old.items) }
{
    let place = place_of(made, new.file);
    made.insert(place, new)?;
    Ok(())
}

// The made files of both, in rising number.
fn all_made(alloc: Global, before: &[Made], more: &[Made]) -> Result<Vec<Made>, NoMemory>
    ensures { IfOk result (λ all. all.items ≡ with_all before.now more.now) }
{
    let mut all = Vec::from_slice(alloc, before)?;
    for &m in more {
        insert_made(&mut all, m)?;
    }
    Ok(all)
}

// Lays pieces back, the newest first.
fn lay_back(image: &mut Plain, mut saved: Vec<Piece>)
    requires { PiecesInside image.old (reverse saved.items) }
    ensures { image.new ≡ laid_over (reverse saved.items) image.old }
{
    while let Some(piece) = saved.pop() {
        image.lay(piece.file, piece.at as usize, piece.bytes.as_slice());
    }
}

// Takes files out.
fn take_back(image: &mut Plain, mut made: Vec<Made>)
    requires { IsTrue (are_all_files made.items) }
    ensures { image.new ≡ without_made made.items image.old }
{
    while let Some(m) = made.pop() {
        image.take_out(m.file);
    }
}
