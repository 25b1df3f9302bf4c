//! The records of one namespace, as a map from places to payloads.

ghost use Rattle.std.specs.Prelude.{◌≡◌, ℕ, ◌+◌, ◌≤◌, ◌++◌, ◌↔◌, List, length, IfOk, OnOk, OnErr, IsErrOf, IsTrue, true, false};
ghost use Rattle.mm_base.specs.Bytes.{overwritten};
ghost use Rattle.mm_nstable.specs.Nodes.{SameNames};
ghost use Rattle.std.specs.Option.{option_map};
ghost use Rattle.mm_links.specs.Links.{Place, first_of, next_in};
ghost use Rattle.mm_extents.specs.Changes.{DeclaresAtMost, loc};
ghost use Rattle.mm_extents.specs.Room.{room};
ghost use Rattle.mm_records.specs.Constants.{SameConstants};
ghost use Rattle.mm_records.specs.Shape.{Shape};
ghost use Rattle.mm_records.specs.Stands.{Stands, IsNode, ns_in, walk};
ghost use Rattle.mm_records.specs.Asking.{IsAsked, NoFit};
ghost use Rattle.mm_records.specs.Allocating.{IsAllocated, PaysRoom};
ghost use Rattle.mm_records.specs.declared.asking.Request.TheVariants.{Bucket};
ghost use Rattle.mm_records.specs.Map.{HasRecord, IsFreed, IsRewritten, name_at};

use crate::allocating::add_record;
use crate::asking::{Request, asked_len};
use crate::freeing::free_at;
use crate::rooms::{overwrite_room, push_bytes, room_len};
use crate::walking::{first_from, next_of};
use mm_base::{DiskLoc, NoMemory};
use mm_extents::{SpaceFault, spot_of};
use mm_nstable::details;
use mm_views::Draft;

// No file has more bytes.
const MAX_PAYLOAD_LEN: usize = 67_108_864;

/// The records of the namespace of a node.
#[derive(Clone, Copy, Debug, PartialEq, Eq)]
pub struct RecordStore {
    pub node: u32,
}

impl RecordStore {
    /// The records of a node's namespace.
    pub fn at(node: u32) -> RecordStore
        ensures { result ≡ record { node = node } }
    {
        RecordStore { node }
    }

    /// Takes a place for a payload and writes it there: the map has one more pair, at a place that no map had. `request` says what the block is
    /// asked for; a bucket has at most 8192 bytes. The room of the files falls by at most four times the length of the extent that is added, where
    /// one is. `NoSpace` exactly where the payload fits nowhere; after an error the draft is to be dropped. After `NoSpace` its
    /// files still stand, with the same maps, and it still fits nowhere (`left`): files without extents may have been made.
    pub fn alloc(
        &self,
        draft: &mut Draft,
        request: Request,
        payload: &[u8],
    ) -> Result<DiskLoc, SpaceFault>
        requires bucket { request ≡ Bucket → length payload.now ≤ 8192 }
        requires stands { (free : List ℕ) × ((s : Shape) × (Stands draft.old.image free s × IsNode draft.old.image free self.now.node)) }
        ensures ok { IfOk result (λ at. (free : List ℕ) (s : Shape) (r : ℕ) → Stands draft.old.image free s → IsNode draft.old.image free self.now.node → IsAsked request (length payload.now) r
            → (t : Shape) × (Stands draft.new.image free t × ((p : Place) × ((at ≡ loc p) × IsAllocated draft.old.image s t free (name_at draft.old.image self.now.node) p r payload.now)))) }
        ensures full { IsErrOf result SpaceFault.NoSpace → (free : List ℕ) (s : Shape) (r : ℕ) → Stands draft.old.image free s → IsNode draft.old.image free self.now.node → IsAsked request (length payload.now) r
            → NoFit draft.old.image s free (name_at draft.old.image self.now.node) r }
        ensures left { IsErrOf result SpaceFault.NoSpace → (free : List ℕ) (s : Shape) (r : ℕ) → Stands draft.old.image free s → IsNode draft.old.image free self.now.node → IsAsked request (length payload.now) r
            → Stands draft.new.image free s × NoFit draft.new.image s free (name_at draft.old.image self.now.node) r }
        ensures space { OnOk result ((free : List ℕ) (s : Shape) (r : ℕ) → Stands draft.old.image free s → IsNode draft.old.image free self.now.node → IsAsked request (length payload.now) r
            → NoFit draft.old.image s free (name_at draft.old.image self.now.node) r → ⊥) }
        ensures constants { OnOk result (SameConstants (ns_in draft.old.image) (ns_in draft.new.image)) }
        ensures names { OnOk result (SameNames (ns_in draft.old.image) (ns_in draft.new.image)) }
        ensures room { OnOk result ((free : List ℕ) (s : Shape) (r : ℕ) → Stands draft.old.image free s → IsNode draft.old.image free self.now.node → IsAsked request (length payload.now) r
            → PaysRoom s (name_at draft.old.image self.now.node) r draft.old.image draft.new.image) }
        ensures weight { DeclaresAtMost (length payload.now + 2512) draft.old draft.new }
    {
        if payload.len() > MAX_PAYLOAD_LEN {
            return Err(SpaceFault::NoSpace);
        }
        add_record(
            draft,
            self.node,
            asked_len(request, payload.len() as u32),
            payload,
        )
    }

    /// Takes a record out of the map. Its block heads the list of deleted blocks of its length. The room of the files stays.
    pub fn free(&self, draft: &mut Draft, at: DiskLoc) -> Result<(), NoMemory>
        requires { (free : List ℕ) × ((s : Shape) × ((p : Place) × ((room : List ℕ) × HasRecord draft.old.image free s self.now.node p at room))) }
        ensures stands { OnOk result ((free : List ℕ) (s : Shape) (p : Place) (room : List ℕ) → HasRecord draft.old.image free s self.now.node p at room
            → (t : Shape) × (Stands draft.new.image free t × IsFreed s t (name_at draft.old.image self.now.node) p (16 + length room))) }
        ensures constants { OnOk result (SameConstants (ns_in draft.old.image) (ns_in draft.new.image)) }
        ensures names { OnOk result (SameNames (ns_in draft.old.image) (ns_in draft.new.image)) }
        ensures room { OnOk result (room draft.new.image ≡ room draft.old.image) }
        ensures weight { DeclaresAtMost 912 draft.old draft.new }
    {
        free_at(draft, self.node, spot_of(at))
    }

    /// The first record of the namespace, in the order of its extents and of their chains.
    pub fn first(&self, draft: &Draft) -> Option<DiskLoc>
        requires { (free : List ℕ) × ((s : Shape) × (Stands draft.now.image free s × IsNode draft.now.image free self.now.node)) }
        ensures { (free : List ℕ) (s : Shape) → Stands draft.now.image free s → IsNode draft.now.image free self.now.node
            → result ≡ option_map loc (first_of (walk s (name_at draft.now.image self.now.node))) }
    {
        first_from(draft, details(draft, self.node).first_extent)
    }

    /// The record behind another in that order.
    pub fn next(&self, draft: &Draft, at: DiskLoc) -> Option<DiskLoc>
        requires { (free : List ℕ) × ((s : Shape) × ((p : Place) × ((room : List ℕ) × HasRecord draft.now.image free s self.now.node p at room))) }
        ensures { (free : List ℕ) (s : Shape) (p : Place) (room : List ℕ) → HasRecord draft.now.image free s self.now.node p at room
            → result ≡ option_map loc (next_in (walk s (name_at draft.now.image self.now.node)) p) }
    {
        next_of(draft, self.node, spot_of(at))
    }

    /// Puts the whole room of a record behind what a list holds.
    pub fn payload(&self, draft: &Draft, at: DiskLoc, out: &mut Vec<u8>) -> Result<(), NoMemory>
        requires { (free : List ℕ) × ((s : Shape) × ((p : Place) × ((room : List ℕ) × HasRecord draft.now.image free s self.now.node p at room))) }
        ensures ok { OnOk result ((free : List ℕ) (s : Shape) (p : Place) (room : List ℕ) → HasRecord draft.now.image free s self.now.node p at room
            → out.new.items ≡ out.old.items ++ room) }
        ensures err { OnErr result (out.new.items ≡ out.old.items) }
    {
        let spot = spot_of(at);
        let len = room_len(draft, self.node, spot);
        push_bytes(draft, spot.file, spot.ofs + 16, len, out)
    }

    /// Writes a payload to the front of a record's room; false where the room is too short, and then nothing changes. The room of the
    /// files stays.
    pub fn write(&self, draft: &mut Draft, at: DiskLoc, payload: &[u8]) -> Result<bool, NoMemory>
        requires { (free : List ℕ) × ((s : Shape) × ((p : Place) × ((room : List ℕ) × HasRecord draft.old.image free s self.now.node p at room))) }
        ensures fits { IfOk result (λ fits. (free : List ℕ) (s : Shape) (p : Place) (room : List ℕ) → HasRecord draft.old.image free s self.now.node p at room
            → IsTrue fits ↔ (length payload.now ≤ length room)) }
        ensures stands { IfOk result (λ fits. (free : List ℕ) (s : Shape) (p : Place) (room : List ℕ) → HasRecord draft.old.image free s self.now.node p at room → fits ≡ true
            → (t : Shape) × (Stands draft.new.image free t × IsRewritten s t p (overwritten 0 payload.now room))) }
        ensures refused { IfOk result (λ fits. fits ≡ false → draft.new ≡ draft.old) }
        ensures ns { OnOk result (ns_in draft.new.image ≡ ns_in draft.old.image) }
        ensures room { OnOk result (room draft.new.image ≡ room draft.old.image) }
        ensures weight { DeclaresAtMost (length payload.now + 12) draft.old draft.new }
    {
        let spot = spot_of(at);
        if payload.len() > room_len(draft, self.node, spot) as usize {
            return Ok(false);
        }
        overwrite_room(draft, self.node, spot, 0, payload)?;
        Ok(true)
    }

    /// Writes some bytes inside a record's room, from its byte `from` on. The room of the files stays.
    pub fn write_inside(
        &self,
        draft: &mut Draft,
        at: DiskLoc,
        from: u32,
        bytes: &[u8],
    ) -> Result<(), NoMemory>
        requires { (free : List ℕ) × ((s : Shape) × ((p : Place) × ((room : List ℕ) × (HasRecord draft.old.image free s self.now.node p at room × (from + length bytes.now ≤ length room))))) }
        ensures stands { OnOk result ((free : List ℕ) (s : Shape) (p : Place) (room : List ℕ) → HasRecord draft.old.image free s self.now.node p at room → from + length bytes.now ≤ length room
            → (t : Shape) × (Stands draft.new.image free t × IsRewritten s t p (overwritten from bytes.now room))) }
        ensures ns { OnOk result (ns_in draft.new.image ≡ ns_in draft.old.image) }
        ensures room { OnOk result (room draft.new.image ≡ room draft.old.image) }
        ensures weight { DeclaresAtMost (length bytes.now + 12) draft.old draft.new }
    {
        overwrite_room(draft, self.node, spot_of(at), from, bytes)
    }
}
