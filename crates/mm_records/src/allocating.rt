//! Taking a place for a payload.

ghost use Rattle.std.specs.Prelude.{◌≡◌, ℕ, ◌+◌, ◌*◌, ◌≤◌, List, Some, length, IfOk, OnOk, IsErrOf};
ghost use Rattle.std.specs.FinMap.{get};
ghost use Rattle.mm_links.specs.Links.{Place};
ghost use Rattle.mm_extents.specs.Changes.{loc, DeclaresAtMost};
ghost use Rattle.mm_extents.specs.FreeExtents.{IsLeftFull};
ghost use Rattle.mm_extents.specs.Room.{room, LowersRoom};
ghost use Rattle.mm_nstable.specs.Nodes.{SameNames};
ghost use Rattle.mm_nstable.specs.Table.{Held, table_of};
ghost use Rattle.mm_records.specs.Constants.{constants_of, SameConstants};
ghost use Rattle.mm_records.specs.Shape.{Shape};
ghost use Rattle.mm_records.specs.Stands.{Stands, IsNode, ns_in};
ghost use Rattle.mm_records.specs.Map.{name_at};
ghost use Rattle.mm_records.specs.InHand.{StandsWith};
ghost use Rattle.mm_records.specs.Searching.{NoBlock, IsChosen};
ghost use Rattle.mm_records.specs.Adding.{IsAdded};
ghost use Rattle.mm_records.specs.Asking.{NoFit};
ghost use Rattle.mm_records.specs.Asking as asked;
ghost use Rattle.mm_records.specs.Allocating.{IsAllocated, PaysRoom};

use crate::adding::put_record;
use crate::asking::extent_len;
use crate::extending::add_extent;
use crate::search::{Block, find_block};
use mm_base::DiskLoc;
use mm_extents::{SpaceFault, place};
use mm_frames::Details;
use mm_nstable::details;
use mm_views::Draft;

// Puts a record into the block that was found, and answers its place.
fn put_found(
    draft: &mut Draft,
    node: u32,
    counts: Details,
    block: Block,
    len: u32,
    payload: &[u8],
) -> Result<DiskLoc, SpaceFault>
    requires front { 32 ≤ len }
    requires fits { length payload.now + 16 ≤ len }
    requires chosen { (free : List ℕ) × ((s : Shape) × (StandsWith draft.old.image free s node counts × IsChosen s (name_at draft.old.image node) len block.list block.before (block.at.file, block.at.ofs))) }
    ensures at { IfOk result (λ at. at ≡ loc (block.at.file, block.at.ofs)) }
    ensures ok { OnOk result ((free : List ℕ) (s : Shape) → StandsWith draft.old.image free s node counts → (b : IsChosen s (name_at draft.old.image node) len block.list block.before (block.at.file, block.at.ofs))
        → (t : Shape) × (Stands draft.new.image free t × IsAdded s t (name_at draft.old.image node) (block.at.file, block.at.ofs) len (16 + length b.rest) payload.now)) }
    ensures memory { IsErrOf result SpaceFault.NoSpace → ⊥ }
    ensures constants { OnOk result (((held : Held) → get (table_of (ns_in draft.old.image)) (name_at draft.old.image node) ≡ Some held → constants_of held.details ≡ constants_of counts)
        → SameConstants (ns_in draft.old.image) (ns_in draft.new.image)) }
    ensures names { OnOk result (SameNames (ns_in draft.old.image) (ns_in draft.new.image)) }
    ensures files { OnOk result (room draft.new.image ≡ room draft.old.image) }
    ensures weight { DeclaresAtMost (length payload.now + 1008) draft.old draft.new }
{
    put_record(draft, node, counts, block, len, payload)?;
    Ok(place(block.at))
}

// Adds an extent, and puts a record into it.
fn put_new(
    draft: &mut Draft,
    node: u32,
    counts: Details,
    len: u32,
    payload: &[u8],
) -> Result<DiskLoc, SpaceFault>
    requires front { 32 ≤ len }
    requires fits { length payload.now + 16 ≤ len }
    requires most { len ≤ 68157440 }
    requires stands { (free : List ℕ) × ((s : Shape) × StandsWith draft.old.image free s node counts) }
    ensures ok { IfOk result (λ at. (free : List ℕ) (s : Shape) → StandsWith draft.old.image free s node counts → NoBlock s (name_at draft.old.image node) len
        → (t : Shape) × (Stands draft.new.image free t × ((p : Place) × ((at ≡ loc p) × IsAllocated draft.old.image s t free (name_at draft.old.image node) p len payload.now)))) }
    ensures full { IsErrOf result SpaceFault.NoSpace → (free : List ℕ) (s : Shape) → StandsWith draft.old.image free s node counts → NoBlock s (name_at draft.old.image node) len → NoFit draft.old.image s free (name_at draft.old.image node) len }
    ensures left { IsErrOf result SpaceFault.NoSpace → (free : List ℕ) (s : Shape) → StandsWith draft.old.image free s node counts → IsLeftFull draft.old.image draft.new.image (asked.extent_len s (name_at draft.old.image node) len) }
    ensures space { OnOk result ((free : List ℕ) (s : Shape) → StandsWith draft.old.image free s node counts → NoFit draft.old.image s free (name_at draft.old.image node) len → ⊥) }
    ensures constants { OnOk result (((held : Held) → get (table_of (ns_in draft.old.image)) (name_at draft.old.image node) ≡ Some held → constants_of held.details ≡ constants_of counts)
        → SameConstants (ns_in draft.old.image) (ns_in draft.new.image)) }
    ensures names { OnOk result (SameNames (ns_in draft.old.image) (ns_in draft.new.image)) }
    ensures room { OnOk result ((free : List ℕ) (s : Shape) → StandsWith draft.old.image free s node counts → LowersRoom (4 * asked.extent_len s (name_at draft.old.image node) len) draft.old.image draft.new.image) }
    ensures weight { DeclaresAtMost (length payload.now + 2512) draft.old draft.new }
{
    let mut counts = counts;
    let long = extent_len(draft, node, &counts, len);
    add_extent(draft, node, &mut counts, long)?;
    match find_block(draft, node, &counts, len) {
        Some(block) => put_found(draft, node, counts, block, len, payload),
        None => unreachable!(),
    }
}

// Takes a block for `len` bytes, of a new extent where no block is long enough, and puts a record into it.
pub(crate) fn add_record(
    draft: &mut Draft,
    node: u32,
    len: u32,
    payload: &[u8],
) -> Result<DiskLoc, SpaceFault>
    requires front { 32 ≤ len }
    requires fits { length payload.now + 16 ≤ len }
    requires most { len ≤ 68157440 }
    requires stands { (free : List ℕ) × ((s : Shape) × (Stands draft.old.image free s × IsNode draft.old.image free node)) }
    ensures ok { IfOk result (λ at. (free : List ℕ) (s : Shape) → Stands draft.old.image free s → IsNode draft.old.image free node
        → (t : Shape) × (Stands draft.new.image free t × ((p : Place) × ((at ≡ loc p) × IsAllocated draft.old.image s t free (name_at draft.old.image node) p len payload.now)))) }
    ensures full { IsErrOf result SpaceFault.NoSpace → (free : List ℕ) (s : Shape) → Stands draft.old.image free s → IsNode draft.old.image free node → NoFit draft.old.image s free (name_at draft.old.image node) len }
    ensures left { IsErrOf result SpaceFault.NoSpace → (free : List ℕ) (s : Shape) → Stands draft.old.image free s → IsNode draft.old.image free node → Stands draft.new.image free s × NoFit draft.new.image s free (name_at draft.old.image node) len }
    ensures space { OnOk result ((free : List ℕ) (s : Shape) → Stands draft.old.image free s → IsNode draft.old.image free node → NoFit draft.old.image s free (name_at draft.old.image node) len → ⊥) }
    ensures constants { OnOk result (SameConstants (ns_in draft.old.image) (ns_in draft.new.image)) }
    ensures names { OnOk result (SameNames (ns_in draft.old.image) (ns_in draft.new.image)) }
    ensures room { OnOk result ((free : List ℕ) (s : Shape) → Stands draft.old.image free s → IsNode draft.old.image free node → PaysRoom s (name_at draft.old.image node) len draft.old.image draft.new.image) }
    ensures weight { DeclaresAtMost (length payload.now + 2512) draft.old draft.new }
{
    let counts = details(draft, node);
    match find_block(draft, node, &counts, len) {
        Some(block) => put_found(draft, node, counts, block, len, payload),
        None => put_new(draft, node, counts, len, payload),
    }
}
