//! Putting a record into a deleted block.

ghost use Rattle.std.specs.Prelude.{◌≡◌, ℕ, ◌+◌, ◌≤◌, List, Some, length, OnOk};
ghost use Rattle.std.specs.FinMap.{get};
ghost use Rattle.mm_base.specs.Bytes.{overwritten};
ghost use Rattle.mm_extents.specs.Changes.{KeepsHeaders, DeclaresAtMost};
ghost use Rattle.mm_extents.specs.Room.{room};
ghost use Rattle.mm_nstable.specs.Nodes.{SameNames};
ghost use Rattle.mm_nstable.specs.Table.{Held, table_of};
ghost use Rattle.mm_records.specs.Constants.{constants_of, SameConstants};
ghost use Rattle.mm_records.specs.Shape.{Shape};
ghost use Rattle.mm_records.specs.Stands.{Stands, ns_in};
ghost use Rattle.mm_records.specs.Map.{live_at, name_at, IsRewritten};
ghost use Rattle.mm_records.specs.InHand.{StandsWith};
ghost use Rattle.mm_records.specs.Searching.{IsChosen};
ghost use Rattle.mm_records.specs.Adding.{IsCut, IsAdded};

use crate::nodes::put_node;
use crate::rooms::overwrite_room;
use crate::search::Block;
use crate::shortening::shorten;
use crate::taking::take_block;
use mm_base::NoMemory;
use mm_extents::{Spot, natural, read_record};
use mm_frames::Details;
use mm_views::Draft;

// The shortest block.
const MIN_BLOCK_LEN: u32 = 32;

// A live record of `len` bytes and more keeps them, and the others become a deleted block where they are enough for one.
fn cut(
    draft: &mut Draft,
    node: u32,
    counts: &mut Details,
    at: Spot,
    len: u32,
) -> Result<(), NoMemory>
    requires front { 32 ≤ len }
    requires live { (free : List ℕ) × ((s : Shape) × ((room : List ℕ) × (StandsWith draft.old.image free s node counts.old × ((live_at s (name_at draft.old.image node) (at.file, at.ofs) ≡ Some room) × (len ≤ 16 + length room))))) }
    ensures ok { OnOk result ((free : List ℕ) (s : Shape) (room : List ℕ) → StandsWith draft.old.image free s node counts.old → live_at s (name_at draft.old.image node) (at.file, at.ofs) ≡ Some room → len ≤ 16 + length room
        → (t : Shape) × (StandsWith draft.new.image free t node counts.new × IsCut s t (name_at draft.old.image node) (at.file, at.ofs) len room)) }
    ensures kept { OnOk result (KeepsHeaders draft.old.image draft.new.image) }
    ensures constants { OnOk result (constants_of counts.new ≡ constants_of counts.old) }
    ensures weight { DeclaresAtMost 56 draft.old draft.new }
{
    let whole = natural(read_record(draft, at).length_with_headers);
    if whole - len < MIN_BLOCK_LEN {
        return Ok(());
    }
    shorten(draft, node, counts, at, len)
}

// Writes the details in hand to their node, and a payload to the front of a record's room.
fn put_payload(
    draft: &mut Draft,
    node: u32,
    counts: Details,
    at: Spot,
    payload: &[u8],
) -> Result<(), NoMemory>
    requires { (free : List ℕ) × ((s : Shape) × ((room : List ℕ) × (StandsWith draft.old.image free s node counts × ((live_at s (name_at draft.old.image node) (at.file, at.ofs) ≡ Some room) × (length payload.now ≤ length room))))) }
    ensures ok { OnOk result ((free : List ℕ) (s : Shape) (room : List ℕ) → StandsWith draft.old.image free s node counts → live_at s (name_at draft.old.image node) (at.file, at.ofs) ≡ Some room → length payload.now ≤ length room
        → (t : Shape) × (Stands draft.new.image free t × IsRewritten s t (at.file, at.ofs) (overwritten 0 payload.now room))) }
    ensures constants { OnOk result (((held : Held) → get (table_of (ns_in draft.old.image)) (name_at draft.old.image node) ≡ Some held → constants_of held.details ≡ constants_of counts)
        → SameConstants (ns_in draft.old.image) (ns_in draft.new.image)) }
    ensures names { OnOk result (SameNames (ns_in draft.old.image) (ns_in draft.new.image)) }
    ensures files { OnOk result (room draft.new.image ≡ room draft.old.image) }
    ensures weight { DeclaresAtMost (508 + (length payload.now + 12)) draft.old draft.new }
{
    put_node(draft, node, counts)?;
    overwrite_room(draft, node, at, 0, payload)
}

/// Puts a record into the block that was found for so many bytes.
pub(crate) fn put_record(
    draft: &mut Draft,
    node: u32,
    counts: Details,
    block: Block,
    len: u32,
    payload: &[u8],
) -> Result<(), NoMemory>
    requires front { 32 ≤ len }
    requires fits { length payload.now + 16 ≤ len }
    requires chosen { (free : List ℕ) × ((s : Shape) × (StandsWith draft.old.image free s node counts × IsChosen s (name_at draft.old.image node) len block.list block.before (block.at.file, block.at.ofs))) }
    ensures ok { OnOk result ((free : List ℕ) (s : Shape) → StandsWith draft.old.image free s node counts → (b : IsChosen s (name_at draft.old.image node) len block.list block.before (block.at.file, block.at.ofs))
        → (t : Shape) × (Stands draft.new.image free t × IsAdded s t (name_at draft.old.image node) (block.at.file, block.at.ofs) len (16 + length b.rest) payload.now)) }
    ensures constants { OnOk result (((held : Held) → get (table_of (ns_in draft.old.image)) (name_at draft.old.image node) ≡ Some held → constants_of held.details ≡ constants_of counts)
        → SameConstants (ns_in draft.old.image) (ns_in draft.new.image)) }
    ensures names { OnOk result (SameNames (ns_in draft.old.image) (ns_in draft.new.image)) }
    ensures files { OnOk result (room draft.new.image ≡ room draft.old.image) }
    ensures weight { DeclaresAtMost (length payload.now + 1008) draft.old draft.new }
{
    let mut counts = counts;
    take_block(draft, node, &mut counts, block)?;
    cut(draft, node, &mut counts, block.at, len)?;
    put_payload(draft, node, counts, block.at, payload)
}
