//! The room of a live record.

ghost use Rattle.std.specs.Prelude.{◌≡◌, ℕ, ◌+◌, ◌<◌, ◌≤◌, ◌++◌, List, length, OnOk, OnErr};
ghost use Rattle.mm_base.specs.Bytes.{part, overwritten};
ghost use Rattle.mm_ranges.specs.Overlay.{bytes_at};
ghost use Rattle.mm_extents.specs.Changes.{KeepsHeaders, DeclaresAtMost};
ghost use Rattle.mm_records.specs.Shape.{Shape};
ghost use Rattle.mm_records.specs.Stands.{Stands, IsOwn, ns_in};
ghost use Rattle.mm_records.specs.Map.{IsRewritten};

use mm_base::NoMemory;
use mm_extents::{Spot, natural, read_record, set_room};
use mm_views::Draft;

// How many bytes the room of a live record has.
pub(crate) fn room_len(draft: &Draft, node: u32, at: Spot) -> u32
    requires { (free : List ℕ) × ((s : Shape) × IsOwn draft.now.image free s node (at.file, at.ofs)) }
    ensures is { (free : List ℕ) (s : Shape) (own : IsOwn draft.now.image free s node (at.file, at.ofs)) → result ≡ length own.room }
    ensures inside { at.ofs + 16 + result ≤ length (bytes_at draft.now.image at.file) }
    ensures short { at.ofs + 16 + result ≤ 67108864 }
{
    let _node = node;
    natural(read_record(draft, at).length_with_headers) - 16
}

// Puts some bytes of a file behind what a list holds.
pub(crate) fn push_bytes(
    draft: &Draft,
    file: u32,
    ofs: u32,
    len: u32,
    out: &mut Vec<u8>,
) -> Result<(), NoMemory>
    requires { ofs + len ≤ length (bytes_at draft.now.image file) }
    ensures ok { OnOk result (out.new.items ≡ out.old.items ++ part ofs len (bytes_at draft.now.image file)) }
    ensures err { OnErr result (out.new.items ≡ out.old.items) }
{
    let mut bytes = vec![in *out.allocator(); 0; len as usize]?;
    draft.read(file, ofs, &mut bytes);
    out.extend_from_slice(&bytes)?;
    Ok(())
}

// Writes some bytes inside the room of a live record, which declares them alone.
pub(crate) fn overwrite_room(
    draft: &mut Draft,
    node: u32,
    at: Spot,
    from: u32,
    bytes: &[u8],
) -> Result<(), NoMemory>
    requires own { (free : List ℕ) × ((s : Shape) × ((own : IsOwn draft.old.image free s node (at.file, at.ofs)) × (from + length bytes.now ≤ length own.room))) }
    ensures stands { OnOk result ((free : List ℕ) (s : Shape) (own : IsOwn draft.old.image free s node (at.file, at.ofs)) → from + length bytes.now ≤ length own.room
        → (t : Shape) × (Stands draft.new.image free t × IsRewritten s t (at.file, at.ofs) (overwritten from bytes.now own.room))) }
    ensures ns { OnOk result (ns_in draft.new.image ≡ ns_in draft.old.image) }
    ensures kept { OnOk result (KeepsHeaders draft.old.image draft.new.image) }
    ensures weight { DeclaresAtMost (length bytes.now + 12) draft.old draft.new }
{
    let _node = node;
    if bytes.is_empty() {
        return Ok(());
    }
    set_room(draft, at, from, bytes)
}
