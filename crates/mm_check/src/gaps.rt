//! The blocks of extents by their places, and the first gap among them.

ghost use Rattle.std.specs.Prelude.{◌≡◌, ◌+◌, ◌<◌, ◌≤◌, ◌^◌, ◌++◌, ◌∷◌, ℕ, List, [], true, if◌then◌else◌, length, IfOk, OnOk, Option, Vec};
ghost use Rattle.std.specs.declared.alloc.Global.{Global};
ghost use Rattle.mm_ranges.specs.Overlay.{bytes_at};
ghost use Rattle.mm_links.specs.Links.{Place, same, has, once};
ghost use Rattle.mm_check.specs.ExtentChain.{InFile};
ghost use Rattle.mm_check.specs.BlockQuestions.{gap_at, first_gap_of};
ghost use Rattle.mm_check.specs.BlockMap.{items_or, blocks_in, HasBlocks, PutsBlock};

use crate::frames::{read_extent, read_record};
use crate::numbers::{offset, size};
use mm_frames::EXTENT_HEADER_LEN;
use mm_views::Views;
use mm_walk::{gap_in, key};
use std::alloc::{AllocError, Global};
use std::collections::BTreeMap;

// The blocks that were there, or none.
fn blocks_or(alloc: Global, held: Option<Vec<(u32, u32)>>) -> Vec<(u32, u32)>
    ensures { result.items ≡ items_or held }
{
    match held {
        None => Vec::new(alloc),
        Some(blocks) => blocks,
    }
}

// Puts a block to those of the extent at a place.
fn put_block(
    alloc: Global,
    map: &mut BTreeMap<u64, Vec<(u32, u32)>>,
    file: u32,
    ofs: u32,
    block: (u32, u32),
) -> Result<(), AllocError>
    ensures { OnOk result ((e : Place) → e.0 < 2 ^ 32 → e.1 < 2 ^ 32 → blocks_in map.new e ≡ blocks_in map.old e ++ (if same (file, ofs) e then block ∷ [] else [])) }
{
    let at = key((file, ofs));
    let held = map.remove(&at);
    let mut blocks = blocks_or(alloc, held);
    blocks.push(block)?;
    map.insert(at, blocks)?;
    Ok(())
}

// Puts the block at a place to those of the extent that it names.
fn place_block(
    alloc: Global,
    views: &Views,
    map: &mut BTreeMap<u64, Vec<(u32, u32)>>,
    at: (u32, u32),
) -> Result<(), AllocError>
    requires { at.1 + 16 ≤ length (bytes_at views.now.private at.0) }
    ensures { OnOk result (PutsBlock views.now.private at map.old map.new) }
{
    let header = read_record(views, at);
    let len = size(header.length_with_headers);
    match offset(header.extent_ofs) {
        None => Ok(()),
        Some(ofs) => put_block(alloc, map, at.0, ofs, (at.1, len)),
    }
}

// The blocks at these places, extent by extent.
fn blocks_by_extent(
    alloc: Global,
    views: &Views,
    placed: &[(u32, u32)],
) -> Result<BTreeMap<u64, Vec<(u32, u32)>>, AllocError>
    requires { (p : Place) → has placed.now p ≡ true → p.1 + 16 ≤ length (bytes_at views.now.private p.0) }
    ensures { IfOk result (λ map. HasBlocks views.now.private placed.now map) }
{
    let mut map = BTreeMap::new(alloc);
    for i in 0..placed.len() {
        place_block(alloc, views, &mut map, placed[i])?;
    }
    Ok(map)
}

// The blocks of an extent.
fn blocks_at(
    alloc: Global,
    map: &BTreeMap<u64, Vec<(u32, u32)>>,
    extent: (u32, u32),
) -> Result<Vec<(u32, u32)>, AllocError>
    ensures { IfOk result (λ blocks. blocks.items ≡ blocks_in map.now extent) }
{
    match map.get(&key(extent)) {
        None => Ok(Vec::new(alloc)),
        Some(blocks) => Vec::from_slice(alloc, blocks),
    }
}

// The first gap among the blocks of an extent.
fn extent_gap(
    alloc: Global,
    views: &Views,
    map: &BTreeMap<u64, Vec<(u32, u32)>>,
    extent: (u32, u32),
) -> Result<Option<u32>, AllocError>
    requires { InFile views.now.private extent }
    ensures { IfOk result (λ gap. (placed : List Place) → once placed ≡ true → HasBlocks views.now.private placed map.now → gap ≡ gap_at views.now.private placed extent) }
{
    let len = size(read_extent(views, extent).len);
    let mut blocks = blocks_at(alloc, map, extent)?;
    gap_in(
        extent.1 + EXTENT_HEADER_LEN as u32,
        &mut blocks,
        extent.1 + len,
    )
}

/// Phase `tiling`: the first place, extent by extent, where the blocks at some places don't follow one another.
pub fn first_gap_of(
    alloc: Global,
    views: &Views,
    placed: &[(u32, u32)],
    extents: &[(u32, u32)],
) -> Result<Option<(u32, u32)>, AllocError>
    requires once { once placed.now ≡ true }
    requires blocks { (p : Place) → has placed.now p ≡ true → p.1 + 16 ≤ length (bytes_at views.now.private p.0) }
    requires extents { (p : Place) → has extents.now p ≡ true → InFile views.now.private p }
    ensures { IfOk result (λ at. at ≡ first_gap_of views.now.private placed.now extents.now) }
{
    let map = blocks_by_extent(alloc, views, placed)?;
    for i in 0..extents.len() {
        let extent = extents[i];
        if let Some(at) = extent_gap(alloc, views, &map, extent)? {
            return Ok(Some((extent.0, at)));
        }
    }
    Ok(None)
}
