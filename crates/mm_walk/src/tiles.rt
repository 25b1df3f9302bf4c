//! Blocks that fill an extent without a gap.

ghost use Rattle.std.specs.Prelude.{◌≡◌, List, IfOk};
ghost use Rattle.std.specs.List.Sorted.{IsPermutation};
ghost use Rattle.mm_walk.specs.Tiles.{Block, IsRising, first_gap};

use std::alloc::AllocError;

/// The first place where blocks, by their places, don't fill what is between two places.
pub fn first_gap(from: u32, blocks: &[(u32, u32)], end: u32) -> Option<u32>
    ensures { result ≡ first_gap from blocks.now end }
{
    let mut due = u64::from(from);
    for (at, len) in blocks {
        if due != u64::from(*at) {
            return Some(*at);
        }
        due = u64::from(*at) + u64::from(*len);
    }
    if due != u64::from(end) {
        return Some(end);
    }
    None
}

/// Puts blocks by their places, and finds the first place where they don't fill what is between two places.
pub fn gap_in(from: u32, blocks: &mut Vec<(u32, u32)>, end: u32) -> Result<Option<u32>, AllocError>
    ensures { IfOk result (λ gap. (bs : List Block) → IsPermutation blocks.old.items bs → IsRising bs → gap ≡ first_gap from bs end) }
{
    blocks.sort_by_key(|block| block.0)?;
    Ok(first_gap(from, blocks, end))
}
