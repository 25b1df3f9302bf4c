//! How many bytes are asked for.

ghost use Rattle.std.specs.Prelude.{◌≡◌, ℕ, ◌+◌, ◌%◌, ◌<◌, ◌≤◌, List};
ghost use Rattle.mm_records.specs.Shape.{Shape};
ghost use Rattle.mm_records.specs.InHand.{StandsWith};
ghost use Rattle.mm_records.specs.Map.{name_at};
ghost use Rattle.mm_records.specs.Asking as asking;
ghost use Rattle.mm_links.specs.Links.{last_of};
ghost use Rattle.mm_records.specs.Asking.{IsPower, IsWhole, IsAsked, base_at};
ghost use Rattle.mm_records.specs.declared.asking.Request.TheVariants.{Bucket};

use mm_extents::natural;
use mm_frames::Details;
use mm_views::Draft;

/// What a block is asked for.
#[derive(Clone, Copy, Debug, PartialEq, Eq)]
pub enum Request {
    /// A record, whose block has room to grow.
    Record,
    /// A bucket of a tree, of 8192 bytes.
    Bucket,
}

// The longest block that is a power of two.
const MAX_POWER_LEN: u32 = 4_194_304;

// What a bucket's block has, with its header.
const BUCKET_BLOCK_LEN: u32 = 8208;

// The least power of two from 32 on that is so long.
fn power_of(len: u32) -> u32
    requires { len ≤ 4194304 }
    ensures is { IsPower len result }
    ensures most { result ≤ 4194304 }
{
    let mut size = 32;
    for step in 0..18_u32 {
        if size >= len {
            return size;
        }
        size *= 2;
    }
    unreachable!()
}

// A length in whole MiB.
fn whole_of(len: u32) -> u32
    requires { len ≤ 67108880 }
    ensures is { IsWhole len result }
    ensures most { result ≤ 68157440 }
{
    (len + 1_048_575) / 1_048_576 * 1_048_576
}

// How many bytes a payload's block is asked to have.
pub(crate) fn asked_len(request: Request, len: u32) -> u32
    requires short { len ≤ 67108864 }
    requires bucket { request ≡ Bucket → len ≤ 8192 }
    ensures is { IsAsked request len result }
    ensures front { 32 ≤ result }
    ensures fits { len + 16 ≤ result }
    ensures most { result ≤ 68157440 }
{
    match request {
        Request::Bucket => BUCKET_BLOCK_LEN,
        Request::Record if len + 16 <= MAX_POWER_LEN => power_of(len + 16),
        Request::Record => whole_of(len + 16),
    }
}

// The least length of a namespace's next extent.
fn base_len(draft: &Draft, node: u32, counts: &Details) -> u32
    requires { (free : List ℕ) × ((s : Shape) × StandsWith draft.now.image free s node counts.now) }
    ensures is { (free : List ℕ) (s : Shape) → StandsWith draft.now.image free s node counts.now → result ≡ base_at s.heap (last_of (s.extents (name_at draft.now.image node))) }
    ensures most { result ≤ 8388608 }
{
    let _draft = draft;
    let _node = node;
    if counts.last_extent.is_null() {
        return 16_384;
    }
    (2 * natural(counts.last_extent_size)).min(8_388_608)
}

// How long the next extent of a namespace is, for a block of so many bytes.
pub(crate) fn extent_len(draft: &Draft, node: u32, counts: &Details, len: u32) -> u32
    requires stands { (free : List ℕ) × ((s : Shape) × StandsWith draft.now.image free s node counts.now) }
    requires short { len ≤ 68157440 }
    ensures is { (free : List ℕ) (s : Shape) → StandsWith draft.now.image free s node counts.now → result ≡ asking.extent_len s (name_at draft.now.image node) len }
    ensures pages { result % 4096 ≡ 0 }
    ensures some { 0 < result }
    ensures enough { len + 176 ≤ result }
{
    let least = base_len(draft, node, counts).max(len + 176);
    (least + 4095) / 4096 * 4096
}
