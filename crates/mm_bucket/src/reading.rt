//! Whether bytes are laid out as a bucket's.

ghost use Rattle.std.specs.Prelude.{◌≡◌, ◌↔◌, ◌+◌, ◌-◌, ◌*◌, ◌≤◌, ◌<◌, ℕ, pos, List, Bool, IsTrue, IfSome, IfNone, length, ◌||◌};
ghost use Rattle.mm_base.specs.Bytes.{part};
ghost use Rattle.mm_base.specs.Fields.{u32_of};
ghost use Rattle.mm_frames.specs.KeyNode.{key_node_of};
ghost use Rattle.mm_bucket.specs.Layout.{Laid, pair_of, pairs_in, slots};
ghost use Rattle.mm_bucket.specs.Marks.{mark, is_in, AreFree, AreMarked, IsKeyAt, Front, IsCounted};

use crate::bucket::{BODY_LEN, BUCKET_LEN};
use mm_base::{frame, read_u32};
use mm_frames::{BUCKET_FLAGS, BUCKET_HEADER_LEN, BucketHeader, KEY_NODE_LEN, read_key_node};
use mm_keys::{MAX_KEY_LEN, is_key};

/// The fewest bytes that a key has.
const MIN_KEY_LEN: usize = 5;

/// A number of a header that is not below 0.
fn natural(number: i32) -> Option<usize>
    ensures some { IfSome result (λ n. number ≡ pos n) }
    ensures none { IfNone result ((n : ℕ) → number ≡ pos n → ⊥) }
{
    if number < 0 {
        None
    } else {
        Some(number as usize)
    }
}

/// How many pairs a header counts, and where in the body their keys begin.
pub fn counted(header: &BucketHeader) -> Option<(usize, usize)>
    ensures some { IfSome result (λ r. IsCounted header.now r.0 r.1) }
    ensures none { IfNone result ((n begin : ℕ) → IsCounted header.now n begin → ⊥) }
{
    if header.was_size != 0 || header.reserved_size != 0 || header.flags != BUCKET_FLAGS {
        return None;
    }
    let empty = natural(header.empty_size)?;
    let top = natural(header.top_size)?;
    let count = natural(header.n)?;
    if KEY_NODE_LEN * count + empty + top == BODY_LEN {
        Some((count, BODY_LEN - top))
    } else {
        None
    }
}

/// How many bytes the key has that stands in a body at an offset, if a key stands there.
fn key_at(bytes: &[u8; BUCKET_LEN], ofs: u16) -> Option<usize>
    ensures some { IfSome result (λ n. IsKeyAt bytes.now ofs (part (40 + ofs) n bytes.now)) }
    ensures len { IfSome result (λ n. n ≡ u32_of (part (40 + ofs) 4 bytes.now)) }
    ensures inside { IfSome result (λ n. ofs + n ≤ 8152) }
    ensures none { IfNone result ((key : List ℕ) → IsKeyAt bytes.now ofs key → ⊥) }
{
    let at = BUCKET_HEADER_LEN + ofs as usize;
    if BUCKET_LEN < at + MIN_KEY_LEN {
        return None;
    }
    let len = read_u32(bytes, at) as usize;
    if MAX_KEY_LEN < len || BUCKET_LEN < at + len {
        return None;
    }
    if is_key(frame(bytes, at, len)) {
        Some(len)
    } else {
        None
    }
}

fn is_free(taken: &[bool], from: usize, len: usize) -> bool
    requires { from + len ≤ length taken.now }
    ensures { IsTrue result ↔ AreFree taken.now from len }
{
    for q in from..from + len {
        if taken[q] {
            return false;
        }
    }
    true
}

fn take(taken: &mut [bool], from: usize, len: usize)
    requires { from + len ≤ length taken.old }
    ensures taken { (q : ℕ) → mark taken.new q ≡ (is_in from len q || mark taken.old q) }
    ensures len { length taken.new ≡ length taken.old }
{
    for q in from..from + len {
        taken[q] = true;
    }
}

/// Takes bytes of a body for a key, if they are free.
fn claim(taken: &mut [bool; BODY_LEN], from: usize, len: usize) -> bool
    requires { from + len ≤ 8152 }
    ensures free { IsTrue result ↔ AreFree taken.old from len }
    ensures taken { IsTrue result → (q : ℕ) → mark taken.new q ≡ (is_in from len q || mark taken.old q) }
{
    if is_free(taken, from, len) {
        take(taken, from, len);
        true
    } else {
        false
    }
}

/// Looks at one pair behind those that are known, and gives its key's length.
fn next_pair(
    bytes: &[u8; BUCKET_LEN],
    taken: &mut [bool; BODY_LEN],
    place: usize,
    begin: usize,
) -> Option<usize>
    requires room { 18 * (place + 1) ≤ begin }
    requires inside { begin ≤ 8152 }
    ensures len { IfSome result (λ n. n ≡ u32_of (part (40 + (key_node_of (part (40 + 18 * place) 18 bytes.now)).key_ofs) 4 bytes.now)) }
    ensures some { IfSome result (λ n. Front bytes.now begin place → AreMarked taken.old (slots bytes.now 40 (pairs_in bytes.now 40 place))
        → Front bytes.now begin (place + 1) × AreMarked taken.new (slots bytes.now 40 (pairs_in bytes.now 40 (place + 1)))) }
    ensures none { IfNone result (Front bytes.now begin place → AreMarked taken.old (slots bytes.now 40 (pairs_in bytes.now 40 place))
        → Front bytes.now begin (place + 1) → ⊥) }
{
    let node = read_key_node(bytes, BUCKET_HEADER_LEN + KEY_NODE_LEN * place);
    let from = node.key_ofs as usize;
    match key_at(bytes, node.key_ofs) {
        None => None,
        Some(len) => {
            if begin <= from && claim(taken, from, len) {
                Some(len)
            } else {
                None
            }
        }
    }
}

/// Whether so many pairs are laid out in a bucket's bytes, their keys filling the body from `begin` on.
pub fn are_laid(bytes: &[u8; BUCKET_LEN], count: usize, begin: usize) -> bool
    requires room { 18 * count ≤ begin }
    requires inside { begin ≤ 8152 }
    ensures { IsTrue result ↔ Laid bytes.now begin (pairs_in bytes.now 40 count) }
{
    let mut taken = [false; BODY_LEN];
    let mut left = BODY_LEN - begin;
    for i in 0..count {
        match next_pair(bytes, &mut taken, i, begin) {
            None => return false,
            Some(len) => {
                if left < len {
                    return false;
                }
                left -= len;
            }
        }
    }
    left == 0
}
