//! A bucket.

ghost use Rattle.std.specs.Prelude.{◌≡◌, ◌↔◌, ◌+◌, ◌-◌, ◌*◌, ◌≤◌, ◌<◌, ◌++◌, ◌∷◌, [], List, IsTrue, IfSome, IfNone, length, take, drop, insert, remove};
ghost use Rattle.std.specs.List.{AllByRecursion};
ghost use Rattle.mm_base.specs.Places.{null};
ghost use Rattle.mm_bucket.specs.Pairs.{Pair, Contents, IsKey, HasKey, Fits, HasRoom, size, pair_at, with_left};
ghost use Rattle.mm_bucket.specs.Layout.{Spells, Built, Held};
ghost use Rattle.mm_bucket.specs.Rules.{children, Agrees, AreAlike, IsBucket};

use crate::builder::Builder;
use crate::reading::{are_laid, counted};
use mm_base::{DiskLoc, frame, read_u32};
use mm_frames::{
    BUCKET_FLAGS, BUCKET_HEADER_LEN, BucketHeader, KEY_NODE_LEN, KeyNode, put_bucket_header,
    read_bucket_header, read_key_node,
};
use std::marker::Model;

/// The length of a bucket, in bytes.
pub const BUCKET_LEN: usize = 8192;

/// The length of a bucket's body, in bytes.
pub const BODY_LEN: usize = 8152;

/// Half of a bucket's body.
const HALF: usize = 4076;

/// Writes the header of a bucket with so many pairs.
fn put_head(bytes: &mut [u8], count: usize, begin: usize, parent: DiskLoc, next: DiskLoc)
    requires whole { length bytes.old ≡ 8192 }
    requires room { 18 * count ≤ begin }
    requires inside { begin ≤ 8152 }
    ensures { (ps : List Pair) → Built bytes.old count begin ps
        → Held bytes.new count begin (record { parent = parent; pairs = ps; next = next }) }
{
    let header = BucketHeader {
        parent,
        next_child: next,
        was_size: 0,
        reserved_size: 0,
        flags: BUCKET_FLAGS,
        empty_size: (begin - KEY_NODE_LEN * count) as i32,
        top_size: (BODY_LEN - begin) as i32,
        n: count as i32,
    };
    put_bucket_header(bytes, 0, &header);
}

/// A bucket, seen as what it holds.
#[derive(Drop)]
pub struct Bucket {
    bytes: [u8; BUCKET_LEN],
    count: usize,
    begin: usize,
    parent: DiskLoc,
    next: DiskLoc,
}

impl Model for Bucket {
    ghost use Rattle.mm_bucket.specs.Pairs.{Contents};
    ghost use Rattle.mm_bucket.specs.Layout.{pairs_in, Held};

    ghost Value = { Contents };

    ghost view = { λ b. record { parent = b.parent; pairs = pairs_in b.bytes 40 b.count; next = b.next } };

    ghost invariant = { λ b. Held b.bytes b.count b.begin (record { parent = b.parent; pairs = pairs_in b.bytes 40 b.count; next = b.next }) };
}

impl Builder {
    /// The bucket of these pairs.
    fn finish(self, parent: DiskLoc, next: DiskLoc) -> Bucket
        ensures { result ≡ record { parent = parent; pairs = self; next = next } }
    {
        let mut bytes = self.bytes;
        put_head(&mut bytes, self.count, self.begin, parent, next);
        Bucket {
            bytes,
            count: self.count,
            begin: self.begin,
            parent,
            next,
        }
    }

    /// Puts some pairs of a bucket behind the others: those from one place up to another.
    fn append(&mut self, other: &Bucket, from: usize, to: usize)
        requires order { from ≤ to }
        requires inside { to ≤ length other.now.pairs }
        requires fits { Fits (self.old ++ take (to - from) (drop from other.now.pairs)) }
        ensures { self.new ≡ self.old ++ take (to - from) (drop from other.now.pairs) }
    {
        for i in from..to {
            self.push(other.left(i), other.rec(i), other.key(i));
        }
    }
}

/// Whether a child is null as the children of a leaf are, or none where it is no leaf.
fn agrees(child: DiskLoc, leaf: bool) -> bool
    ensures { IsTrue result ↔ Agrees leaf child }
{
    child.is_null() == leaf
}

impl Bucket {
    /// The bucket that the bytes are, if the format's rules of one bucket hold of them, the order of the pairs apart.
    pub fn read(bytes: &[u8; BUCKET_LEN]) -> Option<Bucket>
        ensures some { IfSome result (λ b. Spells bytes.now b × IsBucket b) }
        ensures none { IfNone result ((b : Contents) → Spells bytes.now b → IsBucket b → ⊥) }
    {
        match Bucket::spelled(bytes) {
            None => None,
            Some(bucket) => {
                if bucket.keeps_rules() {
                    Some(bucket)
                } else {
                    None
                }
            }
        }
    }

    /// The bucket that the bytes spell, whatever its children and its parent are: as `read`, but a bucket without pairs may have a parent
    /// and a child, as one has that is about to be merged.
    pub fn spelled(bytes: &[u8; BUCKET_LEN]) -> Option<Bucket>
        ensures some { IfSome result (Spells bytes.now) }
        ensures none { IfNone result ((b : Contents) → Spells bytes.now b → ⊥) }
    {
        let header = read_bucket_header(bytes, 0);
        match counted(&header) {
            None => None,
            Some((count, begin)) => {
                if are_laid(bytes, count, begin) {
                    Some(Bucket {
                        bytes: *bytes,
                        count,
                        begin,
                        parent: header.parent,
                        next: header.next_child,
                    })
                } else {
                    None
                }
            }
        }
    }

    /// Whether all children are null, or none is.
    fn has_like_children(&self) -> bool
        ensures { IsTrue result ↔ AreAlike (children self.now) }
    {
        let leaf = self.next().is_null();
        for i in 0..self.len() {
            if !agrees(self.left(i), leaf) {
                return false;
            }
        }
        true
    }

    fn keeps_rules(&self) -> bool
        ensures { IsTrue result ↔ IsBucket self.now }
    {
        if self.len() == 0 {
            self.parent().is_null() && self.next().is_null()
        } else {
            self.has_like_children()
        }
    }

    /// A leaf without pairs under this parent.
    pub fn new(parent: DiskLoc) -> Bucket
        ensures { result ≡ record { parent = parent; pairs = []; next = null } }
    {
        Builder::new().finish(parent, DiskLoc::NULL)
    }

    /// How many pairs it has.
    pub fn len(&self) -> usize
        ensures len { result ≡ length self.now.pairs }
        ensures fits { Fits self.now.pairs }
        ensures keys { AllByRecursion HasKey self.now.pairs }
    {
        self.count
    }

    /// The bucket above, or null in the root.
    pub fn parent(&self) -> DiskLoc
        ensures { result ≡ self.now.parent }
    {
        self.parent
    }

    /// The child behind all pairs, or null in a leaf.
    pub fn next(&self) -> DiskLoc
        ensures { result ≡ self.now.next }
    {
        self.next
    }

    /// The bytes, which spell what it holds.
    pub fn bytes(&self) -> &[u8; BUCKET_LEN]
        ensures { Spells result.now self.now }
    {
        &self.bytes
    }

    /// The node of a pair.
    fn node(&self, place: usize) -> KeyNode
        requires { place < length self.now.pairs }
        ensures left { result.left ≡ (pair_at self.now.pairs place).left }
        ensures rec { result.rec ≡ (pair_at self.now.pairs place).rec }
    {
        read_key_node(&self.bytes, BUCKET_HEADER_LEN + KEY_NODE_LEN * place)
    }

    /// The child before a pair, or null in a leaf.
    pub fn left(&self, place: usize) -> DiskLoc
        requires { place < length self.now.pairs }
        ensures { result ≡ (pair_at self.now.pairs place).left }
    {
        self.node(place).left
    }

    /// The record that a pair names.
    pub fn rec(&self, place: usize) -> DiskLoc
        requires { place < length self.now.pairs }
        ensures { result ≡ (pair_at self.now.pairs place).rec }
    {
        self.node(place).rec
    }

    /// The key of a pair.
    pub fn key(&self, place: usize) -> &[u8]
        requires { place < length self.now.pairs }
        ensures is { result.now ≡ (pair_at self.now.pairs place).key }
        ensures key { IsKey result.now }
    {
        let node = read_key_node(&self.bytes, BUCKET_HEADER_LEN + KEY_NODE_LEN * place);
        let at = BUCKET_HEADER_LEN + node.key_ofs as usize;
        let len = read_u32(&self.bytes, at) as usize;
        frame(&self.bytes, at, len)
    }

    /// Whether another pair fits whose key has so many bytes.
    pub fn fits(&self, key_len: usize) -> bool
        ensures { IsTrue result ↔ (size self.now.pairs + (18 + key_len) ≤ 8152) }
    {
        let room = self.begin - KEY_NODE_LEN * self.count;
        KEY_NODE_LEN <= room && key_len <= room - KEY_NODE_LEN
    }

    /// Puts it under another parent.
    pub fn set_parent(&mut self, parent: DiskLoc)
        ensures { self.new ≡ record self.old { parent = parent } }
    {
        put_head(&mut self.bytes, self.count, self.begin, parent, self.next);
        self.parent = parent;
    }

    /// Gives it another last child.
    pub fn set_next(&mut self, next: DiskLoc)
        ensures { self.new ≡ record self.old { next = next } }
    {
        put_head(&mut self.bytes, self.count, self.begin, self.parent, next);
        self.next = next;
    }

    /// Puts another child before a pair.
    pub fn set_left(&mut self, place: usize, left: DiskLoc)
        requires { place < length self.old.pairs }
        ensures { self.new ≡ record self.old { pairs = with_left self.old.pairs place left } }
    {
        let pairs = self.len();
        let mut new = Builder::new();
        new.append(self, 0, place);
        new.push(left, self.rec(place), self.key(place));
        new.append(self, place + 1, pairs);
        *self = new.finish(self.parent(), self.next());
    }

    /// Puts a pair in at a place, with the child before it. The pairs from there on stand one place further.
    pub fn insert_at(&mut self, place: usize, key: &[u8], rec: DiskLoc, left: DiskLoc)
        requires place { place ≤ length self.old.pairs }
        requires key { IsKey key.now }
        requires fits { size self.old.pairs + (18 + length key.now) ≤ 8152 }
        ensures { self.new ≡ record self.old { pairs = insert self.old.pairs place (record { left = left; rec = rec; key = key.now }) } }
    {
        let pairs = self.len();
        let mut new = Builder::new();
        new.append(self, 0, place);
        new.push(left, rec, key);
        new.append(self, place, pairs);
        *self = new.finish(self.parent(), self.next());
    }

    /// Takes the pair at a place out, and the child before it.
    pub fn remove_at(&mut self, place: usize)
        requires { place < length self.old.pairs }
        ensures { self.new ≡ record self.old { pairs = remove self.old.pairs place } }
    {
        let pairs = self.len();
        let mut new = Builder::new();
        new.append(self, 0, place);
        new.append(self, place + 1, pairs);
        *self = new.finish(self.parent(), self.next());
    }

    /// Puts all that another bucket holds behind its own: the pairs, and the last child in place of its own.
    pub fn merge(&mut self, right: &Bucket)
        requires { Fits (self.old.pairs ++ right.now.pairs) }
        ensures { self.new ≡ record { parent = self.old.parent; pairs = self.old.pairs ++ right.now.pairs; next = right.now.next } }
    {
        let pairs = self.len();
        let mut new = Builder::new();
        new.append(self, 0, pairs);
        new.append(right, 0, right.len());
        *self = new.finish(self.parent(), right.next());
    }

    /// Where the bucket is to be parted: both parts then have room for another pair.
    fn cut(&self) -> usize
        requires { 3 ≤ length self.now.pairs }
        ensures some { 2 ≤ result }
        ensures more { result < length self.now.pairs }
        ensures left { HasRoom (take result self.now.pairs) }
        ensures right { HasRoom (drop result self.now.pairs) }
    {
        let last = self.len() - 1;
        let mut size = 0;
        for i in 0..last {
            if 2 <= i && HALF < size {
                return i;
            }
            size += KEY_NODE_LEN + self.key(i).len();
        }
        last
    }

    /// Parts the bucket in two: the pairs behind some place go into the other one, whose contents are lost. Gives the place of the last
    /// pair that stays, which is to go up: it may be taken out, since the child before it has become the last child here. Both parts keep
    /// room for another pair, whatever its key.
    pub fn split(&mut self, right: &mut Bucket) -> usize
        requires { 3 ≤ length self.old.pairs }
        ensures joined { self.old.pairs ≡ self.new.pairs ++ right.new.pairs }
        ensures last { result + 1 ≡ length self.new.pairs }
        ensures some { 1 ≤ result }
        ensures more { 1 ≤ length right.new.pairs }
        ensures left_room { HasRoom self.new.pairs }
        ensures right_room { HasRoom right.new.pairs }
        ensures next { self.new.next ≡ (pair_at self.old.pairs result).left }
        ensures right_next { right.new.next ≡ self.old.next }
        ensures parent { self.new.parent ≡ self.old.parent }
        ensures right_parent { right.new.parent ≡ self.old.parent }
    {
        let pairs = self.len();
        let cut = self.cut();
        let mut new_right = Builder::new();
        new_right.append(self, cut, pairs);
        let mut new_left = Builder::new();
        new_left.append(self, 0, cut);
        *right = new_right.finish(self.parent(), self.next());
        *self = new_left.finish(self.parent(), self.left(cut - 1));
        cut - 1
    }
}
