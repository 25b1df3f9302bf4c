//! A pair and its right child, put into a bucket that is parted where it has no room.

ghost use Rattle.std.specs.Prelude.{◌≡◌, ◌+◌, ◌≤◌, length, IfSome, IfNone};
ghost use Rattle.mm_bucket.specs.Pairs.{IsKey, child_at, with_child, with_pair, IsParted};

use crate::bucket::Bucket;
use mm_base::DiskLoc;

impl Bucket {
    /// The child before a pair, or at the place after the last one the last child; null in a leaf.
    pub fn child(&self, place: usize) -> DiskLoc
        requires { place ≤ length self.now.pairs }
        ensures { result ≡ child_at self.now place }
    {
        if place == self.len() {
            self.next()
        } else {
            self.left(place)
        }
    }

    /// Puts another child there.
    pub fn set_child(&mut self, place: usize, child: DiskLoc)
        requires { place ≤ length self.old.pairs }
        ensures { self.new ≡ with_child self.old place child }
    {
        if place == self.len() {
            self.set_next(child);
        } else {
            self.set_left(place, child);
        }
    }

    /// Puts a pair in at a place, between the child that is there and `after`, null in a leaf. Where it doesn't fit, the bucket is parted:
    /// the pairs behind some place go into the other bucket, whose contents are lost, and the answer is the place of the last pair that
    /// stays. That pair is to go up, and may be taken out, since the child before it has become the last child here.
    pub fn put(
        &mut self,
        place: usize,
        key: &[u8],
        rec: DiskLoc,
        after: DiskLoc,
        right: &mut Bucket,
    ) -> Option<usize>
        requires place { place ≤ length self.old.pairs }
        requires key { IsKey key.now }
        ensures whole { IfNone result (self.new ≡ with_pair self.old place key.now rec after) }
        ensures kept { IfNone result (right.new ≡ right.old) }
        ensures parted { IfSome result (λ _. IsParted (with_pair self.old place key.now rec after) self.new right.new) }
        ensures last { IfSome result (λ last. last + 1 ≡ length self.new.pairs) }
    {
        let before = self.child(place);
        self.set_child(place, after);
        if self.fits(key.len()) {
            self.insert_at(place, key, rec, before);
            return None;
        }
        let _pairs = self.len();
        let last = self.split(right);
        if place <= last {
            self.insert_at(place, key, rec, before);
            Some(last + 1)
        } else {
            right.insert_at(place - last - 1, key, rec, before);
            Some(last)
        }
    }
}
