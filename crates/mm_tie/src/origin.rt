//! What the durable side asks of a database that it takes closed groups from.

ghost use Rattle.std.specs.Prelude.{◌≡◌, ℕ, ◌<◌, ◌++◌, ◌∷◌, [], List, Bool, true, length};
ghost use Rattle.mm_ranges.specs.Overlay.{Image};
ghost use Rattle.mm_ranges.specs.declared.part.Closed.{Closed as Item};
ghost use Rattle.mm_views.specs.State.{State};
ghost use Rattle.mm_tie.specs.Ends.{Ring, taken, taker_ring, taker_room};
ghost use Rattle.mm_tie.specs.Items.{image_of, up_to, Follows};

use crate::ends::Taker;
use mm_ranges::Closed;
use mm_views::Views;

/// The end by which the items of one database are taken.
pub type Feed = Taker<Closed>;

/// A database, as the durable side sees it: it gives one item for each closed group.
pub trait Origin {
    /// The items that it gave, oldest first. Item 0 is its files as they were loaded.
    ghost given: { Self → List Item };

    /// The most items that it may give.
    ghost most: { Self → ℕ };

    /// The ring of its own feed.
    ghost own_ring: { Self → Ring };

    /// It has what it needs to close a group.
    ghost is_ready: { Self → Bool };

    /// The section of the last closed group that is applied to its shared image, or that of item 0.
    ghost applied_to: { Self → ℕ };

    /// Its views.
    ghost viewed: { Self → State };

    /// What a close keeps of all else that it knows.
    ghost closes: { Self → Self → Type 0 };

    /// Closes the opened group: gives the next item, and answers it. It takes no memory.
    fn close(&mut self, feed: &mut Feed) -> Closed
        requires ready { is_ready self.old ≡ true }
        requires room { length (given self.old) < most self.old }
        requires own { taker_ring feed.old ≡ own_ring self.old }
        ensures given { given self.new ≡ given self.old ++ result ∷ [] }
        ensures taken { taken feed.new ≡ taken feed.old ++ result ∷ [] }
        ensures follows { Follows (given self.old) result }
        ensures closes { closes self.old self.new }
        ensures most { most self.new ≡ most self.old }
        ensures own { own_ring self.new ≡ own_ring self.old }
        ensures ring { (taker_ring feed.new ≡ taker_ring feed.old) × (taker_room feed.new ≡ taker_room feed.old) };

    /// With its own feed in hand, what it gave is what was taken, and its shared image is that of the items up to the applied one. Nothing
    /// changes, and it takes no memory.
    fn agree(&mut self, feed: &mut Feed)
        requires { taker_ring feed.old ≡ own_ring self.old }
        ensures agree { given self.old ≡ taken feed.old }
        ensures shared { (viewed self.old).shared ≡ image_of (up_to (applied_to self.old) (given self.old)) }
        ensures same { self.new ≡ self.old }
        ensures taken { taken feed.new ≡ taken feed.old }
        ensures ring { (taker_ring feed.new ≡ taker_ring feed.old) × (taker_room feed.new ≡ taker_room feed.old) };

    /// The section of the last applied group. It takes no memory.
    fn applied(&self) -> u64
        ensures { result ≡ applied_to self.now };

    /// The views. It takes no memory.
    fn views(&self) -> &Views
        ensures { result.now ≡ viewed self.now };
}
