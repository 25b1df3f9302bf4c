//! What holds of every index.

ghost use Rattle.std.specs.Prelude.{ℕ, ◌+◌, ◌^◌, ◌≤◌, List, length};
ghost use Rattle.mm_bson.specs.Tree.{Elements};
ghost use Rattle.mm_ranges.specs.Overlay.{Image};
ghost use Rattle.mm_btree.specs.Nodes.{Item};
ghost use Rattle.mm_trees.specs.Indexes.{HasIndex};

/// An index has at most 15 levels of buckets, since eight files hold 65,528 at the most, and a tree of height h has 2 to the power of h + 1, but
/// for one. It has 2 to the power of its height pairs or more, but for one.
pub fn indexes_are_low()
    ensures levels { (image : Image) (node owner position : ℕ) (spec : Elements) (pairs : List Item) (index : HasIndex image node owner position spec pairs) → index.height ≤ 14 }
    ensures pairs { (image : Image) (node owner position : ℕ) (spec : Elements) (pairs : List Item) (index : HasIndex image node owner position spec pairs) → 2 ^ index.height ≤ length pairs + 1 }
{}
