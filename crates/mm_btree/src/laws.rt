//! Laws of trees, each the contract of a function that does nothing. They hold of any buckets, wherever they lie.

ghost use Rattle.std.specs.Prelude.{◌≡◌, ◌≢◌, ◌≤◌, ◌<◌, ◌++◌, ◌∷◌, [], ◌+◌, ◌-◌, ◌^◌, ℕ, suc, List, Bool, true, Option, Some, None, length, map, insert, remove};
ghost use Rattle.std.specs.List.{AllByRecursion};
ghost use Rattle.mm_base.specs.Places.{null};
ghost use Rattle.mm_base.specs.declared.place.DiskLoc.{DiskLoc};
ghost use Rattle.mm_bucket.specs.Pairs.{Pair, Contents, pair_at, with_pair, IsParted};
ghost use Rattle.mm_bucket.specs.Rules.{children, AreAlike};
ghost use Rattle.mm_btree.specs.Nodes.{Item, Node, Buckets, item_of, node_of};
ghost use Rattle.mm_btree.specs.Lists.{has, Distinct, ins, Sorted, Chains, Told};
ghost use Rattle.mm_btree.specs.Trees.{Sub, at_of, all_places, IsOver, Stands, Moves, Became, Pending, sub, Changed, Thinned, Beside};
ghost use Rattle.mm_btree.specs.Changes.{Up, IsSplit, IsSettled, roots_of, between_of, IsRejoined, roots_joined, between_joined, StandsAt, IsTree, rooted_map};
ghost use Rattle.mm_btree.specs.Costs.{insert_asks, insert_weighs, may_weigh, place_weighs, remove_asks, remove_weighs, requests};

/// A bucket's children go with its pairs: one is put in or taken out with its pair, and they are parted where the pairs are, the child
/// before the pair between being the last one of the left part. What `Bucket::put` makes has one pair and one child more, the child behind
/// the pair.
pub fn children_go_along()
    ensures inserted { (b : Contents) (i : ℕ) (p : Pair) → i ≤ length b.pairs
        → children (record b { pairs = insert b.pairs i p }) ≡ insert (children b) i p.left }
    ensures removed { (b : Contents) (i : ℕ) → i < length b.pairs
        → children (record b { pairs = remove b.pairs i }) ≡ remove (children b) i }
    ensures parted { (up : DiskLoc) (ps qs : List Pair) (mid : Pair) (last : DiskLoc)
        → children (record { parent = up; pairs = ps ++ mid ∷ qs; next = last })
        ≡ children (record { parent = up; pairs = ps; next = mid.left }) ++ children (record { parent = up; pairs = qs; next = last }) }
    ensures put { (b : Contents) (i : ℕ) (key : List ℕ) (rec after : DiskLoc) → i ≤ length b.pairs
        → children (with_pair b i key rec after) ≡ insert (children b) (suc i) after }
    ensures put_pairs { (b : Contents) (i : ℕ) (key : List ℕ) (rec after : DiskLoc) → i ≤ length b.pairs
        → map item_of (with_pair b i key rec after).pairs ≡ insert (map item_of b.pairs) i (record { key = key; rec = rec }) }
{}

/// Contents that were parted by `Bucket::put` are a node that is split in two, once the pair between is taken out of the left part.
pub fn parted_is_split()
    ensures { (whole left right : Contents) (last : ℕ) → IsParted whole left right → last + 1 ≡ length left.pairs → AreAlike (children whole)
        → IsSplit (node_of whole) (node_of (record left { pairs = remove left.pairs last })) (item_of (pair_at left.pairs last)) (node_of right) }
{}

/// A subtree stands in any buckets that are the same at its places, and a bucket stands at each of them.
pub fn stands_elsewhere()
    ensures same { (m n : Buckets) (up : DiskLoc) (least h : ℕ) (s : Sub) → ((q : DiskLoc) → has q s.places ≡ true → n q ≡ m q)
        → Stands m up least h s → Stands n up least h s }
    ensures some { (m : Buckets) (up : DiskLoc) (least h : ℕ) (s : Sub) → Stands m up least h s
        → (q : DiskLoc) → has q s.places ≡ true → m q ≢ None }
{}

/// A subtree of height h has 2 to the power of h buckets or more.
pub fn high_trees_are_large()
    ensures { (m : Buckets) (up : DiskLoc) (h : ℕ) (s : Sub) → Stands m up 1 h s → 2 ^ h ≤ length s.places }
{}

/// A tree of height h has 2 to the power of h pairs or more, but for one.
pub fn high_trees_have_many_pairs()
    ensures { (lt : Item → Item → Bool) (m : Buckets) (root : DiskLoc) (h : ℕ) (s : Sub) → IsTree lt m root h s → 2 ^ h ≤ length s.pairs + 1 }
{}

/// The places that a call asks for are no more than a command may ask for that adds or takes out this one key, in trees of at most 70 levels
/// and 34.
pub fn asks_within_demand()
    ensures insert { (lt : Item → Item → Bool) (m : Buckets) (root : DiskLoc) (h : ℕ) (s : Sub) → IsTree lt m root h s
        → h ≤ 70 → insert_asks h ≤ requests 1 (length s.pairs) (length s.pairs + 1) }
    ensures remove { (lt : Item → Item → Bool) (m : Buckets) (root : DiskLoc) (h : ℕ) (s : Sub) → IsTree lt m root h s
        → h ≤ 34 → remove_asks h ≤ requests 1 (length s.pairs) (length s.pairs - 1) }
    ensures make { (keys pairs : ℕ) → 1 ≤ requests keys 0 pairs }
{}

/// What a call declares weighs no more than the changes of an index may by a command that adds or takes out this one key, however high the
/// tree is.
pub fn weighs_within_cost()
    ensures insert { (lt : Item → Item → Bool) (m : Buckets) (root : DiskLoc) (h : ℕ) (s : Sub) → IsTree lt m root h s
        → insert_weighs h ≤ may_weigh (length s.places) (requests 1 (length s.pairs) (length s.pairs + 1)) }
    ensures remove { (lt : Item → Item → Bool) (m : Buckets) (root : DiskLoc) (h : ℕ) (s : Sub) → IsTree lt m root h s
        → remove_weighs h ≤ may_weigh (length s.places) (requests 1 (length s.pairs) (length s.pairs - 1)) }
    ensures make { (keys pairs : ℕ) → place_weighs ≤ may_weigh 0 (requests keys 0 pairs) }
{}

/// Some neighbours below a bucket have become others: the bucket above waits for their roots and the pairs between them, and its list
/// changes in the middle alone.
pub fn neighbours_changed()
    ensures { (m n : Buckets) (up : DiskLoc) (least h : ℕ) (s : Sub) (ps rs qs : List Item) (ls es bs : List Sub)
        (mine : List Item) (roots : List DiskLoc) (between : List Item) (ds : List Sub)
        → IsOver m up least s (ps ++ (rs ++ qs)) (ls ++ (es ++ bs)) → AllByRecursion (Stands m s.at 1 h) (ls ++ (es ++ bs))
        → length ls ≡ length ps → length es ≡ suc (length rs) → length bs ≡ length qs → Distinct s.places
        → Became m n s.at h (all_places es) mine roots between ds → length ds ≡ suc (length between)
        → Changed m n h s ps rs qs ls es bs mine between ds }
{}

/// A bucket that waits for pairs and subtrees is written whole, or as two with a pair going up: then the subtree has become one or two.
pub fn settled()
    ensures { (m n o : Buckets) (up at : DiskLoc) (h : ℕ) (old : List DiskLoc) (list ps : List Item) (cs : List Sub) → 1 ≤ length ps
        → Pending m n at h old list ps cs → n at ≢ None → (r : Option Up)
        → IsSettled n o at (record { parent = up; pairs = ps; kids = map at_of cs }) r
        → (ds : List Sub) × Became m o up h old list (roots_of at r) (between_of r) ds }
{}

/// A new root over the two that a root has become is a tree, one level higher.
pub fn rooted()
    ensures { (lt : Item → Item → Bool) (m n o : Buckets) (h : ℕ) (root p : DiskLoc) (old : List DiskLoc) (list : List Item) (u : Up) (ds : List Sub)
        → Became m n null h old list (root ∷ u.right ∷ []) (u.mid ∷ []) ds → Sorted lt list → n p ≡ None
        → ((q : DiskLoc) → o q ≡ rooted_map n p root u q)
        → StandsAt lt o null (suc h) (sub p (u.mid ∷ []) ds) p × Moves m o old (p ∷ all_places ds) }
{}

/// Two neighbours and the pair between them are joined in one, the right one freed, or parted anew with another pair between.
pub fn rejoined()
    ensures { (m n : Buckets) (up : DiskLoc) (h : ℕ) (mid : Item) (l r : Sub) (b c : Node) (result : Option Item)
        → Stands m up 0 h l → Stands m up 0 h r → Distinct (l.places ++ r.places) → m l.at ≡ Some b → m r.at ≡ Some c
        → IsRejoined m n l.at r.at b mid c result
        → (ds : List Sub) × Became m n up h (l.places ++ r.places) (l.pairs ++ mid ∷ r.pairs) (roots_joined l.at r.at result) (between_joined result) ds }
{}

/// A child has lost its last pair, and then was joined with the neighbour before it: both steps are one change of the two as they stood.
pub fn thinned_then_joined()
    ensures beside { (m n : Buckets) (up : DiskLoc) (h : ℕ) (l c t : Sub) → Stands m up 1 h l → Distinct (l.places ++ c.places)
        → Thinned m n up h c t → Beside m n up h l c t }
    ensures joined { (m n o : Buckets) (up : DiskLoc) (h : ℕ) (l c t : Sub) (list : List Item) (roots : List DiskLoc) (between : List Item) (ds : List Sub)
        → Beside m n up h l c t → Became n o up h (l.places ++ t.places) list roots between ds
        → Became m o up h (all_places (l ∷ c ∷ [])) list roots between ds }
{}

/// A list in order stays so with one more in its place.
pub fn order_is_kept()
    ensures { (lt : Item → Item → Bool) → Chains lt → (x : Item) (xs : List Item) → AllByRecursion (Told lt x) xs → Sorted lt xs → Sorted lt (ins lt x xs) }
{}
