//! Laws of the check, each the contract of a function that does nothing.

ghost use Rattle.std.specs.Prelude.{◌≡◌, List, ℕ};
ghost use Rattle.mm_ranges.specs.Overlay.{Image};
ghost use Rattle.mm_links.specs.Links.{Place};
ghost use Rattle.mm_records.specs.Shape.{Shape};
ghost use Rattle.mm_check.specs.Findings.{Clear3, Clear9, IsClear};
ghost use Rattle.mm_check.specs.Standing.{HasNoDot, HasShape, found_shape, IsSameShape};

/// No phase up to `counts` finds anything exactly where points 1 to 5 of what stands hold of the files with some shape; and that shape is the
/// one that the walks find, so there is one alone. From the check to what stands it is said of databases whose name has no dot.
pub fn clear_where_some_shape_stands()
    ensures stands { (d : List ℕ) → HasNoDot d → (image : Image) → IsClear d image → (s : Shape) × HasShape d image s }
    ensures clear { (d : List ℕ) (image : Image) (s : Shape) → HasShape d image s → IsClear d image }
    ensures found { (d : List ℕ) → HasNoDot d → (image : Image) (found chains records blocks : List (List Place))
        → Clear3 d image found → Clear9 d image chains records blocks → HasShape d image (found_shape d image found chains records blocks) }
    ensures same { (d : List ℕ) (image : Image) (s : Shape) → HasShape d image s → (found chains records blocks : List (List Place))
        → Clear3 d image found → Clear9 d image chains records blocks → IsSameShape s (found_shape d image found chains records blocks) }
    ensures one { (d : List ℕ) (image : Image) (s t : Shape) → HasShape d image s → HasShape d image t → IsSameShape s t }
{}
