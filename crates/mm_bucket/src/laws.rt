//! Laws of the definitions, each the contract of a function that does nothing.

ghost use Rattle.std.specs.Prelude.{◌≡◌, ◌-◌, ◌≤◌, ◌<◌, ℕ, List, IsTrue};
ghost use Rattle.mm_base.specs.Bytes.{overwritten};
ghost use Rattle.mm_base.specs.Places.{place_bytes};
ghost use Rattle.mm_bucket.specs.Pairs.{Contents, key_len};
ghost use Rattle.mm_bucket.specs.Layout.{Spells, slots};
ghost use Rattle.mm_bucket.specs.Marks.{is_covered};

use mm_base::DiskLoc;

/// The same bytes are one bucket.
pub fn spelled_once()
    ensures { (bytes : List ℕ) (a b : Contents) → Spells bytes a → Spells bytes b → a ≡ b }
{}

/// Where the parent's 8 bytes alone are written, the bytes are the same bucket under that parent.
pub fn parent_alone(parent: DiskLoc)
    ensures { (bytes : List ℕ) (b : Contents) → Spells bytes b
        → Spells (overwritten 0 (place_bytes parent) bytes) (record b { parent = parent }) }
{}

/// The keys fill the body's last bytes without a gap: each of these bytes, as many as the keys have, is one of a key.
pub fn keys_fill()
    ensures { (bytes : List ℕ) (b : Contents) (q : ℕ) → Spells bytes b → 8152 - key_len b.pairs ≤ q → q < 8152
        → IsTrue (is_covered (slots bytes 40 b.pairs) q) }
{}
