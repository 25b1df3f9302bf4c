//! A section: what one group commit changed, per database.

ghost use Rattle.std.specs.Prelude.{◌≡◌};

use mm_ranges::Part;
use std::marker::Model;

/// Parts, seen as their list.
#[derive(Drop)]
pub struct PartList {
    items: Vec<Part>,
}

impl Model for PartList {
    ghost use Rattle.std.specs.Prelude.{List};
    ghost use Rattle.mm_ranges.specs.declared.part.Part.{Part};

    ghost Value = { List Part };

    ghost view = { λ p. p.items.items };
}

impl PartList {
    pub fn new(items: Vec<Part>) -> PartList
        ensures { result ≡ items.items }
    {
        PartList { items }
    }

    pub fn as_slice(&self) -> &[Part]
        ensures { result.now ≡ self.now }
    {
        &self.items
    }
}

/// What one group commit changed, by its number.
#[derive(Drop)]
pub struct Section {
    pub number: u64,
    /// A part for each database that it changed, in rising order of their names.
    pub parts: PartList,
}
