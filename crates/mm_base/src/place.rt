//! Where something lies: a file and an offset in it.

ghost use Rattle.std.specs.Prelude.{IsTrue};
ghost use Rattle.mm_base.specs.Nulls.{is_place};

/// A place: a file's number and an offset in it. The null place is file -1, and its offset is 0.
#[derive(Clone, Copy, Debug, PartialEq, Eq, PartialOrd, Ord)]
pub struct DiskLoc {
    pub file: i32,
    pub ofs: i32,
    ghost known: { IsTrue (is_place file ofs) },
}

impl DiskLoc {
    ghost use Rattle.std.specs.Prelude.{◌≡◌, ◌↔◌};
    ghost use Rattle.mm_base.specs.Places.{null};

    pub const NULL: DiskLoc = DiskLoc { file: -1, ofs: 0 };

    /// Whether it is the null place.
    pub fn is_null(&self) -> bool
        ensures { IsTrue result ↔ (self.now ≡ null) }
    {
        self.file == -1
    }
}
