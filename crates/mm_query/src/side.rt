//! The two sides of bounds.

ghost use Rattle.std.specs.Prelude.{◌≡◌};
ghost use Rattle.mm_query.specs.Bounds.{opposite as opposite_of};

/// One of two bounds.
#[derive(Clone, Copy)]
pub(crate) enum Side {
    Low,
    High,
}

impl Side {
    pub(crate) fn opposite(self) -> Side
        ensures { result ≡ opposite_of self }
    {
        match self {
            Side::Low => Side::High,
            Side::High => Side::Low,
        }
    }
}
