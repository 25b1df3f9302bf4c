//! Why a document is no filter.

ghost use Rattle.std.specs.Prelude.{◌≡◌};
ghost use Rattle.mm_query.specs.declared.fault.FilterFault.TheVariants.{NoMemory};

use mm_bson::Text;
use std::alloc::AllocError;
use std::fmt;
use thiserror::Error;

/// Why a document is no filter: the first wrong operator in reading order.
#[derive(Drop, Error)]
pub enum FilterFault {
    #[error("the operator {} is wrong", name.as_str())]
    BadOperator { name: Text },
    #[error("out of memory")]
    NoMemory,
}

impl fmt::Debug for FilterFault {
    fn fmt<W: fmt::Write>(&self, f: &mut fmt::Formatter<W>) -> fmt::Result {
        write!(f, "{self}")
    }
}

impl From<AllocError> for FilterFault {
    ghost from_gives = { λ _ e. e ≡ NoMemory };

    fn from(_e: AllocError) -> FilterFault {
        FilterFault::NoMemory
    }
}
