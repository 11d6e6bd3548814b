//! Why octets don't spell an element.

ghost use Rattle.std.specs.Prelude.{◌≡◌};
ghost use Rattle.fp_ber.specs.declared.fault.BerFault.TheVariants.{Memory};
ghost use Rattle.fp_ber.specs.declared.fault.NodesFault.TheVariants.{Fault};

use std::alloc::{AllocError, AllocFailed};
use thiserror::Error;

/// The first fault, from left to right, of octets that don't spell an element, or out of memory.
#[derive(Clone, Copy, Debug, PartialEq, Eq, Error)]
pub enum BerFault {
    /// The octets, or the definite contents of the parent, end inside an element or before its end of contents; or a
    /// definite length is greater than the rest of them.
    #[error("the octets end inside an element")]
    Cut,
    /// An indefinite length on a primitive element, or a first length octet of 85 to FF.
    #[error("a length in no form")]
    BadLength,
    /// Elements are nested more than sixteen deep.
    #[error("more than sixteen elements inside each other")]
    TooDeep,
    /// Zero bits at the front of a tag number in the high form, such a number below 31 or above 16,383, or number 0 of
    /// the universal class. For example, `1F 1E` (30 in the high form).
    #[error("a tag in no form")]
    BadTag,
    /// Octets after the element.
    #[error("octets after the element")]
    Trailing,
    /// An allocation failed. The octets may be right or wrong.
    #[error("out of memory")]
    Memory,
}

impl From<AllocError> for BerFault {
    ghost from_gives = { λ _ fault. fault ≡ Memory };

    fn from(_error: AllocError) -> BerFault {
        BerFault::Memory
    }
}

impl<T: Drop> From<AllocFailed<T>> for BerFault {
    ghost from_gives = { λ _ fault. fault ≡ Memory };

    fn from(_error: AllocFailed<T>) -> BerFault {
        BerFault::Memory
    }
}

/// Why octets weren't read into nodes.
#[derive(Clone, Copy, Debug, PartialEq, Eq, Error)]
pub enum NodesFault {
    /// The octets don't spell an element in range, and this is their first fault.
    #[error("{0}")]
    Fault(BerFault),
    /// The element has more nodes than there are places.
    #[error("more nodes than places")]
    Full,
}

impl From<BerFault> for NodesFault {
    ghost from_gives = { λ fault stop. stop ≡ Fault fault };

    fn from(fault: BerFault) -> NodesFault {
        NodesFault::Fault(fault)
    }
}
