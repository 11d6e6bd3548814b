//! The table's answer to a called number.

ghost use Rattle.std.specs.Prelude.{◌≡◌, IfOk};

use crate::SharedRecord;
use std::alloc::AllocError;

/// The table's answer to the called number of an InitialDP: the first of these that applies.
#[derive(Debug, PartialEq, Eq, Drop)]
pub enum Found {
    /// The service key or the called number is absent.
    Missing,
    /// The table has another service key.
    WrongKey,
    /// The table has no record for the number.
    NoRecord,
    /// The record for the number.
    Record(SharedRecord),
}

impl Found {
    /// A copy. The only error is out of memory, for one more share of a record.
    pub fn try_clone(&self) -> Result<Found, AllocError>
        ensures { IfOk result (λ copy. copy ≡ self.now) }
    {
        match self {
            Found::Missing => Ok(Found::Missing),
            Found::WrongKey => Ok(Found::WrongKey),
            Found::NoRecord => Ok(Found::NoRecord),
            Found::Record(shared) => Ok(Found::Record(shared.try_clone()?)),
        }
    }
}
