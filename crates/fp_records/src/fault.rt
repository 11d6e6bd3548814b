//! Why a text isn't a table of records.

ghost use Rattle.std.specs.Prelude.{◌≡◌};
ghost use Rattle.fp_records.specs.declared.fault.RecordsFault.TheVariants.{Memory};

use std::alloc::{AllocError, AllocFailed};
use thiserror::Error;

/// The fault of a record.
#[derive(Clone, Copy, Debug, PartialEq, Eq, Error)]
pub enum Reason {
    /// The first record begins with `fprecords` and isn't `fprecords,2`.
    #[error("BadVersion")]
    BadVersion,
    /// The first record, or in version 2 the second, isn't `key,SERVICEKEY,OFFSET`, or is missing.
    #[error("BadHead")]
    BadHead,
    /// A rule has fewer than seven fields, or a number of destinations that its action doesn't take.
    #[error("FieldCount")]
    FieldCount,
    /// The number isn't 1 to 15 decimal digits.
    #[error("BadNumber")]
    BadNumber,
    /// The prefix isn't 0 to 15 decimal digits.
    #[error("BadPrefix")]
    BadPrefix,
    /// The days aren't one or more of the digits 1 to 7, rising.
    #[error("BadDays")]
    BadDays,
    /// A time isn't `HH:MM` in its range, or the two are the same.
    #[error("BadTime")]
    BadTime,
    /// The weight isn't 1 to 1000.
    #[error("BadWeight")]
    BadWeight,
    /// The action isn't `route`, `refuse` or `pass`.
    #[error("BadAction")]
    BadAction,
    /// A destination isn't 1 to 15 decimal digits.
    #[error("BadDestination")]
    BadDestination,
    /// A closed day isn't `closed,NUMBER,YYYY-MM-DD` with a number of 1 to 15 decimal digits and a date of the calendar
    /// from 1969-12-31 to 2100-01-01.
    #[error("BadClosed")]
    BadClosed,
    /// For a rule: the file already has 100,000 rules, or 1,000 of this number. For a closed day: the file already has
    /// 10,000 closed days.
    #[error("TooMany")]
    TooMany,
}

/// Why a text isn't a table.
#[derive(Clone, Copy, Debug, PartialEq, Eq, Error)]
pub enum RecordsFault {
    /// A faulty record, the first one of the text.
    #[error("record {at}: {reason}")]
    Record {
        /// Its number: the first record is 1. Empty lines are no records.
        at: usize,
        /// Its fault.
        reason: Reason,
    },
    /// Memory ran out.
    #[error("out of memory")]
    Memory,
}

impl From<AllocError> for RecordsFault {
    ghost from_gives = { λ _ fault. fault ≡ Memory };

    fn from(_error: AllocError) -> RecordsFault {
        RecordsFault::Memory
    }
}

impl<T: Drop> From<AllocFailed<T>> for RecordsFault {
    ghost from_gives = { λ _ fault. fault ≡ Memory };

    fn from(_error: AllocFailed<T>) -> RecordsFault {
        RecordsFault::Memory
    }
}
