//! A fault of a records file.

use fp_records::Reason;

/// The part of a record that has a fault.
#[derive(Clone, Copy, Debug, PartialEq, Eq)]
pub enum Part {
    /// The whole record: it is missing, is one too many, or has the wrong number of fields.
    Whole,
    /// The field with this number, from 0.
    Field(usize),
    /// The times of a rule, which are the same.
    Times,
}

/// A fault of a record.
#[derive(Clone, Copy, Debug, PartialEq, Eq)]
pub struct Fault {
    /// The number of the record, from 1. Empty lines are no records.
    pub at: usize,
    /// The faulty part of the record.
    pub part: Part,
    /// The fault of this part.
    pub reason: Reason,
}
