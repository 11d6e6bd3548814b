//! A report on a records file: all faults of its records, each with its line and its field; or, for a file without
//! faults, contents that are allowed but may be a slip.
//!
//! This layer takes the text of a file and an allocator. It never asks the system for anything.
//!
//! - [`Survey`] is the records of a file with its faults. [`Survey::read`] finds them, and [`Survey::write`] writes the
//!   report as text.
//! - [`Fault`] is a fault of a record, with its [`Part`] and its [`Reason`](fp_records::Reason).
//!
//! The report on a file without faults has lines for four kinds of slips:
//!
//! - minutes of the week without a rule for all callers of a number;
//! - rules that are there twice;
//! - rules that no call from a number of 15 digits gets, since rules with longer prefixes take all its callers. For
//!   example, a rule with the prefix 30 gets no such call if ten rules with the prefixes 300 to 309 hold at all its
//!   hours;
//! - closed days of numbers without rules.
//!
//! No rule of the format is written a second time here: to check a field, [`Table::read`](fp_records::Table::read) gets
//! a file with that field in an otherwise good record (`alone`).
//!
//! The layer above may rely on this: the faults are the ones of `specs/Faults.antt`, by the definitions of
//! `fp_records`. The first of them is the fault of `Table::read`, and there is none if that returns a table. Gaps of a
//! week and rules without callers follow `specs/Week.antt` and `specs/Reach.antt`. Tests cover the rest: the grouping
//! of the rules by number, the lines and the text.
#![tactic(auto)]

mod alone;
mod fault;
mod faults;
mod fields;
mod lines;
mod reach;
mod report;
mod row;
mod rows;
mod rules;
mod shown;
mod survey;
mod week;

pub use crate::fault::{Fault, Part};
pub use crate::survey::Survey;
