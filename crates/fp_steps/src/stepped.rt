//! The result of a step.

use crate::Output;
use fp_book::LoggedStep;

/// The answer of a step, and its line in the log of its link.
#[derive(Debug, Drop)]
pub struct Stepped {
    /// The answer.
    pub output: Output,
    /// The log line: `None` for the answers `NoRoom`, `Busy` and `Nothing`. There is one for every tick, even if no
    /// dialogue was due at it, though a log leaves that out.
    pub line: Option<LoggedStep>,
}
