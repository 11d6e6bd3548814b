//! The answer to the clock of a link in one hold.

use fp_book::Status;

/// The book of a link after a tick.
#[derive(Clone, Copy, Debug, PartialEq, Eq)]
pub struct AfterTick {
    /// The status of the link.
    pub status: Status,
    /// How many entries the dialogues of the link keep.
    pub entry_count: u64,
}
