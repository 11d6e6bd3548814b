//! The answer to a take.

use fp_row::Turn;

/// The answer to a take.
#[must_use]
#[derive(Debug)]
pub enum Taken {
    /// The turn of the dialogue that has been ready longest.
    Turn(Turn),
    /// No dialogue is ready.
    Nothing,
    /// All places for frames are held.
    NoRoom,
    /// Memory ran out for a copy of the entries and of the core.
    Memory,
}
