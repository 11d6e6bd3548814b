//! The status of a link.

use crate::Totals;

/// The status of a link.
#[derive(Clone, Copy, Debug, PartialEq, Eq)]
pub struct Status {
    /// Whether the link is down.
    pub is_down: bool,
    /// The totals of the link.
    pub totals: Totals,
    /// How many dialogues the link holds.
    pub dialogues: usize,
    /// How many places for frames are held, of [`Outbox::MOST_FRAMES`](crate::Outbox::MOST_FRAMES): by frames that wait,
    /// by the frame that is being sent, and by entries that are out.
    pub places: usize,
}
