//! The totals of a link.

/// The totals of a link, from its beginning.
#[derive(Clone, Copy, Debug, PartialEq, Eq)]
pub struct Totals {
    /// How many components the link accepted.
    pub accepted: u64,
    /// How many entries the link served.
    pub served: u64,
    /// How many frames of dialogues the link sent.
    pub sent: u64,
}
