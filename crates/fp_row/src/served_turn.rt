//! Turns that were served in their place.

use crate::Requested;

/// The result of serving the next entries of a dialogue in its row. No turn of them is out.
#[derive(Debug, Drop)]
pub struct ServedTurn {
    /// The place of the first of the entries among those that the dialogue accepted, from 0.
    pub position: usize,
    /// How many entries there were: as many as their turn would have had.
    pub count: usize,
    /// How many of the entries were served: those up to the first after which the dialogue is over, or all.
    pub served: usize,
    /// The outcome of their requests.
    pub requested: Requested,
}
