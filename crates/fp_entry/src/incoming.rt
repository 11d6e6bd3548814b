//! The entries of a readable message.

use crate::Entries;

/// The entries of a readable message.
#[derive(Debug, Drop)]
pub struct Incoming {
    /// The entries, in their order.
    pub entries: Entries,
    /// The number of elements in its component portion. All of them count, also those after a faulty component, which
    /// are never delivered.
    pub elements: usize,
}
