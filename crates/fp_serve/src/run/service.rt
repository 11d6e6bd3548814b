//! The tables and names that the messages of a run are answered from.

use fp_apdu::Name;
use fp_hub::Tables;
use std::alloc::Global;

/// The tables and names that the messages of a run are answered from, on all its links.
#[derive(Clone, Copy)]
pub struct Service<'x> {
    /// The allocator of all memory that the run takes.
    pub alloc: Global,
    /// The records, which may be replaced meanwhile.
    pub tables: &'x Tables,
    /// The names of the application contexts that are accepted.
    pub contexts: &'x [Name],
}
