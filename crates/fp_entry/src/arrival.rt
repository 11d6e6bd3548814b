//! The arrival of a frame.

ghost use Rattle.std.specs.Prelude.{◌≡◌};
ghost use Rattle.fp_entry.specs.Arrival.{IsArrival};

use fp_digits::Moment;
use fp_frames::Frame;
use fp_q773::{Ids, ids_of};

/// A received frame with its moment, the index of its table, and the identifiers in its octets, whether they are a
/// message or not.
#[derive(Debug, Drop)]
pub struct Arrival {
    /// The frame.
    pub frame: Frame,
    /// The moment of its receipt.
    pub moment: Moment,
    /// The index of the table with the records for this message, among the tables of the run
    /// ([`Table::index`](fp_records::Table::index)). In a lost message nothing reads it.
    pub table: u16,
    /// The kind of the message and its transaction identifiers, as far as the octets have them (Q.773, 4.2.1).
    pub ids: Ids,
}

impl Arrival {
    /// The arrival of this frame at this moment, for the table with this index, with the identifiers in its octets.
    /// Takes no memory.
    #[inline(always)]
    pub fn new(frame: Frame, moment: Moment, table: u16) -> Arrival
        ensures arrival { IsArrival frame moment result }
        ensures table { result.table ≡ table }
    {
        let ids = ids_of(frame.octets());
        Arrival {
            frame,
            moment,
            table,
            ids,
        }
    }
}
