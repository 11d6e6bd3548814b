//! Steps of a run.

use fp_digits::Moment;
use fp_frames::Frame;

/// A step of a link.
#[derive(Debug, Drop)]
pub enum Step {
    /// A message arrives.
    Post {
        /// The place of the table that the message is read with, 0 to 65,535, among the tables of the run. If there is
        /// no table in that place, the step is impossible.
        table: usize,
        /// The message, without its head.
        frame: Frame,
        /// The moment of the message.
        moment: Moment,
    },
    /// A message arrives at this moment, and memory runs out while it is read.
    Lost(Frame, Moment),
    /// The clock reaches this moment.
    Tick(Moment),
    /// A worker is free.
    Take,
    /// The turn of the dialogue with this local transaction identifier is served and given back.
    Give(u32),
    /// The turn of this dialogue is put back, not served.
    PutBack(u32),
    /// The link may send.
    Pick,
    /// The parcel was sent.
    Sent,
    /// The parcel couldn't be sent.
    Unsent,
    /// The link is gone.
    Down,
}
