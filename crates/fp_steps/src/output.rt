//! Outputs of a run.

use bytes::Bytes;
use fp_book::{Given, Posted};

/// The answer of a step.
#[derive(Debug, Drop)]
pub enum Output {
    /// A message was posted.
    Posted {
        /// Its outcome.
        answer: Posted,
        /// How many components were accepted.
        components: u32,
    },
    /// The clock advanced.
    Ticked {
        /// How many dialogues were given a Clock.
        added: u32,
        /// How many dialogues that are due were left out because memory ran out.
        wanting: u32,
    },
    /// A turn is out.
    Took {
        /// The local transaction identifier of its dialogue.
        local: u32,
        /// The place of its first entry among those that the dialogue accepted, from 0.
        position: u64,
        /// How many entries it has.
        count: u32,
    },
    /// All places for frames are held.
    NoRoom,
    /// A turn was served and given back.
    Gave {
        /// The local transaction identifier of its dialogue.
        local: u32,
        /// The place of its first entry.
        position: u64,
        /// How many entries were served.
        served: u32,
        /// The outcome of their requests.
        given: Given,
    },
    /// A turn was put back, not served.
    WentBack,
    /// A parcel is out.
    Picked {
        /// The local transaction identifier of its dialogue, 0 for an Abort of the provider.
        local: u32,
        /// The frame that is to be sent, its head included.
        frame: Bytes,
    },
    /// A parcel is out already.
    Busy,
    /// The parcel was sent.
    Sent,
    /// The parcel wasn't sent, and the link is down.
    Unsent,
    /// The link is down.
    Down,
    /// The step was impossible, or there was nothing to do.
    Nothing,
}
