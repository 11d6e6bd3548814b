//! Lines of the log.

use crate::{Given, Posted};
use fp_digits::Moment;
use fp_frames::Frame;

/// A line of the log.
#[derive(Debug, Drop)]
pub enum Line {
    /// The first line: how many links there are, and the tag of the run.
    Head {
        /// The number of links, 1 to 8.
        links: u8,
        /// The tag, 0 to 4,094; 0 for a run without one.
        tag: u16,
    },
    /// A step of a link, or a gap.
    Step {
        /// The link, 0 to 7.
        link: u8,
        /// The step.
        step: LoggedStep,
    },
}

/// A step of a link as the log has it. A dialogue is named by its birth: its number among those that its link opened,
/// from 1.
#[derive(Debug, Drop)]
pub enum LoggedStep {
    /// A message was posted.
    Post {
        /// The index of the table that the message was read with, among the tables of the run.
        table: u16,
        /// The moment of the message.
        moment: Moment,
        /// The message, without its head.
        message: Frame,
        /// The outcome of the message.
        answer: Posted,
    },
    /// A message was posted, and treated as lost because memory ran out for it.
    Lost {
        /// The moment of the message.
        moment: Moment,
        /// The message, without its head.
        message: Frame,
        /// The outcome of the message.
        answer: Posted,
    },
    /// A tick that found a dialogue due.
    Tick {
        /// The moment.
        moment: Moment,
        /// How many dialogues were given a Clock.
        added: u32,
        /// How many were left out because memory ran out.
        wanting: u32,
    },
    /// A turn was taken.
    Take {
        /// The birth of its dialogue.
        birth: u64,
        /// The place of its first entry among those that the dialogue accepted, from 0.
        position: u64,
        /// How many entries it has.
        count: u32,
    },
    /// A turn was given back, served.
    Give {
        /// The birth of its dialogue.
        birth: u64,
        /// The place of its first entry.
        position: u64,
        /// How many entries were served.
        served: u32,
        /// The outcome of their requests.
        given: Given,
    },
    /// A turn was put back, not served.
    PutBack {
        /// The birth of its dialogue.
        birth: u64,
        /// The place of its first entry.
        position: u64,
    },
    /// A parcel was picked.
    Pick {
        /// The birth of its dialogue, 0 for an Abort of the provider.
        birth: u64,
    },
    /// A parcel was sent.
    Sent {
        /// The birth of its dialogue, 0 for an Abort of the provider.
        birth: u64,
    },
    /// A parcel couldn't be sent.
    Unsent {
        /// The birth of its dialogue, 0 for an Abort of the provider.
        birth: u64,
    },
    /// The link went down.
    Down,
    /// A number of steps that are missing here.
    Gap {
        /// How many steps are missing, at most 2^64 - 1.
        lost: u64,
    },
}
