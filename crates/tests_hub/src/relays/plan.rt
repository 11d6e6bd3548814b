//! The messages of a link, and the values that its threads share beside the hub.

use crate::messages::{CALLS_COUNT, begin, long_begin};
use fp_frames::Frame;
use fp_records::Table;
use std::alloc::Global;
use std::sync::atomic::{AtomicBool, AtomicU32};

/// The messages of a link, and the ways of its threads.
#[derive(Clone, Copy)]
pub(crate) struct Plan {
    pub(crate) link: u8,
    pub(crate) workers: u8,
    // Whether the sender waits for its parcels until the link is down, in place of picking them. If it picks and there
    // is none, it looks again a millisecond later.
    pub(crate) is_awaited: bool,
    // Whether one hint follows all messages, in place of one after each.
    pub(crate) is_hinted_once: bool,
    // Whether all messages are posted in one hold, in place of one in each.
    pub(crate) is_one_hold: bool,
    // How many turns the thread that posts serves itself after such a hold, at most. If it serves any, it gives no hint
    // but those that its help gives.
    pub(crate) most_helped: usize,
    // Whether each message has sixteen calls, in place of one.
    pub(crate) is_long: bool,
    // How many milliseconds go by before each message.
    pub(crate) pause: u64,
    // Whether a message to a dialogue that doesn't exist is posted after all the others.
    pub(crate) has_stranger: bool,
    // How many messages, and the first identifier. Each other one is greater by this step.
    pub(crate) count: u32,
    pub(crate) first: u32,
    pub(crate) step: u32,
}

impl Plan {
    /// The identifier of a message. Messages aren't in the order of their identifiers.
    pub(crate) fn identifier(&self, number: u32) -> u32 {
        let place = number.wrapping_mul(617) % self.count.max(1);
        self.first.saturating_add(place.saturating_mul(self.step))
    }

    /// The local transaction identifier of the dialogue that a message opens, the numbers being from 0.
    pub(super) fn local(&self, number: u32) -> u32 {
        u32::from(self.link)
            .wrapping_mul(0x2000_0000)
            .wrapping_add(number)
            .wrapping_add(1)
    }

    /// How many calls the messages have, each of which is answered.
    pub(super) fn call_count(&self) -> u32 {
        let calls = if self.is_long { CALLS_COUNT } else { 1 };
        self.count.saturating_mul(calls as u32)
    }

    /// How many parcels are sent.
    pub(super) fn parcel_count(&self) -> u32 {
        self.call_count()
            .saturating_add(u32::from(self.has_stranger))
    }

    /// The frame of a message. `None`: out of memory.
    pub(super) fn frame(&self, alloc: Global, number: u32) -> Option<Frame> {
        if self.is_long {
            long_begin(alloc)
        } else {
            begin(alloc, self.identifier(number))
        }
    }
}

/// The marks that all threads of a link share.
#[derive(Drop)]
pub(crate) struct Marks {
    // The local transaction identifier of the second dialogue, and whether its frame was picked.
    pub(super) second: u32,
    pub(crate) is_second_picked: AtomicBool,
    // How many parcels were sent.
    pub(super) sent: AtomicU32,
}

impl Marks {
    /// Nothing of this plan was picked or sent.
    pub(crate) fn new(plan: Plan) -> Marks {
        Marks {
            second: plan.local(1),
            is_second_picked: AtomicBool::new(false),
            sent: AtomicU32::new(0),
        }
    }
}

/// The plan of a link, and the values that its threads share beside the hub.
#[derive(Clone, Copy)]
pub(super) struct Load<'x> {
    pub(super) alloc: Global,
    pub(super) table: &'x Table,
    pub(super) marks: &'x Marks,
    pub(super) plan: Plan,
}
