//! How far the drain of a node is, by the reads of its link.
//!
//! A read of the link drives the network unless octets wait for the link, so one that comes after a read which left none
//! waiting does. Once such a read ends and no connection has the common unit any more, all octets that were read of one
//! wait for the link or were handed out. Before the next read that drives the network they were handed out, and their
//! messages were posted: no new dialogue begins by them.

ghost use Rattle.std.specs.Prelude.{◌≡◌, [], ◌∷◌, List};
ghost use Rattle.fp_serve.specs.Draining.{IsSeen, IsStage, is_over, left_none};

use fp_network::Drain;
use std::io;
use std::io::ErrorKind;
use std::sync::{Arc, Mutex, Wait};

/// The stage of a node's drain, after the command.
#[derive(Clone, Copy, Debug, PartialEq, Eq)]
pub(crate) enum DrainStage {
    /// The common connection isn't known to be closed.
    Open,
    /// The common connection is closed. Messages of it may wait to be read or posted.
    Closed,
    /// All messages of the common connection were posted.
    Over,
}

impl DrainStage {
    /// How far the drain is after one more read that drove the network.
    fn after_driving(self, reading: LinkReading) -> DrainStage
        ensures { (drove : List LinkReading) → IsStage self drove → IsStage result (reading ∷ drove) }
    {
        match self {
            DrainStage::Open => {
                if reading.is_closed {
                    DrainStage::Closed
                } else {
                    DrainStage::Open
                }
            }
            DrainStage::Closed => DrainStage::Over,
            DrainStage::Over => DrainStage::Over,
        }
    }
}

/// A read of the link that began after the command.
#[derive(Clone, Copy, Debug, PartialEq, Eq)]
pub(crate) struct LinkReading {
    /// Whether the common connection was closed when it ended.
    pub(crate) is_closed: bool,
    /// Whether it left no octets waiting for the link.
    pub(crate) left_none: bool,
}

/// How far the drain of a node is, and whether the next read of the link drives the network.
#[derive(Clone, Copy, Debug, PartialEq, Eq)]
pub(crate) struct DrainCourse {
    stage: DrainStage,
    // Whether the last read after the command left no octets waiting, so that the next one drives the network.
    drives: bool,
}

impl DrainCourse {
    /// No read began after the command.
    fn new() -> DrainCourse
        ensures { IsSeen result [] }
    {
        DrainCourse {
            stage: DrainStage::Open,
            drives: false,
        }
    }

    /// How far the drain is after one more read. All messages of the reads before it were posted before it began.
    fn after_read(self, reading: LinkReading) -> DrainCourse
        ensures { (readings : List LinkReading) → IsSeen self readings → IsSeen result (reading ∷ readings) }
    {
        let stage = if self.drives {
            self.stage.after_driving(reading)
        } else {
            self.stage
        };
        DrainCourse {
            stage,
            drives: reading.left_none,
        }
    }

    /// Whether the drain is over.
    fn is_over(self) -> bool
        ensures { (readings : List LinkReading) → IsSeen self readings → result ≡ is_over readings }
    {
        match self.stage {
            DrainStage::Over => true,
            DrainStage::Open => false,
            DrainStage::Closed => false,
        }
    }
}

/// Whether a read into this much room left no octets waiting: it found none, or fewer than there was room for.
fn left_none(answer: &io::Result<usize>, room: usize) -> bool
    ensures { result ≡ left_none answer.now room }
{
    match answer {
        Ok(count) => *count < room,
        Err(error) => matches!(error.kind(), ErrorKind::WouldBlock),
    }
}

/// The drain of a node, as the thread that reads its link sees it. Its other threads ask whether it is over.
#[derive(Drop)]
pub(crate) struct Draining {
    /// Whether the node is to drain.
    pub(crate) drain: Arc<Drain>,
    course: Mutex<DrainCourse>,
}

impl Draining {
    /// Nobody asked for it yet, of a node for which this is set then.
    pub(crate) fn new(drain: Arc<Drain>) -> Draining {
        Draining {
            drain,
            course: Mutex::new(DrainCourse::new()),
        }
    }

    /// A read of the link into this much room ended, which began after the node was to drain.
    pub(crate) fn end_read<R: Wait>(&self, rt: &R, answer: &io::Result<usize>, room: usize) {
        let reading = LinkReading {
            is_closed: self.drain.has_closed(),
            left_none: left_none(answer, room),
        };
        let mut course = self.course.lock(rt);
        *course = course.after_read(reading);
    }

    /// Whether it is over: no connection has the common unit, and the link has posted all messages that were read of
    /// one.
    pub(crate) fn is_over<R: Wait>(&self, rt: &R) -> bool {
        self.course.lock(rt).is_over()
    }
}
