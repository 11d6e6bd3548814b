//! Whether a node drains.

ghost use Rattle.std.specs.Prelude.{◌≡◌};

use std::sync::atomic::{AtomicBool, Ordering};

/// Whether a node is to drain: it asks the network for no new dialogues from then on, and serves
/// those that are open. The thread that follows commands and the one that reads the link share it.
#[derive(Drop)]
pub struct Drain {
    is_set: AtomicBool,
    // Whether the node drains and no connection has the common unit any more.
    has_closed: AtomicBool,
    has_own_unit: bool,
}

impl Drain {
    /// The node doesn't drain. It has a unit of its own, or the common one alone.
    pub fn new(has_own_unit: bool) -> Drain
        ensures { result.has_own_unit ≡ has_own_unit }
    {
        Drain {
            is_set: AtomicBool::new(false),
            has_closed: AtomicBool::new(false),
            has_own_unit,
        }
    }

    /// The node is to drain, from now on until it ends. `false`: it has no unit of its own, so that
    /// no way would be left for its answers, and nothing changes.
    pub fn set(&self) -> bool
        ensures { result ≡ self.now.has_own_unit }
    {
        if self.has_own_unit {
            self.is_set.store(true, Ordering::SeqCst);
        }
        self.has_own_unit
    }

    /// Whether it is to drain.
    pub fn is_set(&self) -> bool {
        self.is_set.load(Ordering::SeqCst)
    }

    /// Notes that the node drains and no connection has the common unit any more.
    pub(crate) fn close(&self) {
        self.has_closed.store(true, Ordering::SeqCst);
    }

    /// Whether the node drains and no connection has the common unit any more. All messages that
    /// were read of such a connection and handed on wait for the link then, or were read from it.
    pub fn has_closed(&self) -> bool {
        self.has_closed.load(Ordering::SeqCst)
    }
}
