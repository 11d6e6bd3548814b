//! Turns that were served.

ghost use Rattle.std.specs.Prelude.{◌≡◌, length};
ghost use Rattle.std.specs.Coded.{Coded-set};
ghost use Rattle.std.proofs.Props.{props};
ghost use Rattle.fp_row.specs.Turn.{core_then, frames_for, served_in};

use crate::heap_core::HeapCore;
use crate::{RequestFrames, Turn};

/// A turn that was served: how many of its entries were served, the core after them, and the frames of their requests.
/// Its type guarantees that the service step gives exactly these for the turn: along its entries up to the first after
/// which the dialogue is over, with frames under the turn's own identifiers, whichever thread served it. You must give
/// it back or abandon it.
#[must_use]
#[derive(Debug)]
pub struct Done {
    pub(crate) turn: Turn,
    pub(crate) served: usize,
    pub(crate) after: HeapCore,
    pub(crate) frames: RequestFrames,

    // The entries up to the one that ends the dialogue were served, or all.
    pub ghost served_is: { served ≡ length (served_in turn) },

    // The core after those entries.
    pub ghost after_is: { after ≡ core_then turn } by { Coded-set after-code _ _ },

    // The frames of their requests.
    pub ghost frames_are: { frames ≡ frames_for turn } by { Prim.hlevel props },
}

impl Done {
    /// The turn that was served.
    pub fn turn(&self) -> &Turn
        ensures { result.now ≡ self.now.turn }
    {
        &self.turn
    }

    /// How many entries of the turn were served: those up to the first after which the dialogue is over, or all.
    pub fn served(&self) -> usize
        ensures { result ≡ self.now.served }
    {
        self.served
    }

    /// Gives up a turn that was served. Its dialogue stays held forever. Takes no memory.
    pub fn abandon(self) {
        let Done {
            turn,
            served: _,
            after: _,
            frames: _,
        } = self;
        turn.abandon();
    }
}
