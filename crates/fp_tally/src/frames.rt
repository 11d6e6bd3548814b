//! A frame of a dialogue that was sent.

ghost use Rattle.std.specs.Prelude.{◌≡◌, ◌∷◌, []};

use fp_counters::{Counter, FrameCounts};

/// The most counters of a frame: one of its message, and one for each of two components.
const MOST_COUNTERS: usize = 3;

/// A frame of a dialogue that was sent: the local identifier of the dialogue, and the counts of the frame.
#[derive(Clone, Copy)]
pub(crate) struct SentFrame {
    local: u32,
    counts: FrameCounts,
}

impl SentFrame {
    /// A frame of the dialogue of this local identifier.
    pub(crate) fn new(local: u32, counts: FrameCounts) -> SentFrame
        ensures { result ≡ record { local = local; counts = counts } }
    {
        SentFrame { local, counts }
    }

    /// The local identifier of the frame's dialogue.
    pub(crate) fn local(&self) -> u32
        ensures { result ≡ self.now.local }
    {
        self.local
    }

    /// The counters of the frame's message and of its components.
    pub(crate) fn counters(&self) -> [Option<Counter>; MOST_COUNTERS]
        ensures { result ≡ self.now.counts.message ∷ self.now.counts.first ∷ self.now.counts.second ∷ [] }
    {
        [self.counts.message, self.counts.first, self.counts.second]
    }
}
