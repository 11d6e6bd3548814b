//! The count of a link's end.

ghost use Rattle.std.specs.Prelude.{◌≡◌, ◌∷◌, List};
ghost use Rattle.fp_counters.specs.Counted.{Counted, Increase, once};
ghost use Rattle.fp_counters.specs.Ends.{end_counter};

use crate::{Counter, Counters};
use fp_linkstate::Why;

/// The counter of the ends with this reason.
fn end_counter(why: Why) -> Counter
    ensures { result ≡ end_counter why }
{
    match why {
        Why::PeerClosed => Counter::EndPeerClosed,
        Why::BadFrameLength => Counter::EndBadFrameLength,
        Why::ClosedInsideFrame => Counter::EndInsideFrame,
        Why::ReadFault => Counter::EndReadFault,
        Why::WriteFault => Counter::EndWriteFault,
        Why::Memory => Counter::EndMemory,
        Why::Entries => Counter::EndEntries,
        Why::LogFault => Counter::EndLogFault,
        Why::PeerGone => Counter::EndPeerGone,
        Why::RunFault => Counter::EndRunFault,
        Why::Limit => Counter::EndLimit,
        Why::Quit => Counter::EndQuit,
    }
}

impl Counters {
    /// Counts that the link went down, for this reason.
    pub fn count_end(&mut self, why: Why)
        ensures { (events : List Increase) → Counted self.old events
            → Counted self.new (once (end_counter why) ∷ events) }
    {
        self.count(end_counter(why));
    }
}
