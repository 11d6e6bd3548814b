//! The state of the service logic for one dialogue.

ghost use Rattle.std.specs.Option.{option_map_or};
ghost use Rattle.std.specs.Prelude.{◌≡◌, ◌≤◌, ◌↔◌, ◌∷◌, ◌++◌, IsTrue, All, min};
ghost use Rattle.fp_ism.specs.Due.{dues, least_of};
ghost use Rattle.fp_service.specs.declared.state.State.TheVariants.{Over};
ghost use Rattle.fp_service.specs.Dialogue.{ended, fresh, is_over, is_testable, next_due, quiet_until, test_moment, test_moments, touched};

use crate::{Stage, State};
use fp_apdu::Opening;
use fp_digits::Moment;
use fp_entry::Entry;
use fp_ism::{Invocations, least_is_at_most_each};

/// The state of the service logic for one dialogue, between two entries. It has a fixed size and may be copied. Two are
/// equal exactly if all their parts are ([`equal_cores_are_the_same`](crate::equal_cores_are_the_same)).
#[derive(Clone, Copy, Debug, PartialEq, Eq)]
pub struct Core {
    pub(crate) state: State,
    pub(crate) birth: u64,
    pub(crate) opening: Opening,
    // Whether the AARE that accepts the dialogue was sent.
    pub(crate) accepted: bool,
    pub(crate) invocations: Invocations,
    // The moment of the last entry that wasn't a Clock; at first, the moment of the Begin.
    pub(crate) last: Moment,
}

/// The time without an entry from the peer, in milliseconds, after which a dialogue is aborted.
const QUIET_LIMIT: u64 = 300_000;

/// The time without an entry from the peer, in milliseconds, after which a waiting call is tested.
const TEST_LIMIT: u64 = 120_000;

/// The earlier of a moment and another one, if there is another.
fn earlier(moment: u64, other: Option<u64>) -> u64
    ensures { result ≡ option_map_or (min moment) other moment }
{
    match other {
        Some(other) => moment.min(other),
        None => moment,
    }
}

impl Core {
    /// The core of a new dialogue: the `birth`-th of its link, with its Begin at this moment.
    pub fn new(birth: u64, moment: Moment) -> Core
        ensures { result ≡ fresh birth moment }
    {
        Core {
            state: State::Live(Stage::Fresh),
            birth,
            opening: Opening::None,
            accepted: false,
            invocations: Invocations::new(),
            last: moment,
        }
    }

    /// The state of the dialogue.
    pub fn state(&self) -> State
        ensures { result ≡ self.now.state }
    {
        self.state
    }

    /// The number of the dialogue among the accepted ones of its link, from 1.
    pub fn birth(&self) -> u64
        ensures { result ≡ self.now.birth }
    {
        self.birth
    }

    /// The invocations of the dialogue.
    pub fn invocations(&self) -> Invocations
        ensures { result ≡ self.now.invocations }
    {
        self.invocations
    }

    /// Whether the dialogue is over. If so, there are no more requests.
    pub fn is_over(&self) -> bool
        ensures value { result ≡ is_over self.now }
        ensures over { IsTrue result ↔ (self.now.state ≡ Over) }
    {
        self.state.is_over()
    }

    /// The earliest moment when a Clock has an effect, in milliseconds since 1970-01-01T00:00:00Z: an invocation is
    /// due; or 300,000 ms have passed since the last entry that wasn't a Clock; or, if the call waits and no test is
    /// active, 120,000 ms.
    pub fn next_due(&self) -> u64
        ensures value { result ≡ next_due self.now }
        ensures least { All (λ due. result ≤ due)
            (quiet_until self.now ∷ test_moments self.now ++ dues self.now.invocations.active) }
    {
        least_is_at_most_each();
        earlier(self.quiet_until(), self.next_before_quiet())
    }

    /// The earliest moment when an invocation is due or the call is tested.
    fn next_before_quiet(&self) -> Option<u64>
        ensures { result ≡ least_of (test_moments self.now ++ dues self.now.invocations.active) }
    {
        let due = self.invocations.next_due();
        if self.is_testable() {
            Some(earlier(self.test_moment(), due))
        } else {
            due
        }
    }

    /// Whether a Clock may test the dialogue: its call waits, and no test is active.
    fn is_testable(&self) -> bool
        ensures { result ≡ is_testable self.now }
    {
        self.state.is_waiting() && !self.invocations.testing()
    }

    /// Records the moment of an entry, unless it is a Clock.
    pub(crate) fn touch(&mut self, entry: &Entry)
        ensures { self.new ≡ touched self.old entry.now }
    {
        if !entry.kind.is_clock() {
            self.last = entry.moment;
        }
    }

    /// Ends the dialogue.
    pub(crate) fn end(&mut self)
        ensures { self.new ≡ ended self.old }
    {
        self.state = State::Over;
    }

    /// The moment, in milliseconds since 1970-01-01T00:00:00Z, from which the peer has been silent for too long.
    pub(crate) fn quiet_until(&self) -> u64
        ensures { result ≡ quiet_until self.now }
    {
        self.last.milliseconds() + QUIET_LIMIT
    }

    /// The moment, in milliseconds since 1970-01-01T00:00:00Z, from which the peer has been silent for long enough for
    /// a test.
    pub(crate) fn test_moment(&self) -> u64
        ensures { result ≡ test_moment self.now }
    {
        self.last.milliseconds() + TEST_LIMIT
    }
}
