//! The counts of the steps of a link's log.

ghost use Rattle.std.specs.Prelude.{◌≡◌, ◌++◌, ◌∷◌, List, map};
ghost use Rattle.fp_counters.specs.Counted.{Counted, Increase, once};
ghost use Rattle.fp_counters.specs.Steps.{ended_by_peer, given_counts, message_counts, posted_counter, step_counts};

use crate::kind::{cause_counter, kind_counter, kind_in};
use crate::{Counter, Counters};
use fp_book::{Given, LoggedStep, Posted};
use fp_q773::Kind;

/// The counter of a message's outcome.
fn posted_counter(answer: Posted) -> Counter
    ensures { result ≡ posted_counter answer }
{
    match answer {
        Posted::Opened(_) => Counter::Opened,
        Posted::Accepted(_) => Counter::Accepted,
        Posted::Aborted(cause) => cause_counter(cause),
        Posted::Ended => Counter::Ended,
        Posted::Discarded => Counter::Discarded,
    }
}

impl Counters {
    /// Counts a dialogue that its peer ended, if this message did.
    fn count_ended_by_peer(&mut self, kind: Kind, answer: Posted)
        ensures { (events : List Increase) → Counted self.old events
            → Counted self.new (ended_by_peer kind answer ++ events) }
    {
        match (kind, answer) {
            (Kind::End | Kind::Abort, Posted::Accepted(_)) => self.count(Counter::EndedByPeer),
            _ => {}
        }
    }

    /// Counts a received message.
    fn count_message(&mut self, octets: &[u8], answer: Posted)
        ensures { (events : List Increase) → Counted self.old events
            → Counted self.new (message_counts octets.now answer ++ events) }
    {
        let kind = kind_in(octets);
        self.count(kind_counter(kind));
        self.count(posted_counter(answer));
        self.count_ended_by_peer(kind, answer);
    }

    /// Counts the requests of a turn, by their outcome.
    fn count_given(&mut self, given: Given)
        ensures { (events : List Increase) → Counted self.old events
            → Counted self.new (given_counts given ++ events) }
    {
        match given {
            Given::Silent => {}
            Given::Queued(count) => self.add(Counter::RequestsQueued, u64::from(count)),
            Given::Dropped(count) => self.add(Counter::RequestsDropped, u64::from(count)),
        }
    }

    /// Counts a step of the log of a link. For a gap it counts the lost lines, and nothing of their steps.
    pub fn count_step(&mut self, step: &LoggedStep)
        ensures { (events : List Increase) → Counted self.old events
            → Counted self.new (step_counts step.now ++ events) }
    {
        match step {
            LoggedStep::Post {
                message,
                answer,
                ..
            } => self.count_message(message.octets(), *answer),
            LoggedStep::Lost {
                message,
                answer,
                ..
            } => {
                self.count_message(message.octets(), *answer);
                self.count(Counter::OutOfMemory);
            }
            LoggedStep::Tick { added, wanting, .. } => {
                self.add(Counter::ClockEntriesLeftOut, u64::from(*wanting));
                self.add(Counter::ClockEntries, u64::from(*added));
            }
            LoggedStep::Take { .. } => self.count(Counter::TurnsTaken),
            LoggedStep::Give { served, given, .. } => {
                self.count_given(*given);
                self.add(Counter::EntriesServed, u64::from(*served));
            }
            LoggedStep::PutBack { .. } => self.count(Counter::TurnsPutBack),
            LoggedStep::Sent { birth: 0 } => self.count(Counter::ProviderAbortsSent),
            LoggedStep::Sent { .. } => self.count(Counter::FramesSent),
            LoggedStep::Unsent { .. } => self.count(Counter::Unsent),
            LoggedStep::Gap { lost } => self.add(Counter::LinesLost, *lost),
            LoggedStep::Pick { .. } | LoggedStep::Down => {}
        }
    }
}
