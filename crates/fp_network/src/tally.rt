//! The numbers of a network.

ghost use Rattle.std.specs.Prelude.{◌≡◌, List, get_or};
ghost use Rattle.fp_adaptor.specs.declared.counts.Counted.{Counted};
ghost use Rattle.fp_adaptor.specs.declared.setting.Setting.{Setting};
ghost use Rattle.fp_adaptor.specs.Adaptor.{Led};
ghost use Rattle.fp_adaptor.specs.Counted.{count_after, one_more, place_of};
ghost use Rattle.fp_adaptor.specs.History.{Event};
ghost use Rattle.fp_network.specs.declared.event.Closing.{Closing};
ghost use Rattle.fp_network.specs.Tally.{closed_once_more, closings_of, messages_of};

use crate::Closing;
use fp_adaptor::{Adaptor, Counted};
use std::fmt;

/// The kinds of messages that are counted, in the order of their numbers.
const KINDS: [Counted; 10] = [
    Counted::HandedOn,
    Counted::Segment,
    Counted::OtherSubsystem,
    Counted::OtherSender,
    Counted::Management,
    Counted::Returned,
    Counted::Unreadable,
    Counted::Sent,
    Counted::Dropped,
    Counted::TooLong,
];

/// The word for a kind of message.
fn word_of(kind: Counted) -> &'static str {
    match kind {
        Counted::HandedOn => "handed-on",
        Counted::Segment => "segment",
        Counted::OtherSubsystem => "other-subsystem",
        Counted::OtherSender => "other-sender",
        Counted::Management => "management",
        Counted::Returned => "returned",
        Counted::Unreadable => "unreadable",
        Counted::Sent => "sent",
        Counted::Dropped => "dropped",
        Counted::TooLong => "too-long",
    }
}

/// The number of messages of each kind that an adaptor counted, each at the place of its kind in
/// [`KINDS`].
fn messages_of(adaptor: &Adaptor) -> [u64; 10]
    ensures { (setting : Setting) (history : List Event) → Led adaptor.now setting history
        → (kind : Counted) → get_or result (place_of kind) 0 ≡ count_after history kind }
{
    [
        adaptor.count(Counted::HandedOn),
        adaptor.count(Counted::Segment),
        adaptor.count(Counted::OtherSubsystem),
        adaptor.count(Counted::OtherSender),
        adaptor.count(Counted::Management),
        adaptor.count(Counted::Returned),
        adaptor.count(Counted::Unreadable),
        adaptor.count(Counted::Sent),
        adaptor.count(Counted::Dropped),
        adaptor.count(Counted::TooLong),
    ]
}

/// The numbers of a network so far: messages by their kind, connections, closed connections by the
/// reason, and messages of IPA that were skipped. A number stays at the greatest one of 64 bits.
#[derive(Clone, Copy, Debug, PartialEq, Eq)]
pub struct Tally {
    messages: [u64; 10],
    connections: u64,
    closings: [u64; Tally::REASONS],
    skipped: u64,
}

impl Tally {
    /// The number of reasons for closing a connection.
    pub const REASONS: usize = 11;

    /// Nothing was counted.
    pub(crate) fn new() -> Tally
        ensures closings { (why : Closing) → closings_of result why ≡ 0 }
        ensures connections { result.connections ≡ 0 }
        ensures skipped { result.skipped ≡ 0 }
    {
        Tally {
            messages: [0; 10],
            connections: 0,
            closings: [0; Tally::REASONS],
            skipped: 0,
        }
    }

    /// Counts one more connection. Returns its number.
    pub(crate) fn connection(&mut self) -> u64
        ensures number { result ≡ one_more self.old.connections }
        ensures counted { self.new ≡ record self.old { connections = result } }
    {
        self.connections = self.connections.saturating_add(1);
        self.connections
    }

    /// One more connection was closed for this reason.
    pub(crate) fn closing(&mut self, why: Closing)
        ensures counted { (other : Closing) → closings_of self.new other
            ≡ closed_once_more why other (closings_of self.old other) }
        ensures connections { self.new.connections ≡ self.old.connections }
        ensures skipped { self.new.skipped ≡ self.old.skipped }
    {
        let place = why.place();
        self.closings[place] = self.closings[place].saturating_add(1);
    }

    /// One more message of IPA was skipped.
    pub(crate) fn skip(&mut self)
        ensures { self.new ≡ record self.old { skipped = one_more self.old.skipped } }
    {
        self.skipped = self.skipped.saturating_add(1);
    }

    /// The same numbers, with the adaptor's numbers of messages.
    pub(crate) fn with_messages(self, adaptor: &Adaptor) -> Tally
        ensures messages { (setting : Setting) (history : List Event)
            → Led adaptor.now setting history
            → (kind : Counted) → messages_of result kind ≡ count_after history kind }
        ensures closings { (why : Closing) → closings_of result why ≡ closings_of self why }
        ensures connections { result.connections ≡ self.connections }
        ensures skipped { result.skipped ≡ self.skipped }
    {
        let mut tally = self;
        let messages = messages_of(adaptor);
        tally.messages = messages;
        tally
    }

    /// The number of connections that were closed for this reason.
    pub fn closed(&self, why: Closing) -> u64
        ensures { result ≡ closings_of self.now why }
    {
        self.closings[why.place()]
    }
}

impl fmt::Display for Tally {
    fn fmt<W: fmt::Write>(&self, f: &mut fmt::Formatter<W>) -> fmt::Result {
        f.write_str("network")?;
        for (kind, number) in KINDS.iter().zip(&self.messages) {
            write!(f, " {} {number}", word_of(*kind))?;
        }
        write!(
            f,
            " skipped {} connections {}",
            self.skipped, self.connections
        )?;
        for (why, number) in Closing::ALL.iter().zip(&self.closings) {
            write!(f, " {} {number}", why.word())?;
        }
        Ok(())
    }
}
