//! The counters of an adaptor.

ghost use Rattle.std.specs.Prelude.{◌≡◌, ◌<◌};
ghost use Rattle.fp_adaptor.specs.Counted.{count_of, counted_once_more, place_of};
ghost use Rattle.fp_adaptor.specs.declared.counts.Counted.{Counted};

/// A kind of message that is counted.
#[derive(Clone, Copy, Debug, PartialEq, Eq)]
pub enum Counted {
    /// Data handed on to the link.
    HandedOn,
    /// A refused segment.
    Segment,
    /// A refused message to another subsystem.
    OtherSubsystem,
    /// A refused message from another address.
    OtherSender,
    /// A message to SCCP management.
    Management,
    /// A UDTS: a message of the link was returned.
    Returned,
    /// Octets that are no message.
    Unreadable,
    /// A message of the link that was sent.
    Sent,
    /// A message of the link that was dropped, as there was no connection.
    Dropped,
    /// A message of the link that is too long for a UDT.
    TooLong,
}

impl Counted {
    /// The position of the kind among the numbers.
    fn place(self) -> usize
        ensures value { result ≡ place_of self }
        ensures range { place_of self < 10 }
    {
        match self {
            Counted::HandedOn => 0,
            Counted::Segment => 1,
            Counted::OtherSubsystem => 2,
            Counted::OtherSender => 3,
            Counted::Management => 4,
            Counted::Returned => 5,
            Counted::Unreadable => 6,
            Counted::Sent => 7,
            Counted::Dropped => 8,
            Counted::TooLong => 9,
        }
    }
}

/// The number of messages of each kind since the link began. A number stops at 2^64 - 1.
#[derive(Clone, Copy, Debug)]
pub(crate) struct Counts {
    numbers: [u64; 10],
}

impl Counts {
    /// Counters at 0.
    pub(crate) fn new() -> Counts
        ensures { (what : Counted) → count_of result what ≡ 0 }
    {
        Counts { numbers: [0; 10] }
    }

    /// The number of messages of this kind.
    pub(crate) fn of(&self, what: Counted) -> u64
        ensures { result ≡ count_of self.now what }
    {
        self.numbers[what.place()]
    }

    /// Counts a message of a kind.
    pub(crate) fn count(&mut self, what: Counted)
        ensures { (other : Counted) → count_of self.new other
            ≡ counted_once_more what other (count_of self.old other) }
    {
        let place = what.place();
        self.numbers[place] = self.numbers[place].saturating_add(1);
    }
}
