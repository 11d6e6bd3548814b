//! Entries.

ghost use Rattle.std.specs.Prelude.{◌≡◌, IfOk};

use crate::Found;
use fp_apdu::Opening;
use fp_digits::{Moment, Number};
use fp_inap::Event;
use fp_q773::{GeneralProblem, InvokeProblem};
use std::alloc::AllocError;

/// The unit of input of a dialogue. Two entries are equal exactly if they are the same, with records compared by their
/// rules ([`equal_entries_are_the_same`](crate::equal_entries_are_the_same)). A comparison takes no memory. It looks at
/// the moments first, then at the fields of fixed size, and at the records last.
#[derive(Debug, PartialEq, Eq, Drop)]
pub struct Entry {
    /// The moment of its message, or of the clock.
    pub moment: Moment,
    /// The kind of the entry.
    pub kind: EntryKind,
}

/// The kind of an entry: a component of a message (Q.773, 4.2.2), the message itself, or the clock.
///
/// | Component | Entry |
/// |---|---|
/// | Invoke of InitialDP, its argument read | `InitialDp` |
/// | Invoke of EventReportBCSM, its argument read | `Event` |
/// | Invoke of either, its argument absent or wrong | `UnknownInvoke`: mistyped parameter |
/// | any other Invoke, also of a global operation | `UnknownInvoke`: unrecognized operation |
/// | ReturnResultLast, ReturnResultNotLast | `Result` |
/// | ReturnError | `Error` |
/// | Reject | `Reject` |
/// | a faulty component | `Faulty` |
#[derive(Debug, PartialEq, Eq, Drop)]
pub enum EntryKind {
    /// A Begin, and the dialogue that it opens.
    Opened(Opening),
    /// An Invoke of InitialDP.
    InitialDp {
        /// The invoke identifier.
        identifier: i8,
        /// The linked identifier, if there is one.
        linked: Option<i8>,
        /// The calling party number, if there is one.
        calling: Option<Number>,
        /// The table's answer to the called party number.
        found: Found,
    },
    /// An Invoke of EventReportBCSM.
    Event {
        /// The invoke identifier.
        identifier: i8,
        /// The linked identifier, if there is one.
        linked: Option<i8>,
        /// The event.
        event: Event,
        /// Whether the event is a notification. Otherwise it is a request, and the switch waits.
        notification: bool,
    },
    /// Another Invoke, or an Invoke of InitialDP or EventReportBCSM with a mistyped parameter.
    UnknownInvoke {
        /// The invoke identifier.
        identifier: i8,
        /// The linked identifier, if there is one.
        linked: Option<i8>,
        /// The problem for a Reject of it: unrecognized operation, or mistyped parameter.
        problem: InvokeProblem,
    },
    /// A ReturnResultLast or a ReturnResultNotLast.
    Result {
        /// The invoke identifier.
        identifier: i8,
        /// Whether the result is the last one.
        last: bool,
    },
    /// A ReturnError.
    Error {
        /// The invoke identifier.
        identifier: i8,
    },
    /// A Reject.
    Reject {
        /// The invoke identifier, if the problem is a General one or an Invoke's. The problem of a result or an error
        /// is about a component of this side, and its identifier belongs to the peer.
        identifier: Option<i8>,
    },
    /// A faulty component, the last delivered one of its message.
    Faulty {
        /// The invoke identifier, if it could be read.
        identifier: Option<i8>,
        /// The problem for a Reject of it: unrecognized component, or mistyped component.
        problem: GeneralProblem,
    },
    /// The peer ended the dialogue.
    PeerEnd,
    /// The peer aborted the dialogue.
    PeerAbort,
    /// The passing of time. No message gives this entry.
    Clock,
}

impl Entry {
    /// A copy of the entry. The only error is out of memory, for one more share of a record.
    pub fn try_clone(&self) -> Result<Entry, AllocError>
        ensures { IfOk result (λ copy. copy ≡ self.now) }
    {
        let kind = self.kind.try_clone()?;
        Ok(Entry {
            moment: self.moment,
            kind,
        })
    }
}

impl EntryKind {
    ghost use Rattle.fp_entry.specs.Entries.{is_clock, is_from_component, takes_a_place};

    /// Whether a component gave it.
    pub fn is_from_component(&self) -> bool
        ensures { result ≡ is_from_component self.now }
    {
        match self {
            EntryKind::Opened(_) | EntryKind::PeerEnd | EntryKind::PeerAbort | EntryKind::Clock =>
                false,
            _ => true,
        }
    }

    /// Whether the entry is a Clock.
    pub fn is_clock(&self) -> bool
        ensures { result ≡ is_clock self.now }
    {
        matches!(self, EntryKind::Clock)
    }

    /// Whether the entry takes one of the places for entries of its dialogue. PeerEnd, PeerAbort and Clock take none.
    pub fn takes_a_place(&self) -> bool
        ensures { result ≡ takes_a_place self.now }
    {
        !matches!(
            self,
            EntryKind::PeerEnd | EntryKind::PeerAbort | EntryKind::Clock
        )
    }

    /// A copy of the kind. The only error is out of memory, for one more share of a record.
    pub fn try_clone(&self) -> Result<EntryKind, AllocError>
        ensures { IfOk result (λ copy. copy ≡ self.now) }
    {
        match self {
            EntryKind::Opened(opening) => Ok(EntryKind::Opened(*opening)),
            EntryKind::InitialDp {
                identifier,
                linked,
                calling,
                found,
            } => Ok(EntryKind::InitialDp {
                identifier: *identifier,
                linked: *linked,
                calling: *calling,
                found: found.try_clone()?,
            }),
            EntryKind::Event {
                identifier,
                linked,
                event,
                notification,
            } => Ok(EntryKind::Event {
                identifier: *identifier,
                linked: *linked,
                event: *event,
                notification: *notification,
            }),
            EntryKind::UnknownInvoke {
                identifier,
                linked,
                problem,
            } => Ok(EntryKind::UnknownInvoke {
                identifier: *identifier,
                linked: *linked,
                problem: *problem,
            }),
            EntryKind::Result { identifier, last } => Ok(EntryKind::Result {
                identifier: *identifier,
                last: *last,
            }),
            EntryKind::Error { identifier } => Ok(EntryKind::Error {
                identifier: *identifier,
            }),
            EntryKind::Reject { identifier } => Ok(EntryKind::Reject {
                identifier: *identifier,
            }),
            EntryKind::Faulty {
                identifier,
                problem,
            } => Ok(EntryKind::Faulty {
                identifier: *identifier,
                problem: *problem,
            }),
            EntryKind::PeerEnd => Ok(EntryKind::PeerEnd),
            EntryKind::PeerAbort => Ok(EntryKind::PeerAbort),
            EntryKind::Clock => Ok(EntryKind::Clock),
        }
    }
}
