//! The rules of receipt: from a message and a few facts to the rule that applies.

ghost use Rattle.std.specs.Prelude.{◌≡◌, Some, nat_le, if◌then◌else◌};
ghost use Rattle.fp_book.specs.declared.rules.Rule.TheVariants.{Extend, Refuse};
ghost use Rattle.fp_book.specs.Limits.{all_entries};
ghost use Rattle.fp_book.specs.Rules.{first_that_fits, lacks_room, rule, rules_up, too_many};
ghost use Rattle.fp_q773.specs.declared.provider_abort.AbortCause.TheVariants.{ResourceLimitation};
ghost use Rattle.fp_q773.specs.declared.kind.Kind.TheVariants.{Begin};
ghost use Rattle.fp_entry.specs.declared.arrival.Arrival.{Arrival};
ghost use Rattle.fp_entry.specs.declared.fault.Fault.{Fault};
ghost use Rattle.fp_entry.specs.declared.prepared.Prepared.TheVariants as prepared;

use crate::Book;
use fp_entry::{Incoming, Prepared};
use fp_q773::{AbortCause, Kind};

/// The facts of a link that decide about a message.
#[derive(Clone, Copy, Debug)]
pub struct Facts {
    /// Whether the link is down.
    pub is_down: bool,
    /// Whether the message's destination names a dialogue that takes messages.
    pub names_one: bool,
    /// How many entries that dialogue accepted and didn't serve yet, not counting entries of the clock and of the
    /// peer's end and abort. 0 if the message names none.
    pub unserved: usize,
    /// How many entries the link ever accepted.
    pub entries: u64,
    /// How many dialogues the link holds.
    pub held: usize,
}

/// The decision on a message.
#[derive(Clone, Copy, Debug)]
pub enum Rule {
    /// The message is only logged.
    Discard,
    /// The message is refused, and the dialogue that it names, if it names one, is closed.
    Refuse {
        /// The cause of an Abort of the provider, if one is named.
        cause: Option<AbortCause>,
    },
    /// The message opens a dialogue.
    Open,
    /// The dialogue that the message names accepts it.
    Extend {
        /// Whether the dialogue ends with the message.
        ends: bool,
    },
}

/// A refusal that names this cause.
fn refused(cause: AbortCause) -> Rule
    ensures { result ≡ Refuse (Some cause) }
{
    Rule::Refuse { cause: Some(cause) }
}

/// Whether the component portion of a message holds more elements than are taken.
pub(crate) fn too_many(incoming: &Incoming) -> bool
    ensures { result ≡ too_many incoming.now }
{
    incoming.elements > Book::MOST_ELEMENTS || incoming.entries.len() > Book::MOST_ELEMENTS + 1
}

/// The rule for octets that aren't a valid message, on a link that is up.
fn of_refused(kind: Kind) -> Rule
    ensures { (facts : Facts) (arrival : Arrival) (fault : Fault) → result ≡ first_that_fits (rules_up facts (prepared.Refused arrival fault) kind) }
{
    match kind {
        Kind::Unidirectional => Rule::Discard,
        Kind::Unknown => refused(AbortCause::UnrecognizedMessageType),
        _ => refused(AbortCause::BadlyFormattedTransactionPortion),
    }
}

impl Facts {
    /// Whether the link accepted all the entries that it ever accepts.
    fn is_full(self) -> bool
        ensures { result ≡ nat_le all_entries self.entries }
    {
        self.entries >= Book::ALL_ENTRIES
    }

    /// The rule for a lost message, on a link that is up.
    fn of_lost(self, kind: Kind) -> Rule
        ensures { (arrival : Arrival) → result ≡ first_that_fits (rules_up self (prepared.Lost arrival) kind) }
    {
        match kind {
            Kind::Unidirectional => Rule::Discard,
            Kind::Continue if !self.names_one => {
                refused(AbortCause::UnrecognizedTransactionIdentifier)
            }
            Kind::Begin | Kind::Continue => refused(AbortCause::ResourceLimitation),
            Kind::End | Kind::Abort => Rule::Refuse { cause: None },
            Kind::Unknown => refused(AbortCause::UnrecognizedMessageType),
        }
    }

    /// Whether there is no room for a readable message: for its elements, or for its entries in its dialogue or on the
    /// link.
    fn lacks_room(self, incoming: &Incoming) -> bool
        ensures { (arrival : Arrival) → result ≡ lacks_room self (prepared.Message arrival incoming.now) }
    {
        let places = self.unserved.saturating_add(incoming.entries.place_count());
        too_many(incoming) || places > Book::MOST_ENTRIES || self.is_full()
    }

    /// The rule for a Begin, on a link that is up.
    fn of_begin(self, incoming: &Incoming) -> Rule
        ensures { (arrival : Arrival) → result ≡ first_that_fits (rules_up self (prepared.Message arrival incoming.now) Begin) }
    {
        if self.lacks_room(incoming) || self.held >= Book::MOST_DIALOGUES {
            return refused(AbortCause::ResourceLimitation);
        }
        if incoming.entries.is_empty() {
            return Rule::Discard;
        }
        Rule::Open
    }

    /// The rule for a Continue or an End of a dialogue that takes messages.
    fn of_more(self, ends: bool, incoming: &Incoming) -> Rule
        ensures { (arrival : Arrival) → result ≡ (if lacks_room self (prepared.Message arrival incoming.now) then Refuse (Some ResourceLimitation) else Extend ends) }
    {
        if self.lacks_room(incoming) {
            return refused(AbortCause::ResourceLimitation);
        }
        Rule::Extend { ends }
    }

    /// The rule for a readable message, on a link that is up.
    fn of_message(self, kind: Kind, incoming: &Incoming) -> Rule
        ensures { (arrival : Arrival) → result ≡ first_that_fits (rules_up self (prepared.Message arrival incoming.now) kind) }
    {
        match kind {
            Kind::Unidirectional | Kind::Unknown => Rule::Discard,
            Kind::Begin => self.of_begin(incoming),
            Kind::Continue if self.names_one => self.of_more(false, incoming),
            Kind::Continue => refused(AbortCause::UnrecognizedTransactionIdentifier),
            Kind::End if self.names_one => self.of_more(true, incoming),
            Kind::Abort if self.names_one && incoming.entries.len() <= 1 => {
                Rule::Extend { ends: true }
            }
            Kind::End | Kind::Abort => Rule::Discard,
        }
    }

    /// The rule for a message: the first that matches it. Takes no memory.
    pub(crate) fn rule(self, came: &Prepared) -> Rule
        ensures { result ≡ rule self came.now }
    {
        if self.is_down {
            return Rule::Discard;
        }
        let kind = came.arrival().ids.kind;
        match came {
            Prepared::Message { incoming, .. } => self.of_message(kind, incoming),
            Prepared::Refused { .. } => of_refused(kind),
            Prepared::Lost { .. } => self.of_lost(kind),
        }
    }
}
