//! The service logic of a freephone dialogue: one step for each entry.
//!
//! This layer takes entries, from the messages of a dialogue and the clock, and returns requests: messages to send to
//! the switch. It asks the system for nothing: moments and records are in the entries, and its values have a fixed
//! size.
//!
//! * [`Core`] is the state of the logic for one dialogue between two entries, a value of fixed size that may be copied.
//!   Its [`State`] says that the dialogue is over, or has the [`Stage`] of its call.
//! * [`step`] returns the core after an [`Entry`](fp_entry::Entry) and the [`Request`], if any: a message of the
//!   dialogue (ITU-T Q.774, 3.2) with [`Components`], whose Invokes carry an [`Instruction`] for the switch (after
//!   Q.1218).
//!
//! The step is this table; the first matching row applies. The rows have the order of the code (`step`, and the methods
//! that begin with `on_`) and of `specs/Serve.antt`. Each entry except Clock sets the moment of the last entry, in any
//! state. Fresh and Waiting are the stages of a dialogue that isn't over.
//!
//! | State | Entry | Request |
//! |---|---|---|
//! | Over | any | none |
//! | any | PeerEnd, PeerAbort | none, and the dialogue is over |
//! | Fresh | Opened: None, Known | none |
//! | Fresh | Opened: Unknown, BadVersion | Abort with the AARE NoName, NoVersion |
//! | Waiting | Opened | none |
//! | any | InitialDp, Event or UnknownInvoke with a linked identifier | Reject: UnrecognizedLinkedIdentifier, or LinkedResponseUnexpected if an invocation has that identifier |
//! | any | UnknownInvoke, Faulty | Reject with its problem |
//! | any | Result, Error or Reject whose outcome is a problem | Reject with the problem |
//! | Waiting | Reject of a test, an invocation of class 3 | none |
//! | Waiting | Error or Reject whose outcome is failure | next destination, NoRouteToDestination |
//! | any | Result, Error or Reject of another outcome; Reject without identifier | none |
//! | Fresh | InitialDp: Missing, WrongKey, NoRecord | End with ReturnError MissingParameter, UnexpectedDataValue, MissingCustomerRecord |
//! | Fresh | InitialDp: Record, no rule fits | End with ReleaseCall NoRouteToDestination |
//! | Fresh | InitialDp: Record, the rule refuses, passes | End with ReleaseCall CallRejected, with Continue |
//! | Fresh | InitialDp: Record, the rule has one destination | End with Connect |
//! | Fresh | InitialDp: Record, the rule has more | next destination, NoRouteToDestination |
//! | Waiting | InitialDp | Continue message with ReturnError UnexpectedComponentSequence |
//! | Fresh | Event | none |
//! | Waiting | Event: RouteSelectFailure, OCalledPartyBusy, ONoAnswer | next destination, NoRouteToDestination, UserBusy, NoAnswerFromUser |
//! | Waiting | Event: OAnswer, OAbandon | End without components |
//! | Waiting | another Event, as a request | Continue message with Continue |
//! | Waiting | another Event, as a notification | none |
//! | any | Clock that ends a test | user Abort |
//! | any | Clock, 300,000 ms or more after the last entry | user Abort |
//! | Waiting | Clock, no test is active, 120,000 ms or more after the last entry | Continue message with ActivityTest |
//! | any | Clock otherwise | none |
//!
//! * Next destination, with a cause: if one is left, the request is a Continue message with RequestReportBCSMEvent and
//!   with Connect to the first, which is removed, and the state is Waiting. Otherwise it is an End with ReleaseCall of
//!   that cause.
//! * A Reject is sent in a Continue message.
//! * The rule depends on the calling number, the moment of the entry, and the birth of the dialogue.
//! * An End and an Abort end the dialogue: the state is Over.
//! * Invokes in a Continue message are started as invocations, in order. There are eight places. If there aren't enough
//!   for all, none is started and the request is a user Abort. Invokes in an End take the next identifiers and start no
//!   invocation. For example, the first Continue of a call has RequestReportBCSMEvent as 1 and Connect as 2.
//! * A Clock first ends the invocations that are due.
//! * Only its ReturnResultLast, ReturnError or Reject ends a test. Any other entry from the peer sets the moment of the
//!   last entry and leaves the test active, also a ReturnResultNotLast.
//! * In a dialogue whose opening is Known the first Continue or End carries the AARE that accepts it, and a user Abort
//!   carries an ABRT.
//!
//! The layer above may rely on this: a step is `serve` of `specs/Serve.antt`, and `next` and `request_of` are its two
//! parts. `serve` and the definitions below it stay folded unless a proof asks; you should never unfold them in a layer
//! above. For all entries of a dialogue, the core, the requests and the entries up to its end are the folds of
//! `specs/Fold.antt`. Their laws ([`folds_along_a_grown_list`], [`over_stays_over`], [`peer_ends_dialogue`],
//! [`cut_is_a_front`], [`entries_ask_once_at_most`], [`births_stay`]) are all that the layers above use. Two cores are
//! equal by `==` exactly if they are the same ([`equal_cores_are_the_same`]). [`Core::next_due`] is the earliest moment
//! when a Clock has an effect.
#![tactic(auto)]

mod answer;
mod attempt;
mod clock;
mod component;
mod components;
mod dialogue;
mod event;
mod initial_dp;
mod instruction;
mod invoking;
mod laws;
mod outcome;
mod request;
mod serve;
mod state;

pub use component::Component;
pub use components::Components;
pub use dialogue::Core;
pub use instruction::Instruction;
pub use laws::{
    births_stay, cut_is_a_front, entries_ask_once_at_most, equal_cores_are_the_same,
    folds_along_a_grown_list, over_stays_over, peer_ends_dialogue,
};
pub use request::{AbortPortion, Request};
pub use serve::step;
pub use state::{Stage, State};
