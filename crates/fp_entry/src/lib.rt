//! The entries of a message: its parts, as its dialogue handles them one by one. Messages and components follow ITU-T
//! Q.773. The operations follow INAP CS-1; their entries are this project's profile.
//!
//! This layer gets a frame, the moment of its receipt, a table of records and the accepted application context names.
//! It gives the entries of the message, or says why there are none. It asks the system only for memory: no clock, no
//! input, no lock. It knows nothing of open dialogues.
//!
//! * [`Prepared`] is the result for a frame: a readable message with its [`Incoming`], which holds its [`Entries`]; or
//!   a refusal with its [`Fault`]; or neither, if memory ran out. Each has its [`Arrival`]: the frame, its moment, the
//!   index of its table, and the kind and identifiers in its octets.
//! * [`Entry`] is the unit of input of a dialogue: a moment, and an [`EntryKind`].
//! * [`Lookup`] is a table for several messages that are read one after another, by [`Prepared::read_with`].
//! * [`Found`] is the table's answer to the called number of an InitialDP; a [`SharedRecord`] is a share of the record
//!   itself, and no copy.
//!
//! | Message | Its entries |
//! |---|---|
//! | Begin | [`EntryKind::Opened`], then its components |
//! | Continue | its components |
//! | End | its components, then [`EntryKind::PeerEnd`] |
//! | Abort | [`EntryKind::PeerAbort`] |
//! | Unidirectional | none |
//!
//! Components are taken up to the first faulty one, which is the last. Each gives the entry in the table of
//! [`EntryKind`], at the moment of the message. For example, a Begin with one InitialDP gives an `Opened` and an
//! `InitialDp`. The layers above make an [`EntryKind::Clock`].
//!
//! The layer above may rely on this, unless memory runs out: the result follows from the octets by
//! `specs/Prepared.antt`, and there is no other ([`prepared_is_one`]). The entries of a message follow
//! `specs/Entries.antt`, and the entry of each component `specs/Component.antt`. Contracts see [`Entries`] as their
//! list. A copy is equal to its original, and two entries are equal by `==` exactly if they are the same, with records
//! compared by their rules ([`equal_entries_are_the_same`]). Only [`Prepared::read`] and [`Prepared::read_with`],
//! copies, [`Entries::push`] and [`Entries::append`] take memory.
#![tactic(auto)]

mod arrival;
mod component;
mod entries;
mod entry;
mod failure;
mod fault;
mod found;
mod incoming;
mod laws;
mod lookup;
mod message;
mod prepared;
mod shared_record;

pub use arrival::Arrival;
pub use entries::Entries;
pub use entry::{Entry, EntryKind};
pub use fault::Fault;
pub use found::Found;
pub use incoming::Incoming;
pub use laws::{components_are_counted, equal_entries_are_the_same, prepared_is_one};
pub use lookup::Lookup;
pub use prepared::Prepared;
pub use shared_record::SharedRecord;
