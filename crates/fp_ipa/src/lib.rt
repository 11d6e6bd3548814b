//! The messages of IPA, which transfer points use to carry SCCP over TCP (SCCPlite, as in Osmocom's programs), and the
//! management of such a connection (CCM). No Recommendation has them.
//!
//! This layer takes messages out of the octets of a connection, however the reads divide them. It also takes a message
//! and a state to the next state and an action. It asks the system only for the memory of the octets, and knows nothing
//! of SCCP.
//!
//! * [`IpaReader`] hands out the messages of a stream, each an [`IpaMessage`]: a [`StreamIdentifier`] and octets.
//!   [`message_head`] gives the three octets before a message.
//! * [`received_of`] classifies a message for the management of its connection, as a [`Received`].
//! * [`State`] is the state of a connection from a peer. As soon as the peer has connected, you must send it the octets
//!   [`ASKS`], which ask for the name of a unit. [`State::step`] then gives a [`Step`] for each message:
//!
//! | Received | `Asked` | `Named` | `Active` | `Closed` |
//! |---|---|---|---|---|
//! | `Ping`: PING | sends PONG | sends PONG | sends PONG | skips |
//! | `Named`: ID_RESP with the name of a unit | sends ID_ACK, `Named` | closes | closes | skips |
//! | `Misnamed`: ID_RESP without | closes | closes | closes | skips |
//! | `Acknowledged`: ID_ACK | closes | `Active` | closes | skips |
//! | `UnitData`: a message of SCCP | closes | closes | delivers it | skips |
//! | `Unknown`: any other message | skips | skips | skips | skips |
//!
//! A cell without a state leaves the state as it is, and `closes` leads to `Closed`.
//!
//! The layer above may rely on this: a stream is its messages, one after another, and a rest that begins with no whole
//! message (`specs/Stream.antt`). The messages that an [`IpaReader`] hands out, followed by the octets that it keeps,
//! are the octets that it held. [`streams_have_one_list_of_messages`] says that there is no other way to take them
//! apart. If the reader waits for more, the rest has fewer octets than a head and [`IpaMessage::MOST`] together. A unit
//! name is the first one of an ID_RESP (`specs/Identity.antt`), and [`unit_names_are_one`] says that there is at most
//! one. A connection is active only after a unit was named on it and acknowledged ([`active_connections_were_named`]).
#![tactic(auto)]

mod connection;
mod fault;
mod identity;
mod laws;
mod message;
mod reader;
mod received;
mod stream_identifier;
mod unit_name;

pub use connection::{ASKS, Action, State, Step};
pub use fault::IpaFault;
pub use laws::{
    active_connections_were_named, streams_have_one_list_of_messages, unit_names_are_one,
};
pub use message::{IpaMessage, message_head};
pub use reader::IpaReader;
pub use received::{Received, received_of};
pub use stream_identifier::StreamIdentifier;
pub use unit_name::UnitName;
