//! Unit data of SCCP (ITU-T Q.711 to Q.714): the messages that carry TCAP through a signalling network without a
//! connection.
//!
//! This layer reads an [`SccpMessage`] from octets, and writes the octets of a message from its parts. It asks the
//! system only for the memory of the octets that it writes.
//!
//! * [`read`] takes UDT, XUDT and UDTS (Q.713, 4.10, 4.18 and 4.11). [`UnitData`] borrows the addresses and the data
//!   from the octets; none of them is empty. Other octets are refused by their first [`SccpFault`]; you must discard
//!   them (Q.714, 4.4).
//! * [`SccpMessage`] keeps a whole message apart from a segment, so that nobody takes one for the other.
//! * [`Address`] is an address to send from or to, as octets. [`point_code_of`] and [`subsystem_of`] read an address by
//!   its indicator, and never past its octets (Q.713, 3.4).
//! * [`write_unit_data`] writes a UDT. [`write_service`] writes the UDTS or XUDTS that returns unit data to a sender
//!   who asked for that. [`write_allowed`] writes the answer to a subsystem test.
//!
//! | Message | Answer | Call |
//! |---|---|---|
//! | a UDT or a whole XUDT whose data the layer above takes | none | |
//! | the same, to a subsystem that isn't there | UDTS or XUDTS, cause 4, if it is wanted back | [`write_service`] |
//! | a segment | XUDTS, cause 10, if it is wanted back | [`write_service`] |
//! | a subsystem test, to subsystem 1 | subsystem allowed, if the test is for the node's subsystem | [`write_allowed`] |
//! | a UDTS | none | |
//! | octets with a fault | none | |
//!
//! The layer above may rely on this: octets are read as a message exactly if they are that message by
//! `specs/Message.antt`. They are at most one ([`messages_are_one`]), and all other octets have the fault of
//! `specs/Fault.antt`. The written octets are the ones of `specs/Written.antt`. A UDT and a UDTS are read back from
//! their octets, and the pointers of an XUDTS lead to its parameters ([`written_messages_are_read_back`]). A UDT from
//! [`write_unit_data`] has at most 268 octets, so it fits into a message of the message transfer part.
#![tactic(auto)]

mod address;
mod extended;
mod fault;
mod kind;
mod laws;
mod management;
mod message;
mod optional_part;
mod parts;
mod point_code;
mod protocol_class;
mod return_cause;
mod service;
mod unit_data;

pub use address::{Address, MANAGEMENT, point_code_of, subsystem_of};
pub use fault::SccpFault;
pub use kind::Kind;
pub use laws::{messages_are_one, written_messages_are_read_back};
pub use management::write_allowed;
pub use message::{SccpMessage, read};
pub use point_code::PointCode;
pub use protocol_class::ProtocolClass;
pub use return_cause::ReturnCause;
pub use service::{MOST_RETURNED, Service, write_service};
pub use unit_data::{MOST_DATA, MOST_OCTETS, UnitData, write_unit_data};
