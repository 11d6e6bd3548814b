//! The adaptor between a link and a signalling network (ITU-T Q.711 to Q.714, Q.771): from SCCP messages to TCAP
//! messages, and back.
//!
//! This layer takes events, one call each, and gives actions. It asks the system only for memory: it opens no
//! connection and has no clock. A connection is a number here, with the unit that was named on it. Below may be IPA, or
//! M3UA.
//!
//! * [`Adaptor`] is a link between two addresses, its [`Setting`]. It outlives its connections.
//! * [`Setting::judge`] is the verdict on a received message.
//! * [`Adaptor::count`] gives the number of messages of a kind.
//!
//! | Event | Call | Result |
//! |---|---|---|
//! | a connection opens for a unit | [`Adaptor::came`] | the earlier connection of the unit is closed |
//! | a connection ends | [`Adaptor::ended`] | nothing: the link stays |
//! | data to the node's own subsystem, from the exchange | [`Adaptor::received`] | handed on to the link |
//! | a Begin in such data, under the identifier of an open dialogue | | handed on after an Abort for that dialogue |
//! | a subsystem test for the own subsystem | | answered: subsystem allowed |
//! | a segment | | returned with cause 10, if the sender asks for that |
//! | data to another subsystem | | returned with cause 4, if the sender asks for that |
//! | data from another address | | returned with cause 7, if the sender asks for that |
//! | a UDTS, or octets that are no message | | counted |
//! | any message on a connection that no unit has | | nothing |
//! | a message from the link | [`Adaptor::send`] | one UDT on the connection of the first unit that has one |
//! | a message from the link, without any connection | | dropped, and counted |
//!
//! The layer above may rely on this: contracts see an [`Adaptor`] as the events so far (`specs/History.antt`), and each
//! answer follows from them alone (`specs/Adaptor.antt`). So the link gets the data of all messages to this subsystem
//! from the exchange, in order, each once, and nothing else except the Aborts. A dialogue is open from the Continue
//! that first carries the link's own identifier. It ends with an End or an Abort of either side, with a Begin of the
//! exchange under its identifier of the dialogue, or with a Continue of the link for another dialogue under that
//! identifier (`specs/Dialogues.antt`). For example, if an exchange restarts and sends a Begin under 00 00 00 07 again,
//! the link first gets an Abort for its open dialogue with that identifier.
//!
//! The adaptor keeps no message: the layer with the queue holds messages back, and refuses them if they wait too long.
//! To drain a node, its thread must first see that messages use another connection ([`Adaptor::sends_by`]). Then it
//! shuts the sending side of the connection of the unit that several nodes share, calls [`Adaptor::ended`] when that
//! connection is closed, and accepts no other one for that unit.
#![tactic(auto)]

mod adaptor;
mod connections;
mod counts;
mod dialogues;
mod setting;

pub use adaptor::{Adaptor, HandedOn, Outcome, Sending, UnitDataBy};
pub use counts::Counted;
pub use setting::{Judged, Setting};
