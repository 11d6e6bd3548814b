//! The network side of a node: transfer points connect over IPA, and their connections carry the
//! frames of one link.
//!
//! The layer is handed a listener, the addresses and the names of units. It asks the system for
//! connections, readiness, the time and memory. Its core is a value:
//!
//! * [`Node`] has the connections, the adaptor of the link, and the octets that wait to be written.
//!   You hand it octets and moments, and it gives octets and events. It has no socket and no clock.
//! * [`NetworkLink`] is the link with the node and its sockets below it: the threads that serve the
//!   link read and write frames there, as at a socket. No thread of its own drives the network.
//! * [`Plan`] has the addresses at both ends of the link, and the units that a transfer point may
//!   name, the common one first.
//! * [`NetworkEvent`] reports a new connection, its unit, its end, or the numbers so far
//!   ([`NetworkLink::next_event`]). [`Closing`] says why a connection was closed, and [`Tally`] has
//!   a number for each kind of message and for each reason.
//! * [`watch_peer`] lets the system notice a peer that is gone.
//! * [`Drain`] is shared with the thread that follows commands: once it is set no new dialogues are
//!   asked for.
//!
//! ```text
//! transfer points --> connections: IPA --+        +--> frames --> the link
//!                                        |  Node  |
//! transfer points <-- connections: IPA --+        +<-- frames <-- the link
//! ```
//!
//! | Event | Effect |
//! |---|---|
//! | a transfer point connects | the connection is asked for a unit; the 17th at a time is closed |
//! | a connection isn't active within 5 seconds | it is closed |
//! | it names a unit and acknowledges that | the earlier connection of the unit is closed |
//! | it sends something that its state doesn't allow | it is closed |
//! | a megabyte waits for it, and the link sends a message | it is closed, and the next one used |
//! | the link sends a message too long for a UDT | it is dropped, and closes no connection |
//! | a megabyte waits for it, and it brings a message | it is closed, and the message is lost |
//! | it ends | the link stays; its messages are dropped and counted while it has no connection |
//! | the node drains | the connection of the common unit is shut, and closed later, as below |
//! | the link ends | octets that wait are written, and all connections are closed, as below |
//!
//! A node that drains shuts the connection of the common unit for sending once others are there to
//! send by, and reads it until its peer closes it. After two seconds the connection is closed once
//! its socket is read out, or after 2,048 more reads, even if no other is there to send by. Octets
//! that wait for it are dropped then. No other connection is accepted for the common unit.
//!
//! Once the link ends, octets that wait are written, and the sending sides are shut. Octets of
//! connections are dropped until their peers close them. After two seconds all are closed.
//!
//! Three kinds of threads use a [`NetworkLink`]:
//!
//! * The thread that reads the link ([`NetworkLink::read`]) takes frames that wait for the link. If
//!   there are none it waits at all sockets, a fifth of a second at most. Then it accepts, reads,
//!   closes late connections, writes octets that wait, and drops sockets. No other thread takes the
//!   lock of its poll. It holds the lock of the sockets, but never while it waits.
//! * Each thread that writes the link ([`NetworkLink::write`]) hands frames to the node, and writes
//!   to the sockets as far as they take them, under the lock of the sockets.
//! * Each thread that ends the link ([`NetworkLink::shutdown`]) notes that under the same lock,
//!   shuts the sending sides if nothing waits, and wakes the reading thread.
//!
//! No wake-up is lost. If a writing thread finds a socket full, or a connection that must be
//! closed, it notes that under the lock of the sockets and then wakes the reading thread. Before
//! each wait the reading thread watches for everything that is noted, under the same lock. An
//! earlier wake-up ends its wait at once. While the reading thread does something else no
//! connection is read. For example, a PING gets its PONG only after that.
//!
//! While 64 kilobytes wait for the link no connection is read, unless the link has ended. Each turn
//! begins at the connection after the one that was read last.
//!
//! The layer above may rely on the contracts of [`Node`]:
//!
//! * Each message of a connection is taken once and in order ([`Node::received`],
//!   `specs/Receiving.antt`). The message takes the connection through the states of [`fp_ipa`]
//!   (`specs/Connection.antt`). The frames of messages that [`fp_adaptor`] hands on follow the
//!   octets that wait for the link (`specs/Frames.antt`).
//! * Each frame of the link is forwarded once and in order, to the connection that [`fp_adaptor`]
//!   names ([`Node::received_from_link`], `specs/Forwarding.antt`). If that connection takes no
//!   message it is closed first, and the next one is named. No other connection is closed. A
//!   message that is too long for a UDT closes none.
//! * A fault of the link means that memory ran out, or that its octets are frames and then a head
//!   that no frame has.
//! * Octets that wait leave from the front, by the number that was written ([`Node::written`],
//!   [`Node::written_to_link`]).
//! * After each call that gives no fault the adaptor is led by the events before the call, and then
//!   by the call's own (`Led`).
//! * Each connection that a call closes is counted once, for its reason, and reported once. One that
//!   a message makes active is reported once. The events that weren't returned are still the next
//!   ones, and those of the call follow them. An event is missing only if the room that there was
//!   before the call is full after it ([`Node::EVENTS`], `specs/Counting.antt`).
//!
//! No contract speaks of the sockets. The case `node` of `tools/attacks` shows how they are used,
//! and `tools/sccp` does so against a transfer point.
#![tactic(auto)]

mod arrival;
mod connection;
mod course;
mod drain;
mod event;
mod fault;
mod keep_alive;
mod network_link;
mod node;
mod plan;
mod rotation;
mod sockets;
mod source;
mod tally;
mod waiting;

pub use drain::Drain;
pub use event::{Closing, NetworkEvent, reasons_are_listed};
pub use fault::NetworkFault;
pub use keep_alive::watch_peer;
pub use network_link::NetworkLink;
pub use node::Node;
pub use plan::Plan;
pub use rotation::turns_have_each_place;
pub use tally::Tally;
