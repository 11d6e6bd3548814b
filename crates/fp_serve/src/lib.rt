//! The links of a server: it awaits connections, and on each of them threads receive, serve and send.
//!
//! The layer is handed the records, a listener, commands and an operator that reads the records again, writers for the
//! log, for the report on the links and for events. It asks the system for connections, threads, the time, locks, sleep
//! and memory; it opens no file and binds no address.
//!
//! * [`Server`] has the inputs of a run. [`Server::serve`] awaits one connection for each link, runs all links, and
//!   returns when all are down, and, unless the run ends with its links, no more commands can follow.
//!   [`Server::serve_through`] is the same with a gate that each worker passes before it serves a turn; tests wait
//!   there.
//! * [`Service`] has the tables that messages are answered from, and [`System`] the needs of a run.
//! * [`Settings`] says how many links there are and their numbers, the tag of the run, how many workers each link has,
//!   how many entries its dialogues may keep, how many turns its receiver serves, the reaction to a log that can't be
//!   written ([`WhenLogFails`]), and which commands are known.
//! * [`Commands`] are the requests to a run while it lasts: to read its records again, by an [`Operator`]; to print the
//!   status of its links ([`LinkStatus`]), or its counters, also of a called number; and to end.
//! * [`Watched`] has the counters ([`Metrics`]), and the listener for requests of them, both of `fp_watch`.
//! * [`ServeFault`] says why a run failed.
//! * [`Events`] are lines that say which link went up or down and why, if they are asked for ([`Event`] of `fp_watch`).
//!
//! ```text
//!                        Server: accepts, then joins
//!                          |  one thread a link
//!                          v
//!   socket --> receiver --post--> +------------+ --await--> sender --> gathered --> socket
//!        \--take, give, sent-->   |    Hub     |   ^--sent-----/          ^
//!   workers --take, give, hint--> | (the book) |    receiver -------------/
//!   clock  --tick, hint---------> +------------+
//!     |                             |exchange_log, by the receiver too
//!     \-- once a second, or 512 --->v
//!                                LogSide, LinkLog (one for each link) --> LogWriter: `fp_runlog`
//! ```
//!
//! After it posted frames, the receiver helps: it serves the ready turns, up to a bound, and sends the waiting frames
//! if no other thread does at this moment. So with few calls open it wakes no other thread for them. While a read may
//! have more frames it sends for two posts at once. Frames are gathered first and then written at once, under a lock,
//! by whichever thread sends.
//!
//! After each post the receiver makes the text of the log lines of its link, if 64 wait. Otherwise the clock makes it
//! once a second, and it is woken if 512 wait; if many do, the other threads move some of them out of the book too. One
//! thread of the run writes the log, and belongs to no scope. Only it waits for the device of the log, and for a bounded
//! time a receiver does.
//!
//! The connection of a link is a socket or, in a run that is a node, its network (`LinkStream`). The receiver then
//! drives the network while it waits, and whichever thread sends writes to the network's sockets as far as they take
//! it.
//!
//! A thread of its own reads the commands, and the run follows them, while another thread accepts the connections and
//! joins the threads of the links. All links share the tables, and each keeps the one that it answers from.
//!
//! | Folder | Contents |
//! |---|---|
//! | `run/` | the run: its inputs, its context, commands, status, events, report, and a thread for each link |
//! | `link/` | a link: its threads, their shared state, and its end |
//! | `socket/` | connections: awaiting, watching, reading and writing them |
//! | `moment.rt`, `system.rt` | the tag by the time; the needs of a run from the system, and the start of a thread of no scope |
//!
//! The links of a run have the numbers from its first link on. Inside, a link is known by its place among them, from 0;
//! its number is in its book, in the report, in events and in the answers to commands.
//!
//! The layer above may rely on this: if [`Server::serve`] returns without a fault, it wrote the address, the answers to
//! commands, and a line for each link, after one with zeros for each number below the first link, and nothing else
//! (`specs/Report.antt`). `fp_hub` states the guarantees of a link's book, seats and hub, `fp_linkio` those of reading
//! frames and writing parcels, `fp_tally` those of its counters, and `fp_watch` those of their text. No contract speaks
//! of the octets of sockets and the log, or says that the threads get on, or that each does its part in the picture:
//! `tests_serve`, over loopback, and `tools/attacks`, over the built program, test these.
#![tactic(auto)]

mod link;
mod moment;
mod run;
mod socket;
mod system;

pub use fp_linkstate::Why;
pub use fp_runlog::WhenLogFails;
pub use fp_watch::{
    Event, LinkStatus, Metrics, MetricsListener, Peer, PeerName, RecentEvents, Version, Wanted,
    Watched,
};
pub use run::{
    Commands, Events, Links, Operator, Refusal, ServeFault, Server, Service, Settings, StandingLink,
};
pub use system::System;
