//! Connections: awaiting, watching, reading and writing them.
//!
//! | File | Contents |
//! |---|---|
//! | `connections.rt` | the wait for a connection |
//! | `link_stream.rt` | the connection of a link: a socket, or a network |
//! | `traced_stream.rt` | the connection of a link, and how the last call of its threads ended |

mod connections;
mod link_stream;
mod traced_stream;

pub(crate) use connections::connection;
pub(crate) use link_stream::{LinkStream, report_news};
pub(crate) use traced_stream::TracedStream;
