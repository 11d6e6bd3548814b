//! The peer of a link.

ghost use Rattle.std.specs.Prelude.{◌≡◌, IfOk, string_bytes};
ghost use Rattle.fp_watch.specs.Peer.{peer_text};

use arrayvec::ArrayString;
use std::alloc::{AllocError, Global};
use std::fmt;
use std::net::SocketAddr;

/// The text of a peer, of at most 40 octets.
pub type PeerName = ArrayString<40>;

/// The peer of a link.
#[derive(Clone, Copy, Debug, PartialEq, Eq)]
pub enum Peer {
    /// The client of a connection that was accepted, at this address.
    Client(SocketAddr),
    /// The peer of a link that a network carries.
    Named(PeerName),
}

impl fmt::Display for Peer {
    fn fmt<W: fmt::Write>(&self, f: &mut fmt::Formatter<W>) -> fmt::Result {
        match self {
            Peer::Client(address) => write!(f, "{address}"),
            Peer::Named(name) => f.write_str(name.as_str()),
        }
    }
}

impl Peer {
    /// The text of the peer: the address, or the name. If memory runs out, there is none.
    pub fn text(self, alloc: Global) -> Result<String, AllocError>
        ensures { IfOk result (λ text. string_bytes text ≡ peer_text self) }
    {
        match self {
            Peer::Client(address) => format!(in alloc; "{address}"),
            Peer::Named(name) => String::from_str(alloc, name.as_str()),
        }
    }
}
