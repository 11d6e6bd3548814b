//! Events on a network.

ghost use Rattle.std.specs.Prelude.{◌≡◌, ◌<◌};
ghost use Rattle.fp_network.specs.Tally.{AreListed, place_of};

use crate::Tally;
use fp_ipa::UnitName;
use std::fmt;
use std::net::SocketAddr;

/// Why a connection was closed.
#[derive(Clone, Copy, Debug, PartialEq, Eq)]
pub enum Closing {
    /// The peer closed the connection.
    PeerClosed,
    /// A read or a write failed.
    Failed,
    /// A later connection took the unit.
    Replaced,
    /// The peer named no unit of the node.
    UnknownUnit,
    /// The peer sent a message that the state of the connection doesn't allow.
    OutOfOrder,
    /// The peer sent a message of more than 4,096 octets.
    TooLong,
    /// The connection wasn't active within five seconds.
    Silent,
    /// The peer took too little: a megabyte waited for it.
    Slow,
    /// The node drains.
    Draining,
    /// All 16 places for connections were taken.
    TooMany,
    /// The link is down.
    LinkDown,
}

impl Closing {
    /// All reasons, in the order of their numbers.
    pub const ALL: [Closing; Tally::REASONS] = [
        Closing::PeerClosed,
        Closing::Failed,
        Closing::Replaced,
        Closing::UnknownUnit,
        Closing::OutOfOrder,
        Closing::TooLong,
        Closing::Silent,
        Closing::Slow,
        Closing::Draining,
        Closing::TooMany,
        Closing::LinkDown,
    ];

    /// The place of a reason among the numbers of a [`Tally`].
    pub(crate) fn place(self) -> usize
        ensures value { result ≡ place_of self }
        ensures range { place_of self < Tally.REASONS }
    {
        match self {
            Closing::PeerClosed => 0,
            Closing::Failed => 1,
            Closing::Replaced => 2,
            Closing::UnknownUnit => 3,
            Closing::OutOfOrder => 4,
            Closing::TooLong => 5,
            Closing::Silent => 6,
            Closing::Slow => 7,
            Closing::Draining => 8,
            Closing::TooMany => 9,
            Closing::LinkDown => 10,
        }
    }

    /// The word for a reason.
    pub(crate) fn word(self) -> &'static str {
        match self {
            Closing::PeerClosed => "peer-closed",
            Closing::Failed => "failed",
            Closing::Replaced => "replaced",
            Closing::UnknownUnit => "unknown-unit",
            Closing::OutOfOrder => "out-of-order",
            Closing::TooLong => "message-too-long",
            Closing::Silent => "silent",
            Closing::Slow => "slow",
            Closing::Draining => "draining",
            Closing::TooMany => "too-many",
            Closing::LinkDown => "link-down",
        }
    }
}

impl fmt::Display for Closing {
    fn fmt<W: fmt::Write>(&self, f: &mut fmt::Formatter<W>) -> fmt::Result {
        f.write_str(self.word())
    }
}

/// Each reason has the place in [`Closing::ALL`] that its number has in a [`Tally`].
pub fn reasons_are_listed()
    ensures { AreListed Closing.ALL }
{}

/// An event on a network. Connections are numbered from 1, in the order of their events `Came`.
#[derive(Clone, Copy, Debug, PartialEq, Eq)]
pub enum NetworkEvent {
    /// A transfer point connected.
    Came {
        /// The number of the connection.
        connection: u64,
        /// The address of its client.
        peer: SocketAddr,
    },
    /// A connection carries messages for a unit from now on.
    Active {
        /// The number of the connection.
        connection: u64,
        /// The name of the unit.
        unit: UnitName,
    },
    /// A connection is over.
    Gone {
        /// The number of the connection.
        connection: u64,
        /// Why.
        why: Closing,
    },
    /// The numbers of messages and of connections so far.
    Counted(Tally),
}

/// Writes the name of a unit.
fn write_unit<W: fmt::Write>(unit: &UnitName, f: &mut fmt::Formatter<W>) -> fmt::Result {
    f.write_str(str::from_utf8(unit.as_slice()).unwrap_or("?"))
}

impl fmt::Display for NetworkEvent {
    fn fmt<W: fmt::Write>(&self, f: &mut fmt::Formatter<W>) -> fmt::Result {
        match self {
            NetworkEvent::Came { connection, peer } => {
                write!(f, "connection {connection} from {peer}")
            }
            NetworkEvent::Active { connection, unit } => {
                write!(f, "connection {connection} unit ")?;
                write_unit(unit, f)
            }
            NetworkEvent::Gone { connection, why } => {
                write!(f, "connection {connection} over: {why}")
            }
            NetworkEvent::Counted(tally) => tally.fmt(f),
        }
    }
}
