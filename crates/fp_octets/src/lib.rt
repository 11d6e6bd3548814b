//! Octets in a list of fixed room: a value that is copied, compared and kept in other values without memory of its own.
//!
//! [`Octets`] holds up to as many octets as its type says, 255 at most. Contracts see it as the list of its octets. Two
//! are equal exactly if they hold the same octets. For example, the digits of a number, a name and the octets of a
//! called party number are such lists.
#![tactic(auto)]

mod octets;

pub use octets::Octets;
