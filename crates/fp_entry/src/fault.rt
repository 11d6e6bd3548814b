//! Why a frame is refused.

use fp_ber::BerFault;
use thiserror::Error;

/// Why the octets of a frame aren't a message.
#[derive(Clone, Copy, Debug, PartialEq, Eq, Error)]
pub enum Fault {
    /// The octets spell no element. This is their first fault, which is never [`BerFault::Memory`].
    #[error("{0}")]
    Unreadable(BerFault),
    /// The octets spell an element whose tag isn't a message's.
    #[error("a message with an unknown tag")]
    UnknownMessage,
    /// The octets spell an element with a message's tag, but the contents don't fit; or a Begin whose dialogue portion
    /// isn't a request for a dialogue.
    #[error("a message with other contents than its own")]
    Badly,
}
