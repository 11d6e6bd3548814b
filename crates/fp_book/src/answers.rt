//! The answers of the steps of a link.

ghost use Rattle.std.specs.Prelude.{◌≡◌};

use fp_q773::AbortCause;

/// The outcome of a posted message.
#[derive(Clone, Copy, Debug, PartialEq, Eq)]
pub enum Posted {
    /// A dialogue, opened by a Begin, with this local transaction identifier.
    Opened(u32),
    /// The number of entries that the dialogue, named by the message, accepted.
    Accepted(u32),
    /// The message was refused. The admitted dialogue that it names, if there is one, was closed. An Abort of the
    /// provider with this cause waits to be sent.
    Aborted(AbortCause),
    /// The message was refused and the dialogue that it names closed. Nothing is sent.
    Ended,
    /// No dialogue accepted the message or was closed. Nothing is sent.
    Discarded,
}

/// The answer of [`Book::post_with_receipt`](crate::Book::post_with_receipt).
#[derive(Clone, Copy, Debug, PartialEq, Eq)]
pub struct Receipt {
    /// The outcome.
    pub posted: Posted,
    /// How many components of the message were accepted, 0 if it wasn't accepted.
    pub components: u32,
    /// Whether memory ran out in this call, so that the message was treated as lost, and the log has a `Lost`. `false`
    /// for a message that was lost before it was posted.
    pub lost: bool,
}

impl Receipt {
    /// The receipt of a message that wasn't accepted.
    pub(crate) fn not_accepted(posted: Posted, lost: bool) -> Receipt
        ensures { result ≡ record { posted = posted; components = 0; lost = lost } }
    {
        Receipt {
            posted,
            components: 0,
            lost,
        }
    }
}

/// The outcome of the requests of a turn that is given back.
#[derive(Clone, Copy, Debug, PartialEq, Eq)]
pub enum Given {
    /// No frame: the entries requested nothing.
    Silent,
    /// The number of frames that now wait to be sent.
    Queued(u32),
    /// The number of requests that weren't accepted, because the dialogue was ended from outside.
    Dropped(u32),
}
