//! The next parcel of a link.

use fp_book::Parcel;

/// The answer to the sender of a link that asks for the next parcel.
#[must_use]
pub enum Next {
    /// The parcel to send next.
    Parcel(Parcel),
    /// The link is down.
    Down,
    /// No frame waits to be sent, or a parcel is out already.
    Nothing,
}

/// The answer to a hold that reports a parcel sent and picks the next one.
#[must_use]
pub struct SentAndNext {
    /// `Err` with the parcel if it is stale or foreign.
    pub sent: Result<(), Parcel>,
    /// The next parcel, found then.
    pub next: Next,
}
