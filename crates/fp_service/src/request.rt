//! The messages that the service logic requests.

use crate::Components;
use fp_apdu::Name;

/// A message that the service logic sends to the peer of a dialogue (Q.774).
#[derive(Debug, Drop)]
pub enum Request {
    /// A Continue.
    Continue {
        /// The application context name of the AARE that accepts the dialogue, only in the first answer.
        acceptance: Option<Name>,
        /// The components.
        components: Components,
    },
    /// An End: the dialogue is over.
    End {
        /// The application context name of the AARE that accepts the dialogue, only in the first answer.
        acceptance: Option<Name>,
        /// The components.
        components: Components,
    },
    /// An Abort by the user: the dialogue is over.
    Abort(AbortPortion),
}

/// The dialogue portion of an Abort by the user (Q.773, 4.2.3).
#[derive(Clone, Copy, Debug)]
pub enum AbortPortion {
    /// No dialogue portion: the dialogue has no application context.
    Absent,
    /// An ABRT.
    Abrt,
    /// An AARE that refuses this application context name, as it isn't supported.
    NoName(Name),
    /// An AARE, with this application context name, that refuses the version, as none is common.
    NoVersion(Name),
}
