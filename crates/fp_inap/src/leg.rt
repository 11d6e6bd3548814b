//! Legs of a call.

/// A leg of a call, legID (after ITU-T Q.1218), with its number: 1 is the caller's, 2 the called party's.
#[derive(Clone, Copy, Debug, PartialEq, Eq)]
pub enum Leg {
    /// The number in sendingSideID.
    Sending(u8),
    /// The number in receivingSideID.
    Receiving(u8),
}
