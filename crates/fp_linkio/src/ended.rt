//! Why a loop ended.

/// Why a loop ended.
#[derive(Clone, Copy, Debug, PartialEq, Eq)]
pub enum Ended {
    /// The input ended between two frames, or the outlet has no more parcels.
    EndOfInput,
    /// The length of the next frame is out of range, or the input ended inside a frame.
    BadFrame,
    /// The reader failed in this call.
    ReadFault,
    /// The writer failed in this call.
    WriteFault,
    /// The limit on reads, or on parcels, was reached.
    TurnLimit,
    /// An allocation failed.
    Memory,
}
