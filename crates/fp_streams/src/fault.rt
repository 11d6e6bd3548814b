//! Why a stream could not be read or written any further.

use thiserror::Error;

/// The device failed.
#[derive(Clone, Copy, Debug, PartialEq, Eq, Error)]
#[error("the device failed")]
pub struct DeviceFault;

/// The device failed before all octets were written.
#[derive(Clone, Copy, Debug, PartialEq, Eq, Error)]
#[error("the output cannot be written")]
pub struct WriteFault;

/// Why the lines of a reader weren't all taken. Lines are counted from 1.
#[derive(Debug, Drop)]
pub enum LinesFault<F> {
    /// The line with this number is too long.
    TooLong(u128),
    /// The line with this number was refused, for this reason.
    Refused(u128, F),
    /// The device failed.
    ReadFault,
    /// The limit on reads was reached before the end of the input.
    TurnLimit,
    /// An allocation failed.
    Memory,
}
