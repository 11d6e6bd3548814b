//! Why a link goes down.

use thiserror::Error;

/// Why a link went down. Its text appears in the event line.
#[derive(Clone, Copy, Debug, PartialEq, Eq, Error)]
pub enum Why {
    /// The peer closed the connection, or its sending side, between two frames.
    #[error("peer closed")]
    PeerClosed,
    /// The length of a frame is out of range.
    #[error("bad frame length")]
    BadFrameLength,
    /// The peer closed the connection inside a frame.
    #[error("closed inside a frame")]
    ClosedInsideFrame,
    /// A read failed, for example because the peer reset the connection.
    #[error("read fault")]
    ReadFault,
    /// A write failed.
    #[error("write fault")]
    WriteFault,
    /// An allocation for a frame failed.
    #[error("out of memory")]
    Memory,
    /// The dialogues of the link keep too many entries.
    #[error("entries")]
    Entries,
    /// The log can't be written.
    #[error("log fault")]
    LogFault,
    /// The peer acknowledges no more octets.
    #[error("peer gone")]
    PeerGone,
    /// The run had another fault. The last line of the run names it.
    #[error("run fault")]
    RunFault,
    /// The limit on reads or frames of a link was reached.
    #[error("limit")]
    Limit,
    /// The command `quit` was given.
    #[error("quit")]
    Quit,
}
