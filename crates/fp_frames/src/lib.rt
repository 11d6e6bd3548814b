//! The frames that carry TCAP messages over a connection, in place of SCCP. A frame is a length of four octets,
//! big-endian, 1 to 4,096, and then one message. For example, a message of 51 octets has the head `00 00 00 33`.
//!
//! This layer checks whether a frame can hold a message, makes the head for a length, and takes the frames out of a
//! stream that arrives piece by piece. It asks the system only for memory: for the octets of the stream, and for
//! sharing them.
//!
//! * [`Frame`] is the message of a frame, as octets that may be shared.
//! * [`frame_head`] gives the four octets before a message.
//! * [`FrameReader`] hands out the frames of a stream, however it is cut into pieces.
//!
//! The layer above may rely on this: contracts see a [`Frame`] as the list of its octets, 1 to 4,096 of them, and a
//! head as the length in four digits to the base 256. `framed` is a head and its message (`specs/Frame.antt`), and
//! [`message_stands_behind_its_head`] says that the message is found again. A stream is the frames of its messages, one
//! after another, and a rest that begins with no whole frame (`specs/Stream.antt`). The frames that a [`FrameReader`]
//! hands out, followed by the octets that it still holds, are exactly the octets that it held before.
//! [`streams_have_one_list_of_frames`] says that there is no other way to take them apart.
#![tactic(auto)]

mod fault;
mod frame;
mod head;
mod laws;
mod reader;

pub use fault::FrameFault;
pub use frame::Frame;
pub use head::frame_head;
pub use laws::{message_stands_behind_its_head, streams_have_one_list_of_frames};
pub use reader::FrameReader;
