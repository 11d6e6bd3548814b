//! The octets of a request of the service logic: a head and a TCAP message (ITU-T Q.773, 4.2) in its canonical spelling
//! (ITU-T X.690, 10.1).
//!
//! This layer takes a [`Request`](fp_service::Request) and the two transaction identifiers of its dialogue, and returns
//! octets. It asks the system only for memory, and out of memory is its only error.
//!
//! * [`bytes_of`] returns the frame of a request, of at most [`MOST_OCTETS`] octets.
//! * [`abort_frame`] returns the frame of an Abort of the provider, and takes no memory.
//!
//! A Continue has the local identifier in four octets and the peer's as it was received. An End and an Abort have only
//! the peer's. The dialogue portion is an AARE if the dialogue is accepted or rejected, and an ABRT if it is aborted;
//! without an application context there is none. Any components follow. For example, a Continue from local 131,073 to
//! peer 00 00 00 07 begins with 65, a length, `48 04 00 02 00 01` and `49 04 00 00 00 07`.
//!
//! The layer above may rely on this: the frame is `frame_of` of `specs/Reply.antt`, which depends only on the request
//! and the identifiers, and it is read as the message `reply` of the same file.
#![tactic(auto)]

mod component;
mod dialogue_portion;
mod frame;
mod message;
mod provider_abort;

pub use frame::{MOST_OCTETS, bytes_of};
pub use provider_abort::{AbortFrame, abort_frame};
