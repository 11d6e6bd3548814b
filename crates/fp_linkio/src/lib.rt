//! The two loops of a link: from a reader to frames, and from parcels to a writer.
//!
//! This layer gets the devices, a limit on the number of reads or parcels, and an [`Inbox`] or an [`Outlet`]. It asks
//! the system only for memory.
//!
//! * [`receive`] reads a link, and hands the frames to its inbox, in their order.
//! * [`send_loop`] writes the parcels of an outlet, and reports each as sent, or as unsent if the device failed.
//! * [`Ended`] says why a loop ended.
//! * [`LinkRead`] and [`LinkWrite`] are the devices, which count their failures. [`Gathered`] is a buffer in front of a
//!   device, so that the device gets few writes, and [`Gathering`] is a device with its buffer.
//!
//! The layer above may rely on this, if the device, the inbox or the outlet reports its octets, messages or calls. Each
//! read gave octets, except the last one at the end of the input. The frames in the input up to the last read were
//! handed on, in their order, all of them unless memory ran out (`specs/Receiving.antt`). The output is the octets of
//! the parcels, each whole and then reported sent. If the device failed, it has only a prefix of the last parcel, which
//! was reported unsent (`specs/Sending.antt`). A failure of a device is reported exactly if it failed in that call. Two
//! facts are in no contract, and cases show them: a frame is handed on before the next read, and a parcel takes one
//! write if the device takes it whole.
#![tactic(auto)]

mod ended;
mod gathered;
mod inbox;
mod outlet;
mod receiving;
mod sending;

pub use ended::Ended;
pub use fp_streams::{Counted, DeviceFault, LinkRead, LinkWrite};
pub use gathered::{Gathered, Gathering};
pub use inbox::Inbox;
pub use outlet::Outlet;
pub use receiving::receive;
pub use sending::send_loop;
