//! Messages of a case, as hexadecimal text.

use bytes::Bytes;
use cases::{Answer, octets_of};
use fp_digits::Moment;
use fp_entry::Prepared;
use fp_frames::Frame;
use fp_records::Table;
use std::alloc::Global;

/// The frame of a message, without its head. `None` if the text isn't a message, which is a fault of the answer.
pub(crate) fn frame_of(alloc: Global, text: &str, out: &mut Answer) -> Option<Frame> {
    let octets = octets_of(alloc, text, out);
    let Ok(message) = Bytes::copy_from_slice(alloc, octets.as_slice()) else {
        out.run_out();
        return None;
    };
    let frame = Frame::new(message);
    if frame.is_none() {
        out.fail("no frame");
    }
    frame
}

/// What a message is prepared to, if no application context name is accepted. `None` as for a frame.
pub(crate) fn prepared(
    alloc: Global,
    table: &Table,
    moment: Moment,
    text: &str,
    out: &mut Answer,
) -> Option<Prepared> {
    let frame = frame_of(alloc, text, out)?;
    Some(Prepared::read(alloc, table, &[], frame, moment))
}
