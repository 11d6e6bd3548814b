//! Frames and their heads.
//!
//! | Case | Result |
//! |---|---|
//! | `frame HEX` | the octets of the frame of this message (`empty`: of no octets), or `none` |
//! | `copy-frame HEX` | the octets of a copy of the frame of this message |
//! | `frame-of COUNT` | how many octets the frame of a message of COUNT octets 5A has, or `none` |
//! | `head COUNT` | the octets before a message of COUNT octets |

use crate::values::kept;
use bytes::Bytes;
use cases::{Answer, number_of, octets_of};
use fp_frames::{Frame, frame_head};
use std::alloc::Global;

/// The frame of this message; `None` if a frame can't hold it.
fn frame_of(alloc: Global, octets: &[u8], out: &mut Answer) -> Option<Frame> {
    Frame::new(kept(Bytes::copy_from_slice(alloc, octets), out)?)
}

/// Writes the octets of a frame, or `none`.
fn push_frame(out: &mut Answer, frame: Option<&Frame>) {
    match frame {
        Some(frame) => out.octets(frame.octets()),
        None => out.text("none"),
    }
}

/// The octets of the frame of a message.
fn frame(alloc: Global, text: &str, out: &mut Answer) {
    let octets = octets_of(alloc, text, out);
    let frame = frame_of(alloc, octets.as_slice(), out);
    push_frame(out, frame.as_ref());
}

/// A copy of a frame; `None`, and a fault, if there is no frame.
fn copy_of(frame: Option<&Frame>, out: &mut Answer) -> Option<Frame> {
    match frame {
        Some(frame) => kept(frame.try_clone(), out),
        None => {
            out.fail("no frame");
            None
        }
    }
}

/// A copy of the frame of a message. The frame itself is dropped.
fn copied(alloc: Global, octets: &[u8], out: &mut Answer) -> Option<Frame> {
    let frame = frame_of(alloc, octets, out);
    copy_of(frame.as_ref(), out)
}

/// The octets of a copy of the frame of a message, after the frame itself is gone.
fn copy(alloc: Global, text: &str, out: &mut Answer) {
    let octets = octets_of(alloc, text, out);
    let copy = copied(alloc, octets.as_slice(), out);
    push_frame(out, copy.as_ref());
}

/// Writes how many octets there are, each of them 5A.
fn push_count(out: &mut Answer, octets: &[u8]) {
    for octet in octets {
        if *octet != 0x5A {
            out.fail("other octets");
        }
    }
    out.value(octets.len());
    out.text(" of 5A");
}

/// Writes how many octets a frame has, or `none`.
fn push_count_of(out: &mut Answer, frame: Option<&Frame>) {
    match frame {
        Some(frame) => push_count(out, frame.octets()),
        None => out.text("none"),
    }
}

/// How many octets the frame of a message of this number of octets 5A has.
fn count(alloc: Global, text: &str, out: &mut Answer) {
    let count: u16 = number_of(text, out);
    let mut octets = Vec::new(alloc);
    out.note(octets.resize(usize::from(count), 0x5A));
    let frame = frame_of(alloc, octets.as_slice(), out);
    push_count_of(out, frame.as_ref());
}

/// The octets before a message of this number of octets.
fn head(text: &str, out: &mut Answer) {
    let count: u16 = number_of(text, out);
    if 0 < count && count <= 4_096 {
        out.octets(&frame_head(count));
    } else {
        out.fail("not 1 to 4,096 octets");
    }
}

/// Writes the result of a case of this kind. `false` if this module has no such cases.
pub(crate) fn answer(alloc: Global, kind: &str, rest: &str, out: &mut Answer) -> bool {
    match kind {
        "frame" => frame(alloc, rest, out),
        "copy-frame" => copy(alloc, rest, out),
        "frame-of" => count(alloc, rest, out),
        "head" => head(rest, out),
        _ => return false,
    }
    true
}
