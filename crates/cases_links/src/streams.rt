//! The frames of a stream of octets.
//!
//! | Case | What it gives |
//! |---|---|
//! | `stream PIECE ..` | what asking for frames gives after each piece, with `; ` between the pieces: the messages of the frames, and then `none` or a fault, which must be the answer once more |
//! | `stream-cuts HEX` | the messages of the frames of these octets, and in how many ways of cutting them into up to three pieces and one octet a piece they are the same |
//! | `long-stream COUNT` | after how many octets the frame of COUNT octets 5A comes if one octet is fed at a time, and how many octets 5A it holds |

ghost use Rattle.std.specs.Prelude.{◌≤◌, length};

use crate::texts::push_message;
use cases::{Answer, number_of, octets_of};
use fp_frames::{FrameFault, FrameReader, frame_head};
use std::alloc::{AllocError, Global};

/// Writes that there is no frame, which must be so again.
fn push_none(out: &mut Answer, reader: &mut FrameReader) {
    match reader.next() {
        Ok(None) => out.text("none"),
        _ => out.fail("another answer at once"),
    }
}

/// Writes a fault, which must come again.
fn push_fault(out: &mut Answer, reader: &mut FrameReader, fault: FrameFault) {
    match reader.next() {
        Err(again) if again == fault => out.value(fault),
        _ => out.fail("another answer at once"),
    }
}

/// Writes what asking for frames gives, until it gives none.
fn push_all(out: &mut Answer, reader: &mut FrameReader) {
    for _ in 0..u32::MAX {
        match reader.next() {
            Ok(Some(frame)) => out.octets(frame.octets()),
            Ok(None) => return push_none(out, reader),
            Err(fault) => return push_fault(out, reader, fault),
        }
        out.text(", ");
    }
}

/// Feeds octets.
fn feed_octets(reader: &mut FrameReader, octets: &[u8], out: &mut Answer) {
    out.note(reader.feed(octets));
}

/// Feeds a piece, and writes what asking for frames gives then.
fn push_piece(alloc: Global, reader: &mut FrameReader, piece: &str, out: &mut Answer) {
    out.separator("; ");
    let octets = octets_of(alloc, piece, out);
    feed_octets(reader, octets.as_slice(), out);
    push_all(out, reader);
}

/// What asking for frames gives after each piece.
fn stream(alloc: Global, pieces: &str, out: &mut Answer) {
    let mut reader = FrameReader::new(alloc);
    for piece in pieces.split(' ') {
        push_piece(alloc, &mut reader, piece, out);
    }
    if reader.is_empty() {
        out.text("; all handed out");
    }
}

/// Feeds a piece, and writes the messages of the frames that are whole then.
fn feed(reader: &mut FrameReader, piece: &[u8], out: &mut Answer) {
    feed_octets(reader, piece, out);
    for _ in 0..u32::MAX {
        match reader.next() {
            Ok(Some(frame)) => push_message(out, frame.octets()),
            Ok(None) => return,
            Err(_) => return out.fail("no frames"),
        }
    }
}

/// Feeds octets that are cut at two places, and writes the messages of the frames that are whole then.
fn feed_cut(reader: &mut FrameReader, octets: &[u8], first: usize, second: usize, out: &mut Answer)
    requires rises { first ≤ second }
    requires fits { second ≤ length octets.now }
{
    feed(reader, &octets[..first], out);
    feed(reader, &octets[first..second], out);
    feed(reader, &octets[second..], out);
}

/// Whether octets that are cut at these two places have these messages.
fn is_same(alloc: Global, octets: &[u8], first: usize, second: usize, wanted: &Answer) -> bool
    requires rises { first ≤ second }
    requires fits { second ≤ length octets.now }
{
    let mut reader = FrameReader::new(alloc);
    let mut text = Answer::new(alloc);
    feed_cut(&mut reader, octets, first, second, &mut text);
    !text.is_faulty() && text.as_str() == wanted.as_str()
}

/// Writes the messages of octets that come one by one.
fn feed_each(alloc: Global, octets: &[u8], out: &mut Answer) {
    let mut reader = FrameReader::new(alloc);
    for piece in octets.chunks(1) {
        feed(&mut reader, piece, out);
    }
}

/// Writes these messages of octets, and in how many ways of cutting they are the same.
fn push_ways(alloc: Global, octets: &[u8], wanted: &Answer, out: &mut Answer) {
    let mut ways: u32 = 1;
    for second in 0..octets.len() {
        for first in 0..second {
            if !is_same(alloc, octets, first, second, wanted) {
                out.labeled("other messages if cut at ", first);
                return out.labeled(" and ", second);
            }
            ways = ways.saturating_add(1);
        }
    }
    out.append(wanted);
    out.labeled(": ", ways);
    out.text(" ways");
}

/// The messages of octets, however they are cut.
fn cuts(alloc: Global, text: &str, out: &mut Answer) {
    let octets = octets_of(alloc, text, out);
    let mut wanted = Answer::new(alloc);
    feed_each(alloc, octets.as_slice(), &mut wanted);
    push_ways(alloc, octets.as_slice(), &wanted, out);
}

/// Appends the octets of a frame of this many octets 5A.
fn push_long_octets(octets: &mut Vec<u8>, count: u16) -> Result<(), AllocError>
    requires some { 1 ≤ count }
    requires most { count ≤ 4096 }
{
    octets.extend_from_slice(&frame_head(count))?;
    octets.resize(usize::from(count).saturating_add(4), 0x5A)
}

/// Whether all octets are 5A.
fn are_same(octets: &[u8]) -> bool {
    for octet in octets {
        if *octet != 0x5A {
            return false;
        }
    }
    true
}

/// Writes after how many octets a frame came, and how many octets 5A it holds.
fn push_long(out: &mut Answer, fed: u32, octets: &[u8]) {
    if !are_same(octets) {
        out.fail("other octets");
    }
    out.labeled("behind ", fed);
    out.labeled(": ", octets.len());
    out.text(" of 5A");
}

/// Feeds octets one at a time until a frame comes, and writes that.
fn push_first(reader: &mut FrameReader, octets: &[u8], out: &mut Answer) {
    let mut fed: u32 = 0;
    for piece in octets.chunks(1) {
        feed_octets(reader, piece, out);
        fed = fed.saturating_add(1);
        if let Ok(Some(frame)) = reader.next() {
            return push_long(out, fed, frame.octets());
        }
    }
    out.fail("no frame");
}

/// After how many octets a frame comes that is fed one octet at a time.
fn long_stream(alloc: Global, text: &str, out: &mut Answer) {
    let count: u16 = number_of(text, out);
    if count == 0 || count > 4_096 {
        return out.fail("not 1 to 4,096 octets");
    }
    let mut octets = Vec::new(alloc);
    out.note(push_long_octets(&mut octets, count));
    let mut reader = FrameReader::new(alloc);
    push_first(&mut reader, octets.as_slice(), out);
}

/// Writes what a case of this module gives, and says whether it has one of this kind.
pub(crate) fn answer(alloc: Global, kind: &str, rest: &str, out: &mut Answer) -> bool {
    match kind {
        "stream" => stream(alloc, rest, out),
        "stream-cuts" => cuts(alloc, rest, out),
        "long-stream" => long_stream(alloc, rest, out),
        _ => return false,
    }
    true
}
