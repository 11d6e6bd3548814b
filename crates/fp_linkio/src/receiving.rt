//! The loop that reads a link.

ghost use Rattle.fp_linkio.specs.Receiving.{HandsOn, ReaderFailed, Receives};

use crate::{Ended, Inbox, LinkRead};
use fp_frames::{FrameFault, FrameReader};
use std::alloc::Global;

/// The most octets of one read.
const MOST_READ: usize = 65_536;

/// Reads a link, in reads of up to 65,536 octets, and hands the frames to the inbox, in their order. All frames that a
/// read completed are handed on before the next read (cases show this), followed by [`Inbox::end_of_read`]. There are
/// at most `turns` reads.
///
/// [`Ended::EndOfInput`]: the input ended between two frames. [`Ended::BadFrame`]: it ended inside a frame, or the
/// length of a frame is out of range. [`Ended::ReadFault`]: the reader failed. [`Ended::TurnLimit`]: all `turns` reads
/// gave octets. [`Ended::Memory`]: memory ran out for the octets of a read or for a frame. All frames that the reads
/// completed were handed on; only after [`Ended::Memory`] some may be missing.
pub fn receive<R: LinkRead, I: Inbox>(
    alloc: Global,
    reader: &mut R,
    turns: u64,
    inbox: &mut I,
) -> Ended
    ensures receives { Receives turns (R.remaining reader.old) (R.remaining reader.new)
        (R.pieces reader.old) (R.pieces reader.new) (I.messages inbox.old) (I.messages inbox.new) result }
    ensures failure { ReaderFailed result (R.failures reader.old) (R.failures reader.new) }
{
    let mut room = Vec::new(alloc);
    let Ok(()) = room.resize(MOST_READ, 0) else {
        return Ended::Memory;
    };
    let mut frames = FrameReader::new(alloc);
    for _turn in 0..turns {
        let Ok(count) = reader.read(room.as_mut_slice()) else {
            return Ended::ReadFault;
        };
        if count == 0 {
            if frames.is_empty() {
                return Ended::EndOfInput;
            }
            return Ended::BadFrame;
        }
        let Ok(()) = frames.feed(&room[..count]) else {
            return Ended::Memory;
        };
        match hand_on(&mut frames, inbox) {
            Ok(()) => {}
            Err(FrameFault::BadFrameLength) => return Ended::BadFrame,
            Err(FrameFault::Memory) => return Ended::Memory,
        }
    }
    Ended::TurnLimit
}

/// Hands all complete frames to the inbox, in their order, and reports the end of the read.
fn hand_on<I: Inbox>(frames: &mut FrameReader, inbox: &mut I) -> Result<(), FrameFault>
    ensures { HandsOn (I.messages inbox.old) (I.messages inbox.new) frames.old frames.new result }
{
    let handed_on = hand_on_each(frames, inbox);
    inbox.end_of_read();
    handed_on
}

/// Hands all complete frames to the inbox, in their order.
fn hand_on_each<I: Inbox>(frames: &mut FrameReader, inbox: &mut I) -> Result<(), FrameFault>
    ensures { HandsOn (I.messages inbox.old) (I.messages inbox.new) frames.old frames.new result }
{
    loop {
        match frames.next() {
            Ok(Some(frame)) => inbox.frame(frame),
            Ok(None) => return Ok(()),
            Err(fault) => return Err(fault),
        }
    }
}
