//! A step of a link: its letter and its fields.

ghost use Rattle.std.specs.Prelude.{◌≡◌, ◌++◌, ◌∷◌, [], OnErr, OnOk};
ghost use Rattle.fp_book.specs.declared.line.Line.TheVariants.{Step};
ghost use Rattle.fp_replay.specs.Format.{text_of};
ghost use Rattle.fp_replay.specs.proof_only.Reading.{ReadsStep};
ghost use Rattle.fp_replay.specs.proof_only.Writing.{KeepsFront};

use crate::LineFault;
use crate::line_part::LinePart;
use crate::parcel::{pick_in, put_parcel, sent_in, unsent_in};
use crate::posting::{lost_in, post_in, write_lost, write_post};
use crate::tick::{gap_in, put_gap, put_tick, tick_in};
use crate::turn::{give_in, put_back_in, put_entries, put_give, put_turn, take_in};
use fp_book::LoggedStep;
use std::alloc::{AllocError, Global};

/// Adds the text of a step of this link and a line feed to a text.
#[inline(always)]
pub(crate) fn write_step(link: u8, step: &LoggedStep, text: &mut Vec<u8>) -> Result<(), AllocError>
    ensures written { OnOk result (text.new.items ≡ text.old.items ++ text_of (Step link step.now) ++ 10 ∷ []) }
    ensures front { OnErr result (KeepsFront text.old.items text.new.items) }
{
    let mut part = LinePart::new();
    part.put(b'\n');
    match step {
        LoggedStep::Post {
            table,
            moment,
            message,
            answer,
        } => return write_post(link, *table, *moment, message, *answer, text),
        LoggedStep::Lost {
            moment,
            message,
            answer,
        } => return write_lost(link, *moment, message, *answer, text),
        LoggedStep::Tick {
            moment,
            added,
            wanting,
        } => put_tick(*moment, *added, *wanting, &mut part),
        LoggedStep::Take {
            birth,
            position,
            count,
        } => put_entries(b'T', *birth, *position, *count, &mut part),
        LoggedStep::Give {
            birth,
            position,
            served,
            given,
        } => put_give(*birth, *position, *served, *given, &mut part),
        LoggedStep::PutBack { birth, position } => put_turn(b'B', *birth, *position, &mut part),
        LoggedStep::Pick { birth } => put_parcel(b'Q', *birth, &mut part),
        LoggedStep::Sent { birth } => put_parcel(b'Y', *birth, &mut part),
        LoggedStep::Unsent { birth } => put_parcel(b'U', *birth, &mut part),
        LoggedStep::Down => part.put(b'N'),
        LoggedStep::Gap { lost } => put_gap(*lost, &mut part),
    }
    part.put_link(link);
    part.add_to(text)
}

/// The step without fields, from the text after its letter.
fn down_in(fields: &[u8]) -> Result<LoggedStep, LineFault>
    ensures { ReadsStep 78 fields.now result }
{
    if fields.is_empty() {
        Ok(LoggedStep::Down)
    } else {
        Err(LineFault::BadLine)
    }
}

/// The step of this letter, from the fields after it.
pub(crate) fn step_in(alloc: Global, letter: u8, fields: &[u8]) -> Result<LoggedStep, LineFault>
    ensures { ReadsStep letter fields.now result }
{
    match letter {
        b'P' => post_in(alloc, fields),
        b'L' => lost_in(alloc, fields),
        b'K' => tick_in(fields),
        b'T' => take_in(fields),
        b'G' => give_in(fields),
        b'B' => put_back_in(fields),
        b'Q' => pick_in(fields),
        b'Y' => sent_in(fields),
        b'U' => unsent_in(fields),
        b'N' => down_in(fields),
        b'Z' => gap_in(fields),
        _ => Err(LineFault::BadLine),
    }
}
