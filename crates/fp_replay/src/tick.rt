//! A tick, and a gap.

ghost use Rattle.std.specs.Prelude.{◌∷◌};
ghost use Rattle.fp_replay.specs.proof_only.Reading.{ReadsStep, gap_fields, tick_fields};
ghost use Rattle.fp_replay.specs.proof_only.Writing.{HasRoom, Puts};

use crate::LineFault;
use crate::fields::{one_field, three_fields};
use crate::line_part::LinePart;
use crate::number::{long_number_in, moment_in, short_number_in};
use fp_book::LoggedStep;
use fp_digits::Moment;

/// Puts the letter and the fields of a tick at the front of a part of a line.
pub(crate) fn put_tick(moment: Moment, added: u32, wanting: u32, part: &mut LinePart)
    requires { HasRoom 64 part.old }
    ensures { Puts 64 (75 ∷ tick_fields moment added wanting) part.old part.new }
{
    part.put_field(u64::from(wanting));
    part.put_field(u64::from(added));
    part.put_field(moment.milliseconds());
    part.put(b'K');
}

/// The tick, from the fields after its letter.
pub(crate) fn tick_in(fields: &[u8]) -> Result<LoggedStep, LineFault>
    ensures { ReadsStep 75 fields.now result }
{
    let Some((first, second, third)) = three_fields(fields) else {
        return Err(LineFault::BadLine);
    };
    let Some(moment) = moment_in(first) else {
        return Err(LineFault::BadLine);
    };
    let Some(added) = short_number_in(second) else {
        return Err(LineFault::BadLine);
    };
    let Some(wanting) = short_number_in(third) else {
        return Err(LineFault::BadLine);
    };
    Ok(LoggedStep::Tick {
        moment,
        added,
        wanting,
    })
}

/// Puts the letter and the field of a gap at the front of a part of a line.
pub(crate) fn put_gap(lost: u64, part: &mut LinePart)
    requires { HasRoom 22 part.old }
    ensures { Puts 22 (90 ∷ gap_fields lost) part.old part.new }
{
    part.put_field(lost);
    part.put(b'Z');
}

/// The gap, from the field after its letter.
pub(crate) fn gap_in(fields: &[u8]) -> Result<LoggedStep, LineFault>
    ensures { ReadsStep 90 fields.now result }
{
    let Some(field) = one_field(fields) else {
        return Err(LineFault::BadLine);
    };
    let Some(lost) = long_number_in(field) else {
        return Err(LineFault::BadLine);
    };
    Ok(LoggedStep::Gap { lost })
}
