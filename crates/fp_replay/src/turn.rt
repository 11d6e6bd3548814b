//! Turns: taken, given and put back.

ghost use Rattle.std.specs.Prelude.{◌≡◌, ◌∷◌, ◌<◌, ◌^◌, ℕ, IfSome, IsSomeAnd};
ghost use Rattle.fp_replay.specs.proof_only.Reading.{ReadsStep, entries_fields, give_fields, turn_fields};
ghost use Rattle.fp_replay.specs.proof_only.Writing.{HasRoom, Puts};

use crate::LineFault;
use crate::answer::{given_in, put_given};
use crate::fields::{four_fields, three_fields, two_fields};
use crate::line_part::LinePart;
use crate::number::{long_number_in, short_number_in};
use fp_book::{Given, LoggedStep};

/// Puts the letter and the fields of a turn at the front of a part of a line.
#[inline(always)]
pub(crate) fn put_turn(letter: u8, birth: u64, position: u64, part: &mut LinePart)
    requires { HasRoom 43 part.old }
    ensures { Puts 43 (letter ∷ turn_fields birth position) part.old part.new }
{
    part.put_field(position);
    part.put_field(birth);
    part.put(letter);
}

/// The birth of a turn's dialogue and the position of the turn, from its fields.
fn turn_in(fields: &[u8]) -> Option<(u64, u64)>
    ensures found { IfSome result (λ turn. (turn.0 < 2 ^ 64) × (turn.1 < 2 ^ 64) × (fields.now ≡ turn_fields turn.0 turn.1)) }
    ensures only { (birth position : ℕ) → birth < 2 ^ 64 → position < 2 ^ 64 → fields.now ≡ turn_fields birth position → IsSomeAnd result (λ turn. (turn.0 ≡ birth) × (turn.1 ≡ position)) }
{
    let Some((first, second)) = two_fields(fields) else {
        return None;
    };
    let Some(birth) = long_number_in(first) else {
        return None;
    };
    let Some(position) = long_number_in(second) else {
        return None;
    };
    Some((birth, position))
}

/// Puts the letter and the fields of a turn and of this number of its entries at the front of a part of a line.
#[inline(always)]
pub(crate) fn put_entries(letter: u8, birth: u64, position: u64, count: u32, part: &mut LinePart)
    requires { HasRoom 64 part.old }
    ensures { Puts 64 (letter ∷ entries_fields birth position count) part.old part.new }
{
    part.put_field(u64::from(count));
    put_turn(letter, birth, position, part);
}

/// The turn that was taken, from the fields after its letter.
pub(crate) fn take_in(fields: &[u8]) -> Result<LoggedStep, LineFault>
    ensures { ReadsStep 84 fields.now result }
{
    let Some((first, second, third)) = three_fields(fields) else {
        return Err(LineFault::BadLine);
    };
    let Some(birth) = long_number_in(first) else {
        return Err(LineFault::BadLine);
    };
    let Some(position) = long_number_in(second) else {
        return Err(LineFault::BadLine);
    };
    let Some(count) = short_number_in(third) else {
        return Err(LineFault::BadLine);
    };
    Ok(LoggedStep::Take {
        birth,
        position,
        count,
    })
}

/// The turn that was put back, from the fields after its letter.
pub(crate) fn put_back_in(fields: &[u8]) -> Result<LoggedStep, LineFault>
    ensures { ReadsStep 66 fields.now result }
{
    let Some((birth, position)) = turn_in(fields) else {
        return Err(LineFault::BadLine);
    };
    Ok(LoggedStep::PutBack { birth, position })
}

/// Puts the letter and the fields of a turn that was given at the front of a part of a line.
#[inline(always)]
pub(crate) fn put_give(birth: u64, position: u64, served: u32, given: Given, part: &mut LinePart)
    requires { HasRoom 86 part.old }
    ensures { Puts 86 (71 ∷ give_fields birth position served given) part.old part.new }
{
    put_given(given, part);
    part.put(b' ');
    put_entries(b'G', birth, position, served, part);
}

/// The turn that was given, from the fields after its letter.
pub(crate) fn give_in(fields: &[u8]) -> Result<LoggedStep, LineFault>
    ensures { ReadsStep 71 fields.now result }
{
    let Some((first, second, third, fourth)) = four_fields(fields) else {
        return Err(LineFault::BadLine);
    };
    let Some(birth) = long_number_in(first) else {
        return Err(LineFault::BadLine);
    };
    let Some(position) = long_number_in(second) else {
        return Err(LineFault::BadLine);
    };
    let Some(served) = short_number_in(third) else {
        return Err(LineFault::BadLine);
    };
    let Some(given) = given_in(fourth) else {
        return Err(LineFault::BadLine);
    };
    Ok(LoggedStep::Give {
        birth,
        position,
        served,
        given,
    })
}
