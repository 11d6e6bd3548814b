//! Parcels: picked, sent and not sent.

ghost use Rattle.std.specs.Prelude.{◌≡◌, ◌∷◌, ◌<◌, ◌^◌, ℕ, IfSome};
ghost use Rattle.fp_replay.specs.proof_only.Reading.{ReadsStep, parcel_fields};
ghost use Rattle.fp_replay.specs.proof_only.Writing.{HasRoom, Puts};

use crate::LineFault;
use crate::fields::one_field;
use crate::line_part::LinePart;
use crate::number::long_number_in;
use fp_book::LoggedStep;

/// Puts the letter and the field of a parcel at the front of a part of a line.
#[inline(always)]
pub(crate) fn put_parcel(letter: u8, birth: u64, part: &mut LinePart)
    requires { HasRoom 22 part.old }
    ensures { Puts 22 (letter ∷ parcel_fields birth) part.old part.new }
{
    part.put_field(birth);
    part.put(letter);
}

/// The birth of a parcel's dialogue, from its field.
fn parcel_in(fields: &[u8]) -> Option<u64>
    ensures found { IfSome result (λ birth. (birth < 2 ^ 64) × (fields.now ≡ parcel_fields birth)) }
    ensures only { (birth : ℕ) → birth < 2 ^ 64 → fields.now ≡ parcel_fields birth → result ≡ Some birth }
{
    let Some(field) = one_field(fields) else {
        return None;
    };
    long_number_in(field)
}

/// The parcel that was picked, from the field after its letter.
pub(crate) fn pick_in(fields: &[u8]) -> Result<LoggedStep, LineFault>
    ensures { ReadsStep 81 fields.now result }
{
    let Some(birth) = parcel_in(fields) else {
        return Err(LineFault::BadLine);
    };
    Ok(LoggedStep::Pick { birth })
}

/// The parcel that was sent, from the field after its letter.
pub(crate) fn sent_in(fields: &[u8]) -> Result<LoggedStep, LineFault>
    ensures { ReadsStep 89 fields.now result }
{
    let Some(birth) = parcel_in(fields) else {
        return Err(LineFault::BadLine);
    };
    Ok(LoggedStep::Sent { birth })
}

/// The parcel that couldn't be sent, from the field after its letter.
pub(crate) fn unsent_in(fields: &[u8]) -> Result<LoggedStep, LineFault>
    ensures { ReadsStep 85 fields.now result }
{
    let Some(birth) = parcel_in(fields) else {
        return Err(LineFault::BadLine);
    };
    Ok(LoggedStep::Unsent { birth })
}
