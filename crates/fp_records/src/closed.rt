//! A closed day, `closed,NUMBER,YYYY-MM-DD`.

ghost use Rattle.std.specs.Prelude.{◌≡◌};
ghost use Rattle.csv.specs.Records.{fields_of};
ghost use Rattle.fp_records.specs.Closed.{closed_in};

use crate::date::date_of;
use crate::decimal_digits::DecimalDigits;
use crate::fault::Reason;
use crate::number_key::NumberKey;
use crate::row::three_fields;
use csv::ByteRecord;

/// A closed day of a number: none of its rules fits then.
#[derive(Clone, Copy)]
pub struct ClosedDay {
    /// The digits of the number.
    pub(crate) number: NumberKey,
    /// The number of the day, 0 for 1970-01-01.
    pub(crate) day: i32,
}

/// The closed day in a record that begins with `closed`.
#[tactic(auto, using(crate::proofs::Places::closed_in_others))]
pub(crate) fn closed_in(row: &ByteRecord) -> Result<ClosedDay, Reason>
    ensures { result ≡ closed_in (fields_of row.now) }
{
    let Some((_, number, date)) = three_fields(row) else {
        return Err(Reason::BadClosed);
    };
    let Some(number) = DecimalDigits::some_from_text(number) else {
        return Err(Reason::BadClosed);
    };
    let Some(day) = date_of(date) else {
        return Err(Reason::BadClosed);
    };
    Ok(ClosedDay {
        number: NumberKey::new(&number),
        day,
    })
}
