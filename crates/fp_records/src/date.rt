//! The dates of closed days.

ghost use Rattle.std.specs.Prelude.{◌≡◌, ◌<◌};
ghost use Rattle.fp_records.specs.Date.{date_of, day_at, number_of_date};

use crate::window::two_digits;
use jiff::civil::Date;

/// The first possible day of a moment in local time, 1969-12-31.
const FIRST_DAY: i32 = -1;

/// The last possible day of a moment in local time, 2100-01-01, in days since 1970-01-01.
const LAST_DAY: i32 = 47482;

/// The number of the day that a text `YYYY-MM-DD` names, 0 for 1970-01-01. `None` if the calendar doesn't have this
/// date, or if it is before 1969-12-31 or after 2100-01-01. For example, `1970-02-01` is day 31.
pub(crate) fn date_of(text: &[u8]) -> Option<i32>
    ensures { result ≡ date_of text.now }
{
    if text.len() != 10 || text[4] != b'-' || text[7] != b'-' {
        return None;
    }
    let hundreds = two_digits(text[0], text[1])?;
    let years = two_digits(text[2], text[3])?;
    let month = two_digits(text[5], text[6])?;
    let day = two_digits(text[8], text[9])?;
    day_at(100 * hundreds + years, month, day)
}

/// The number of a day from 1969-12-31 to 2100-01-01, if the calendar has it.
fn day_at(year: u16, month: u16, day: u16) -> Option<i32>
    requires month { month < 100 }
    requires day { day < 100 }
    ensures { result ≡ day_at year month day }
{
    let number = number_of_date(year, month, day)?;
    if FIRST_DAY <= number && number <= LAST_DAY {
        Some(number)
    } else {
        None
    }
}

/// The number of a day from 1969 to 2100, if the calendar has it.
fn number_of_date(year: u16, month: u16, day: u16) -> Option<i32>
    requires month { month < 100 }
    requires day { day < 100 }
    ensures { result ≡ number_of_date year month day }
{
    if year < 1969 || 2100 < year {
        return None;
    }
    let Ok(date) = Date::new(year as i16, month as i8, day as i8) else {
        return None;
    };
    Some(date.to_plain().to_unix_epoch_day())
}
