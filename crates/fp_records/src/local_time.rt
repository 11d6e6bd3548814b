//! Local time at a moment.

ghost use Rattle.std.specs.Prelude.{◌≡◌, ℕ, ◌+◌, ◌<◌, ◌≤ℤ◌, pos, neg_ℤ};
ghost use Rattle.jiff_core.specs.Weekday.{monday_zero};
ghost use Rattle.fp_records.specs.Calendar.{day_of, local_minutes, minute_of_day, weekday_of};

use fp_digits::Moment;
use jiff::Timestamp;
use jiff::civil::Weekday;
use jiff::tz::Offset;

/// A day, its weekday, and a minute of the day.
#[derive(Clone, Copy)]
pub(crate) struct LocalTime {
    /// The number of the day, 0 for 1970-01-01.
    pub(crate) day: i32,
    pub(crate) weekday: Weekday,
    pub(crate) minute: u16,
}

/// The day, the weekday and the minute of the day at a moment. Local time is this number of minutes east of UTC.
pub(crate) fn local_time(moment: Moment, offset: i16) -> LocalTime
    requires west { neg_ℤ (pos 720) ≤ℤ offset }
    requires east { offset ≤ℤ pos 840 }
    ensures day { result.day ≡ day_of (local_minutes moment offset) }
    ensures weekday { monday_zero result.weekday + 1 ≡ weekday_of (local_minutes moment offset) }
    ensures minute { result.minute ≡ minute_of_day (local_minutes moment offset) }
{
    let offset = Offset::from_seconds(60 * i32::from(offset)).unwrap();
    let instant = Timestamp::from_millisecond(moment.milliseconds() as i64).unwrap();
    let local = offset.to_datetime(instant);
    LocalTime {
        day: local.date().to_plain().to_unix_epoch_day(),
        weekday: local.weekday(),
        minute: 60 * u16::from(local.hour() as u8) + u16::from(local.minute() as u8),
    }
}
