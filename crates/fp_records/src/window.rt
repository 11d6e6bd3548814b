//! The window of the day in which a rule fits.

ghost use Rattle.std.specs.Prelude.{◌≡◌, ◌<◌, ◌≤◌, IfSome};
ghost use Rattle.fp_records.specs.Window.{holds_minute, minute_at, period_between, time_of, two_digits};

use std::marker::Model;

/// The last possible beginning of a window, 23:59.
pub(crate) const LAST_START: u16 = 1439;

/// The last possible end of a window, 24:00.
pub(crate) const LAST_END: u16 = 1440;

/// A window of the day, from its first minute up to the minute of its end, which is outside. If the
/// end is before the first minute, the window goes past midnight. For example, 22:00 to 06:00
/// contains 23:59 and 05:59. Contracts see the two as a `Period`.
#[derive(Clone, Copy, Debug, PartialEq, Eq)]
pub struct Window {
    from: u16,
    to: u16,
}

impl Model for Window {
    ghost use Rattle.fp_records.specs.Window.{Period, IsPeriod};

    ghost Value = { Period };

    ghost view = { λ window. record { from = window.from; to = window.to } };

    ghost invariant = { λ window. IsPeriod (record { from = window.from; to = window.to }) };

    ghost inverse = { λ period. record { from = period.from; to = period.to } };
}

impl Window {
    /// The first minute, 0 (00:00) to 1439 (23:59).
    pub fn from(self) -> u16
        ensures value { result ≡ self.from }
        ensures range { result < 1440 }
    {
        self.from
    }

    /// The first minute after the window, 0 (00:00) to 1440 (24:00), never [`Window::from`].
    pub fn to(self) -> u16
        ensures value { result ≡ self.to }
        ensures range { result ≤ 1440 }
    {
        self.to
    }

    /// Whether a minute of the day, 0 to 1439, is in the window.
    pub fn holds(self, minute: u16) -> bool
        ensures { result ≡ holds_minute self minute }
    {
        if self.from < self.to {
            self.from <= minute && minute < self.to
        } else {
            self.from <= minute || minute < self.to
        }
    }

    /// The window between two minutes; `None` if they are the same.
    pub(crate) fn between(from: u16, to: u16) -> Option<Window>
        requires first { from < 1440 }
        requires last { to ≤ 1440 }
        ensures { result ≡ period_between from to }
    {
        if from == to {
            None
        } else {
            Some(Window { from, to })
        }
    }
}

/// The number of two decimal digits.
pub(crate) fn two_digits(tens: u8, ones: u8) -> Option<u16>
    ensures value { result ≡ two_digits tens ones }
    ensures below { IfSome result (λ number. number < 100) }
{
    if tens.is_ascii_digit() && ones.is_ascii_digit() {
        Some(10 * u16::from(tens - b'0') + u16::from(ones - b'0'))
    } else {
        None
    }
}

/// The minute of the day in a text `HH:MM`, if it is at most `last`.
pub(crate) fn time_of(last: u16, text: &[u8]) -> Option<u16>
    ensures { result ≡ time_of last text.now }
{
    if text.len() != 5 || text[2] != b':' {
        return None;
    }
    let Some(hour) = two_digits(text[0], text[1]) else {
        return None;
    };
    let Some(minute) = two_digits(text[3], text[4]) else {
        return None;
    };
    let time = 60 * hour + minute;
    if minute < 60 && time <= last {
        Some(time)
    } else {
        None
    }
}
