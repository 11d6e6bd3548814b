//! The weekdays of a rule.

ghost use Rattle.std.specs.Prelude.{◌≡◌, false, List, get_or, length};
ghost use Rattle.std.specs.List.{list_all};
ghost use Rattle.jiff_core.specs.Weekday.{monday_zero};
ghost use Rattle.fp_records.specs.Days.{days_of, has_every_day, has_octet, is_days};

use jiff::civil::Weekday;
use std::marker::Model;

/// A set of weekdays. Contracts see it as seven flags, Monday's first.
#[derive(Clone, Copy, Debug, PartialEq, Eq)]
pub struct Days {
    held: [bool; 7],
}

impl Model for Days {
    ghost use Rattle.std.specs.Prelude.{◌≡◌, Bool, List, length};

    ghost Value = { List Bool };

    ghost view = { λ days. days.held };

    ghost invariant = { λ days. length days.held ≡ 7 };

    ghost inverse = { λ list. record { held = list } };
}

impl Days {
    /// Whether a weekday is in the set.
    pub(crate) fn has(self, weekday: Weekday) -> bool
        ensures { result ≡ get_or self (monday_zero weekday) false }
    {
        self.held[usize::from(weekday.index())]
    }

    /// Whether all seven days are in the set.
    pub fn is_every_day(self) -> bool
        ensures { result ≡ has_every_day self }
    {
        all_set(&self.held)
    }

    /// The days in a text of one or more digits from 1 (Monday) to 7 (Sunday), rising; `None` for other texts. For
    /// example, `12345` is Monday to Friday.
    pub(crate) fn from_text(text: &[u8]) -> Option<Days>
        ensures { result ≡ days_of text.now }
    {
        // Most rules have every day.
        if text == b"1234567".as_slice() {
            return Some(Days { held: [true; 7] });
        }
        if !is_days(text) {
            return None;
        }
        Some(Days {
            held: [
                has_octet(text, b'1'),
                has_octet(text, b'2'),
                has_octet(text, b'3'),
                has_octet(text, b'4'),
                has_octet(text, b'5'),
                has_octet(text, b'6'),
                has_octet(text, b'7'),
            ],
        })
    }
}

/// Whether each flag is set.
fn all_set(flags: &[bool]) -> bool
    ensures { result ≡ list_all (λ flag. flag) flags.now }
{
    for flag in flags {
        if !*flag {
            return false;
        }
    }
    true
}

/// Whether a text has an octet.
fn has_octet(text: &[u8], octet: u8) -> bool
    ensures { result ≡ has_octet text.now octet }
{
    text.contains(&octet)
}

/// Whether a text is one or more of the digits 1 to 7, rising.
fn is_days(text: &[u8]) -> bool
    ensures { result ≡ is_days text.now }
{
    let mut last = b'0';
    for octet in text {
        if *octet <= last || *octet > b'7' {
            return false;
        }
        last = *octet;
    }
    !text.is_empty()
}
