//! Rules that no call from a number of 15 digits gets, since rules with longer prefixes take all its callers.

ghost use Rattle.std.specs.Prelude.{◌≡◌, ◌<◌, ◌≤◌, ◌+◌, ◌/◌, ◌%◌, ◌&&◌, length, nat_lt, true, false};
ghost use Rattle.fp_records.specs.Choice.{fits};
ghost use Rattle.std.specs.List.{All};
ghost use Rattle.fp_lint.specs.Week.{rule_of, rules_of};
ghost use Rattle.fp_lint.specs.Reach.{AllTaken, IsGot, IsGotAt, IsTaken, IsTakenAt, SomeLeft, takes_any};

use crate::week::{WEEK, WeekRule};
use fp_digits::Digits;
use fp_records::DecimalDigits;

/// The digits of a whole calling number, as many as in the longest prefix.
const WHOLE: usize = 15;

/// Whether some rule with a longer prefix than this fits a call at a minute of the week.
fn takes_any(rules: &[WeekRule], longer: usize, minute: u16, calling: &Digits) -> bool
    requires { minute < 10080 }
    ensures { result ≡ takes_any (rules_of rules.now) longer minute calling.now }
{
    for kept in rules {
        if is_taker(kept, longer, minute, calling) {
            return true;
        }
    }
    false
}

/// Whether a rule has a longer prefix than this and fits a call at a minute of the week.
fn is_taker(kept: &WeekRule, longer: usize, minute: u16, calling: &Digits) -> bool
    requires { minute < 10080 }
    ensures { result ≡ (nat_lt longer (length kept.now.rule.prefix) && fits calling.now (minute / 1440 + 1) (minute % 1440) (rule_of kept.now)) }
{
    kept.rule().prefix.len() > longer && kept.fits(calling.as_slice(), minute)
}

/// Whether, for each whole number that begins with these digits, some rule with a longer prefix than this fits a call
/// at a minute of the week.
fn takes_each(rules: &[WeekRule], longer: usize, minute: u16, calling: Digits) -> bool
    requires minute { minute < 10080 }
    requires size { length calling ≤ 15 }
    requires decimal { All (λ digit. digit < 10) calling }
    ensures all { result ≡ true → AllTaken (rules_of rules.now) longer minute calling }
    ensures left { result ≡ false → SomeLeft (rules_of rules.now) longer minute calling }
{
    if takes_any(rules, longer, minute, &calling) {
        return true;
    }
    if calling.len() >= WHOLE {
        return false;
    }
    for digit in 0..10u8 {
        let mut more = calling;
        more.push(digit);
        if !takes_each(rules, longer, minute, more) {
            return false;
        }
    }
    true
}

/// Whether no call from a whole number gets a rule: at each minute of its days and window, rules with longer prefixes
/// take all callers. A rule without a prefix gets the calls without a calling number.
pub(crate) fn is_taken(rules: &[WeekRule], kept: &WeekRule) -> bool
    ensures taken { result ≡ true → IsTaken (rules_of rules.now) (rule_of kept.now) }
    ensures got { result ≡ false → IsGot (rules_of rules.now) (rule_of kept.now) }
{
    if kept.rule().prefix.is_empty() {
        return false;
    }
    for minute in 0..WEEK {
        if is_got_at(rules, kept, minute) {
            return false;
        }
    }
    true
}

/// Whether a rule holds at a minute of the week, and some caller whose number begins with its prefix gets it.
fn is_got_at(rules: &[WeekRule], kept: &WeekRule, minute: u16) -> bool
    requires { minute < 10080 }
    ensures got { result ≡ true → IsGotAt (rules_of rules.now) (rule_of kept.now) minute }
    ensures taken { result ≡ false → IsTakenAt (rules_of rules.now) (rule_of kept.now) minute }
{
    if !kept.holds_at(minute) {
        return false;
    }
    let prefix = &kept.rule().prefix;
    !takes_each(rules, prefix.len(), minute, calling_of(prefix))
}

/// The digits of a prefix, as the beginning of a calling number.
fn calling_of(prefix: &DecimalDigits) -> Digits
    ensures value { result ≡ prefix.now }
    ensures decimal { All (λ digit. digit < 10) result }
{
    let digits = prefix.as_slice();
    let mut calling = Digits::new();
    for digit in digits {
        calling.push(*digit);
    }
    calling
}
