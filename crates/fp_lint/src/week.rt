//! The rules of a number over a week without closed days.

ghost use Rattle.std.specs.Prelude.{◌≡◌, ◌<◌, ◌+◌, ◌/◌, ◌%◌, ℕ, MatchOption, false};
ghost use Rattle.fp_records.specs.Choice.{fits};
ghost use Rattle.fp_records.specs.Days.{marked_days};
ghost use Rattle.fp_lint.specs.Week.{IsFirstBare, IsGap, IsSameAt, count_below, has_same, holds_at, is_bare, rule_of, rules_of};

use fp_records::Rule;

/// The minutes of a week.
pub(crate) const WEEK: u16 = 10_080;

/// The minutes of a day.
const DAY: u16 = 1_440;

/// A rule, and its days as flags, Monday's first.
#[derive(Clone, Copy)]
pub(crate) struct WeekRule {
    days: [bool; 7],
    rule: Rule,
}

/// The days in a text as flags, Monday's first.
fn flags_of(text: &[u8]) -> [bool; 7]
    ensures { result ≡ marked_days text.now }
{
    [
        text.contains(&b'1'),
        text.contains(&b'2'),
        text.contains(&b'3'),
        text.contains(&b'4'),
        text.contains(&b'5'),
        text.contains(&b'6'),
        text.contains(&b'7'),
    ]
}

impl WeekRule {
    /// A rule with these days in the file.
    pub(crate) fn new(days: &[u8], rule: Rule) -> WeekRule
        ensures rule { result.rule ≡ rule }
        ensures days { result.days ≡ marked_days days.now }
    {
        WeekRule {
            days: flags_of(days),
            rule,
        }
    }

    /// The rule.
    pub(crate) fn rule(&self) -> &Rule
        ensures { result.now ≡ self.now.rule }
    {
        &self.rule
    }

    /// Whether the rule holds at a minute of the week, by its days and its window.
    pub(crate) fn holds_at(&self, minute: u16) -> bool
        requires { minute < 10080 }
        ensures { result ≡ holds_at (rule_of self.now) minute }
    {
        self.days[usize::from(minute / DAY)] && self.rule.window.holds(minute % DAY)
    }

    /// Whether the rule fits a call from these digits at a minute of the week.
    pub(crate) fn fits(&self, calling: &[u8], minute: u16) -> bool
        requires { minute < 10080 }
        ensures { result ≡ fits calling.now (minute / 1440 + 1) (minute % 1440) (rule_of self.now) }
    {
        calling.starts_with(self.rule.prefix.as_slice()) && self.holds_at(minute)
    }
}

/// The minutes of the week without a rule for all callers of a number.
#[derive(Clone, Copy)]
pub(crate) struct Gap {
    /// The number of these minutes, 1 to 10,080.
    pub(crate) minutes: u16,
    /// The first of these minutes, 0 for Monday 00:00.
    pub(crate) first: u16,
}

/// Whether no rule fits a call without a calling number at a minute of the week.
fn is_bare(rules: &[WeekRule], minute: u16) -> bool
    requires { minute < 10080 }
    ensures { result ≡ is_bare (rules_of rules.now) minute }
{
    for rule in rules {
        if rule.fits(&[], minute) {
            return false;
        }
    }
    true
}

/// The first minute of the week without a rule for calls without a calling number.
fn first_bare(rules: &[WeekRule]) -> Option<u16>
    ensures { MatchOption result ((minute : ℕ) → minute < 10080 → is_bare (rules_of rules.now) minute ≡ false) (IsFirstBare (rules_of rules.now)) }
{
    for minute in 0..WEEK {
        if is_bare(rules, minute) {
            return Some(minute);
        }
    }
    None
}

/// The number of such minutes in the week.
#[tactic(auto, unfolding(crate::specs::Week::count_below))]
fn count_bare(rules: &[WeekRule]) -> u16
    ensures { result ≡ count_below (is_bare (rules_of rules.now)) 10080 }
{
    let mut count = 0;
    for minute in 0..WEEK {
        if is_bare(rules, minute) {
            count += 1;
        }
    }
    count
}

/// The minutes of the week without a rule for calls without a calling number.
pub(crate) fn gap_in(rules: &[WeekRule]) -> Option<Gap>
    ensures { MatchOption result ((minute : ℕ) → minute < 10080 → is_bare (rules_of rules.now) minute ≡ false) (λ gap. IsGap (rules_of rules.now) gap.minutes gap.first) }
{
    match first_bare(rules) {
        Some(first) => Some(Gap {
            minutes: count_bare(rules),
            first,
        }),
        None => None,
    }
}

/// The position of a rule that is the same as this one.
pub(crate) fn place_of(rules: &[WeekRule], kept: &WeekRule) -> Option<usize>
    ensures { MatchOption result (has_same rules.now kept.now ≡ false) (IsSameAt rules.now kept.now) }
{
    for (place, other) in rules.iter().enumerate() {
        if other.rule() == kept.rule() {
            return Some(place);
        }
    }
    None
}
