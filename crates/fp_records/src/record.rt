//! The rules of a number, and the choice of one of them.

ghost use Rattle.std.specs.Prelude.{◌≡◌, ◌≤◌, ◌+◌, ℕ, filter, length, max, option_map, ◌≢◌, [], ◌∷◌, IfNone, IfSome};
ghost use Rattle.jiff_core.specs.Weekday.{monday_zero};
ghost use Rattle.fp_records.specs.Choice.{IsRules, by_share, calling_digits, choice, fits, longest_prefix, most_exact, of_length, rule_at_draw, total_weight};
ghost use Rattle.fp_records.specs.Share.{total_with};

use crate::call::Call;
use crate::day_set::DaySet;
use crate::local_time::local_time;
use crate::rule::{KeptRule, Rule};
use fp_digits::{Moment, Number};
use std::marker::Model;

/// The rules of one number, 1 to 1,000 of them, in the order of the file, and its closed days. Contracts see it as its
/// `Rules`.
#[derive(Debug, Drop)]
pub struct Record {
    offset: i16,
    rules: Vec<KeptRule>,
    closed: DaySet,
}

impl Model for Record {
    ghost use Rattle.fp_records.specs.Choice.{IsRules, Rules};

    ghost Value = { Rules };

    ghost view = { λ record_of. record { offset = record_of.offset; rules = record_of.rules.items; closed = record_of.closed } };

    ghost invariant = { λ record_of. IsRules (record { offset = record_of.offset; rules = record_of.rules.items; closed = record_of.closed }) };
}

/// Two records are equal exactly if they have the same offset, the same closed days, and the same rules in the same
/// order (`exact_record` of `specs/Same.antt`). A comparison takes no memory, and at most one step for each closed day
/// and each rule.
impl PartialEq for Record {
    ghost use Rattle.fp_records.specs.Same.{same_record, same_record_per};

    ghost eq = { same_record };

    ghost laws = { same_record_per };

    fn eq(&self, other: &Self) -> bool {
        self.offset == other.offset
            && self.closed.is_same(&other.closed)
            && self.rules.as_slice() == other.rules.as_slice()
    }
}

impl Eq for Record {
    ghost use Rattle.fp_records.specs.Same.{same_record_equiv};

    ghost laws = { same_record_equiv };
}

/// The longest prefix of the fitting rules, and the sum of the weights of the rules with that length.
#[derive(Clone, Copy)]
struct Share {
    longest: usize,
    total: u64,
}

impl Record {
    /// The record with these rules, 1 to 1,000, and these closed days. Local time is this number of minutes east of
    /// UTC.
    pub(crate) fn new(offset: i16, rules: Vec<KeptRule>, closed: DaySet) -> Record
        requires { IsRules (record { offset = offset; rules = rules.items; closed = closed }) }
        ensures { result ≡ record { offset = offset; rules = rules.items; closed = closed } }
    {
        Record {
            offset,
            rules,
            closed,
        }
    }

    /// The rule of a number with just one rule, and `None` if there are more.
    pub fn only_rule(&self) -> Option<&Rule>
        ensures some { IfSome result (λ rule. self.now.rules ≡ rule.now ∷ []) }
        ensures none { IfNone result (length self.now.rules ≢ 1) }
        ensures kept { IsRules self.now }
    {
        let [kept, rest @ ..] = self.rules.as_slice() else {
            return None;
        };
        if !rest.is_empty() {
            return None;
        }
        Some(kept.rule())
    }

    /// The rule for a call; `None` if no rule fits.
    ///
    /// If the number is closed on the day, in local time, no rule fits. Otherwise a rule fits if its prefix begins the
    /// calling digits (without a calling number only the empty prefix does), its days contain the weekday and its
    /// window contains the minute of the moment, both in local time. Of the fitting rules only those with the longest
    /// prefix count, in the file's order. With weights `w1..wk` of sum `W`, the choice is the first one with `w1 + .. +
    /// wi > birth mod W`. For example, with weights 3 and 1, births 0, 1, 2, 4 choose the first rule, and 3 and 7 the
    /// second.
    pub fn choose(&self, calling: Option<&Number>, moment: Moment, birth: u64) -> Option<&Rule>
        ensures { option_map (λ rule. rule.now) result ≡ choice self.now (calling_digits calling.entry) moment birth }
    {
        let time = local_time(moment, self.offset);
        if self.closed.has(&time.day) {
            return None;
        }
        let call = Call {
            calling: calling_digits(calling),
            time,
        };
        chosen(self.rules.as_slice(), &call, birth)
    }
}

/// The digits of the calling number, or none if there is no calling number.
fn calling_digits(calling: Option<&Number>) -> &[u8]
    ensures { result.now ≡ calling_digits calling.entry }
{
    match calling {
        Some(number) => number.digits.as_slice(),
        None => &[],
    }
}

/// The rule for a call.
fn chosen<'a>(rules: &'a [KeptRule], call: &Call<'_>, birth: u64) -> Option<&'a Rule>
    requires { length rules.now ≤ 1000 }
    ensures { option_map (λ rule. rule.now) result ≡ by_share birth (most_exact (filter (fits call.now.calling.now (monday_zero call.now.time.weekday + 1) call.now.time.minute) rules.now)) }
{
    let share = share_of(rules, call);
    if share.total == 0 {
        return None;
    }
    rule_at(rules, call, share.longest, birth % share.total)
}

/// The share of the rules that fit a call.
fn share_of(rules: &[KeptRule], call: &Call<'_>) -> Share
    requires { length rules.now ≤ 1000 }
    ensures longest { result.longest ≡ longest_prefix (filter (fits call.now.calling.now (monday_zero call.now.time.weekday + 1) call.now.time.minute) rules.now) }
    ensures total { result.total ≡ total_weight (of_length result.longest (filter (fits call.now.calling.now (monday_zero call.now.time.weekday + 1) call.now.time.minute) rules.now)) }
{
    let mut share = Share {
        longest: 0,
        total: 0,
    };
    for kept in rules {
        let rule = kept.rule();
        if call.fits(rule) {
            share = share.with(rule);
        }
    }
    share
}

impl Share {
    /// The share after one more fitting rule.
    fn with(self, rule: &Rule) -> Share
        requires { self.total ≤ 999000 }
        ensures longest { result.longest ≡ max self.longest (length rule.now.prefix) }
        ensures total { result.total ≡ total_with self.longest self.total rule.now }
        ensures most { result.total ≤ self.total + 1000 }
    {
        let length = rule.prefix.len();
        let weight = u64::from(rule.weight.parts());
        if length > self.longest {
            Share {
                longest: length,
                total: weight,
            }
        } else if length == self.longest {
            Share {
                longest: length,
                total: self.total + weight,
            }
        } else {
            self
        }
    }
}

/// Of the fitting rules with the longest prefix, the first one whose weight brings the sum above the draw.
fn rule_at<'a>(
    rules: &'a [KeptRule],
    call: &Call<'_>,
    longest: usize,
    draw: u64,
) -> Option<&'a Rule>
    requires { length rules.now ≤ 1000 }
    ensures { option_map (λ rule. rule.now) result ≡ rule_at_draw draw (of_length longest (filter (fits call.now.calling.now (monday_zero call.now.time.weekday + 1) call.now.time.minute) rules.now)) }
{
    let mut before = 0;
    for kept in rules {
        let rule = kept.rule();
        if rule.prefix.len() == longest && call.fits(rule) {
            before += u64::from(rule.weight.parts());
            if draw < before {
                return Some(rule);
            }
        }
    }
    None
}
