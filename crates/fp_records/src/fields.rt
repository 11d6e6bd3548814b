//! The rule in the fields of a record.

ghost use Rattle.std.specs.Prelude.{◌≡◌, ℕ, List, MatchResult, Some, None};
ghost use Rattle.fp_records.specs.declared.fault.Reason.TheVariants.{FieldCount};
ghost use Rattle.csv.specs.Records.{field_at, fields_of};
ghost use Rattle.fp_records.specs.Fields.{numbered_in, verb_of};
ghost use Rattle.fp_records.specs.Steps.{action_by, action_in, alone, days_in, destination_in, destinations_of, four_in, number_in, one_in, prefix_in, rule_in, three_in, two_in, verb_in, weight_in, window_in};

use crate::action::{Action, Destinations};
use crate::days::Days;
use crate::decimal_digits::DecimalDigits;
use crate::destination::Destination;
use crate::fault::Reason;
use crate::number_key::NumberKey;
use crate::rule::Rule;
use crate::weight::Weight;
use crate::window::{LAST_END, LAST_START, Window, time_of};
use csv::ByteRecord;

/// The number of fields of a rule before its destinations.
const FIELDS: usize = 7;

/// The word of an action.
#[derive(Clone, Copy, PartialEq, Eq)]
pub enum Verb {
    /// `route`, with one to four destinations.
    Route,
    /// `refuse`.
    Refuse,
    /// `pass`.
    Pass,
}

/// A rule with its number.
#[derive(Clone, Copy)]
pub struct NumberedRule {
    /// The digits of the number.
    pub(crate) number: NumberKey,
    /// The rule.
    pub(crate) rule: Rule,
}

impl Verb {
    fn from_text(text: &[u8]) -> Option<Verb>
        ensures { result ≡ verb_of text.now }
    {
        if text == b"route".as_slice() {
            Some(Verb::Route)
        } else if text == b"refuse".as_slice() {
            Some(Verb::Refuse)
        } else if text == b"pass".as_slice() {
            Some(Verb::Pass)
        } else {
            None
        }
    }
}

/// The text of a field, or [`Reason::FieldCount`] if the record doesn't have it.
fn field(row: &ByteRecord, place: usize) -> Result<&[u8], Reason>
    ensures { MatchResult result (λ text. field_at (fields_of row.now) place ≡ Some text.now) (λ reason. (reason ≡ FieldCount) × (field_at (fields_of row.now) place ≡ None)) }
{
    row.get(place).ok_or(Reason::FieldCount)
}

fn number_in(row: &ByteRecord) -> Result<DecimalDigits, Reason>
    ensures { result ≡ number_in (fields_of row.now) }
{
    DecimalDigits::some_from_text(field(row, 0)?).ok_or(Reason::BadNumber)
}

fn prefix_in(row: &ByteRecord) -> Result<DecimalDigits, Reason>
    ensures { result ≡ prefix_in (fields_of row.now) }
{
    DecimalDigits::from_text(field(row, 1)?).ok_or(Reason::BadPrefix)
}

fn days_in(row: &ByteRecord) -> Result<Days, Reason>
    ensures { result ≡ days_in (fields_of row.now) }
{
    Days::from_text(field(row, 2)?).ok_or(Reason::BadDays)
}

fn window_in(row: &ByteRecord) -> Result<Window, Reason>
    ensures { result ≡ window_in (fields_of row.now) }
{
    let from = time_of(LAST_START, field(row, 3)?).ok_or(Reason::BadTime)?;
    let to = time_of(LAST_END, field(row, 4)?).ok_or(Reason::BadTime)?;
    Window::between(from, to).ok_or(Reason::BadTime)
}

fn weight_in(row: &ByteRecord) -> Result<Weight, Reason>
    ensures { result ≡ weight_in (fields_of row.now) }
{
    Weight::from_text(field(row, 5)?).ok_or(Reason::BadWeight)
}

fn verb_in(row: &ByteRecord) -> Result<Verb, Reason>
    ensures { result ≡ verb_in (fields_of row.now) }
{
    Verb::from_text(field(row, 6)?).ok_or(Reason::BadAction)
}

fn destination_in(row: &ByteRecord, place: usize) -> Result<Destination, Reason>
    ensures { result ≡ destination_in (fields_of row.now) place }
{
    Destination::from_text(field(row, place)?).ok_or(Reason::BadDestination)
}

/// One to four destinations, after the other fields.
fn destinations_of(row: &ByteRecord) -> Result<Destinations, Reason>
    ensures { result ≡ destinations_of (fields_of row.now) }
{
    match row.len() {
        8 => one_in(row),
        9 => two_in(row),
        10 => three_in(row),
        11 => four_in(row),
        _ => Err(Reason::FieldCount),
    }
}

fn one_in(row: &ByteRecord) -> Result<Destinations, Reason>
    ensures { result ≡ one_in (fields_of row.now) }
{
    let first = destination_in(row, 7)?;
    Ok(Destinations::One([first]))
}

fn two_in(row: &ByteRecord) -> Result<Destinations, Reason>
    ensures { result ≡ two_in (fields_of row.now) }
{
    let first = destination_in(row, 7)?;
    let second = destination_in(row, 8)?;
    Ok(Destinations::Two([first, second]))
}

fn three_in(row: &ByteRecord) -> Result<Destinations, Reason>
    ensures { result ≡ three_in (fields_of row.now) }
{
    let first = destination_in(row, 7)?;
    let second = destination_in(row, 8)?;
    let third = destination_in(row, 9)?;
    Ok(Destinations::Three([first, second, third]))
}

fn four_in(row: &ByteRecord) -> Result<Destinations, Reason>
    ensures { result ≡ four_in (fields_of row.now) }
{
    let first = destination_in(row, 7)?;
    let second = destination_in(row, 8)?;
    let third = destination_in(row, 9)?;
    let fourth = destination_in(row, 10)?;
    Ok(Destinations::Four([first, second, third, fourth]))
}

/// An action without destinations.
fn alone(row: &ByteRecord, action: Action) -> Result<Action, Reason>
    ensures { result ≡ alone (fields_of row.now) action }
{
    if row.len() == FIELDS {
        Ok(action)
    } else {
        Err(Reason::FieldCount)
    }
}

fn action_by(verb: Verb, row: &ByteRecord) -> Result<Action, Reason>
    ensures { result ≡ action_by verb (fields_of row.now) }
{
    match verb {
        Verb::Route => {
            let destinations = destinations_of(row)?;
            Ok(Action::Route(destinations))
        }
        Verb::Refuse => alone(row, Action::Refuse),
        Verb::Pass => alone(row, Action::Pass),
    }
}

fn action_in(row: &ByteRecord) -> Result<Action, Reason>
    ensures { result ≡ action_in (fields_of row.now) }
{
    let verb = verb_in(row)?;
    action_by(verb, row)
}

fn rule_in(row: &ByteRecord) -> Result<Rule, Reason>
    ensures { result ≡ rule_in (fields_of row.now) }
{
    let prefix = prefix_in(row)?;
    let days = days_in(row)?;
    let window = window_in(row)?;
    let weight = weight_in(row)?;
    let action = action_in(row)?;
    Ok(Rule {
        prefix,
        days,
        window,
        weight,
        action,
    })
}

/// The rule in a record with its number, or its first fault. The fields are checked from left to
/// right, as far as there are any, their count after the action, and the destinations last.
pub(crate) fn numbered_in(row: &ByteRecord) -> Result<NumberedRule, Reason>
    ensures { result ≡ numbered_in (fields_of row.now) }
{
    let number = number_in(row)?;
    let rule = rule_in(row)?;
    Ok(NumberedRule {
        number: NumberKey::new(&number),
        rule,
    })
}
