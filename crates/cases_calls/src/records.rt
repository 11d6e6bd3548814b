//! Files of records: their contents, their faults, and the rule that a call gets.
//!
//! A FILE is a sequence of parts, perhaps none: `TEXT`; `COUNT*TEXT`, the text COUNT times; or
//! `FIRST..LAST*COUNT*TEXT`, the same for each number from the first to the last one, with the number before each text.
//! In a text `\n`, `\r`, `\s` (a blank) and `\xHH` each mean one octet.
//!
//! DIGITS are hexadecimal, or `empty`. CALLING is the digits of a calling number, or `none`. A MOMENT is written as
//! `2024-05-06T11:00:00Z`, or with milliseconds as `2024-05-06T11:00:00.000Z`.
//!
//! | Case | Result |
//! |---|---|
//! | `file FILE` | the service key, and how many numbers, rules and, if any, closed days the file has; or the fault. The next cases use this file |
//! | `migrate FILE` | the contents of a vector, which had the octet `>`, after the migration, as the text of a part; then the fault, if any |
//! | `other-file FILE` | the same for a second file, for `same-record` |
//! | `find NATURE DIGITS` | the record of a called number, `national` or `international`: its rule if it has just one, else `several rules`; or `no record` |
//! | `choose CALLED CALLING MOMENT BIRTH` | the rule that a call gets, or `no rule`, or `no record` |
//! | `holds CALLED HH:MM` | whether the window of the number's only rule holds this minute |
//! | `same-record CALLED` | whether the two files have the same record for a number, compared both ways |
//! | `destinations TEXT` | the first of these destinations of a rule and the others, then the same for the others, and so on |
//! | `same-destinations TEXT TEXT` | whether two rules have the same destinations, compared both ways |
//! | `fault memory` | the text of the fault "out of memory" |

mod files;
mod only;
mod rules;

use crate::records::files::{file_of, push_part_text};
use crate::records::rules::push_rule;
use crate::texts::push_digits;
use crate::values::{after_noon, found, kept, national_number_of, number_with};
use cases::{Answer, first_word, number_of};
use fp_digits::{Moment, NatureOfAddress, Number};
use fp_records::{Action, Destinations, Record, RecordsFault, Table, migrate};
use jiff::Timestamp;
pub(crate) use only::{only_rule, routed_to};
pub(crate) use rules::push_destinations;
use std::alloc::Global;
use std::sync::Arc;

/// The state that cases leave for later ones.
#[derive(Drop)]
pub(crate) struct Scene {
    file: Option<Table>,
    other_file: Option<Table>,
}

impl Scene {
    /// The state before the first case.
    pub(crate) fn new() -> Scene {
        Scene {
            file: None,
            other_file: None,
        }
    }

    /// Writes the result of a case of this kind. `false` if this module has no such cases.
    pub(crate) fn answer(
        &mut self,
        alloc: Global,
        kind: &str,
        rest: &str,
        out: &mut Answer,
    ) -> bool {
        match kind {
            "file" => read(alloc, &mut self.file, rest, out),
            "other-file" => read(alloc, &mut self.other_file, rest, out),
            "migrate" => migrate_file(alloc, rest, out),
            "find" => find(alloc, &self.file, rest, out),
            "choose" => choose(alloc, &self.file, rest, out),
            "holds" => holds(&self.file, rest, out),
            "same-record" => same_record(&self.file, &self.other_file, rest, out),
            "destinations" => in_turn(alloc, rest, out),
            "same-destinations" => same_destinations(alloc, rest, out),
            "fault" => out.value(RecordsFault::Memory),
            _ => return false,
        }
        true
    }
}

/// Reads a file, and puts its table into `place`; nothing if the file has a fault.
fn read(alloc: Global, place: &mut Option<Table>, text: &str, out: &mut Answer) {
    *place = None;
    let file = file_of(alloc, text, out);
    match Table::read(alloc, file.as_slice()) {
        Ok(table) => {
            push_counts(&table, out);
            *place = Some(table);
        }
        Err(fault) => out.value(fault),
    }
}

/// Writes the migration of a file, appended to a vector with one octet.
fn migrate_file(alloc: Global, text: &str, out: &mut Answer) {
    let file = file_of(alloc, text, out);
    let mut migrated = Vec::new(alloc);
    out.push(&mut migrated, b'>');
    let result = migrate(alloc, file.as_slice(), &mut migrated);
    push_part_text(out, migrated.as_slice());
    if let Err(fault) = result {
        out.labeled(" ", fault);
    }
}

/// Writes the service key of a table, and how many numbers, rules and closed days it has.
fn push_counts(table: &Table, out: &mut Answer) {
    let (numbers, rules) = table.counts();
    out.labeled("key ", table.key());
    out.labeled(", numbers ", numbers);
    out.labeled(", rules ", rules);
    if table.closed() > 0 {
        out.labeled(", closed ", table.closed());
    }
}

/// The table of the file that was read. `None`, and a fault, if none was.
fn table_in<'a>(place: &'a Option<Table>, out: &mut Answer) -> Option<&'a Table> {
    found(place.as_ref(), "no file was read", out)
}

/// The nature of address of this name.
fn nature_of(text: &str, out: &mut Answer) -> NatureOfAddress {
    match text {
        "national" => NatureOfAddress::NATIONAL,
        "international" => NatureOfAddress::INTERNATIONAL,
        _ => {
            out.fail("no nature of address");
            NatureOfAddress::NATIONAL
        }
    }
}

/// Writes the table's answer to a called number.
fn find(alloc: Global, place: &Option<Table>, text: &str, out: &mut Answer) {
    let (nature, digits) = first_word(text);
    let nature = nature_of(nature, out);
    let called = number_with(nature, digits, out);
    if let Some(table) = table_in(place, out) {
        push_record(alloc, table.find(&called), out);
    }
}

/// Writes a record: its rule if it has just one; or `no record`.
fn push_record(alloc: Global, record: Option<&Arc<Record>>, out: &mut Answer) {
    let Some(record) = record else {
        return out.text("no record");
    };
    match record.only_rule() {
        Some(rule) => push_rule(alloc, out, rule),
        None => out.text("several rules"),
    }
}

/// The calling number, or `None` if there is none.
fn calling_of(text: &str, out: &mut Answer) -> Option<Number> {
    if text == "none" {
        return None;
    }
    Some(national_number_of(text, out))
}

/// The milliseconds since 1970 of the moment that a text names. `None`, and a fault, if it names none.
fn milliseconds_of(text: &str, out: &mut Answer) -> Option<u64> {
    let instant: Timestamp = kept(text.parse(), out)?;
    kept(u64::try_from(instant.as_millisecond()), out)
}

/// The moment that a text names; noon, and a fault, if it names none.
fn moment_of(text: &str, out: &mut Answer) -> Moment {
    match milliseconds_of(text, out).and_then(Moment::new) {
        Some(moment) => moment,
        None => {
            out.fail("no moment");
            after_noon(0)
        }
    }
}

/// Writes the rule that a call gets.
fn choose(alloc: Global, place: &Option<Table>, text: &str, out: &mut Answer) {
    let (called, call) = first_word(text);
    let called = national_number_of(called, out);
    if let Some(table) = table_in(place, out) {
        push_choice(alloc, table.find(&called), call, out);
    }
}

/// Writes the rule of a record that a call gets, or `no record`.
fn push_choice(alloc: Global, record: Option<&Arc<Record>>, call: &str, out: &mut Answer) {
    match record {
        Some(record) => choose_in(alloc, record, call, out),
        None => out.text("no record"),
    }
}

/// Writes the rule of a record that a call gets.
fn choose_in(alloc: Global, record: &Record, call: &str, out: &mut Answer) {
    let (calling, rest) = first_word(call);
    let (moment, birth) = first_word(rest);
    let calling = calling_of(calling, out);
    let moment = moment_of(moment, out);
    let birth: u64 = number_of(birth, out);
    match record.choose(calling.as_ref(), moment, birth) {
        Some(rule) => push_rule(alloc, out, rule),
        None => out.text("no rule"),
    }
}

/// The minute of the day that a text `HH:MM` names.
fn minute_of(text: &str, out: &mut Answer) -> u16 {
    let (hour, minute) = text.split_once(':').unwrap_or((text, ""));
    let hour: u8 = number_of(hour, out);
    let minute: u8 = number_of(minute, out);
    60 * u16::from(hour) + u16::from(minute)
}

/// Writes whether the window of a number's only rule holds a minute.
fn holds(place: &Option<Table>, text: &str, out: &mut Answer) {
    let (called, minute) = first_word(text);
    let minute = minute_of(minute, out);
    if let Some(table) = table_in(place, out) {
        push_holds(table, called, minute, out);
    }
}

/// Writes whether the window of a number's only rule holds a minute.
fn push_holds(table: &Table, called: &str, minute: u16, out: &mut Answer) {
    if let Some(rule) = only_rule(table, called, out) {
        out.either(rule.window.holds(minute), "yes", "no");
    }
}

/// Writes whether two values are the same, as compared both ways.
fn push_same(one: bool, other: bool, out: &mut Answer) {
    out.text(match (one, other) {
        (true, true) => "the same",
        (false, false) => "not the same",
        _ => "the same if one is asked, and not if the other is",
    });
}

/// The record of a called number in a file. `None`, and a fault, if there is none.
fn record_in<'a>(
    place: &'a Option<Table>,
    called: &Number,
    out: &mut Answer,
) -> Option<&'a Record> {
    match table_in(place, out)?.find(called) {
        Some(record) => Some(record),
        None => {
            out.fail("no record");
            None
        }
    }
}

/// Writes whether two files have the same record for a number.
fn same_record(place: &Option<Table>, other: &Option<Table>, called: &str, out: &mut Answer) {
    let called = national_number_of(called, out);
    let record = record_in(place, &called, out);
    let other = record_in(other, &called, out);
    if let (Some(record), Some(other)) = (record, other) {
        push_same(record == other, other == record, out);
    }
}

/// Writes whether two texts spell the same destinations.
fn same_destinations(alloc: Global, text: &str, out: &mut Answer) {
    let (one, other) = first_word(text);
    let Some(one) = routed_to(alloc, one, out) else {
        return;
    };
    if let Some(other) = routed_to(alloc, other, out) {
        same_routes(&one, &other, out);
    }
}

/// The destinations of a table's only rule. `None`, and a fault, if it has none.
fn destinations_in(table: &Table, out: &mut Answer) -> Option<Destinations> {
    if let Action::Route(destinations) = only_rule(table, "5", out)?.action {
        return Some(destinations);
    }
    out.fail("no destinations");
    None
}

/// Writes whether the only rules of two tables have the same destinations.
fn same_routes(one: &Table, other: &Table, out: &mut Answer) {
    let one = destinations_in(one, out);
    let other = destinations_in(other, out);
    push_same(one == other, other == one, out);
}

/// Writes the first of the destinations of a text and the others, then the same for the others, and so on.
fn in_turn(alloc: Global, text: &str, out: &mut Answer) {
    if let Some(table) = routed_to(alloc, text, out) {
        push_in_turn(&table, out);
    }
}

/// Writes the first destination of a table's only rule and the others, then the same for the others, and so on.
fn push_in_turn(table: &Table, out: &mut Answer) {
    let mut left = destinations_in(table, out);
    for _ in 0..4 {
        let Some(list) = left else {
            break;
        };
        push_split(&list, out);
        left = list.split_first().left;
    }
}

/// Writes a list of destinations, its first one and the others, after a semicolon if there is text before it.
fn push_split(list: &Destinations, out: &mut Answer) {
    let split = list.split_first();
    out.separator("; ");
    out.character('[');
    push_destinations(out, list);
    out.text("]: ");
    let digits = split.first.digits();
    push_digits(out, digits.as_slice());
    push_left(&split.left, out)
}

/// Writes the destinations after the first, or `none`.
fn push_left(left: &Option<Destinations>, out: &mut Answer) {
    out.text(" and ");
    match left {
        Some(left) => push_destinations(out, left),
        None => out.text("none"),
    }
}
