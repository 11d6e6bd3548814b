//! The entries that a message gives its dialogue (`fp_entry`), or why it gives none.
//!
//! | Case | Result |
//! |---|---|
//! | `prepare MOMENT CONTEXT HEX` | the prepared message of these octets, and its frame: its identifiers, how many octets it has, and its moment |
//! | `look-ups OCTETS` | the records that Begins to numbers with these last octets find, read one after another with one look-up |
//! | `in-continue HEX` | the prepared Continue from 0000002A to 00000001 with only this component, at noon, with indefinite lengths around the component |
//! | `lost MOMENT HEX` | the prepared message for the frame of these octets, if memory ran out |
//! | `list MOMENTS KINDS` | a list before and after its first entry, and copies of its entries after it was taken apart and put together again |
//! | `append MOMENTS KINDS` | a list, after an empty list and then a copy of itself were appended |
//! | `distinct MOMENTS KINDS` | how many of these entries are from components, take a place or are the clock's, how many equal their copy, and how many pairs of an entry and a copy are equal |
//!
//! A MOMENT is a number of milliseconds after noon of 2024-05-06, and MOMENTS are some of them with commas. CONTEXT is
//! the application context name that is accepted, in hexadecimal, or `-` if none is. KINDS are as in `kinds`, separated
//! by semicolons, each of them at each of the moments. `shown` has them as text. The records are [`RECORDS`].

mod lists;
mod shown;

use crate::entries::lists::{append, distinct, list};
use crate::entries::shown::{push_called, push_prepared};
use crate::values::{after_noon, frame_of, name_of};
use cases::{Answer, first_word, number_of};
use fp_apdu::Name;
use fp_digits::Moment;
use fp_entry::{Lookup, Prepared};
use fp_records::Table;
pub(crate) use shown::push_named;
use std::alloc::Global;

/// The records of all cases, for the service key 100.
const RECORDS: &[u8] = b"key,100,60
800123456,,1234567,00:00,24:00,1,route,302223344
800123457,,1234567,00:00,24:00,1,route,302223344,302223355
800123458,,1234567,00:00,24:00,1,refuse
800123459,,1234567,00:00,24:00,1,pass
";

/// The records, which all cases share.
#[derive(Drop)]
pub(crate) struct Scene {
    table: Table,
}

impl Scene {
    /// Reads the records.
    pub(crate) fn new(alloc: Global) -> anyhow::Result<Scene> {
        Ok(Scene {
            table: Table::read(alloc, RECORDS)?,
        })
    }

    /// Writes the result of a case of this kind. `false` if this module has no such cases.
    pub(crate) fn answer(&self, alloc: Global, kind: &str, rest: &str, out: &mut Answer) -> bool {
        match kind {
            "prepare" => prepare(alloc, &self.table, rest, out),
            "look-ups" => look_ups(alloc, &self.table, rest, out),
            "in-continue" => in_continue(alloc, &self.table, rest, out),
            "lost" => lost(alloc, &self.table, rest, out),
            "list" => list(alloc, &self.table, rest, out),
            "append" => append(alloc, &self.table, rest, out),
            "distinct" => distinct(alloc, &self.table, rest, out),
            _ => return false,
        }
        true
    }
}

/// Prepares a message, with these application contexts accepted. `None`, and a fault, if a frame can't hold it.
fn prepared_with(
    alloc: Global,
    table: &Table,
    moment: Moment,
    contexts: &[Name],
    octets: &str,
    out: &mut Answer,
) -> Option<Prepared> {
    let frame = frame_of(alloc, octets, out)?;
    Some(Prepared::read(alloc, table, contexts, frame, moment))
}

/// Prepares a message, with this application context accepted, or none.
fn prepared(
    alloc: Global,
    table: &Table,
    moment: Moment,
    context: &str,
    octets: &str,
    out: &mut Answer,
) -> Option<Prepared> {
    if context == "-" {
        return prepared_with(alloc, table, moment, &[], octets, out);
    }
    let name = name_of(alloc, context, out)?;
    prepared_with(alloc, table, moment, &[name], octets, out)
}

/// Writes the prepared message.
fn prepare(alloc: Global, table: &Table, text: &str, out: &mut Answer) {
    let (milliseconds, rest) = first_word(text);
    let (context, octets) = first_word(rest);
    let moment = after_noon(number_of(milliseconds, out));
    if let Some(prepared) = prepared(alloc, table, moment, context, octets, out) {
        push_prepared(table, &prepared, out);
    }
}

/// Writes the record that each of several Begins finds with one look-up: those to numbers with these last octets.
fn look_ups(alloc: Global, table: &Table, octets: &str, out: &mut Answer) {
    let mut lookup = Lookup::new(alloc, table);
    out.text("found");
    for last in octets.split_whitespace() {
        look_up(alloc, table, &mut lookup, last, out);
    }
}

/// Writes the record that a Begin finds: that to the number with this last octet.
fn look_up(alloc: Global, table: &Table, lookup: &mut Lookup<'_>, last: &str, out: &mut Answer) {
    let mut message = Answer::new(alloc);
    message.text("622D48040000002A6C25A123020101020100301B8001648207831008103254");
    message.text(last);
    message.text("83078313032143650785010A9C0103");
    if let Some(frame) = frame_of(alloc, message.as_str(), out) {
        let prepared = Prepared::read_with(alloc, lookup, &[], frame, after_noon(0));
        push_called(table, &prepared, out);
    }
}

/// Writes the prepared Continue with only this component.
fn in_continue(alloc: Global, table: &Table, octets: &str, out: &mut Answer) {
    let mut message = Answer::new(alloc);
    message.text("658048040000002A4904000000016C80");
    message.text(octets);
    message.text("00000000");
    let prepared = prepared(alloc, table, after_noon(0), "-", message.as_str(), out);
    if let Some(prepared) = prepared {
        push_prepared(table, &prepared, out);
    }
}

/// Writes the prepared message for a lost frame.
fn lost(alloc: Global, table: &Table, text: &str, out: &mut Answer) {
    let (milliseconds, octets) = first_word(text);
    let moment = after_noon(number_of(milliseconds, out));
    if let Some(frame) = frame_of(alloc, octets, out) {
        let lost = Prepared::lost(frame, moment);
        push_prepared(table, &lost, out);
    }
}
