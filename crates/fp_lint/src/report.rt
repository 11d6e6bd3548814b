//! The text of the report on a records file.

use crate::fault::{Fault, Part};
use crate::reach::is_taken;
use crate::row::begins_with;
use crate::rows::Row;
use crate::rules::{Numbers, Rules};
use crate::shown::{number_of, write_offset, write_text, write_value};
use crate::survey::Survey;
use crate::week::{gap_in, place_of};
use fp_records::Reason;
use std::alloc::{AllocError, Global};
use std::fmt::Write;

/// The weekdays, from Monday on.
const WEEKDAYS: [&str; 7] = [
    "Monday",
    "Tuesday",
    "Wednesday",
    "Thursday",
    "Friday",
    "Saturday",
    "Sunday",
];

impl Survey {
    /// Appends the report: one line for each fault; or, if there is none, the service key, the offset of local time
    /// from UTC, and then contents that are allowed but may be a slip.
    pub fn write(&self, alloc: Global, out: &mut String) -> Result<(), AllocError> {
        let faults = self.faults();
        for fault in faults {
            write_fault(self.rows(), fault, out)?;
        }
        if faults.is_empty() {
            write_file(alloc, self.rows(), out)?;
        }
        Ok(())
    }
}

/// A fault, with its line, its field and the contents of the field.
fn write_fault(rows: &[Row], fault: &Fault, out: &mut String) -> Result<(), AllocError> {
    let Fault { at, part, reason } = *fault;
    let Some(row) = rows.get(at.saturating_sub(1)) else {
        return writeln!(out, "record {at}: {reason}: there is no such record");
    };
    write!(out, "line {}: record {at}: {reason}: ", row.line)?;
    match part {
        Part::Whole => write_whole(row, reason, out)?,
        Part::Field(place) => {
            let name = name_of(reason, place);
            write!(out, "field {}, {name}, is ", place.saturating_add(1))?;
            write_value(row.fields.get(place).unwrap_or(b""), out)?;
        }
        Part::Times => {
            out.push_str("fields 4 and 5, from and to, are both ")?;
            write_value(row.fields.get(4).unwrap_or(b""), out)?;
        }
    }
    out.push('\n')
}

/// The description of a faulty record.
fn write_whole(row: &Row, reason: Reason, out: &mut String) -> Result<(), AllocError> {
    match (reason, row.fields.len()) {
        (Reason::TooMany, _) => out.push_str("the first one that is too many"),
        (_, 1) => out.push_str("1 field"),
        (_, count) => write!(out, "{count} fields"),
    }
}

/// The name of a field with a fault for this reason.
fn name_of(reason: Reason, place: usize) -> &'static str {
    match (reason, place) {
        (Reason::BadVersion, _) => "version",
        (Reason::BadHead, 0) => "key",
        (Reason::BadHead, 1) => "service key",
        (Reason::BadHead, _) => "offset",
        (Reason::BadClosed, 1) => "number",
        (Reason::BadClosed, _) => "date",
        (_, 0) => "number",
        (_, 1) => "prefix",
        (_, 2) => "days",
        (_, 3) => "from",
        (_, 4) => "to",
        (_, 5) => "weight",
        (_, 6) => "action",
        _ => "destination",
    }
}

/// The report on a file without faults.
fn write_file(alloc: Global, rows: &[Row], out: &mut String) -> Result<(), AllocError> {
    let has_closed_days = match rows.first() {
        Some(first) => begins_with(&first.fields, b"fprecords"),
        None => false,
    };
    let headed = match rows.split_first() {
        Some((_, others)) if has_closed_days => others,
        _ => rows,
    };
    let Some((head, rest)) = headed.split_first() else {
        return Ok(());
    };
    write_head(head, out)?;
    let numbers = Numbers::read(alloc, has_closed_days, rest)?;
    for rules in numbers.numbers.as_slice() {
        write_number(rules, out)?;
    }
    for closed in numbers.closed.as_slice() {
        if !numbers.has(closed.number) {
            write!(out, "line {}: closed day ", closed.line)?;
            write_text(closed.date, out)?;
            out.push_str(" of ")?;
            write_text(closed.number, out)?;
            out.push_str(", which has no rule\n")?;
        }
    }
    Ok(())
}

/// The service key, and the offset of local time from UTC.
fn write_head(head: &Row, out: &mut String) -> Result<(), AllocError> {
    let key = number_of(head.fields.get(1).unwrap_or(b""));
    write!(out, "service key {key}, local time ")?;
    write_offset(head.fields.get(2).unwrap_or(b""), out)?;
    out.push('\n')
}

/// The slips that the rules of a number may have.
fn write_number(of: &Rules<'_>, out: &mut String) -> Result<(), AllocError> {
    let rules = of.rules.as_slice();
    if let Some(gap) = gap_in(rules) {
        write_number_name(of, out)?;
        write!(
            out,
            "no rule for all callers in {} minutes of the week, the first is ",
            gap.minutes
        )?;
        write_minute(gap.first, out)?;
        out.push('\n')?;
    }
    for (place, kept) in rules.iter().enumerate() {
        let line = line_of(of, place);
        if let Some(first) = place_of(&rules[..place], kept) {
            write_number_name(of, out)?;
            writeln!(
                out,
                "line {line} is the rule of line {}",
                line_of(of, first)
            )?;
        }
        if is_taken(rules, kept) {
            write_number_name(of, out)?;
            writeln!(
                out,
                "no call from a number of 15 digits gets the rule of line {line}, since longer prefixes take all its callers"
            )?;
        }
    }
    Ok(())
}

/// The line of a rule.
fn line_of(of: &Rules<'_>, place: usize) -> usize {
    of.lines.get(place).copied().unwrap_or(0)
}

/// The number that a line is about.
fn write_number_name(of: &Rules<'_>, out: &mut String) -> Result<(), AllocError> {
    out.push_str("number ")?;
    write_text(of.number, out)?;
    out.push_str(": ")
}

/// A minute of the week.
fn write_minute(minute: u16, out: &mut String) -> Result<(), AllocError> {
    let day = WEEKDAYS
        .get(usize::from(minute / 1440))
        .copied()
        .unwrap_or("");
    write!(out, "{day} {:02}:{:02}", minute % 1440 / 60, minute % 60)
}
