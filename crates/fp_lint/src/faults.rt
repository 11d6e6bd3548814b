//! The faults of each record by itself.

ghost use Rattle.std.specs.Prelude.{◌≡◌, ◌+◌, ◌≤◌, ◌++◌, IfOk, OnOk, map, if◌then◌else◌};
ghost use Rattle.csv.specs.Records.{field_at, fields_of};
ghost use Rattle.fp_records.specs.Days.{days_of};
ghost use Rattle.fp_records.specs.Digits.{digits_of, some_digits_of};
ghost use Rattle.fp_records.specs.Fields.{has_form, times_differ, verb_of, weight_of};
ghost use Rattle.fp_records.specs.Window.{time_of};
ghost use Rattle.fp_records.specs.declared.version.Version.TheVariants.{One, Two};
ghost use Rattle.fp_lint.specs.Faults.{closed_faults, count_fits, destination_faults, head_faults, headed_faults, item_faults, items_faults, own_faults, rule_faults, unless_good};
ghost use Rattle.fp_lint.specs.Rows.{rows_in, version_if};

use crate::fault::{Fault, Part};
use crate::fields::{
    is_action, is_closed_date, is_closed_number, is_days, is_destination, is_from, is_head_name,
    is_key, is_number, is_offset, is_prefix, is_to, is_weight, takes, times_differ,
};
use crate::row::{begins_with, names_two, three_fields, version_part};
use crate::rows::Row;
use csv::ByteRecord;
use fp_records::Reason;
use std::alloc::{AllocError, Global};

/// Adds a fault, unless the part is good.
fn push_unless(
    is_good: bool,
    at: usize,
    part: Part,
    reason: Reason,
    faults: &mut Vec<Fault>,
) -> Result<(), AllocError>
    ensures { OnOk result (faults.new.items ≡ faults.old.items ++ unless_good is_good at part reason) }
{
    if !is_good {
        faults.push(Fault { at, part, reason })?;
    }
    Ok(())
}

/// Whether the number of a rule is good or missing.
fn has_number(alloc: Global, row: &ByteRecord) -> Result<bool, AllocError>
    ensures { IfOk result (λ has. has ≡ has_form some_digits_of (field_at (fields_of row.now) 0)) }
{
    match row.get(0) {
        Some(text) => is_number(alloc, text),
        None => Ok(true),
    }
}

/// Whether the prefix of a rule is good or missing.
fn has_prefix(alloc: Global, row: &ByteRecord) -> Result<bool, AllocError>
    ensures { IfOk result (λ has. has ≡ has_form digits_of (field_at (fields_of row.now) 1)) }
{
    match row.get(1) {
        Some(text) => is_prefix(alloc, text),
        None => Ok(true),
    }
}

/// Whether the days of a rule are good or missing.
fn has_days(alloc: Global, row: &ByteRecord) -> Result<bool, AllocError>
    ensures { IfOk result (λ has. has ≡ has_form days_of (field_at (fields_of row.now) 2)) }
{
    match row.get(2) {
        Some(text) => is_days(alloc, text),
        None => Ok(true),
    }
}

/// Whether the first time of a rule is good or missing.
fn has_from(alloc: Global, row: &ByteRecord) -> Result<bool, AllocError>
    ensures { IfOk result (λ has. has ≡ has_form (time_of 1439) (field_at (fields_of row.now) 3)) }
{
    match row.get(3) {
        Some(text) => is_from(alloc, text),
        None => Ok(true),
    }
}

/// Whether the second time of a rule is good or missing.
fn has_to(alloc: Global, row: &ByteRecord) -> Result<bool, AllocError>
    ensures { IfOk result (λ has. has ≡ has_form (time_of 1440) (field_at (fields_of row.now) 4)) }
{
    match row.get(4) {
        Some(text) => is_to(alloc, text),
        None => Ok(true),
    }
}

/// Whether the times of a rule differ, or aren't both good.
fn has_window(alloc: Global, row: &ByteRecord) -> Result<bool, AllocError>
    ensures { IfOk result (λ has. has ≡ times_differ (fields_of row.now)) }
{
    let Some(from) = row.get(3) else {
        return Ok(true);
    };
    let Some(to) = row.get(4) else {
        return Ok(true);
    };
    if !is_from(alloc, from)? {
        return Ok(true);
    }
    if !is_to(alloc, to)? {
        return Ok(true);
    }
    times_differ(alloc, from, to)
}

/// Whether the weight of a rule is good or missing.
fn has_weight(alloc: Global, row: &ByteRecord) -> Result<bool, AllocError>
    ensures { IfOk result (λ has. has ≡ has_form weight_of (field_at (fields_of row.now) 5)) }
{
    match row.get(5) {
        Some(text) => is_weight(alloc, text),
        None => Ok(true),
    }
}

/// Whether the action of a rule is good or missing.
fn has_action(alloc: Global, row: &ByteRecord) -> Result<bool, AllocError>
    ensures { IfOk result (λ has. has ≡ has_form verb_of (field_at (fields_of row.now) 6)) }
{
    match row.get(6) {
        Some(text) => is_action(alloc, text),
        None => Ok(true),
    }
}

/// Whether a rule has a number of fields that its action takes. A rule with a wrong action counts
/// as good, one without an action doesn't.
fn has_count(alloc: Global, row: &ByteRecord) -> Result<bool, AllocError>
    ensures { IfOk result (λ has. has ≡ count_fits (fields_of row.now)) }
{
    let Some(action) = row.get(6) else {
        return Ok(false);
    };
    if !is_action(alloc, action)? {
        return Ok(true);
    }
    takes(alloc, action, row.len() - 7)
}

/// Adds the faults of the fields after the action.
fn destination_faults(
    alloc: Global,
    at: usize,
    row: &ByteRecord,
    faults: &mut Vec<Fault>,
) -> Result<(), AllocError>
    ensures { OnOk result (faults.new.items ≡ faults.old.items ++ destination_faults at (fields_of row.now)) }
{
    for place in 7..row.len() {
        let Some(text) = row.get(place) else {
            return Ok(());
        };
        let is_good = is_destination(alloc, text)?;
        push_unless(
            is_good,
            at,
            Part::Field(place),
            Reason::BadDestination,
            faults,
        )?;
    }
    Ok(())
}

/// Adds the faults of a rule.
fn rule_faults(
    alloc: Global,
    at: usize,
    row: &ByteRecord,
    faults: &mut Vec<Fault>,
) -> Result<(), AllocError>
    ensures { OnOk result (faults.new.items ≡ faults.old.items ++ rule_faults at (fields_of row.now)) }
{
    let number = has_number(alloc, row)?;
    push_unless(number, at, Part::Field(0), Reason::BadNumber, faults)?;
    let prefix = has_prefix(alloc, row)?;
    push_unless(prefix, at, Part::Field(1), Reason::BadPrefix, faults)?;
    let days = has_days(alloc, row)?;
    push_unless(days, at, Part::Field(2), Reason::BadDays, faults)?;
    let from = has_from(alloc, row)?;
    push_unless(from, at, Part::Field(3), Reason::BadTime, faults)?;
    let to = has_to(alloc, row)?;
    push_unless(to, at, Part::Field(4), Reason::BadTime, faults)?;
    let window = has_window(alloc, row)?;
    push_unless(window, at, Part::Times, Reason::BadTime, faults)?;
    let weight = has_weight(alloc, row)?;
    push_unless(weight, at, Part::Field(5), Reason::BadWeight, faults)?;
    let action = has_action(alloc, row)?;
    push_unless(action, at, Part::Field(6), Reason::BadAction, faults)?;
    let count = has_count(alloc, row)?;
    push_unless(count, at, Part::Whole, Reason::FieldCount, faults)?;
    destination_faults(alloc, at, row, faults)?;
    Ok(())
}

/// Adds the faults of a closed day.
#[tactic(auto, using(crate::proofs::Parts::closed_faults_others))]
fn closed_faults(
    alloc: Global,
    at: usize,
    row: &ByteRecord,
    faults: &mut Vec<Fault>,
) -> Result<(), AllocError>
    ensures { OnOk result (faults.new.items ≡ faults.old.items ++ closed_faults at (fields_of row.now)) }
{
    let Some((_, number, date)) = three_fields(row) else {
        push_unless(false, at, Part::Whole, Reason::BadClosed, faults)?;
        return Ok(());
    };
    let is_number = is_closed_number(alloc, number)?;
    push_unless(is_number, at, Part::Field(1), Reason::BadClosed, faults)?;
    let is_date = is_closed_date(alloc, date)?;
    push_unless(is_date, at, Part::Field(2), Reason::BadClosed, faults)?;
    Ok(())
}

/// Adds the faults of a record after the head, in a file of version 2 or 1.
fn item_faults(
    alloc: Global,
    is_two: bool,
    at: usize,
    row: &ByteRecord,
    faults: &mut Vec<Fault>,
) -> Result<(), AllocError>
    ensures { OnOk result (faults.new.items ≡ faults.old.items ++ item_faults (version_if is_two) at (fields_of row.now)) }
{
    if is_two && begins_with(row, b"closed") {
        closed_faults(alloc, at, row, faults)
    } else {
        rule_faults(alloc, at, row, faults)
    }
}

/// Adds the faults of the records after the head. `first` is the number of the first of them.
fn items_faults(
    alloc: Global,
    is_two: bool,
    first: usize,
    rows: &[Row],
    faults: &mut Vec<Fault>,
) -> Result<(), AllocError>
    requires { first ≤ 3 }
    ensures { OnOk result (faults.new.items ≡ faults.old.items ++ items_faults (version_if is_two) first (rows_in rows.now)) }
{
    for (index, row) in rows.iter().enumerate() {
        item_faults(alloc, is_two, first + index, &row.fields, faults)?;
    }
    Ok(())
}

/// Adds the faults of a head.
#[tactic(auto, using(crate::proofs::Parts::head_faults_others))]
fn head_faults(
    alloc: Global,
    at: usize,
    row: &ByteRecord,
    faults: &mut Vec<Fault>,
) -> Result<(), AllocError>
    ensures { OnOk result (faults.new.items ≡ faults.old.items ++ head_faults at (fields_of row.now)) }
{
    let Some((name, key, offset)) = three_fields(row) else {
        push_unless(false, at, Part::Whole, Reason::BadHead, faults)?;
        return Ok(());
    };
    let is_name = is_head_name(alloc, name)?;
    push_unless(is_name, at, Part::Field(0), Reason::BadHead, faults)?;
    let is_service_key = is_key(alloc, key)?;
    push_unless(is_service_key, at, Part::Field(1), Reason::BadHead, faults)?;
    let is_good = is_offset(alloc, offset)?;
    push_unless(is_good, at, Part::Field(2), Reason::BadHead, faults)?;
    Ok(())
}

/// Adds the faults of the records from the head on, in a file of version 2 or 1.
fn headed_faults(
    alloc: Global,
    is_two: bool,
    rows: &[Row],
    faults: &mut Vec<Fault>,
) -> Result<(), AllocError>
    ensures { OnOk result (faults.new.items ≡ faults.old.items ++ headed_faults (version_if is_two) (if is_two then 1 else 0) (rows_in rows.now)) }
{
    let others = if is_two { 1 } else { 0 };
    let Some((first, rest)) = rows.split_first() else {
        return push_unless(false, others + 1, Part::Whole, Reason::BadHead, faults);
    };
    head_faults(alloc, others + 1, &first.fields, faults)?;
    items_faults(alloc, is_two, others + 2, rest, faults)?;
    Ok(())
}

/// Adds the faults of each record of a file by itself.
pub(crate) fn own_faults(
    alloc: Global,
    rows: &[Row],
    faults: &mut Vec<Fault>,
) -> Result<(), AllocError>
    ensures { OnOk result (faults.new.items ≡ faults.old.items ++ own_faults (rows_in rows.now)) }
{
    let Some((first, rest)) = rows.split_first() else {
        return headed_faults(alloc, false, rows, faults);
    };
    if !begins_with(&first.fields, b"fprecords") {
        return headed_faults(alloc, false, rows, faults);
    }
    let is_good = names_two(&first.fields);
    push_unless(
        is_good,
        1,
        version_part(&first.fields),
        Reason::BadVersion,
        faults,
    )?;
    headed_faults(alloc, true, rest, faults)?;
    Ok(())
}
