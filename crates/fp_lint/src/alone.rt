//! The result of [`Table::read`] for one record after a good head. So the reader of the records file itself checks each
//! field, and no rule of the format is written a second time here.

ghost use Rattle.std.specs.Prelude.{◌≡◌, ◌<◌, ◌∷◌, ◌++◌, [], IfOk, codes, is_some, length};
ghost use Rattle.csv.specs.Records.{fields_of};
ghost use Rattle.csv.specs.Writing.{default_writer, row_text};
ghost use Rattle.fp_records.specs.Closed.{closed_in};
ghost use Rattle.fp_records.specs.Fields.{numbered_in};
ghost use Rattle.fp_records.specs.File.{records_of};
ghost use Rattle.fp_records.specs.Head.{head_of};
ghost use Rattle.fp_records.specs.Table.{Reads};
ghost use Rattle.fp_lint.specs.Alone.{fault_in, reason_in, texts};

use csv::{ByteRecord, WriterBuilder};
use fp_digits::{Digits, NatureOfAddress, Number};
use fp_records::{Reason, RecordsFault, Rule, Table};
use std::alloc::{AllocError, Global};

/// The result of `Table::read` for this text and one more record.
fn read_with(alloc: Global, before: &[u8], fields: &[&[u8]]) -> Result<Table, RecordsFault>
    ensures { Reads result (records_of (before.now ++ row_text default_writer (texts fields.now))) }
{
    let record = row_text(alloc, fields)?;
    let mut text = Vec::from_slice(alloc, before)?;
    text.extend_from_slice(record.as_slice())?;
    Table::read(alloc, text.as_slice())
}

/// The text of a record, with quotes where a field needs them.
fn row_text(alloc: Global, fields: &[&[u8]]) -> Result<Vec<u8>, AllocError>
    ensures { IfOk result (λ text. text.items ≡ row_text default_writer (texts fields.now)) }
{
    // A write into a vector fails only when memory runs out.
    let mut writer = WriterBuilder::new().from_writer(Vec::new(alloc));
    let Ok(()) = writer.write_fields(fields) else {
        return Err(AllocError);
    };
    let Ok(text) = writer.into_inner() else {
        return Err(AllocError);
    };
    Ok(text)
}

/// The reason of a fault, `None` for a table.
fn reason_of(answer: Result<Table, RecordsFault>) -> Result<Option<Reason>, AllocError>
    ensures { result ≡ reason_in answer }
{
    match answer {
        Ok(_) => Ok(None),
        Err(RecordsFault::Record { reason, .. }) => Ok(Some(reason)),
        Err(RecordsFault::Memory) => Err(AllocError),
    }
}

/// The fault of a record that is read as a rule, `None` if it has none.
pub(crate) fn rule_fault(alloc: Global, fields: &[&[u8]]) -> Result<Option<Reason>, AllocError>
    requires { 0 < length fields.now }
    ensures { IfOk result (λ fault. fault ≡ fault_in (numbered_in (texts fields.now))) }
{
    reason_of(read_with(alloc, b"key,1,0\n", fields))
}

/// Three fields.
fn three_of<'a>(first: &'a [u8], second: &'a [u8], third: &'a [u8]) -> [&'a [u8]; 3]
    ensures { texts result ≡ first.now ∷ second.now ∷ third.now ∷ [] }
{
    [first, second, third]
}

/// The fault of a record that begins with `closed`, `None` if it has none.
pub(crate) fn closed_fault(
    alloc: Global,
    number: &[u8],
    date: &[u8],
) -> Result<Option<Reason>, AllocError>
    ensures { IfOk result (λ fault. fault ≡ fault_in (closed_in (codes "closed" ∷ number.now ∷ date.now ∷ []))) }
{
    let fields = three_of(b"closed", number, date);
    reason_of(read_with(alloc, b"fprecords,2\nkey,1,0\n", fields.as_slice()))
}

/// Whether three fields are a head.
pub(crate) fn is_head(
    alloc: Global,
    name: &[u8],
    key: &[u8],
    offset: &[u8],
) -> Result<bool, AllocError>
    ensures { IfOk result (λ is. is ≡ is_some (head_of (name.now ∷ key.now ∷ offset.now ∷ []))) }
{
    let fields = three_of(name, key, offset);
    let fault = reason_of(read_with(alloc, b"fprecords,2\n", fields.as_slice()))?;
    Ok(fault.is_none())
}

/// The result of `Table::read` for a record of a file, read as a rule.
pub(crate) fn read_alone(alloc: Global, row: &ByteRecord) -> Result<Table, RecordsFault> {
    let mut fields = Vec::with_capacity(alloc, row.len())?;
    for field in row {
        fields.push(field)?;
    }
    read_with(alloc, b"key,1,0\n", fields.as_slice())
}

/// The rule of a number in a table that has no other rule.
pub(crate) fn only_rule<'a>(table: &'a Table, number: &[u8]) -> Option<&'a Rule> {
    let mut digits = Digits::new();
    for octet in number {
        let digit = octet.wrapping_sub(b'0');
        if digit > 9 || digits.len() >= Digits::MOST {
            return None;
        }
        digits.push(digit);
    }
    let nature = NatureOfAddress::new(0);
    table.find(&Number { nature, digits })?.only_rule()
}
