//! The records of a file, as a text of version 2.

ghost use Rattle.std.specs.Prelude.{◌≡◌, ◌⊎◌, ◌++◌, ℕ, List, Err, IfErr, IfOk, IsErrAnd, OnErr, OnOk};
ghost use Rattle.csv.specs.Records.{fields_of};
ghost use Rattle.csv.specs.Writing.{default_writer, row_text};
ghost use Rattle.fp_records.specs.File.{File, FirstFault, IsFile, records_of};
ghost use Rattle.fp_records.specs.Migration.{ComesOutAsItIs, HasWritten, KeepsFile, KeepsTable, migrated, text_of};
ghost use Rattle.fp_records.specs.Table.{Reads};
ghost use Rattle.fp_records.specs.Version.{version_line};
ghost use Rattle.fp_records.specs.declared.fault.Reason.{Reason};

use crate::fault::RecordsFault;
use crate::reading::RecordReader;
use crate::table::Table;
use crate::version::read_start;
use csv::{ByteRecord, Writer, WriterBuilder};
use std::alloc::Global;

/// Appends the records of a file to a vector as a text of version 2.
///
/// The text is the record `fprecords,2` and then the file's records from its head on, in their order, each ended by a
/// line feed. Fields are unchanged (`0100` isn't made `100`), and none needs quotes. Migrating the appended text gives
/// the same text. It is read as the same file, so its table has the same key, counts, records and choices.
///
/// The fault is the one of [`Table::read`] for the text: the first faulty record, or `Memory`. After a fault the vector
/// is unchanged.
pub fn migrate(alloc: Global, text: &[u8], out: &mut Vec<u8>) -> Result<(), RecordsFault>
    ensures text { OnOk result (out.new.items ≡ out.old.items ++ migrated (records_of text.now)) }
    ensures same { OnOk result (KeepsFile (records_of text.now)) }
    ensures again { OnOk result (ComesOutAsItIs (records_of text.now)) }
    ensures tables { OnOk result (KeepsTable (records_of text.now)) }
    ensures unchanged { OnErr result (out.new.items ≡ out.old.items) }
    ensures answer { IfErr result (λ fault. Reads (Err fault) (records_of text.now)) }
    ensures file { (file : File) → IsFile (records_of text.now) file → IfErr result (λ fault. fault ≡ RecordsFault.Memory) }
    ensures fault { (at : ℕ) (reason : Reason) → FirstFault (records_of text.now) at reason → IsErrAnd result (λ fault. (fault ≡ RecordsFault.Record at reason) ⊎ (fault ≡ RecordsFault.Memory)) }
{
    drop(Table::read(alloc, text)?);
    // The text was read as a table, so only memory can run out.
    let Ok(migrated) = in_version_two(alloc, text) else {
        return Err(RecordsFault::Memory);
    };
    out.extend_from_slice(migrated.as_slice())?;
    Ok(())
}

/// The text of a file's records in version 2.
fn in_version_two(alloc: Global, text: &[u8]) -> Result<Vec<u8>, RecordsFault>
    ensures { IfOk result (λ out. out.items ≡ migrated (records_of text.now)) }
{
    let mut records = RecordReader::new(alloc, text);
    let mut row = ByteRecord::new(alloc);
    read_start(&mut records, &mut row)?;
    let mut writer = WriterBuilder::new()
        .flexible(true)
        .from_writer(Vec::new(alloc));
    put_version(&mut writer)?;
    put(&mut writer, &row)?;
    put_others(&mut writer, &mut records, &mut row)?;
    let Ok(out) = writer.into_inner() else {
        return Err(RecordsFault::Memory);
    };
    Ok(out)
}

/// Writes the record of version 2.
fn put_version(writer: &mut Writer<Vec<u8>>) -> Result<(), RecordsFault>
    ensures { OnOk result ((text : List ℕ) → HasWritten writer.old text → HasWritten writer.new (text ++ row_text default_writer version_line)) }
{
    // A write into a vector fails only when memory runs out, and records may differ in length.
    let Ok(()) = writer.write_fields(&[b"fprecords".as_slice(), b"2".as_slice()]) else {
        return Err(RecordsFault::Memory);
    };
    Ok(())
}

/// Writes a record.
fn put(writer: &mut Writer<Vec<u8>>, row: &ByteRecord) -> Result<(), RecordsFault>
    ensures { OnOk result ((text : List ℕ) → HasWritten writer.old text → HasWritten writer.new (text ++ row_text default_writer (fields_of row.now))) }
{
    let Ok(()) = writer.write_byte_record(row) else {
        return Err(RecordsFault::Memory);
    };
    Ok(())
}

/// Writes the remaining records, each read into the same row.
fn put_others(
    writer: &mut Writer<Vec<u8>>,
    records: &mut RecordReader<'_>,
    row: &mut ByteRecord,
) -> Result<(), RecordsFault>
    ensures { OnOk result ((text : List ℕ) → HasWritten writer.old text → HasWritten writer.new (text ++ text_of records.old.rows)) }
{
    while let Some(_) = records.read(row)? {
        put(writer, row)?;
    }
    Ok(())
}
