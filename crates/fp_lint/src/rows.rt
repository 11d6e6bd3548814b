//! The records of a text, each with its line.

ghost use Rattle.std.specs.Prelude.{◌≡◌, IfOk, map};
ghost use Rattle.csv.specs.Records.{fields_of};
ghost use Rattle.fp_records.specs.File.{records_of};

use crate::lines::Lines;
use csv::{ByteRecord, Reader, ReaderBuilder};
use std::alloc::{AllocError, Global};
use std::marker::Model;

/// A record of a text.
#[derive(Drop)]
pub(crate) struct Row {
    /// The number of the record's first line, from 1.
    pub(crate) line: usize,
    /// The fields of the record.
    pub(crate) fields: ByteRecord,
}

/// Reads the records of a text, with any number of fields, and counts them. Contracts see the number of records read,
/// and the remaining records.
#[derive(Drop)]
struct RowReader<'a> {
    reader: Reader<&'a [u8]>,
    place: usize,
    has_ended: bool,
}

impl<'a> Model for RowReader<'a> {
    ghost use Rattle.fp_records.specs.Unread.{IsReading, Unread, rows_left};

    ghost Value = { Unread };

    ghost view = { λ a. record { place = a.place; rows = rows_left a.has_ended a.reader } };

    ghost invariant = { λ a. IsReading a.has_ended a.reader a.place };
}

impl<'a> RowReader<'a> {
    ghost use Rattle.fp_records.specs.Unread.{ReadsNext};

    /// A reader of a text, from its start.
    fn new(alloc: Global, text: &'a [u8]) -> RowReader<'a>
        ensures { result ≡ record { place = 0; rows = records_of text.now } }
    {
        let reader = ReaderBuilder::new()
            .has_headers(false)
            .flexible(true)
            .from_reader(alloc, text);
        RowReader {
            reader,
            place: 0,
            has_ended: false,
        }
    }

    /// Reads the next record, and gives its number in the text, from 1; `None` if no record remains.
    fn read(&mut self, fields: &mut ByteRecord) -> Result<Option<usize>, AllocError>
        ensures { IfOk result (λ at. ReadsNext self.old self.new (fields_of fields.new) at) }
    {
        if self.has_ended {
            return Ok(None);
        }
        self.has_ended = true;
        // A read from memory can't fail, records may differ in length, and their fields are octets: so the reader's
        // only error is out of memory.
        let Ok(found) = self.reader.read_byte_record(fields) else {
            return Err(AllocError);
        };
        if !found {
            return Ok(None);
        }
        self.has_ended = false;
        self.place += 1;
        Ok(Some(self.place))
    }
}

/// The records of a text in their order, as in [`fp_records::Table::read`].
pub(crate) fn rows_of(alloc: Global, text: &[u8]) -> Result<Vec<Row>, AllocError>
    ensures { IfOk result (λ rows. map (λ row. fields_of row.fields) rows.items ≡ records_of text.now) }
{
    let mut rows = Vec::new(alloc);
    let mut reader = RowReader::new(alloc, text);
    let mut lines = Lines::new(text);
    let mut fields = ByteRecord::new(alloc);
    while let Some(_) = reader.read(&mut fields)? {
        let began = fields.position().map_or(0, |position| position.byte());
        let line = lines.of_record(began as usize);
        rows.push(Row { line, fields })?;
        fields = ByteRecord::new(alloc);
    }
    Ok(rows)
}
