//! The records of a text, one after another.

ghost use Rattle.std.specs.Prelude.{◌≡◌, IfErr, IfOk};
ghost use Rattle.csv.specs.Records.{fields_of};
ghost use Rattle.fp_records.specs.File.{records_of};
ghost use Rattle.fp_records.specs.declared.fault.RecordsFault.TheVariants.{Memory};

use crate::fault::RecordsFault;
use csv::{ByteRecord, Reader, ReaderBuilder};
use std::alloc::Global;
use std::marker::Model;

/// Reads the records of a text, with any number of fields, and counts them. Contracts see the
/// number of records read, and the remaining records.
#[derive(Drop)]
pub(crate) struct RecordReader<'a> {
    reader: Reader<&'a [u8]>,
    place: usize,
    has_ended: bool,
}

impl<'a> Model for RecordReader<'a> {
    ghost use Rattle.fp_records.specs.Unread.{IsReading, Unread, rows_left};

    ghost Value = { Unread };

    ghost view = { λ a. record { place = a.place; rows = rows_left a.has_ended a.reader } };

    ghost invariant = { λ a. IsReading a.has_ended a.reader a.place };
}

impl<'a> RecordReader<'a> {
    ghost use Rattle.fp_records.specs.Unread.{ReadsNext};

    /// A reader of a text, from its start.
    pub(crate) fn new(alloc: Global, text: &'a [u8]) -> RecordReader<'a>
        ensures { result ≡ record { place = 0; rows = records_of text.now } }
    {
        let reader = ReaderBuilder::new()
            .has_headers(false)
            .flexible(true)
            .from_reader(alloc, text);
        RecordReader {
            reader,
            place: 0,
            has_ended: false,
        }
    }

    /// The number of records read.
    pub(crate) fn place(&self) -> usize
        ensures { result ≡ self.now.place }
    {
        self.place
    }

    /// Reads the next record into a row, and gives its number in the text, or `None` if no record
    /// is left. The first record is 1, and empty lines are no records.
    pub(crate) fn read(&mut self, row: &mut ByteRecord) -> Result<Option<usize>, RecordsFault>
        ensures next { IfOk result (λ at. ReadsNext self.old self.new (fields_of row.new) at) }
        ensures fault { IfErr result (λ fault. fault ≡ Memory) }
    {
        if self.has_ended {
            return Ok(None);
        }
        self.has_ended = true;
        // A read from memory can't fail, records may differ in length, and their fields are octets: so the reader's
        // only error is out of memory.
        let Ok(found) = self.reader.read_byte_record(row) else {
            return Err(RecordsFault::Memory);
        };
        if !found {
            return Ok(None);
        }
        self.has_ended = false;
        self.place += 1;
        Ok(Some(self.place))
    }
}
