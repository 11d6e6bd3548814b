//! The version of a file, and the position of its head.

ghost use Rattle.std.specs.Prelude.{◌≡◌};
ghost use Rattle.csv.specs.Records.{fields_of};
ghost use Rattle.fp_records.specs.Start.{Starts, StartsAfter};
ghost use Rattle.fp_records.specs.Version.{version_of};

use crate::fault::{Reason, RecordsFault};
use crate::reading::RecordReader;
use crate::row::{begins_with, two_fields};
use csv::ByteRecord;

/// The version of a file.
#[derive(Clone, Copy, PartialEq, Eq)]
pub enum Version {
    /// The head is the first record, and every other record is a rule.
    One,
    /// The first record is `fprecords,2`, the second the head, and every other record a rule or a closed day.
    Two,
}

/// The version of a file with this first record; `None` if there is no such version.
#[tactic(auto, using(crate::proofs::Places::names_two_others))]
fn version_of(row: &ByteRecord) -> Option<Version>
    ensures { result ≡ version_of (fields_of row.now) }
{
    if !begins_with(row, b"fprecords".as_slice()) {
        return Some(Version::One);
    }
    let Some((_, number)) = two_fields(row) else {
        return None;
    };
    if number == b"2".as_slice() {
        Some(Version::Two)
    } else {
        None
    }
}

/// Reads a text up to the record that should be its head, leaves that in the row, and gives the version.
pub(crate) fn read_start(
    records: &mut RecordReader<'_>,
    row: &mut ByteRecord,
) -> Result<Version, RecordsFault>
    requires { records.old.place ≡ 0 }
    ensures { Starts records.old.rows records.new (fields_of row.new) result }
{
    let Some(at) = records.read(row)? else {
        return Err(RecordsFault::Record {
            at: 1,
            reason: Reason::BadHead,
        });
    };
    match version_of(row) {
        Some(Version::One) => Ok(Version::One),
        Some(Version::Two) => second_record(records, row),
        None => Err(RecordsFault::Record {
            at,
            reason: Reason::BadVersion,
        }),
    }
}

/// Reads the record after the line of version 2.
fn second_record(
    records: &mut RecordReader<'_>,
    row: &mut ByteRecord,
) -> Result<Version, RecordsFault>
    requires { records.old.place ≡ 1 }
    ensures { StartsAfter records.old.rows records.new (fields_of row.new) result }
{
    match records.read(row)? {
        Some(_) => Ok(Version::Two),
        None => Err(RecordsFault::Record {
            at: 2,
            reason: Reason::BadHead,
        }),
    }
}
