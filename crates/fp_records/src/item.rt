//! The rule or closed day in a record after the head.

ghost use Rattle.std.specs.Prelude.{◌≡◌};
ghost use Rattle.csv.specs.Records.{fields_of};
ghost use Rattle.fp_records.specs.Items.{item_in};

use crate::closed::{ClosedDay, closed_in};
use crate::fault::Reason;
use crate::fields::{NumberedRule, numbered_in};
use crate::row::begins_with;
use crate::version::Version;
use csv::ByteRecord;

/// The rule or closed day in a record after the head.
#[derive(Clone, Copy)]
pub enum Item {
    /// A rule of a number.
    Rule(NumberedRule),
    /// A closed day of a number.
    Closed(ClosedDay),
}

/// The rule or closed day in a record, for a file of this version, or its first fault.
pub(crate) fn item_in(version: Version, row: &ByteRecord) -> Result<Item, Reason>
    ensures { result ≡ item_in version (fields_of row.now) }
{
    if version == Version::Two && begins_with(row, b"closed".as_slice()) {
        Ok(Item::Closed(closed_in(row)?))
    } else {
        Ok(Item::Rule(numbered_in(row)?))
    }
}
