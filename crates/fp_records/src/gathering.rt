//! The rules and closed days after the head, by numbers.

ghost use Rattle.std.specs.Prelude.{◌≡◌, IfErr, IfOk, OnOk};
ghost use Rattle.csv.specs.Records.{fields_of};
ghost use Rattle.fp_records.specs.declared.fault.RecordsFault.TheVariants.{Memory};

use crate::closed_days::ClosedDays;
use crate::fault::{Reason, RecordsFault};
use crate::groups::Groups;
use crate::item::{Item, item_in};
use crate::reading::RecordReader;
use crate::version::Version;
use csv::ByteRecord;
use std::alloc::Global;

/// The rules and the closed days read so far.
#[derive(Drop)]
pub(crate) struct Gathering {
    pub(crate) rules: Groups,
    pub(crate) closed: ClosedDays,
}

impl Gathering {
    ghost use Rattle.fp_records.specs.Gathered.{Gathers, HasRoom, Takes, accepted, has_room_for};

    /// The rules and closed days of the remaining records, or their first fault. All records are read into the same
    /// row.
    pub(crate) fn read(
        alloc: Global,
        version: Version,
        records: &mut RecordReader<'_>,
        row: &mut ByteRecord,
    ) -> Result<Gathering, RecordsFault>
        ensures { Gathers version records.old.place records.old.rows result }
    {
        let mut gathering = Gathering {
            rules: Groups::new(alloc),
            closed: ClosedDays::new(alloc),
        };
        while let Some(at) = records.read(row)? {
            let item = match gathering.accepted(version, row) {
                Ok(item) => item,
                Err(reason) => return Err(RecordsFault::Record { at, reason }),
            };
            gathering.add(alloc, &item)?;
        }
        Ok(gathering)
    }

    /// The rule or closed day in a record, if it is within the limits.
    fn accepted(&self, version: Version, row: &ByteRecord) -> Result<Item, Reason>
        ensures value { result ≡ accepted self.now version (fields_of row.now) }
        ensures room { IfOk result (HasRoom self.now) }
    {
        let item = item_in(version, row)?;
        if self.has_room(&item) {
            Ok(item)
        } else {
            Err(Reason::TooMany)
        }
    }

    /// Whether an item is within the limits.
    fn has_room(&self, item: &Item) -> bool
        ensures { result ≡ has_room_for self.now item.now }
    {
        match item {
            Item::Rule(numbered) => self.rules.has_room(&numbered.number),
            Item::Closed(_) => self.closed.has_place(),
        }
    }

    /// Adds a rule or a closed day, which must be within the limits.
    fn add(&mut self, alloc: Global, item: &Item) -> Result<(), RecordsFault>
        requires room { HasRoom self.old item.now }
        ensures added { OnOk result (Takes self.old item.now self.new) }
        ensures fault { IfErr result (λ fault. fault ≡ Memory) }
    {
        match item {
            Item::Rule(numbered) => self.rules.add(alloc, numbered),
            Item::Closed(closed) => self.closed.add(alloc, *closed),
        }
    }
}
