//! The closed days of a file by their numbers, during its reading.

ghost use Rattle.std.specs.Prelude.{◌≡◌, ◌≤◌, IsTrue, [], IfErr, IfOk, OnErr, OnOk, length, map};
ghost use Rattle.fp_records.specs.Closings.{listed_days, with_day};
ghost use Rattle.fp_records.specs.declared.fault.RecordsFault.TheVariants.{Memory};

use crate::closed::ClosedDay;
use crate::day_set::DaySet;
use crate::fault::RecordsFault;
use crate::number_key::NumberKey;
use std::alloc::Global;
use std::collections::{BTreeMap, BTreeSet};
use std::marker::Model;

/// The most closed days of a file.
const MOST_CLOSED: usize = 10_000;

/// The closed days read so far, by the digits of their numbers.
#[derive(Drop)]
pub(crate) struct ClosedDays {
    count: usize,
    days: BTreeMap<NumberKey, BTreeSet<i32>>,
}

impl Model for ClosedDays {
    ghost use Rattle.std.specs.Prelude.{map, ◌≤◌};
    ghost use Rattle.fp_records.specs.Closings.{Closings};

    ghost Value = { Closings };

    ghost view = { λ a. record { count = a.count; days = map (λ e. (e.0, e.1.keys)) a.days.entries } };

    ghost invariant = { λ a. a.count ≤ 10000 };
}

impl ClosedDays {
    ghost use Rattle.fp_records.specs.Closings.{Closes, ClosesMore, at_number, has_place};

    /// No closed days.
    pub(crate) fn new(alloc: Global) -> ClosedDays
        ensures { Closes [] result }
    {
        ClosedDays {
            count: 0,
            days: BTreeMap::new(alloc),
        }
    }

    /// The number of records with closed days.
    pub(crate) fn count(&self) -> usize
        ensures value { result ≡ self.now.count }
        ensures most { result ≤ 10000 }
    {
        self.count
    }

    /// Whether one more closed day is within the limit.
    pub(crate) fn has_place(&self) -> bool
        ensures { result ≡ has_place self.now }
    {
        self.count < MOST_CLOSED
    }

    /// Adds a closed day, which must be within the limit. A day that a number already has is counted again.
    pub(crate) fn add(&mut self, alloc: Global, closed: ClosedDay) -> Result<(), RecordsFault>
        requires place { IsTrue (has_place self.old) }
        ensures added { OnOk result (ClosesMore self.old closed self.new) }
        ensures fault { IfErr result (λ fault. fault ≡ Memory) }
    {
        insert_at(&mut self.days, alloc, &closed.number, closed.day)?;
        self.count += 1;
        Ok(())
    }

    /// The closed days of a number, as a set of their own.
    pub(crate) fn of(&self, alloc: Global, number: &NumberKey) -> Result<DaySet, RecordsFault>
        ensures days { IfOk result (λ days. days ≡ at_number number.now self.now.days) }
        ensures fault { IfErr result (λ fault. fault ≡ Memory) }
    {
        match self.days.get(number) {
            Some(days) => DaySet::of(alloc, days.clone()?),
            None => Ok(DaySet::none()),
        }
    }
}

/// Adds a day to the set of a number.
fn insert_at(
    sets: &mut BTreeMap<NumberKey, BTreeSet<i32>>,
    alloc: Global,
    number: &NumberKey,
    day: i32,
) -> Result<(), RecordsFault>
    ensures entries { OnOk result (listed_days sets.new.entries ≡ with_day (listed_days sets.old.entries) number.now day) }
    ensures fault { IfErr result (λ fault. fault ≡ Memory) }
{
    match sets.get_mut(number) {
        Some(set) => {
            set.insert(day)?;
        }
        None => {
            let mut set = BTreeSet::new(alloc);
            set.insert(day)?;
            drop(sets.insert(*number, set)?);
        }
    }
    Ok(())
}
