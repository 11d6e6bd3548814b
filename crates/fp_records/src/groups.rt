//! The rules of a file by their numbers, during its reading.

ghost use Rattle.std.specs.Prelude.{◌≡◌, ◌+◌, ◌≤◌, ◌≤ℤ◌, pos, neg_ℤ, IsTrue, [], IfErr, IfOk, OnErr, OnOk, bytes_eq, is_some, length, map, if◌then◌else◌};
ghost use Rattle.std.specs.Cmp.Lexicographic.{slice_cmp};
ghost use Rattle.std.specs.List.Sorted.{IsStrictlySortedBy};
ghost use Rattle.std.specs.Map.{keys_of, lookup};
ghost use Rattle.std.specs.Ordering.{nat_cmp};
ghost use Rattle.fp_records.specs.Digits.{is_decimal};
ghost use Rattle.fp_records.specs.Listed.{listed, with_value};
ghost use Rattle.std.specs.Arc.{arc_value};
ghost use Rattle.fp_records.specs.declared.fault.RecordsFault.TheVariants.{Memory};

use crate::closed_days::ClosedDays;
use crate::fault::RecordsFault;
use crate::fields::NumberedRule;
use crate::number_key::NumberKey;
use crate::record::Record;
use crate::rule::KeptRule;
use std::alloc::Global;
use std::collections::BTreeMap;
use std::marker::Model;
use std::sync::Arc;

/// The most rules of a file.
const MOST_RULES: usize = 100_000;

/// The most rules of a number.
const MOST_OF_NUMBER: usize = 1_000;

/// The rules read so far, by the digits of their numbers.
#[derive(Drop)]
pub(crate) struct Groups {
    count: usize,
    groups: BTreeMap<NumberKey, Vec<KeptRule>>,
}

impl Model for Groups {
    ghost use Rattle.std.specs.Prelude.{map};
    ghost use Rattle.fp_records.specs.Groups.{Grouped, IsGrouped};

    ghost Value = { Grouped };

    ghost view = { λ a. record { count = a.count; groups = map (λ e. (e.0, e.1.items)) a.groups.entries } };

    ghost invariant = { λ a. IsGrouped (record { count = a.count; groups = map (λ e. (e.0, e.1.items)) a.groups.entries }) };
}

impl Groups {
    ghost use Rattle.fp_records.specs.Groups.{Adds, Groups as Holds, group_of, has_room, record_of_group};
    ghost use Rattle.fp_records.specs.Table.{IsKept};

    /// No rules.
    pub(crate) fn new(alloc: Global) -> Groups
        ensures { Holds [] result }
    {
        Groups {
            count: 0,
            groups: BTreeMap::new(alloc),
        }
    }

    /// The number of rules.
    pub(crate) fn count(&self) -> usize
        ensures value { result ≡ self.now.count }
        ensures most { result ≤ 100000 }
    {
        self.count
    }

    /// Whether one more rule of this number is within the limits. Each number has a rule. So if there are few more
    /// rules than numbers, no number has many, and the search for this one is skipped.
    pub(crate) fn has_room(&self, number: &NumberKey) -> bool
        ensures { result ≡ has_room self.now number.now }
    {
        self.count < MOST_RULES
            && (self.count + 1 < self.groups.len() + MOST_OF_NUMBER
                || self.count_of(number) < MOST_OF_NUMBER)
    }

    /// The number of rules of this number.
    fn count_of(&self, number: &NumberKey) -> usize
        ensures { result ≡ length (group_of number.now self.now) }
    {
        match self.groups.get(number) {
            Some(rules) => rules.as_slice().len(),
            None => 0,
        }
    }

    /// Adds a rule after the others of its number. It must be within the limits.
    pub(crate) fn add(&mut self, alloc: Global, numbered: &NumberedRule) -> Result<(), RecordsFault>
        requires room { IsTrue (has_room self.old numbered.now.number) }
        requires decimal { IsTrue (is_decimal numbered.now.number) }
        ensures added { OnOk result (Adds self.old numbered.now self.new) }
        ensures fault { IfErr result (λ fault. fault ≡ Memory) }
    {
        push_at(
            &mut self.groups,
            alloc,
            &numbered.number,
            KeptRule::new(numbered.rule),
        )?;
        self.count += 1;
        Ok(())
    }

    /// The records of all numbers, in the order of the numbers, each with its closed days. Local time is this number of
    /// minutes east of UTC.
    pub(crate) fn into_records(
        self,
        alloc: Global,
        offset: i16,
        closed: &ClosedDays,
    ) -> Result<Vec<(NumberKey, Arc<Record>)>, RecordsFault>
        requires west { neg_ℤ (pos 720) ≤ℤ offset }
        requires east { offset ≤ℤ pos 840 }
        ensures records { IfOk result (λ records. map (λ e. (e.0, arc_value e.1)) records.items ≡ map (record_of_group offset closed.now.days) self.groups) }
        ensures kept { IfOk result (λ records. IsKept (map (λ e. (e.0, arc_value e.1)) records.items)) }
        ensures fault { IfErr result (λ fault. fault ≡ Memory) }
    {
        let mut records = Vec::with_capacity(alloc, self.groups.len())?;
        for (number, rules) in self.groups {
            let days = closed.of(alloc, &number)?;
            let record = Arc::new(alloc, Record::new(offset, rules, days))?;
            records.push((number, record))?;
        }
        Ok(records)
    }
}

/// Appends a value to the list of a number. Most numbers have one rule, so a list with just this value is inserted
/// first.
fn push_at<T: Copy + Drop>(
    lists: &mut BTreeMap<NumberKey, Vec<T>>,
    alloc: Global,
    number: &NumberKey,
    value: T,
) -> Result<(), RecordsFault>
    ensures entries { OnOk result (listed lists.new.entries ≡ with_value (listed lists.old.entries) number.now value) }
    ensures numbers { OnOk result (length (listed lists.new.entries) ≡ length (listed lists.old.entries) + (if is_some (lookup (bytes_eq number.now) (listed lists.old.entries)) then 0 else 1)) }
    ensures refused { OnErr result (listed lists.new.entries ≡ listed lists.old.entries) }
    ensures once { OnOk result (IsStrictlySortedBy (slice_cmp nat_cmp) (keys_of (listed lists.new.entries))) }
    ensures fault { IfErr result (λ fault. fault ≡ Memory) }
{
    let mut list = Vec::with_capacity(alloc, 1)?;
    list.push(value)?;
    let Some(mut earlier) = lists.insert(*number, list)? else {
        return Ok(());
    };
    let pushed = earlier.push(value);
    drop(lists.insert(*number, earlier)?);
    pushed?;
    Ok(())
}
