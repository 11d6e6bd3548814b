//! The closed days of a number.

ghost use Rattle.std.specs.Prelude.{◌≡◌, [], IfErr, IfOk};
ghost use Rattle.std.specs.Cmp.Lexicographic.{pointwise};
ghost use Rattle.std.specs.Ordering.{int_eq};
ghost use Rattle.fp_records.specs.Choice.{is_closed_on};
ghost use Rattle.fp_records.specs.declared.fault.RecordsFault.TheVariants.{Memory};

use crate::fault::RecordsFault;
use std::alloc::Global;
use std::collections::BTreeSet;
use std::marker::Model;

/// The closed days of a number. Few numbers have any, so they are in an allocation of their own. Contracts see the
/// numbers of the days, in rising order.
#[derive(Debug, Drop)]
pub(crate) struct DaySet {
    days: Option<Box<BTreeSet<i32>>>,
}

impl Model for DaySet {
    ghost use Rattle.std.specs.Prelude.{ℤ, List, [], option_map};
    ghost use Rattle.std.specs.Option.{unwrap_or};

    ghost Value = { List ℤ };

    ghost view = { λ set. unwrap_or (option_map (λ place. place.value.keys) set.days) [] };
}

impl DaySet {
    /// No days.
    pub(crate) fn none() -> DaySet
        ensures { result ≡ [] }
    {
        DaySet { days: None }
    }

    /// A set of these days.
    pub(crate) fn of(alloc: Global, days: BTreeSet<i32>) -> Result<DaySet, RecordsFault>
        ensures days { IfOk result (λ set. set ≡ days.keys) }
        ensures fault { IfErr result (λ fault. fault ≡ Memory) }
    {
        let place = Box::new(alloc, days)?;
        Ok(DaySet { days: Some(place) })
    }

    /// Whether a day is in the set.
    pub(crate) fn has(&self, day: &i32) -> bool
        ensures { result ≡ is_closed_on day.now self.now }
    {
        match &self.days {
            Some(days) => days.contains(day),
            None => false,
        }
    }

    /// Whether two sets have the same days.
    pub(crate) fn is_same(&self, other: &DaySet) -> bool
        ensures { result ≡ pointwise int_eq self.now other.now }
    {
        match &self.days {
            Some(days) => match &other.days {
                Some(others) => **days == **others,
                None => days.is_empty(),
            },
            None => match &other.days {
                Some(others) => others.is_empty(),
                None => true,
            },
        }
    }
}
