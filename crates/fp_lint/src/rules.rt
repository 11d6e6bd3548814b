//! The rules of a file without a fault, by their numbers.

use crate::alone::{only_rule, read_alone};
use crate::row::begins_with;
use crate::rows::Row;
use crate::week::WeekRule;
use fp_records::{RecordsFault, Rule};
use std::alloc::{AllocError, Global};
use std::collections::BTreeMap;

/// The rules of one number.
#[derive(Drop)]
pub(crate) struct Rules<'a> {
    /// The digits of the number, as in the file.
    pub(crate) number: &'a [u8],
    /// The line of each rule.
    pub(crate) lines: Vec<usize>,
    /// The rules, in the order of the file.
    pub(crate) rules: Vec<WeekRule>,
}

impl<'a> Rules<'a> {
    /// A number without rules.
    fn new(alloc: Global, number: &'a [u8]) -> Rules<'a> {
        Rules {
            number,
            lines: Vec::new(alloc),
            rules: Vec::new(alloc),
        }
    }

    /// Adds the rule in a record.
    fn add(&mut self, alloc: Global, row: &Row, days: &[u8]) -> Result<(), AllocError> {
        match read_alone(alloc, &row.fields) {
            Ok(table) => match only_rule(&table, self.number) {
                Some(rule) => self.add_rule(row.line, days, rule),
                None => Ok(()),
            },
            Err(RecordsFault::Record { .. }) => Ok(()),
            Err(RecordsFault::Memory) => Err(AllocError),
        }
    }

    /// Adds a rule with these days in the file.
    fn add_rule(&mut self, line: usize, days: &[u8], rule: &Rule) -> Result<(), AllocError> {
        push_rule(&mut self.rules, days, rule)?;
        self.lines.push(line)?;
        Ok(())
    }
}

/// Appends a rule with these days in the file.
fn push_rule(rules: &mut Vec<WeekRule>, days: &[u8], rule: &Rule) -> Result<(), AllocError> {
    let kept = [WeekRule::new(days, *rule)];
    rules.extend_from_slice(kept.as_slice())
}

/// A closed day.
#[derive(Clone, Copy)]
pub(crate) struct Closed<'a> {
    /// The line of the closed day.
    pub(crate) line: usize,
    /// The digits of the number, as in the file.
    pub(crate) number: &'a [u8],
    /// The date, as in the file.
    pub(crate) date: &'a [u8],
}

/// The rules of a file by their numbers, and its closed days.
#[derive(Drop)]
pub(crate) struct Numbers<'a> {
    places: BTreeMap<u64, usize>,
    /// The numbers with their rules, in the order of each number's first rule.
    pub(crate) numbers: Vec<Rules<'a>>,
    /// The closed days, in the order of the file.
    pub(crate) closed: Vec<Closed<'a>>,
}

/// The 1 to 15 digits of a number, as a decimal number after a 1. For example, 0800 is 10,800.
fn key_of(number: &[u8]) -> u64 {
    let mut key: u64 = 1;
    for octet in number {
        key = key
            .wrapping_mul(10)
            .wrapping_add(u64::from(octet.wrapping_sub(b'0')));
    }
    key
}

impl<'a> Numbers<'a> {
    /// The numbers in the records after the head, for a file of version 2 or 1.
    pub(crate) fn read(
        alloc: Global,
        has_closed_days: bool,
        rows: &'a [Row],
    ) -> Result<Numbers<'a>, AllocError> {
        let mut numbers = Numbers {
            places: BTreeMap::new(alloc),
            numbers: Vec::new(alloc),
            closed: Vec::new(alloc),
        };
        for row in rows {
            if has_closed_days && begins_with(&row.fields, b"closed") {
                numbers.add_closed(row)?;
            } else {
                numbers.add_rule(alloc, row)?;
            }
        }
        Ok(numbers)
    }

    /// Adds a closed day.
    fn add_closed(&mut self, row: &'a Row) -> Result<(), AllocError> {
        if let (Some(number), Some(date)) = (row.fields.get(1), row.fields.get(2)) {
            self.closed.push(Closed {
                line: row.line,
                number,
                date,
            })?;
        }
        Ok(())
    }

    /// Adds a rule after the others of its number.
    fn add_rule(&mut self, alloc: Global, row: &'a Row) -> Result<(), AllocError> {
        let (Some(number), Some(days)) = (row.fields.get(0), row.fields.get(2)) else {
            return Ok(());
        };
        let place = self.place_of(alloc, number)?;
        if let Some(rules) = self.numbers.as_mut_slice().get_mut(place) {
            rules.add(alloc, row, days)?;
        }
        Ok(())
    }

    /// The position of a number, which is added if it is new.
    fn place_of(&mut self, alloc: Global, number: &'a [u8]) -> Result<usize, AllocError> {
        let key = key_of(number);
        if let Some(place) = self.places.get(&key) {
            return Ok(*place);
        }
        let place = self.numbers.len();
        self.numbers.push(Rules::new(alloc, number))?;
        drop(self.places.insert(key, place)?);
        Ok(place)
    }

    /// Whether a number has a rule.
    pub(crate) fn has(&self, number: &[u8]) -> bool {
        self.places.contains_key(&key_of(number))
    }
}
