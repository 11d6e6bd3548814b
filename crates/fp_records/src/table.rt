//! The table of the records.

ghost use Rattle.std.specs.Prelude.{◌≡◌, ◌≤◌, ◌≤ℤ◌, ◌⊎◌, ℕ, List, IfErr, IfOk, IsErrAnd, MatchResult, length, neg_ℤ, option_map, pos};
ghost use Rattle.std.specs.Arc.{arc_value};
ghost use Rattle.fp_records.specs.declared.fault.Reason.{Reason};

use crate::decimal_digits::DecimalDigits;
use crate::draft::{Draft, draft_of};
use crate::fault::RecordsFault;
use crate::gathering::Gathering;
use crate::number_key::NumberKey;
use crate::record::Record;
use fp_digits::Number;
use std::alloc::Global;
use std::marker::Model;
use std::sync::Arc;

/// The records for one service key, with their index among the tables of a run. Contracts see it as its `Contents`.
#[derive(Debug, Drop)]
pub struct Table {
    index: u16,
    key: u32,
    rule_count: u32,
    closed_count: u32,
    // In the order of the numbers.
    records: Vec<(NumberKey, Arc<Record>)>,
}

impl Model for Table {
    ghost use Rattle.std.specs.Prelude.{map};
    ghost use Rattle.std.specs.Arc.{arc_value};
    ghost use Rattle.fp_records.specs.Table.{Contents, IsKept};

    ghost Value = { Contents };

    ghost view = { λ table. record {
      index = table.index;
      key = table.key;
      rule_count = table.rule_count;
      closed_count = table.closed_count;
      records = map (λ e. (e.0, arc_value e.1)) table.records.items;
    } };

    ghost invariant = { λ table. IsKept (map (λ e. (e.0, arc_value e.1)) table.records.items) };
}

impl Table {
    ghost use Rattle.fp_records.specs.File.{File, FirstFault, IsFile, records_of};
    ghost use Rattle.fp_records.specs.Drafts.{IsDraft};
    ghost use Rattle.fp_records.specs.Table.{IsTable, Reads, record_at};

    /// The last index among the tables of a run with a tag: 65,535.
    pub const LAST_INDEX: u16 = u16::MAX;

    /// The last index among the tables of a run without a tag.
    pub const LAST_INDEX_WITHOUT_TAG: u16 = 999;

    /// Reads the text of a records file. The index is 0, for the first table of a run.
    ///
    /// A text whose first field is `fprecords` is of version 2: record 1 is `fprecords,2`, record 2 its head, and each
    /// other record a rule or, if it begins with `closed`, a closed day. Any other text is of version 1: record 1 is
    /// its head, and each other record a rule.
    ///
    /// The fault is the first one from the top, by the number of its record (the first is 1, and empty lines are no
    /// records), with the first reason that applies:
    ///
    /// - `BadVersion`: record 1 begins with `fprecords` and isn't `fprecords,2`.
    /// - `BadHead`: the head isn't `key,SERVICEKEY,OFFSET` (0 to 2147483647, and -720 to 840), or is missing.
    /// - For a rule, the first fault of its fields from left to right, as far as there are any; `FieldCount` after the
    ///   action; `BadDestination`; and `TooMany` if there are already 100,000 rules, or 1,000 of its number.
    /// - For a closed day, `BadClosed` if it doesn't have three fields, its number isn't 1 to 15 decimal digits, or the
    ///   calendar from 1969-12-31 to 2100-01-01 doesn't have its date; and `TooMany` if there are already 10,000 closed
    ///   days.
    ///
    /// The fault `Memory` means out of memory. After a fault there is no table.
    pub fn read(alloc: Global, text: &[u8]) -> Result<Table, RecordsFault>
        ensures answer { Reads result (records_of text.now) }
        ensures file { (file : File) → IsFile (records_of text.now) file → MatchResult result (λ table. IsTable file table) (λ fault. fault ≡ RecordsFault.Memory) }
        ensures fault { (at : ℕ) (reason : Reason) → FirstFault (records_of text.now) at reason → IsErrAnd result (λ fault. (fault ≡ RecordsFault.Record at reason) ⊎ (fault ≡ RecordsFault.Memory)) }
    {
        Table::read_in_turn(alloc, text)
    }

    /// Reads a text as [`Table::read`] does, and frees it before it makes the table, which needs as much memory again.
    pub fn read_and_free(alloc: Global, text: Vec<u8>) -> Result<Table, RecordsFault>
        ensures answer { Reads result (records_of text.items) }
        ensures file { (file : File) → IsFile (records_of text.items) file → MatchResult result (λ table. IsTable file table) (λ fault. fault ≡ RecordsFault.Memory) }
        ensures fault { (at : ℕ) (reason : Reason) → FirstFault (records_of text.items) at reason → IsErrAnd result (λ fault. (fault ≡ RecordsFault.Record at reason) ⊎ (fault ≡ RecordsFault.Memory)) }
    {
        Table::read_then_free(alloc, text)
    }

    /// Reads a text, and makes the table of it.
    fn read_in_turn(alloc: Global, text: &[u8]) -> Result<Table, RecordsFault>
        ensures { Reads result (records_of text.now) }
    {
        let draft = draft_of(alloc, text)?;
        Table::of(alloc, draft)
    }

    /// Reads a text, frees it, and makes the table.
    fn read_then_free(alloc: Global, text: Vec<u8>) -> Result<Table, RecordsFault>
        ensures { Reads result (records_of text.items) }
    {
        let draft = draft_of(alloc, text.as_slice());
        drop(text);
        Table::of(alloc, draft?)
    }

    /// The table of the draft.
    fn of(alloc: Global, draft: Draft) -> Result<Table, RecordsFault>
        requires west { neg_ℤ (pos 720) ≤ℤ draft.head.offset }
        requires east { draft.head.offset ≤ℤ pos 840 }
        ensures table { IfOk result (λ table. (file : File) → IsDraft file draft → IsTable file table × (table.index ≡ 0)) }
        ensures fault { IfErr result (λ fault. fault ≡ RecordsFault.Memory) }
    {
        let Draft { head, gathering } = draft;
        let Gathering { rules, closed } = gathering;
        Ok(Table {
            index: 0,
            key: head.key,
            rule_count: rules.count() as u32,
            closed_count: closed.count() as u32,
            records: rules.into_records(alloc, head.offset, &closed)?,
        })
    }

    /// The same records with this index among the tables of a run. Takes no memory.
    pub fn numbered(self, index: u16) -> Table
        ensures { result ≡ record self { index = index } }
    {
        Table { index, ..self }
    }

    /// The index among the tables of a run. Takes no memory.
    pub fn index(&self) -> u16
        ensures value { result ≡ self.now.index }
        ensures most { result ≤ Self.LAST_INDEX }
    {
        self.index
    }

    /// The number of numbers and the number of rules.
    pub fn counts(&self) -> (u32, u32)
        ensures numbers { result.0 ≡ length self.now.records }
        ensures rules { result.1 ≡ self.now.rule_count }
    {
        (self.records.len() as u32, self.rule_count)
    }

    /// The number of records with closed days. Numbers without rules count, too, and repeated days count each time.
    /// Takes no memory.
    pub fn closed(&self) -> u32
        ensures { result ≡ self.now.closed_count }
    {
        self.closed_count
    }

    /// The service key of the records.
    pub fn key(&self) -> u32
        ensures { result ≡ self.now.key }
    {
        self.key
    }

    /// The record for a called number, by its digits alone. The nature of address isn't checked. A number with a digit
    /// above 9 has no record.
    pub fn find(&self, called: &Number) -> Option<&Arc<Record>>
        ensures { option_map (λ found. arc_value found.now) result ≡ record_at self.now called.now.digits }
    {
        let records = &self.records;
        let Some(digits) = DecimalDigits::from_digits(called.digits.as_slice()) else {
            return None;
        };
        match records.binary_search_by_key(&NumberKey::new(&digits), |entry| entry.0) {
            Ok(place) => Some(&records[place].1),
            Err(_) => None,
        }
    }
}
