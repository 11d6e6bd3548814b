//! The look-ups of several messages in one table.

ghost use Rattle.std.specs.Prelude.{◌≡◌, IfOk, Some};
ghost use Rattle.std.specs.Arc.{arc_value};
ghost use Rattle.fp_records.specs.Table.{record_at};

use crate::SharedRecord;
use fp_digits::{Digits, Number};
use fp_records::{Record, Table};
use std::alloc::{AllocError, Global};
use std::marker::Model;
use std::sync::Arc;

/// The record of a number that was found again.
#[derive(Drop)]
struct OwnRecord {
    digits: Digits,
    record: SharedRecord,
}

/// A table for several messages that are read one after another. Once a number is found twice, with no other record
/// shared in between, further shares of its record are counted apart from those of the table, until that happens to
/// another number: otherwise all links with calls to it would change one counter. Contracts see the contents of the
/// table.
#[derive(Drop)]
pub struct Lookup<'t> {
    alloc: Global,
    table: &'t Table,
    // The digits of the last record whose share was counted with those of the table.
    last: Option<Digits>,
    // The record whose shares are counted apart.
    own: Option<OwnRecord>,
}

impl<'t> Model for Lookup<'t> {
    ghost use Rattle.fp_records.specs.Table.{Contents};
    ghost use Rattle.fp_entry.specs.Lookup.{IsOwn};

    ghost Value = { Contents };

    ghost view = { λ l. l.table.now };

    ghost invariant = { λ l. IsOwn l.table.now l.own };
}

impl<'t> Lookup<'t> {
    /// No look-up yet.
    pub fn new(alloc: Global, table: &'t Table) -> Lookup<'t>
        ensures { result ≡ table.now }
    {
        Lookup {
            alloc,
            table,
            last: None,
            own: None,
        }
    }

    /// The table.
    pub fn table(&self) -> &'t Table
        ensures { result.now ≡ self.now }
    {
        self.table
    }

    /// A share of the record that was found for these digits. The only error is out of memory.
    fn share(&mut self, digits: Digits, found: &Arc<Record>) -> Result<SharedRecord, AllocError>
        requires { record_at self.old digits ≡ Some (arc_value found.now) }
        ensures share { IfOk result (λ share. share ≡ arc_value found.now) }
        ensures same { self.new ≡ self.old }
    {
        let is_again = self.last == Some(digits);
        self.last = Some(digits);
        if is_again && let Ok(record) = SharedRecord::nested(self.alloc, found) {
            let share = record.try_clone();
            self.own = Some(OwnRecord { digits, record });
            return share;
        }
        SharedRecord::new(found)
    }

    /// A share of the record for a called number, by its digits alone. The only error is out of memory.
    pub(crate) fn find(&mut self, called: &Number) -> Result<Option<SharedRecord>, AllocError>
        ensures found { IfOk result (λ found. found ≡ record_at self.old called.now.digits) }
        ensures same { self.new ≡ self.old }
    {
        if let Some(own) = &self.own
            && own.digits == called.digits
        {
            return Ok(Some(own.record.try_clone()?));
        }
        match self.table.find(called) {
            Some(found) => Ok(Some(self.share(called.digits, found)?)),
            None => Ok(None),
        }
    }
}
