//! The record for a number, shared with the table.

ghost use Rattle.std.specs.Prelude.{◌≡◌, IfOk};
ghost use Rattle.std.specs.Arc.{arc_value};

use fp_records::Record;
use std::alloc::{AllocError, Global};
use std::marker::Model;
use std::sync::Arc;

/// The record for a number, which entries share with their table. Contracts see it as its `Rules`.
#[derive(Debug, Drop)]
pub struct SharedRecord {
    share: Share,
}

/// A share of a record, counted with those of the table, or apart from them.
#[derive(Debug, Drop)]
enum Share {
    Direct(Arc<Record>),
    Nested(Arc<Arc<Record>>),
}

impl Model for SharedRecord {
    ghost use Rattle.fp_records.specs.Choice.{Rules};
    ghost use Rattle.fp_entry.specs.SharedRecord.{value_of};

    ghost Value = { Rules };

    ghost view = { λ shared. value_of shared.share };
}

/// Two shares are equal exactly if their records have the same rules.
impl PartialEq for SharedRecord {
    ghost use Rattle.fp_records.specs.Same.{same_record, same_record_per};

    ghost eq = { same_record };

    ghost laws = { same_record_per };

    fn eq(&self, other: &Self) -> bool {
        self.record() == other.record()
    }
}

impl Eq for SharedRecord {
    ghost use Rattle.fp_records.specs.Same.{same_record_equiv};

    ghost laws = { same_record_equiv };
}

impl SharedRecord {
    /// One more share of a record of the table. The only error is out of memory.
    pub fn new(found: &Arc<Record>) -> Result<SharedRecord, AllocError>
        ensures { IfOk result (λ shared. shared ≡ arc_value found.now) }
    {
        let share = Share::Direct(found.clone()?);
        Ok(SharedRecord { share })
    }

    /// One more share of a record of the table. Its copies are counted apart from those of the table. The only error is
    /// out of memory.
    pub(crate) fn nested(alloc: Global, found: &Arc<Record>) -> Result<SharedRecord, AllocError>
        ensures { IfOk result (λ shared. shared ≡ arc_value found.now) }
    {
        let share = Share::Nested(Arc::new(alloc, found.clone()?)?);
        Ok(SharedRecord { share })
    }

    /// The record.
    pub fn record(&self) -> &Record
        ensures { result.now ≡ self.now }
    {
        match &self.share {
            Share::Direct(record) => record,
            Share::Nested(record) => record,
        }
    }

    /// One more share of the same record. The only error is out of memory.
    pub fn try_clone(&self) -> Result<SharedRecord, AllocError>
        ensures { IfOk result (λ shared. shared ≡ self.now) }
    {
        let share = match &self.share {
            Share::Direct(record) => Share::Direct(record.clone()?),
            Share::Nested(record) => Share::Nested(record.clone()?),
        };
        Ok(SharedRecord { share })
    }
}
