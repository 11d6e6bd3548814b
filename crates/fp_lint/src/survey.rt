//! The faults of a records file.

ghost use Rattle.std.specs.Prelude.{◌≡◌, ◌++◌, ℕ, [], IfOk};
ghost use Rattle.fp_records.specs.File.{File, FirstFault, IsFile, records_of};
ghost use Rattle.fp_records.specs.declared.fault.Reason.{Reason};
ghost use Rattle.fp_lint.specs.Faults.{AreFaults, AreFound, BeginWith, limit_fault, own_faults};
ghost use Rattle.fp_lint.specs.Rows.{rows_in};

use crate::fault::{Fault, Part};
use crate::faults::own_faults;
use crate::rows::{Row, rows_of};
use fp_records::{Reason, RecordsFault, Table};
use std::alloc::{AllocError, Global};
use std::marker::Model;

/// The records of a file and their faults. Contracts see it as the faults.
#[derive(Drop)]
pub struct Survey {
    rows: Vec<Row>,
    faults: Vec<Fault>,
}

impl Model for Survey {
    ghost use Rattle.std.specs.Prelude.{List};
    ghost use Rattle.fp_lint.specs.declared.fault.Fault.{Fault};

    ghost Value = { List Fault };

    ghost view = { λ survey. survey.faults.items };
}

impl Survey {
    /// Reads the text of a records file.
    ///
    /// The faults are the ones of each record by itself, in the order of the records and of their fields. They don't
    /// depend on the records before. A file whose first record begins with `fprecords` and isn't `fprecords,2` is
    /// checked as version 2. If the first fault is `TooMany`, it is the first in the list. Only the first record that
    /// is too many is named, and only if no record before it is faulty.
    ///
    /// The first of the faults is the fault of [`Table::read`]. There are none exactly if that returns a table.
    pub fn read(alloc: Global, text: &[u8]) -> Result<Survey, AllocError>
        ensures all { IfOk result (λ survey. AreFaults (records_of text.now) survey) }
        ensures first { (at : ℕ) (reason : Reason) → FirstFault (records_of text.now) at reason → IfOk result (λ survey. BeginWith at reason survey) }
        ensures none { (file : File) → IsFile (records_of text.now) file → IfOk result (λ survey. survey ≡ []) }
    {
        let rows = rows_of(alloc, text)?;
        let answer = Table::read(alloc, text);
        let faults = faults_by(alloc, answer, rows.as_slice())?;
        Ok(Survey { rows, faults })
    }

    /// The faults.
    pub fn faults(&self) -> &[Fault]
        ensures { result.now ≡ self.now }
    {
        self.faults.as_slice()
    }

    /// The records.
    pub(crate) fn rows(&self) -> &[Row] {
        self.rows.as_slice()
    }
}

/// The faults in the records of a text, given the result of `Table::read` for it.
fn faults_by(
    alloc: Global,
    answer: Result<Table, RecordsFault>,
    rows: &[Row],
) -> Result<Vec<Fault>, AllocError>
    ensures { IfOk result (λ faults. AreFound answer (rows_in rows.now) faults.items) }
{
    match answer {
        Ok(_) => Ok(Vec::new(alloc)),
        Err(RecordsFault::Record { at, reason }) => faults_with(alloc, at, reason, rows),
        Err(RecordsFault::Memory) => Err(AllocError),
    }
}

/// The faults in the records of a text, if this is the first one.
fn faults_with(
    alloc: Global,
    at: usize,
    reason: Reason,
    rows: &[Row],
) -> Result<Vec<Fault>, AllocError>
    ensures { IfOk result (λ faults. faults.items ≡ limit_fault at reason ++ own_faults (rows_in rows.now)) }
{
    let mut faults = limit_fault(alloc, at, reason)?;
    own_faults(alloc, rows, &mut faults)?;
    Ok(faults)
}

/// The fault of a record that is too many, if that is the reason.
fn limit_fault(alloc: Global, at: usize, reason: Reason) -> Result<Vec<Fault>, AllocError>
    ensures { IfOk result (λ faults. faults.items ≡ limit_fault at reason) }
{
    let mut faults = Vec::new(alloc);
    if let Reason::TooMany = reason {
        faults.push(Fault {
            at,
            part: Part::Whole,
            reason: Reason::TooMany,
        })?;
    }
    Ok(faults)
}
