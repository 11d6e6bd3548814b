//! The contents of a records file, from which the table is made.

ghost use Rattle.std.specs.Prelude.{◌≡◌, ◌≤ℤ◌, List, ℕ, neg_ℤ, pos, IfOk};
ghost use Rattle.fp_records.specs.File.{records_of};
ghost use Rattle.fp_records.specs.Drafts.{Drafts};
ghost use Rattle.fp_records.specs.declared.fault.Reason.{Reason};

use crate::fault::{Reason, RecordsFault};
use crate::gathering::Gathering;
use crate::head::{Head, head_of};
use crate::reading::RecordReader;
use crate::version::read_start;
use csv::ByteRecord;
use std::alloc::Global;

/// The head of a file, and its rules and closed days by their numbers.
#[derive(Drop)]
pub(crate) struct Draft {
    pub(crate) head: Head,
    pub(crate) gathering: Gathering,
}

/// Reads the records of a text one after another.
pub(crate) fn draft_of(alloc: Global, text: &[u8]) -> Result<Draft, RecordsFault>
    ensures answer { Drafts result (records_of text.now) }
    ensures west { IfOk result (λ draft. neg_ℤ (pos 720) ≤ℤ draft.head.offset) }
    ensures east { IfOk result (λ draft. draft.head.offset ≤ℤ pos 840) }
{
    let mut records = RecordReader::new(alloc, text);
    let mut row = ByteRecord::new(alloc);
    let version = read_start(&mut records, &mut row)?;
    let Some(head) = head_of(&row) else {
        return Err(RecordsFault::Record {
            at: records.place(),
            reason: Reason::BadHead,
        });
    };
    let gathering = Gathering::read(alloc, version, &mut records, &mut row)?;
    Ok(Draft { head, gathering })
}
