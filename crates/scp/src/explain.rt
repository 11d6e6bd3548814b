//! The report on a records file, beyond its counts or its first fault.

ghost use Rattle.std.specs.Prelude.{◌≡◌, ◌⊎◌, ℕ, IfErr, IsErrAnd};
ghost use Rattle.fp_ask.specs.declared.fault.AskFault.TheVariants.{WriteFault};
ghost use Rattle.fp_ask.specs.declared.fault.AskFault.TheVariants as ask;
ghost use Rattle.fp_records.specs.File.{File, FirstFault, IsFile, records_of};
ghost use Rattle.fp_records.specs.declared.fault.Reason.{Reason};
ghost use Rattle.fp_records.specs.declared.fault.RecordsFault.TheVariants.{Memory, Record};
ghost use Rattle.scp.specs.declared.fault.RunFault.TheVariants.{Ask, Records};

use crate::check::text_of;
use crate::fault::RunFault;
use crate::output::write_text;
use fp_lint::Survey;
use fp_records::{RecordsFault, Table};
use std::alloc::{AllocError, Global};
use std::io::Write;

/// Writes the report on the text of a records file: the line of `check` and the possible slips that [`Survey::write`]
/// adds, or all faults.
///
/// The error is the first fault of the text, as [`Table::read`] has it, and all faults were written then; or memory ran
/// out, and nothing was written; or the output failed.
pub fn explain<W: Write>(alloc: Global, text: &[u8], output: &mut W) -> Result<(), RunFault>
    ensures file { (file : File) → IsFile (records_of text.now) file
        → IfErr result (λ fault. (fault ≡ Ask WriteFault) ⊎ (fault ≡ Ask ask.Memory) ⊎ (fault ≡ Records Memory)) }
    ensures fault { (at : ℕ) (reason : Reason) → FirstFault (records_of text.now) at reason
        → IsErrAnd result (λ fault. (fault ≡ Records (Record at reason)) ⊎ (fault ≡ Ask WriteFault) ⊎ (fault ≡ Ask ask.Memory) ⊎ (fault ≡ Records Memory)) }
{
    let table = Table::read(alloc, text);
    let said = said_of(alloc, text, &table)?;
    write_text(said.as_str(), output)?;
    drop(table?);
    Ok(())
}

/// The report on a text with this result of reading it. `Err`: memory ran out, now or when it was read.
fn said_of(
    alloc: Global,
    text: &[u8],
    table: &Result<Table, RecordsFault>,
) -> Result<String, AllocError> {
    let survey = Survey::read(alloc, text)?;
    let mut said = match table {
        Ok(table) => text_of(alloc, table)?,
        Err(RecordsFault::Record { .. }) => String::new(alloc),
        Err(RecordsFault::Memory) => return Err(AllocError),
    };
    survey.write(alloc, &mut said)?;
    Ok(said)
}
