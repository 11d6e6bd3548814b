//! The records of a file as a file of version 2.

ghost use Rattle.std.specs.Prelude.{◌≡◌, ◌⊎◌, ℕ, IfErr, IsErrAnd, OnOk};
ghost use Rattle.std.specs.Io.KnownBytes.{Appends};
ghost use Rattle.fp_ask.specs.declared.fault.AskFault.TheVariants.{WriteFault};
ghost use Rattle.fp_records.specs.File.{File, FirstFault, IsFile, records_of};
ghost use Rattle.fp_records.specs.Migration.{KeepsFile, KeepsTable, migrated};
ghost use Rattle.fp_records.specs.declared.fault.Reason.{Reason};
ghost use Rattle.fp_records.specs.declared.fault.RecordsFault.TheVariants.{Memory, Record};
ghost use Rattle.scp.specs.Migrating.{Stops};
ghost use Rattle.scp.specs.declared.fault.RunFault.TheVariants.{Ask, Records};

use crate::fault::RunFault;
use crate::output::write_octets;
use std::alloc::Global;
use std::io::Write;

/// Writes the records of a text as the text of a file of version 2, as [`fp_records::migrate`] appends it.
///
/// The error is the first fault of the text, as [`fp_records::Table::read`] has it, and nothing is written then; or the
/// output failed.
pub fn migrate<W: Write>(alloc: Global, text: &[u8], output: &mut W) -> Result<(), RunFault>
    ensures written { OnOk result
        (Appends (W.contents output.old) (W.contents output.new) (migrated (records_of text.now))) }
    ensures same { OnOk result (KeepsFile (records_of text.now)) }
    ensures tables { OnOk result (KeepsTable (records_of text.now)) }
    ensures stopped { IfErr result (Stops (records_of text.now) (W.contents output.old) (W.contents output.new)) }
    ensures file { (file : File) → IsFile (records_of text.now) file
        → IfErr result (λ fault. (fault ≡ Ask WriteFault) ⊎ (fault ≡ Records Memory)) }
    ensures fault { (at : ℕ) (reason : Reason) → FirstFault (records_of text.now) at reason
        → IsErrAnd result (λ fault. (fault ≡ Records (Record at reason)) ⊎ (fault ≡ Records Memory)) }
{
    let mut migrated = Vec::new(alloc);
    fp_records::migrate(alloc, text, &mut migrated)?;
    write_octets(migrated.as_slice(), output)?;
    Ok(())
}
