//! Writes to the output.

ghost use Rattle.std.specs.Prelude.{◌≡◌, OnOk, IfErr};
ghost use Rattle.std.specs.Io.KnownBytes.{Appends};
ghost use Rattle.fp_ask.specs.declared.fault.AskFault.TheVariants.{WriteFault};

use fp_ask::AskFault;
use std::io::Write;

/// Writes a text, and flushes the output.
pub fn write_text<W: Write>(text: &str, output: &mut W) -> Result<(), AskFault>
    ensures written { OnOk result (Appends (W.contents output.old) (W.contents output.new) text.now) }
    ensures fault { IfErr result (λ fault. fault ≡ WriteFault) }
{
    write_octets(text.as_bytes(), output)
}

/// Writes octets, and flushes the output.
pub fn write_octets<W: Write>(octets: &[u8], output: &mut W) -> Result<(), AskFault>
    ensures written { OnOk result (Appends (W.contents output.old) (W.contents output.new) octets.now) }
    ensures fault { IfErr result (λ fault. fault ≡ WriteFault) }
{
    if output.write_all(octets).is_err() || output.flush().is_err() {
        return Err(AskFault::WriteFault);
    }
    Ok(())
}
