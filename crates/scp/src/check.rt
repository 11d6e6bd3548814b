//! The counts of a records file, in one line.

ghost use Rattle.std.specs.Prelude.{◌≡◌, ◌⊎◌, IfErr, IfOk, OnOk, string_bytes};
ghost use Rattle.std.specs.Io.KnownBytes.{Appends};
ghost use Rattle.scp.specs.Counts.{counts_line};
ghost use Rattle.fp_ask.specs.declared.fault.AskFault.TheVariants.{Memory, WriteFault};

use crate::output::write_text;
use fp_ask::AskFault;
use fp_records::Table;
use std::alloc::{AllocError, Global};
use std::io::Write;

/// Writes how many numbers and how many rules a table has, and how many closed days if there are any: `numbers N rules
/// M` or `numbers N rules M closed C`, and a line feed. For example, `numbers 6 rules 17`.
pub fn check<W: Write>(alloc: Global, table: &Table, output: &mut W) -> Result<(), AskFault>
    ensures written { OnOk result (Appends (W.contents output.old) (W.contents output.new) (counts_line table.now)) }
    ensures fault { IfErr result (λ fault. (fault ≡ WriteFault) ⊎ (fault ≡ Memory)) }
{
    let text = text_of(alloc, table)?;
    write_text(text.as_str(), output)
}

/// The line with the counts of a table.
pub(crate) fn text_of(alloc: Global, table: &Table) -> Result<String, AllocError>
    ensures { IfOk result (λ text. string_bytes text ≡ counts_line table.now) }
{
    let (numbers, rules) = table.counts();
    match table.closed() {
        0 => format!(in alloc; "numbers {numbers} rules {rules}\n"),
        closed => format!(in alloc; "numbers {numbers} rules {rules} closed {closed}\n"),
    }
}
