//! The report of a log.

ghost use Rattle.std.specs.Prelude.{◌≡◌, IfErr, IfOk, OnErr, OnOk, string_bytes};
ghost use Rattle.std.specs.Io.KnownBytes.{Appends};
ghost use Rattle.fp_replay.specs.Replayed.{report_line};
ghost use Rattle.fp_replay.specs.declared.replay_fault.ReplayFault.TheVariants.{WriteFault};
ghost use Rattle.fp_replay.specs.Stopped.{cause_of};
ghost use Rattle.fp_streams.specs.Ends.{CountsWrites};
ghost use Rattle.fp_streams.specs.Write.{AppendsFront};

use crate::ReplayFault;
use fp_book::Totals;
use fp_streams::{LinkWrite, write_all};
use std::alloc::{AllocError, Global};

/// The line of a link in the report: `link L accepted A served S sent T` and a line feed, each a decimal number without
/// leading zeros. L is the number of the link, A how many components it accepted, S how many entries it served and T
/// how many frames of dialogues it sent. `Err`: memory ran out.
pub fn report_line(alloc: Global, link: usize, totals: Totals) -> Result<String, AllocError>
    ensures { IfOk result (λ text. string_bytes text ≡ report_line link totals) }
{
    let Totals {
        accepted,
        served,
        sent,
    } = totals;
    format!(in alloc; "link {link} accepted {accepted} served {served} sent {sent}\n")
}

/// Writes the report, and flushes the output.
pub(crate) fn write_report<W: LinkWrite>(report: &str, writer: &mut W) -> Result<(), ReplayFault>
    ensures written { OnOk result (Appends (W.contents writer.old) (W.contents writer.new) report.now) }
    ensures front { OnErr result (AppendsFront (W.contents writer.old) (W.contents writer.new) report.now) }
    ensures fault { IfErr result (λ fault. fault ≡ WriteFault) }
    ensures failure { CountsWrites cause_of result (W.failures writer.old) (W.failures writer.new) }
{
    if write_all(writer, report.as_bytes()).is_err() || writer.flush().is_err() {
        return Err(ReplayFault::WriteFault);
    }
    Ok(())
}
