//! The lines that a run writes: its address, the answers to its commands, and the report on its links.

ghost use Rattle.std.specs.Prelude.{◌≡◌, ◌≤◌, IfOk, OnOk, string_bytes};
ghost use Rattle.std.specs.Io.KnownBytes.{Appends};
ghost use Rattle.std.specs.Net.Text.{socket_text};
ghost use Rattle.fp_replay.specs.Replayed.{report_line};
ghost use Rattle.fp_serve.specs.Report.{listening_line, reloaded_line, with_links_below};
ghost use Rattle.fp_watch.specs.Links.{lines_by};

use crate::run::ServeFault;
use fp_book::Totals;
use fp_replay::report_line;
use fp_streams::{LinkWrite, write_all};
use itoa::Buffer;
use std::alloc::{AllocError, Global};
use std::net::SocketAddr;

/// Writes `listening A` and a line feed, and flushes the output.
pub(crate) fn write_address<W: LinkWrite>(
    alloc: Global,
    address: SocketAddr,
    output: &mut W,
) -> Result<(), ServeFault>
    ensures { OnOk result (Appends (W.contents output.old) (W.contents output.new) (listening_line address)) }
{
    let text = format!(in alloc; "listening {address}\n")?;
    write_flushed(text.as_str(), output)
}

/// Writes a line for each number below the first link, and one for each link, in their order, and flushes the output.
pub(crate) fn write_report<W: LinkWrite>(
    alloc: Global,
    first_link: u8,
    totals: &[Totals],
    output: &mut W,
) -> Result<(), ServeFault>
    ensures { OnOk result (Appends (W.contents output.old) (W.contents output.new)
        (lines_by report_line 0 (with_links_below first_link totals.now))) }
{
    let all = with_links_below(alloc, first_link, totals)?;
    let text = report(alloc, all.as_slice())?;
    write_flushed(text.as_str(), output)
}

/// The totals of a link that was never connected, or that the run doesn't have.
pub(crate) const NOTHING: Totals = Totals {
    accepted: 0,
    served: 0,
    sent: 0,
};

/// The totals of each link, from the number 0 on: zeros below the first link.
fn with_links_below(
    alloc: Global,
    first_link: u8,
    totals: &[Totals],
) -> Result<Vec<Totals>, AllocError>
    ensures { IfOk result (λ all. all.items ≡ with_links_below first_link totals.now) }
{
    let mut all = Vec::new(alloc);
    all.resize(usize::from(first_link), NOTHING)?;
    all.extend_from_slice(totals)?;
    Ok(all)
}

/// A line for each link, in their order.
fn report(alloc: Global, totals: &[Totals]) -> Result<String, AllocError>
    ensures { IfOk result (λ text. string_bytes text ≡ lines_by report_line 0 totals.now) }
{
    let mut text = String::new(alloc);
    for (link, counted) in totals.iter().enumerate() {
        let line = report_line(alloc, link, *counted)?;
        text.push_str(line.as_str())?;
    }
    Ok(text)
}

/// Writes a piece of a text.
fn write_piece<W: LinkWrite>(text: &str, output: &mut W) -> Result<(), ServeFault>
    ensures { OnOk result (Appends (W.contents output.old) (W.contents output.new) text.now) }
{
    match write_all(output, text.as_bytes()) {
        Ok(()) => Ok(()),
        Err(_) => Err(ServeFault::WriteFault),
    }
}

/// Writes `reloaded N` and a line feed, and flushes the output. Takes no memory: the records are replaced already.
pub(crate) fn write_reloaded<W: LinkWrite>(index: u32, output: &mut W) -> Result<(), ServeFault>
    ensures { OnOk result (Appends (W.contents output.old) (W.contents output.new) (reloaded_line index)) }
{
    let mut digits = Buffer::new();
    write_piece("reloaded ", output)?;
    write_piece(digits.format(index), output)?;
    write_flushed("\n", output)
}

/// Writes a text, and flushes the output.
pub(crate) fn write_flushed<W: LinkWrite>(text: &str, output: &mut W) -> Result<(), ServeFault>
    ensures { OnOk result (Appends (W.contents output.old) (W.contents output.new) text.now) }
{
    if write_all(output, text.as_bytes()).is_err() || output.flush().is_err() {
        return Err(ServeFault::WriteFault);
    }
    Ok(())
}
