//! A log, replayed from its first line to its last.

ghost use Rattle.std.specs.Prelude.{IfErr, IfOk, IfSome, OnOk, string_bytes};
ghost use Rattle.std.specs.Io.KnownBytes.{IsAtEnd};
ghost use Rattle.fp_replay.specs.Replayed.{IsReplayed};
ghost use Rattle.fp_replay.specs.Stopped.{Halts, IsUnwritten, Replays, Stops, cause_of};
ghost use Rattle.fp_replay.specs.proof_only.Making.{AreNone};
ghost use Rattle.fp_replay.specs.proof_only.Taking.{refuses, takes};
ghost use Rattle.fp_streams.specs.Ends.{CountsReads, CountsWrites, Reads};

use crate::ReplayFault;
use crate::links::Links;
use crate::replay_fault::{Refusal, fault_of};
use crate::report::write_report;
use fp_apdu::Name;
use fp_records::Table;
use fp_streams::{LinkRead, LinkWrite, TakesLine, follow_lines};
use std::alloc::Global;

/// The most octets of a line, without its line feed.
const MOST_OCTETS: usize = 8300;

/// Replays the steps of a log, and writes the totals of each link: how many components it accepted, how many entries it
/// served and how many frames of dialogues it sent, a line for each link.
///
/// The first line is the head, and each other one a step of a link that the head has, with its answer, as
/// [`write_line`](crate::write_line) writes them: at most 8,300 octets and a line feed. A step is replayed on the run
/// of its link, and its line there is compared with this one. The local transaction identifiers of these runs have the
/// tag of the head, 0 if it has none. You pass the tables and the names that the log was written with: a message is
/// read with the table in the place that its line gives, 0 to 65,535 if the head has a tag and else 0 to 999. At most
/// `most_reads` reads are made, of up to 4,096 octets each. One line is held at a time; no clause says this.
///
/// Each line is checked in this order: whether it is bad (also if its table wasn't passed in or has a later place),
/// whether it is a gap, whether it disagrees (also if it gives or puts back a turn that isn't out). The first fault
/// ends the replay. The report is written after the last line: after [`ReplayFault::WriteFault`] a prefix of it was
/// written, after any other fault nothing.
pub fn replay<R: LinkRead, W: LinkWrite>(
    alloc: Global,
    tables: &[Table],
    contexts: &[Name],
    most_reads: u64,
    reader: &mut R,
    writer: &mut W,
) -> Result<(), ReplayFault>
    ensures end { OnOk result (IsAtEnd (R.remaining reader.new)) }
    ensures replayed { OnOk result (IfSome (R.remaining reader.old)
        (Replays tables.now contexts.now (W.contents writer.old) (W.contents writer.new))) }
    ensures stopped { IfErr result (Stops tables.now contexts.now
        (R.remaining reader.old) (R.remaining reader.new) (W.contents writer.old) (W.contents writer.new)) }
    ensures unwritten { IfErr result (IsUnwritten (W.contents writer.old) (W.contents writer.new)) }
    ensures within { Reads cause_of most_reads (R.remaining reader.old) (R.remaining reader.new)
        (R.pieces reader.old) (R.pieces reader.new) result }
    ensures reads { CountsReads cause_of result (R.failures reader.old) (R.failures reader.new) }
    ensures writes { CountsWrites cause_of result (W.failures writer.old) (W.failures writer.new) }
{
    let mut replaying = Replaying {
        alloc,
        tables,
        contexts,
        links: Links::new(alloc),
    };
    let report = replaying.report_of(most_reads, reader);
    let Replaying {
        alloc: _,
        tables: _,
        contexts: _,
        links,
    } = replaying;
    links.abandon();
    match report {
        Ok(report) => write_report(report.as_str(), writer),
        Err(fault) => Err(fault),
    }
}

/// The links of a log, and the tables and names that its lines are replayed with. You must spend the links.
pub(crate) struct Replaying<'a> {
    alloc: Global,
    tables: &'a [Table],
    contexts: &'a [Name],
    links: Links,
}

impl TakesLine for Replaying<'_> {
    type Fault = Refusal;

    ghost takes = { takes };

    ghost refuses = { refuses };

    /// Takes the head, or a step, which is replayed. Each line of a log ends with its line feed.
    fn take_line(
        &mut self,
        line: &[u8],
        has_line_feed: bool,
        _is_followed: bool,
    ) -> Result<(), Refusal> {
        if !has_line_feed {
            return Err(Refusal::BadLine);
        }
        self.links
            .take_line(self.alloc, self.tables, self.contexts, line)
    }
}

impl Replaying<'_> {
    /// The report of a log without any line taken yet.
    fn report_of<R: LinkRead>(
        &mut self,
        most_reads: u64,
        reader: &mut R,
    ) -> Result<String, ReplayFault>
        requires none { AreNone self.old.links }
        ensures end { OnOk result (IsAtEnd (R.remaining reader.new)) }
        ensures replayed { IfOk result (λ report. IfSome (R.remaining reader.old)
            (λ input. IsReplayed self.old.tables.now self.old.contexts.now input (string_bytes report))) }
        ensures halted { IfErr result (Halts self.old.tables.now self.old.contexts.now
            (R.remaining reader.old) (R.remaining reader.new)) }
        ensures within { Reads cause_of most_reads (R.remaining reader.old) (R.remaining reader.new)
            (R.pieces reader.old) (R.pieces reader.new) result }
        ensures reads { CountsReads cause_of result (R.failures reader.old) (R.failures reader.new) }
    {
        match follow_lines(self.alloc, MOST_OCTETS, most_reads, reader, self) {
            Ok(()) => self.links.report(self.alloc),
            Err(fault) => Err(fault_of(fault)),
        }
    }
}
