//! The lines of an input, answered one after another.

ghost use Rattle.std.specs.Prelude.{◌≤◌, IfErr, IfSome, OnOk};
ghost use Rattle.std.specs.Io.KnownBytes.{IsAtEnd};
ghost use Rattle.fp_ask.specs.Asked.{AnswersAll, Stops, cause_of};
ghost use Rattle.fp_ask.specs.Lines.{at_start};
ghost use Rattle.fp_streams.specs.Ends.{CountsReads, CountsWrites, Reads};
ghost use Rattle.fp_tids.specs.Identifiers.{base_of};

use crate::AskFault;
use crate::answerer::Answerer;
use crate::answering::Answering;
use fp_apdu::Name;
use fp_digits::Moment;
use fp_records::Table;
use fp_streams::{LinkRead, LinkWrite};
use fp_tids::LocalIds;
use std::alloc::Global;

/// Answers each line of an input, in their order.
///
/// `moment` is the moment of the first line. A line is the hexadecimal text of one message, 1 to 4,096 octets in digits
/// of either case, or `+` and 1 to 13 decimal digits, which advances the clock by that many milliseconds. For example,
/// `+1500` waits a second and a half. It ends at a line feed; the last one can end at the end of the input instead.
/// Each message that is sent is a line: its hexadecimal text in upper case. At most `most_reads` reads are made, of up
/// to 4,096 octets each.
///
/// The first fault ends the run. If a line is bad, the reader failed or the limit on reads was reached, the lines
/// before were answered; if memory ran out or the writer failed, a prefix of the answers was written. Answers are
/// flushed before the next read and when the run ends; cases show this, no clause says it.
///
/// The run has no tag: the identifier of a dialogue is its serial. [`ask_with_tag`] has one.
pub fn ask<R: LinkRead, W: LinkWrite>(
    alloc: Global,
    table: &Table,
    contexts: &[Name],
    moment: Moment,
    most_reads: u64,
    reader: &mut R,
    writer: &mut W,
) -> Result<(), AskFault>
    ensures end { OnOk result (IsAtEnd (R.remaining reader.new)) }
    ensures answered { OnOk result (IfSome (R.remaining reader.old)
        (AnswersAll table.now contexts.now (at_start (base_of 0 0) moment)
        (W.contents writer.old) (W.contents writer.new))) }
    ensures stopped { IfErr result (Stops table.now contexts.now (at_start (base_of 0 0) moment)
        (R.remaining reader.old) (R.remaining reader.new) (W.contents writer.old) (W.contents writer.new)) }
    ensures within { Reads cause_of most_reads (R.remaining reader.old) (R.remaining reader.new)
        (R.pieces reader.old) (R.pieces reader.new) result }
    ensures reads { CountsReads cause_of result (R.failures reader.old) (R.failures reader.new) }
    ensures writes { CountsWrites cause_of result (W.failures writer.old) (W.failures writer.new) }
{
    ask_with_tag(
        alloc, table, contexts, 0, moment, most_reads, reader, writer,
    )
}

/// As [`ask`], in a run with this tag, 0 to 4,094: the identifier of a dialogue is the tag times 2^17, plus its serial.
/// For example, serial 1 with the tag 3 is 00060001 in hexadecimal digits.
pub fn ask_with_tag<R: LinkRead, W: LinkWrite>(
    alloc: Global,
    table: &Table,
    contexts: &[Name],
    tag: u16,
    moment: Moment,
    most_reads: u64,
    reader: &mut R,
    writer: &mut W,
) -> Result<(), AskFault>
    requires { tag ≤ LocalIds.LAST_TAG }
    ensures end { OnOk result (IsAtEnd (R.remaining reader.new)) }
    ensures answered { OnOk result (IfSome (R.remaining reader.old)
        (AnswersAll table.now contexts.now (at_start (base_of 0 tag) moment)
        (W.contents writer.old) (W.contents writer.new))) }
    ensures stopped { IfErr result (Stops table.now contexts.now (at_start (base_of 0 tag) moment)
        (R.remaining reader.old) (R.remaining reader.new) (W.contents writer.old) (W.contents writer.new)) }
    ensures within { Reads cause_of most_reads (R.remaining reader.old) (R.remaining reader.new)
        (R.pieces reader.old) (R.pieces reader.new) result }
    ensures reads { CountsReads cause_of result (R.failures reader.old) (R.failures reader.new) }
    ensures writes { CountsWrites cause_of result (W.failures writer.old) (W.failures writer.new) }
{
    let Ok(mut answerer) = Answerer::new(alloc, tag, moment) else {
        return Err(AskFault::Memory);
    };
    let mut answering = Answering {
        alloc,
        table,
        contexts,
        answerer: &mut answerer,
        writer,
    };
    let ended = answering.answer_lines(tag, moment, most_reads, reader);
    let Answering {
        alloc: _,
        table: _,
        contexts: _,
        answerer: _,
        writer: _,
    } = answering;
    ended
}
