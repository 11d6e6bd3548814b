//! The lines of an input, each answered before the next one is taken.

ghost use Rattle.std.specs.Prelude.{◌≡◌, IfErr, IfSome, MatchResult, OnOk};
ghost use Rattle.std.specs.Io.KnownBytes.{IsAtEnd};
ghost use Rattle.fp_ask.specs.proof_only.Answering.{IsAt, RefusesOne, TakesOne, seen};
ghost use Rattle.fp_ask.specs.Asked.{AnswersAll, Stops, cause_of};
ghost use Rattle.fp_ask.specs.Lines.{at_start};
ghost use Rattle.fp_streams.specs.Ends.{CountsReads, CountsWrites, Reads};
ghost use Rattle.fp_tids.specs.Identifiers.{base_of};

use crate::AskFault;
use crate::answerer::Answerer;
use crate::line::MOST;
use crate::output::write_frames;
use crate::refusal::{Refusal, asked, is_write_fault};
use fp_apdu::Name;
use fp_digits::Moment;
use fp_records::Table;
use fp_streams::{LinkRead, LinkWrite, TakesLine, follow_lines, line_feeds_end_lines};
use std::alloc::Global;

/// A link, the records and names that its lines are answered from, and the writer of the answers.
pub(crate) struct Answering<'a, W> {
    pub(crate) alloc: Global,
    pub(crate) table: &'a Table,
    pub(crate) contexts: &'a [Name],
    pub(crate) answerer: &'a mut Answerer,
    pub(crate) writer: &'a mut W,
}

impl<W: LinkWrite> TakesLine for Answering<'_, W> {
    type Fault = Refusal;

    ghost takes = { λ old has_line_feed line new.
        TakesOne (seen W.contents W.failures old) line (seen W.contents W.failures new) };

    ghost refuses = { λ old has_line_feed line refusal new.
        RefusesOne (seen W.contents W.failures old) line refusal (seen W.contents W.failures new) };

    /// Writes the frames that are sent for a line. They are flushed if no line that was read already follows, or if the
    /// line is refused. A line that is too long follows none: one within a read is shorter than [`MOST`].
    fn take_line(
        &mut self,
        line: &[u8],
        _has_line_feed: bool,
        is_followed: bool,
    ) -> Result<(), Refusal> {
        let answered = self.answer(line);
        if is_write_fault(&answered) || (is_followed && answered.is_ok()) {
            return answered;
        }
        match self.writer.flush() {
            Ok(()) => answered,
            Err(_) => Err(Refusal::WriteFault),
        }
    }
}

impl<W: LinkWrite> Answering<'_, W> {
    /// Writes the frames that are sent for a line.
    fn answer(&mut self, line: &[u8]) -> Result<(), Refusal>
        ensures { MatchResult result
            (λ _. TakesOne (seen W.contents W.failures self.old) line.now (seen W.contents W.failures self.new))
            (λ refusal. RefusesOne (seen W.contents W.failures self.old) line.now refusal
            (seen W.contents W.failures self.new)) }
    {
        let taken = self
            .answerer
            .take_line(self.alloc, self.table, self.contexts, line)?;
        let Some(frames) = taken else {
            return Err(Refusal::BadLine);
        };
        write_frames(self.alloc, frames.as_slice(), self.writer)
    }

    /// Answers each line of an unread input, on a link without messages before this moment, in a run with this tag.
    pub(crate) fn answer_lines<R: LinkRead>(
        &mut self,
        tag: u16,
        moment: Moment,
        most_reads: u64,
        reader: &mut R,
    ) -> Result<(), AskFault>
        requires at { IsAt (at_start (base_of 0 tag) moment) self.old.answerer.now }
        ensures same_writer { self.new.writer.ghost_name ≡ self.old.writer.ghost_name }
        ensures end { OnOk result (IsAtEnd (R.remaining reader.new)) }
        ensures answered { OnOk result (IfSome (R.remaining reader.old)
            (AnswersAll self.old.table.now self.old.contexts.now (at_start (base_of 0 tag) moment)
            (W.contents self.old.writer.now) (W.contents self.new.writer.now))) }
        ensures stopped { IfErr result (Stops self.old.table.now self.old.contexts.now (at_start (base_of 0 tag) moment)
            (R.remaining reader.old) (R.remaining reader.new)
            (W.contents self.old.writer.now) (W.contents self.new.writer.now)) }
        ensures within { Reads cause_of most_reads (R.remaining reader.old) (R.remaining reader.new)
            (R.pieces reader.old) (R.pieces reader.new) result }
        ensures reads { CountsReads cause_of result (R.failures reader.old) (R.failures reader.new) }
        ensures writes { CountsWrites cause_of result
            (W.failures self.old.writer.now) (W.failures self.new.writer.now) }
    {
        line_feeds_end_lines();
        asked(follow_lines(self.alloc, MOST, most_reads, reader, self))
    }
}
