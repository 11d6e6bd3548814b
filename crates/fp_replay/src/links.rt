//! The links of a log, each with the run that its steps are replayed on.

ghost use Rattle.std.specs.Prelude.{◌≡◌, ◌<◌, ◌≤◌, ℕ, [], IfErr, IfOk, List, OnOk, length, string_bytes};
ghost use Rattle.fp_book.specs.declared.line.Line.TheVariants as lines;
ghost use Rattle.fp_records.specs.Table.{Contents};
ghost use Rattle.fp_replay.specs.proof_only.Making.{AreNew, AreNone, IsReport, IsUnreported, Taking, TakingText};

use crate::line::line_in;
use crate::logged::{has_table, is_gap, step_of};
use crate::replay_fault::Refusal;
use crate::report::report_line;
use crate::same_line::is_told;
use crate::{LineFault, ReplayFault, texts_are_of_one_line};
use fp_apdu::Name;
use fp_book::{Line, LoggedStep};
use fp_records::Table;
use fp_steps::{LinkRun, handed_in};
use fp_tids::LocalIds;
use std::alloc::{AllocError, Global};

/// The runs of the links that the head of a log names, in their order. You must spend them by [`Links::abandon`].
pub(crate) struct Links {
    // The tag of the head, 0 before it was read.
    tag: u16,
    runs: Vec<LinkRun>,
}

impl Links {
    /// No links yet: the head wasn't read.
    pub(crate) fn new(alloc: Global) -> Links
        ensures { AreNone result }
    {
        Links {
            tag: 0,
            runs: Vec::new(alloc),
        }
    }

    /// Takes the text of a line, without its line feed: the head, or a step of a link, which is replayed.
    pub(crate) fn take_line(
        &mut self,
        alloc: Global,
        tables: &[Table],
        contexts: &[Name],
        text: &[u8],
    ) -> Result<(), Refusal>
        ensures { TakingText tables.now contexts.now self.old text.now result self.new }
    {
        texts_are_of_one_line();
        let line = match line_in(alloc, text) {
            Ok(line) => line,
            Err(LineFault::BadLine) => return Err(Refusal::BadLine),
            Err(LineFault::Memory) => return Err(Refusal::Memory),
        };
        match line {
            Line::Head { links, tag } => self.begin(alloc, links, tag),
            Line::Step { link, step } => self.make_again(alloc, tables, contexts, link, &step),
        }
    }

    /// Begins this number of links, 1 to 8, in a run with this tag: the head was read.
    fn begin(&mut self, alloc: Global, links: u8, tag: u16) -> Result<(), Refusal>
        requires most { links ≤ LocalIds.LINKS }
        requires tags { tag ≤ LocalIds.LAST_TAG }
        ensures { (tables : List Contents) (contexts : List (List ℕ))
            → Taking tables contexts self.old (lines.Head links tag) result self.new }
    {
        if !self.runs.is_empty() {
            return Err(Refusal::BadLine);
        }
        begin_all(alloc, links, tag, &mut self.runs)?;
        self.tag = tag;
        Ok(())
    }

    /// Replays the step of a line on its link, with the tables among these that the run has, and compares the resulting
    /// line. A line that gives or puts back a turn that isn't out has no step, and disagrees.
    fn make_again(
        &mut self,
        alloc: Global,
        tables: &[Table],
        contexts: &[Name],
        link: u8,
        line: &LoggedStep,
    ) -> Result<(), Refusal>
        ensures { Taking tables.now contexts.now self.old (lines.Step link line.now) result self.new }
    {
        let index = usize::from(link);
        if index >= self.runs.len() {
            return Err(Refusal::BadLine);
        }
        let tables = handed_in(self.tag, tables);
        if !has_table(tables, line) {
            return Err(Refusal::BadLine);
        }
        if is_gap(line) {
            return Err(Refusal::Gap);
        }
        let run = &mut self.runs[index];
        let Some(step) = step_of(run, line)? else {
            return Err(Refusal::Disagrees);
        };
        let made = run.step(alloc, tables, contexts, &step)?;
        if !is_told(&made.line, line) {
            return Err(Refusal::Disagrees);
        }
        Ok(())
    }

    /// The report after the last line of a log: a line for each link, in their order. A log without a head is a fault.
    pub(crate) fn report(&self, alloc: Global) -> Result<String, ReplayFault>
        ensures some { OnOk result (0 < length self.now.runs.items) }
        ensures report { IfOk result (λ report. IsReport self.now.runs.items (string_bytes report)) }
        ensures fault { IfErr result (IsUnreported self.now.runs.items) }
    {
        if self.runs.is_empty() {
            return Err(ReplayFault::BadLine(1));
        }
        Ok(self.lines(alloc)?)
    }

    /// The line of each link in the report, in their order.
    fn lines(&self, alloc: Global) -> Result<String, AllocError>
        ensures { IfOk result (λ lines. IsReport self.now.runs.items (string_bytes lines)) }
    {
        let mut lines = String::new(alloc);
        for (link, run) in self.runs.iter().enumerate() {
            let line = report_line(alloc, link, run.totals())?;
            lines.push_str(line.as_str())?;
        }
        Ok(lines)
    }

    /// Spends the runs, and the tokens that are out in them.
    pub(crate) fn abandon(self) {
        let Links { tag: _, mut runs } = self;
        while let Some(run) = runs.pop() {
            run.abandon();
        }
        runs.destroy_empty();
    }
}

/// Puts runs of this number of links, at most 8, with this tag, without steps yet, into an empty list.
fn begin_all(alloc: Global, links: u8, tag: u16, runs: &mut Vec<LinkRun>) -> Result<(), AllocError>
    requires most { links ≤ LocalIds.LINKS }
    requires tags { tag ≤ LocalIds.LAST_TAG }
    requires none { runs.old.items ≡ [] }
    ensures { OnOk result (AreNew links tag runs.new.items) }
{
    for link in 0..links {
        let run = LinkRun::new(alloc, link, tag)?;
        if let Err(failed) = runs.push(run) {
            failed.value.abandon();
            return Err(AllocError);
        }
    }
    Ok(())
}
