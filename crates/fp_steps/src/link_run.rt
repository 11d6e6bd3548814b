//! A run of a link, step by step.

ghost use Rattle.std.specs.Prelude.{◌≡◌, ◌<◌, ◌≤◌, ℕ, List, [], None, IfOk, drop, option_to_list};
ghost use Rattle.fp_book.specs.Shelf.{Sound};
ghost use Rattle.fp_records.specs.Table.{Contents};
ghost use Rattle.fp_steps.specs.After.{Follows, IsAfter};
ghost use Rattle.fp_steps.specs.History.{Event, outputs_of};
ghost use Rattle.fp_steps.specs.proof_only.Log.{first_of, place_or, placed, step_in, tick_in, told_from};
ghost use Rattle.fp_steps.specs.Told.{written};
ghost use Rattle.fp_steps.specs.proof_only.Tokens.{IsPlace};
ghost use Rattle.fp_steps.specs.Totals.{totals_of};
ghost use Rattle.fp_steps.specs.Turns.{local_if_out};

use crate::engine::Engine;
use crate::log::{place_of, told_tick};
use crate::parts::local_in;
use crate::{Output, Step, Stepped};
use fp_apdu::Name;
use fp_book::{Book, Line, LoggedStep, Totals};
use fp_records::Table;
use fp_row::rows_keep_their_order;
use fp_tids::LocalIds;
use std::alloc::{AllocError, Global};
use std::marker::Model;

/// A run of a link, step by step: its book, and the turns and the parcel that are out. Contracts see its book. You must
/// spend it by [`LinkRun::abandon`].
#[must_use]
pub struct LinkRun {
    engine: Engine,
    // Scratch space for draining the book's log; its contents are discarded.
    lines: Vec<Line>,
}

impl Model for LinkRun {
    ghost use Rattle.std.specs.Coded.{codes, coded_ℕ};
    ghost use Rattle.std.specs.Ordering.{nat_cmp};
    ghost use Rattle.std.specs.FinMap as map;
    ghost use Rattle.fp_book.specs.Shelf.{Shelf};
    ghost use Rattle.fp_row.specs.contracts.row.Row as row_type;

    ghost Value = { Shelf };

    ghost coded = { Prim.hlevel (codes, map.code {R = nat_cmp} coded_ℕ row_type.the_row.coded) };

    ghost use Rattle.fp_steps.specs.proof_only.Tokens.{IsKept};

    ghost view = { λ run. run.engine.book };

    ghost invariant = { λ run. IsKept run.engine.turns.items run.engine.parcel run.engine.book run.lines };
}

/// The step of a line.
fn step_in(line: Line) -> Option<LoggedStep>
    ensures { result ≡ step_in line }
{
    match line {
        Line::Head { links: _, tag: _ } => None,
        Line::Step { link: _, step } => Some(step),
    }
}

/// Takes the oldest line out of the log, if there is one. `lines` has room for one line, and is empty again afterwards.
/// Takes no memory.
fn take_line(book: &mut Book, lines: &mut Vec<Line>) -> Option<LoggedStep>
    requires { IsPlace lines.old }
    ensures first { result ≡ first_of book.old.log }
    ensures log { book.new.log ≡ drop 1 book.old.log }
    ensures rest { book.new ≡ record book.old { log = book.new.log } }
    ensures sound { Sound book.new }
    ensures place { IsPlace lines.new }
{
    book.drain(lines);
    let line = lines.pop()?;
    step_in(line)
}

/// Drops all lines of the log, so that it neither fills nor keeps frames. `lines` has room for one line, and is empty
/// again afterwards. Takes no memory.
fn empty_log(book: &mut Book, lines: &mut Vec<Line>)
    requires sound { Sound book.old }
    requires place { IsPlace lines.old }
    ensures log { book.new.log ≡ [] }
    ensures rest { book.new ≡ record book.old { log = book.new.log } }
    ensures sound { Sound book.new }
    ensures place { IsPlace lines.new }
{
    while book.line_count() > 0 {
        drop(take_line(book, lines));
    }
}

/// The line of a tick that found no dialogue due. No book logs it.
fn tick_in(step: &Step, output: &Output) -> Option<LoggedStep>
    ensures { result ≡ tick_in step.now output.now }
{
    match output {
        Output::Ticked { added, wanting } => told_tick(step, *added, *wanting),
        _ => None,
    }
}

/// The place of the step's table in the list passed in, 0 to 65,535; `index` if the step has none.
fn place_or(step: &Step, index: u16) -> u16
    ensures { result ≡ place_or step.now index }
{
    match step {
        Step::Post { table, .. } => place_of(*table, Table::LAST_INDEX).unwrap_or(index),
        _ => index,
    }
}

/// The book's line of a step, with the place of its table in the list passed in.
fn placed(step: &Step, line: LoggedStep) -> LoggedStep
    ensures { result ≡ placed step.now line }
{
    match line {
        LoggedStep::Post {
            table,
            moment,
            message,
            answer,
        } => LoggedStep::Post {
            table: place_or(step, table),
            moment,
            message,
            answer,
        },
        other => other,
    }
}

/// The line of a step, given the line that its book has of it.
fn told_from(line: Option<LoggedStep>, step: &Step, output: &Output) -> Option<LoggedStep>
    ensures { result ≡ told_from (option_to_list line) step.now output.now }
{
    match line {
        Some(line) => Some(placed(step, line)),
        None => tick_in(step, output),
    }
}

impl LinkRun {
    /// The run of a link, 0 to 7, with this tag, 0 to 4,094, without steps yet. A run without a tag has 0. `Err`:
    /// memory ran out.
    pub fn new(alloc: Global, link: u8, tag: u16) -> Result<LinkRun, AllocError>
        requires links { link < LocalIds.LINKS }
        requires tags { tag ≤ LocalIds.LAST_TAG }
        ensures link { IfOk result (λ run. run.link ≡ link) }
        ensures tag { IfOk result (λ run. run.tag ≡ tag) }
        ensures after { IfOk result (λ run. (tables : List Contents) (contexts : List (List ℕ)) → IsAfter tables contexts [] run) }
    {
        rows_keep_their_order();
        let lines = Vec::with_capacity(alloc, 1)?;
        let engine = Engine::new(alloc, link, tag)?;
        Ok(LinkRun { engine, lines })
    }

    /// Makes a step, by these tables and names of application contexts: its answer, and its line in the log of the
    /// link. You pass the tables that the run has, by its tag ([`handed_in`](crate::handed_in)). If a step is
    /// impossible, the answer is `Nothing`. A step without a line in a log changes nothing. `Err`: memory ran out, and
    /// no clause speaks of the run after that: you must abandon it.
    pub fn step(
        &mut self,
        alloc: Global,
        tables: &[Table],
        contexts: &[Name],
        step: &Step,
    ) -> Result<Stepped, AllocError>
        ensures link { IfOk result (λ made. self.new.link ≡ self.old.link) }
        ensures tag { IfOk result (λ made. self.new.tag ≡ self.old.tag) }
        ensures follows { IfOk result (λ made. (h : List Event) → IsAfter tables.now contexts.now h self.old → Follows tables.now contexts.now h step.now made self.new) }
        ensures unwritten { IfOk result (λ made. written made.line ≡ None → self.new ≡ record self.old { log = self.new.log }) }
    {
        rows_keep_their_order();
        let made = self.engine.make(alloc, tables, contexts, step);
        let first = take_line(&mut self.engine.book, &mut self.lines);
        empty_log(&mut self.engine.book, &mut self.lines);
        let output = made?;
        let line = told_from(first, step, &output);
        Ok(Stepped { output, line })
    }

    /// The local transaction identifier of the dialogue with this birth, if a turn of it is out. Takes no memory.
    pub fn local_of(&self, birth: u64) -> Option<u32>
        ensures { (tables : List Contents) (contexts : List (List ℕ)) (h : List Event) → IsAfter tables contexts h self.now → result ≡ local_if_out h birth }
    {
        rows_keep_their_order();
        local_in(&self.engine.turns, birth)
    }

    /// The totals so far: the components that were accepted, the entries that were served, and the frames of dialogues
    /// that were sent. Takes no memory.
    pub fn totals(&self) -> Totals
        ensures { (tables : List Contents) (contexts : List (List ℕ)) (h : List Event) → IsAfter tables contexts h self.now → result ≡ totals_of (outputs_of h) }
    {
        self.engine.book.totals()
    }

    /// Spends the run, with the turns and the parcel that are out.
    pub fn abandon(self) {
        let LinkRun { engine, lines: _ } = self;
        engine.abandon();
    }
}
