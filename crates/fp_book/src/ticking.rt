//! The clock of a book.

ghost use Rattle.std.specs.Prelude.{◌≡◌, ◌≤◌, ◌+◌, nat_eq, if◌then◌else◌};
ghost use Rattle.std.specs.FinMap.{len};
ghost use Rattle.fp_book.specs.declared.line.LoggedStep.TheVariants as line;
ghost use Rattle.fp_book.specs.Calls.{Ticks};
ghost use Rattle.fp_book.specs.proof_only.Clocking.{AreAgreed, Clocking, ClocksIf, due_now};
ghost use Rattle.fp_book.specs.Limits.{most_dialogues};
ghost use Rattle.fp_book.specs.Log.{logged};
ghost use Rattle.fp_book.specs.Shelf.{Sound};
ghost use Rattle.fp_book.specs.Totals.{sum_of};
ghost use Rattle.fp_book.specs.proof_only.Views.{AreTimed};

use crate::serving::join;
use crate::{Book, Log, LoggedStep, ReadyQueue, Ticked, clocks_keep_a_book_sound, dialogues};
use fp_digits::Moment;
use fp_row::Rows;
use fp_timers::{Deadlines, Timer};

/// The number of consecutive refusals after which a tick ends.
const MOST_REFUSALS: u32 = 8;

/// The outcome for the first dialogue that is due after another.
#[derive(Clone, Copy, Debug)]
pub(crate) enum Clocked {
    /// The dialogue is given a Clock.
    Given,
    /// No dialogue is due.
    NoneDue,
    /// The deadline of a dialogue for whose Clock memory ran out.
    OutOfMemory(Timer),
}

/// Gives a Clock to the first dialogue that is due at a moment and whose deadline is after `last`, the first of all for
/// `None`: the one with the earliest deadline, and with the smallest identifier among those. If none is due, or memory
/// runs out, nothing changes.
fn clock_next(
    rows: &mut Rows,
    deadlines: &mut Deadlines,
    ready: &mut ReadyQueue,
    last: Option<Timer>,
    moment: Moment,
) -> Clocked
    requires { AreAgreed rows.old deadlines.old ready.old }
    ensures clocks { ClocksIf result last moment rows.old deadlines.old ready.old rows.new deadlines.new ready.new }
{
    let Some(timer) = deadlines.due_after(last, moment) else {
        return Clocked::NoneDue;
    };
    let Ok(joins) = dialogues::clock(rows, timer.local, moment) else {
        return Clocked::OutOfMemory(timer);
    };
    deadlines.clear(timer.local);
    join(ready, timer.local, joins);
    Clocked::Given
}

/// Gives each dialogue that is due at a moment a Clock, in the order of their deadlines, equal ones in the order of
/// their identifiers. If memory runs out for one, it is left out. After [`MOST_REFUSALS`] of these in a row, all later
/// ones are left out. Returns how many were given a Clock.
fn clock_each(
    rows: &mut Rows,
    deadlines: &mut Deadlines,
    ready: &mut ReadyQueue,
    moment: Moment,
) -> u32
    requires { AreAgreed rows.old deadlines.old ready.old }
    ensures { Clocking moment rows.old ready.old rows.new deadlines.new ready.new result }
{
    let mut added: u32 = 0;
    let mut refusals: u32 = 0;
    let mut last = None;
    while refusals < MOST_REFUSALS {
        match clock_next(rows, deadlines, ready, last, moment) {
            Clocked::Given => {
                added += 1;
                refusals = 0;
            }
            Clocked::NoneDue => return added,
            Clocked::OutOfMemory(timer) => {
                refusals += 1;
                last = Some(timer);
            }
        }
    }
    added
}

/// How many dialogues are due at a moment. If no deadline is due, the answer is 0, and the dialogues aren't gone
/// through.
fn due_count(rows: &Rows, deadlines: &Deadlines, moment: Moment) -> u32
    requires timed { AreTimed deadlines.now rows.now }
    requires held { len rows.now ≤ most_dialogues }
    ensures { result ≡ sum_of (due_now moment) rows.now }
{
    match deadlines.due(moment) {
        Some(_) => rows.count_due(moment) as u32,
        None => 0,
    }
}

/// Gives each dialogue that is due at a moment a Clock, and counts these and those left out.
fn clock_all(
    rows: &mut Rows,
    deadlines: &mut Deadlines,
    ready: &mut ReadyQueue,
    moment: Moment,
) -> Ticked
    requires { AreAgreed rows.old deadlines.old ready.old }
    ensures clocks { Clocking moment rows.old ready.old rows.new deadlines.new ready.new result.added }
    ensures wanting { result.wanting ≡ sum_of (due_now moment) rows.new }
{
    let added = clock_each(rows, deadlines, ready, moment);
    let wanting = due_count(rows, deadlines, moment);
    Ticked { added, wanting }
}

/// Logs a tick that found a dialogue due.
fn log_tick(log: &mut Log, moment: Moment, ticked: Ticked)
    ensures { log.new ≡ (if nat_eq (ticked.added + ticked.wanting) 0 then log.old else logged log.old (line.Tick moment ticked.added ticked.wanting)) }
{
    let Ticked { added, wanting } = ticked;
    if added > 0 || wanting > 0 {
        log.add(LoggedStep::Tick {
            moment,
            added,
            wanting,
        });
    }
}

impl Book {
    /// Advances the clock: each dialogue whose deadline is at or before this moment is given a Clock, in the order of
    /// their deadlines, equal ones in the order of their identifiers. If memory runs out for one, it is left out and
    /// stays due, and the tick goes on to the next. After eight of these in a row, all later ones are left out, too. No
    /// dialogue is given a Clock once the link accepted [`Book::ALL_ENTRIES`].
    pub fn tick(&mut self, moment: Moment) -> Ticked
        ensures ticks { Ticks self.old moment result.added result.wanting self.new }
        ensures sound { Sound self.new }
    {
        clocks_keep_a_book_sound();
        if self.is_full() {
            return Ticked {
                added: 0,
                wanting: 0,
            };
        }
        let ticked = clock_all(&mut self.rows, &mut self.deadlines, &mut self.ready, moment);
        self.entries += u64::from(ticked.added);
        log_tick(&mut self.log, moment, ticked);
        ticked
    }
}
