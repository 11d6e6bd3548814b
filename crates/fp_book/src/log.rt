//! The log of a link.

ghost use Rattle.std.specs.Prelude.{◌≡◌, ◌-◌, ◌≤◌, [], IfOk, length, vec_capacity, vec_len};
ghost use Rattle.std.specs.Slice.{IsItemAt};
ghost use Rattle.std.specs.VecDeque.{deque_capacity};
ghost use Rattle.fp_book.specs.Log.{Drains, gap_at_end, logged, lose, lost_in};

use crate::{Line, LoggedStep};
use std::alloc::{AllocError, Global};
use std::collections::VecDeque;
use std::marker::Model;
use std::mem;

/// The steps of a link that weren't drained yet, the oldest first, at most [`Log::MOST`]. Only a gap can be in the last
/// place; it counts the steps that found no place. Contracts see their list.
#[derive(Debug, Drop)]
pub struct Log {
    steps: VecDeque<LoggedStep>,
}

impl Model for Log {
    ghost use Rattle.std.specs.Prelude.{List};
    ghost use Rattle.std.specs.VecDeque.{deque_capacity};
    ghost use Rattle.fp_book.specs.declared.line.LoggedStep.{LoggedStep};

    ghost Value = { List LoggedStep };

    ghost use Rattle.fp_book.specs.Log.{IsKept};

    ghost view = { λ log. log.steps.items };

    ghost invariant = { λ log. IsKept log.steps.items (deque_capacity log.steps) };
}

impl Log {
    /// The most steps in a log, including a gap in the last place.
    pub const MOST: usize = 8192;

    /// A log without steps. Reserves memory for [`Log::MOST`] of them.
    pub fn new(alloc: Global) -> Result<Log, AllocError>
        ensures { IfOk result (λ log. log ≡ []) }
    {
        Ok(Log {
            steps: VecDeque::with_capacity(alloc, Self::MOST)?,
        })
    }

    /// The number of steps, at most [`Log::MOST`].
    pub fn len(&self) -> usize
        ensures count { result ≡ length self.now }
        ensures most { result ≤ Self.MOST }
    {
        self.steps.len()
    }

    /// Puts a step after the others. If only the last place is left, the step is counted in the gap there instead. A
    /// gap begins at 1 and stays at 2^64 - 1. Takes no memory.
    #[inline(always)]
    pub fn add(&mut self, step: LoggedStep)
        ensures { self.new ≡ logged self.old step }
    {
        if self.steps.len() < Self::MOST - 1 {
            self.steps.push_back_reserved(step);
        } else {
            self.lose();
        }
    }

    /// Moves the oldest steps to the end of `lines`, as lines of this link, 0 to 7, as many as `lines` has room for.
    /// The remaining steps keep their order. Takes no memory.
    pub fn drain(&mut self, link: u8, lines: &mut Vec<Line>)
        ensures drains { Drains link self.old lines.old.items (vec_capacity lines.old - vec_len lines.old) self.new lines.new.items }
        ensures capacity { vec_capacity lines.new ≡ vec_capacity lines.old }
    {
        move_steps(&mut self.steps, link, lines);
    }

    /// The step in this place, the oldest in place 0. `None` if there are fewer.
    pub fn get(&self, place: usize) -> Option<&LoggedStep>
        ensures item { IsItemAt self.now place result }
    {
        self.steps.get(place)
    }

    /// Drops all steps. Keeps the memory for others.
    pub fn clear(&mut self)
        ensures { self.new ≡ [] }
    {
        self.steps.clear();
    }

    /// Exchanges the steps with another log. Takes no memory, and frees none.
    pub fn exchange(&mut self, other: &mut Log)
        ensures here { self.new ≡ other.old }
        ensures there { other.new ≡ self.old }
        ensures most { length self.old ≤ Self.MOST }
    {
        mem::swap(&mut self.steps, &mut other.steps);
    }

    /// Counts a step as lost, in the gap that is last, or in a new one. Takes no memory.
    #[inline(never)]
    fn lose(&mut self)
        ensures { self.new ≡ lose self.old }
    {
        let lost = match self.last_gap() {
            Some(lost) => {
                drop(self.steps.pop_back());
                lost.saturating_add(1)
            }
            None => 1,
        };
        self.steps.push_back_reserved(LoggedStep::Gap { lost });
    }

    /// How many steps the last gap counts, if the log ends with one.
    fn last_gap(&self) -> Option<u64>
        ensures { result ≡ gap_at_end self.now }
    {
        lost_in(self.steps.back()?)
    }
}

/// The number of steps that a gap counts, and `None` for any other step.
fn lost_in(step: &LoggedStep) -> Option<u64>
    ensures { result ≡ lost_in step.now }
{
    match step {
        LoggedStep::Gap { lost } => Some(*lost),
        _ => None,
    }
}

/// Moves the oldest steps to the end of `lines`, as lines of this link, as many as `lines` has room for.
fn move_steps(steps: &mut VecDeque<LoggedStep>, link: u8, lines: &mut Vec<Line>)
    ensures drains { Drains link steps.old.items lines.old.items (vec_capacity lines.old - vec_len lines.old) steps.new.items lines.new.items }
    ensures places { deque_capacity steps.new ≡ deque_capacity steps.old }
    ensures capacity { vec_capacity lines.new ≡ vec_capacity lines.old }
{
    let room = lines.capacity() - lines.len();
    for _moved in 0..room.min(steps.len()) {
        if let Some(step) = steps.pop_front() {
            lines.push_reserved(Line::Step { link, step });
        }
    }
}
