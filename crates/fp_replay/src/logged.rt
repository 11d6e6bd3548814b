//! The step of a log line.

ghost use Rattle.std.specs.Prelude.{◌≡◌, ◌↔◌, ℕ, List, IfOk, IsTrue};
ghost use Rattle.fp_records.specs.Table.{Contents};
ghost use Rattle.fp_replay.specs.Replayed.{HasTable};
ghost use Rattle.fp_replay.specs.Stopped.{is_gap};
ghost use Rattle.fp_steps.specs.After.{IsAfter};
ghost use Rattle.fp_steps.specs.History.{Event};
ghost use Rattle.fp_steps.specs.Retold.{step_of};

use fp_book::LoggedStep;
use fp_records::Table;
use fp_steps::{LinkRun, Step};
use std::alloc::AllocError;

/// Whether a line says that lines were lost, or that memory ran out for a Clock.
pub(crate) fn is_gap(line: &LoggedStep) -> bool
    ensures { result ≡ is_gap line.now }
{
    match line {
        LoggedStep::Gap { .. } => true,
        LoggedStep::Tick { wanting, .. } => *wanting > 0,
        _ => false,
    }
}

/// Whether this list has the table that a line's message was read with.
pub(crate) fn has_table(tables: &[Table], line: &LoggedStep) -> bool
    ensures { IsTrue result ↔ HasTable tables.now line.now }
{
    match line {
        LoggedStep::Post { table, .. } => usize::from(*table) < tables.len(),
        _ => true,
    }
}

/// The step of a line, on the run of its link: `None` for lost lines, and for a turn that is given or put back and
/// isn't out. A message is shared, not copied.
pub(crate) fn step_of(run: &LinkRun, line: &LoggedStep) -> Result<Option<Step>, AllocError>
    ensures { IfOk result (λ step. (tables : List Contents) (contexts : List (List ℕ)) (h : List Event)
        → IsAfter tables contexts h run.now → step ≡ step_of h line.now) }
{
    match line {
        LoggedStep::Post {
            table,
            moment,
            message,
            ..
        } => Ok(Some(Step::Post {
            table: usize::from(*table),
            frame: message.try_clone()?,
            moment: *moment,
        })),
        LoggedStep::Lost {
            moment,
            message,
            ..
        } => Ok(Some(Step::Lost(message.try_clone()?, *moment))),
        LoggedStep::Tick { moment, .. } => Ok(Some(Step::Tick(*moment))),
        LoggedStep::Take { .. } => Ok(Some(Step::Take)),
        LoggedStep::Give { birth, .. } => {
            let Some(local) = run.local_of(*birth) else {
                return Ok(None);
            };
            Ok(Some(Step::Give(local)))
        }
        LoggedStep::PutBack { birth, .. } => {
            let Some(local) = run.local_of(*birth) else {
                return Ok(None);
            };
            Ok(Some(Step::PutBack(local)))
        }
        LoggedStep::Pick { .. } => Ok(Some(Step::Pick)),
        LoggedStep::Sent { .. } => Ok(Some(Step::Sent)),
        LoggedStep::Unsent { .. } => Ok(Some(Step::Unsent)),
        LoggedStep::Down => Ok(Some(Step::Down)),
        LoggedStep::Gap { .. } => Ok(None),
    }
}
