//! Laws of all logs.

ghost use Rattle.fp_replay.specs.OfRuns.{LogsOfRunsAreReplayed};
ghost use Rattle.fp_replay.specs.Once.{FaultIsOne, ReplayedHasNoFault, ReportCountsLines, ReportIsOne};

use crate::texts_are_of_one_line;
use fp_steps::{answers_are_one, lines_are_retold_once, retold_lines_are_counted};

/// By the same tables and names a log has one report at most, or one fault at most, and never both. So the answer of
/// [`replay`](crate::replay) is determined by the input, unless memory runs out, a device fails or the limit on reads
/// is reached. The totals in a report are the counts in the lines of the log.
pub fn logs_have_one_report()
    ensures report { ReportIsOne }
    ensures no_fault { ReplayedHasNoFault }
    ensures fault { FaultIsOne }
    ensures counted { ReportCountsLines }
{
    texts_are_of_one_line();
    answers_are_one();
    lines_are_retold_once();
    retold_lines_are_counted();
}

/// The log of a run, as [`lines_of`](fp_steps::lines_of) returns it, its lines written one after another, is replayed
/// by the tables and names of the run: the report has the run's totals on its link, and zeros on the links before it.
pub fn logs_of_runs_are_replayed()
    ensures { LogsOfRunsAreReplayed }
{}
