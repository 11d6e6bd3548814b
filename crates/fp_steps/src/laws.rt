//! Laws of all runs.

ghost use Rattle.fp_steps.specs.Laws.{AnswersAreOne, AnswersExist, BooksLogWhatIsTold, HeadlineHolds, IdentifiersComeBackLate, LinesAreRetoldOnce, RetoldLinesAreCounted, RunsAreOne, SentAlike};

use fp_entry::prepared_is_one;

/// If a dialogue has the same birth in two runs, began in both with the same identifiers and at the same moment, and
/// accepted the same entries, the frames sent for it in one of them are a prefix of the frames sent in the other,
/// whatever the order of their steps.
#[tactic(auto, using(crate::proofs::SentAlike::sent_alike))]
pub fn equal_dialogues_send_the_same()
    ensures { SentAlike }
{}

/// The statements about each dialogue at each moment of a run hold for its whole history. So the dialogues of two runs
/// are in order, and [`equal_dialogues_send_the_same`] compares them.
pub fn headline_holds_at_the_end()
    ensures { HeadlineHolds }
{}

/// After a history a step has one answer, and so one log line.
#[tactic(auto, using(crate::proofs::OneAnswer::answers_one))]
pub fn answers_are_one()
    ensures { AnswersAreOne }
{
    prepared_is_one();
}

/// After each history that leads to a book, each step has an answer, whatever the preparation of its message gives; by
/// [`answers_are_one`] it has no other. This law doesn't say that every frame is prepared: `Prepared::read` of
/// `fp_entry` prepares it, unless memory runs out.
pub fn every_step_has_an_answer()
    ensures { AnswersExist }
{}

/// An identifier is given again late: between two dialogues of a run that are opened with one local transaction
/// identifier at least 126,976 others are opened, since of 131,072 serials at most 4,096 belong to held dialogues.
pub fn identifiers_come_back_late()
    ensures { IdentifiersComeBackLate }
{}

/// A list of steps has one list of outputs and one history, by the same tables and names, on the same link: the event
/// of each step has the same message and the same output, whichever run makes the steps.
pub fn runs_are_one()
    ensures { RunsAreOne }
{
    prepared_is_one();
}

/// Two histories that retell the same lines of a log, by the same tables and names, are equal.
#[tactic(auto, using(crate::proofs::OneAnswer::retold_once))]
pub fn lines_are_retold_once()
    ensures { LinesAreRetoldOnce }
{
    prepared_is_one();
}

/// The totals of a history that retells the lines of a log are the counts in those lines: the components of the
/// messages that were accepted, the entries that were served, and the frames of dialogues that were sent.
#[tactic(auto, using(crate::proofs::LogTotals::retold_counted))]
pub fn retold_lines_are_counted()
    ensures { RetoldLinesAreCounted }
{}

/// If each table has the index of its place in the list, a book that a history leads to logs the line of a step that
/// the history determines, and nothing if the step has no line. If the log is full, it counts the step in a gap.
#[tactic(auto, using(crate::proofs::BookLog::log_tells))]
pub fn books_log_what_is_told()
    ensures { BooksLogWhatIsTold }
{}
