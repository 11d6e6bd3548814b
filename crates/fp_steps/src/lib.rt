//! Whole runs of a link: every list of steps, in any order.
//!
//! The layer is handed tables of records, the names of the application contexts, the link and the steps, and asks the
//! system only for memory. [`run`] makes the steps on a new [`Book`](fp_book::Book), and keeps the turns and the parcel
//! that are out ([`run_with_tag`]: in a run with a tag, which is part of each identifier). Its contract speaks only of
//! the steps and their outputs: of their history, the newest first (`specs/History.antt`), of the dialogues by their
//! births (`specs/Births.antt`), and of each dialogue's entries and frames: accepted, served (`specs/Accepted.antt`),
//! requested and sent (`specs/Sending.antt`). `specs/Headline.antt` states the facts that hold at each moment.
//!
//! Each output is the answer that the history before its step determines (`specs/Answers.antt`): by the rules for
//! messages (`specs/Messages.antt`), by the turns that are out and the dialogues that are ready (`specs/Turns.antt`),
//! by the waiting frames and the places held (`specs/Waiting.antt`), and by the serials that may be given
//! (`specs/Serials.antt`). There is no token and no row in these. A dialogue is named by its birth, in log lines too;
//! steps and outputs name it by its local transaction identifier, which names the dialogue that was opened with it
//! last. At least 126,976 others are opened before the next one with it ([`identifiers_come_back_late`]). After each
//! history that leads to a book each step has an answer ([`every_step_has_an_answer`]), and only one
//! ([`answers_are_one`]). For example, a `Give` for a dialogue without a turn out is answered `Nothing`. On an idle
//! link nothing is left to do (`specs/Idle.antt`).
//!
//! A [`LinkRun`] is such a run made step by step, for a caller that doesn't know all steps at once; each of its clauses
//! speaks of every history that leads to it (`specs/After.antt`). [`lines_of`] gives the log of a run: its lines are
//! the lines of the run's steps (`specs/Told.antt`) and are in range (`specs/LogLines.antt`), and a history retells
//! them (`specs/Retold.antt`). A book logs the same line of a step, if each table has the index of its place
//! ([`books_log_what_is_told`]).
//!
//! [`totals`] uses only the outputs; a run's totals are sums over the dialogues of its history (`specs/Totals.antt`).
//!
//! Three definitions relate the book to the history: `specs/Tied.antt`, each held dialogue has the history of its
//! birth; `specs/Lined.antt`, entries and frames wait in the order of the history; and `specs/proof_only/Tokens.antt`,
//! the kept turns and the kept parcel are those that the book handed out.
#![tactic(auto)]

mod counting;
mod engine;
mod laws;
mod link_run;
mod log;
mod output;
mod parts;
mod places;
mod ranges;
mod step;
mod stepped;
mod whole_run;

pub use counting::totals;
pub use laws::{
    answers_are_one, books_log_what_is_told, equal_dialogues_send_the_same,
    every_step_has_an_answer, headline_holds_at_the_end, identifiers_come_back_late,
    lines_are_retold_once, retold_lines_are_counted, runs_are_one,
};
pub use link_run::LinkRun;
pub use log::{lines_of, lines_with_tag};
pub use output::Output;
pub use places::{handed_in, last_place};
pub use step::Step;
pub use stepped::Stepped;
pub use whole_run::{run, run_with_tag};
