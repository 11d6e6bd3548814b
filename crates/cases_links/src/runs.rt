//! Whole runs of a link: what each of its steps answers.
//!
//! A case `run LINK: STEP; STEP; ..` makes its steps one after another on this link, and begins at noon. In a case
//! `run LINK/TAG: STEP; STEP; ..` the run has this tag, from 1 to 4094, and else none, which is the tag 0. A step about a
//! turn names its dialogue, by the local identifier in eight hexadecimal digits; one about a parcel is about the one
//! that is out. A step that is impossible answers `nothing`.
//!
//! What became of a message is a letter, and how many components were accepted. `O` and the local identifier: a
//! dialogue was opened. `A` and a number: this number of entries was accepted. `X` and a cause: an Abort of the
//! provider waits to be sent. `E`: a dialogue was ended, and nothing is sent. `D`: discarded. Of the requests of a
//! turn: `Q` and a number if the frames of this number wait to be sent, `S` if there is none, and `D` and a number if
//! they aren't accepted.
//!
//! | Step | What it answers |
//! |---|---|
//! | `post HEX` | a message came: `O`, `A`, `X`, `E` or `D`, and how many components were accepted |
//! | `post-by TABLE HEX` | the same, and it is read by the records of this place: 0 for the first, 1 for the second |
//! | `lost HEX` | a message came, and memory ran out when it was read: the same |
//! | `tick` | `ticked`, how many dialogues were given a Clock, and how many were left since memory ran out |
//! | `take` | `took`, the dialogue, the place of the first entry and how many there are, or `nothing`, or `no room` |
//! | `give LOCAL` | its turn is served and given back: `gave`, the dialogue, the place, how many entries were served, and |
//! | | `S`, `Q` or `D` |
//! | `put-back LOCAL` | its turn is put back, not served: `back` |
//! | `pick` | `picked`, the dialogue and the octets of what is sent next, or `nothing`, or `busy` |
//! | `sent`, `unsent` | the parcel was sent, or wasn't: the same word |
//! | `down` | the link is gone: `down` |
//!
//! These aren't steps of the run:
//!
//! | Word | What it answers |
//! |---|---|
//! | `at MS` | from now on it is MS milliseconds after noon: the same number |
//! | `totals` | what the outputs before it come to |
//!
//! And these are many steps each:
//!
//! | Word | What it answers |
//! |---|---|
//! | `posts COUNT HEX` | COUNT times `post`: the number, the first answer and the last; all have the same letter |
//! | `rounds COUNT TURNS LOCAL HEX` | COUNT times `post`, and after each TURNS times `take` and `give`: the last answer |
//! | `calls COUNT SERIAL HEX` | COUNT times a Begin, its turn and its frame, the first with this serial of a local |
//! | | identifier and each with the next one, 1 after 131,072: what the steps of the last one answer, with `, ` between |
//! | | them |
//!
//! A case `random SEED RUNS STEPS` makes RUNS runs of STEPS steps each, or a few more, drawn from this seed, and checks
//! what each output must be after those before it, which births the log of each run has, and that the log replays to
//! the totals of the run. It answers how many runs there were, how many steps of each kind, how many outputs of each
//! kind, and how many Rejects were compared with an earlier one of their dialogue; or what is wrong with the first run
//! that is wrong. Its steps are those of `drawn.rt`, and its checks those of `watch.rt` and `log.rt`.
//!
//! A case `random-after CALLS SEED RUNS STEPS` does so after CALLS calls in each run, none of which is open any more: of
//! these steps it answers nothing, and no log is replayed. So local identifiers come again.
//!
//! In both cases a tag may follow STEPS: each run has it then. Some messages are aimed at the same serial of another tag,
//! or of none.

mod drawn;
mod draws;
mod kinds;
mod log;
mod making;
mod octets;
mod random;
mod seen;
mod templates;
mod texts;
mod watch;

use crate::numbering::{LAST_TAG, LINKS, Numbering, numbering_of};
use cases::Answer;
use fp_records::Table;
use fp_steps::{Output, Step};
use making::Making;
pub(crate) use random::{answer as answer_random, answer_after as answer_random_after};
use std::alloc::Global;

/// The outputs of these steps of a run; none if memory runs out, or if there is no such link or tag, which is a fault of
/// the answer.
pub(crate) fn outputs_of(
    alloc: Global,
    tables: &[Table],
    numbering: Numbering,
    steps: &[Step],
    out: &mut Answer,
) -> Vec<Output> {
    let Numbering { link, tag } = numbering;
    if link >= LINKS || tag > LAST_TAG {
        out.fail("no link, or no tag");
        return Vec::new(alloc);
    }
    match fp_steps::run_with_tag(alloc, tables, &[], link, tag, steps) {
        Ok(outputs) => outputs,
        Err(_) => {
            out.run_out();
            Vec::new(alloc)
        }
    }
}

/// The steps of a script.
pub(crate) fn steps_of(
    alloc: Global,
    numbering: Numbering,
    script: &str,
    out: &mut Answer,
) -> Vec<Step> {
    let mut making = Making::new(alloc, numbering);
    making.add_script(script, out);
    making.steps
}

/// Writes what the steps of a case answer.
pub(crate) fn answer(alloc: Global, tables: &[Table], case: &str, out: &mut Answer) {
    let Some((numbering, script)) = case.split_once(": ") else {
        return out.fail("no link");
    };
    let numbering = numbering_of(numbering, out);
    let mut making = Making::new(alloc, numbering);
    making.add_script(script, out);
    let outputs = outputs_of(alloc, tables, numbering, making.steps.as_slice(), out);
    texts::push_answers(out, making.parts.as_slice(), outputs.as_slice());
}
