//! The comparison of the result of a link with its plan.

use super::link::Relayed;
use super::plan::Plan;
use fp_book::Totals;
use std::alloc::Global;

/// The answer to a Continue to a dialogue that doesn't exist, with its head: an Abort of the provider for cause 1,
/// unrecognized transaction identifier.
const STRANGE_ANSWER: &str = "0000000B670949040000002A4A0101";

/// What is wrong with the result of a plan, or nothing: each message was answered, under its own identifier, once, and
/// the stranger after all of them; nothing else was sent; and this was counted and logged.
pub(super) fn fault_in(alloc: Global, plan: Plan, relayed: Relayed) -> &'static str {
    let Relayed {
        are_opened,
        answers,
        line_count,
        totals,
    } = relayed;
    let mut answers = answers;
    let of_answers = answers_fault(alloc, plan, &mut answers);
    if !are_opened {
        "a message didn't open its dialogue"
    } else if totals != Some(totals_of(plan)) {
        "it counted others"
    } else if line_count != Some(line_count_of(plan)) {
        "it logged others"
    } else {
        of_answers
    }
}

/// The counts of a plan: the entries that are served are those of the calls, and the Begin of each dialogue.
fn totals_of(plan: Plan) -> Totals {
    let calls = u64::from(plan.call_count());
    Totals {
        accepted: calls,
        served: calls.saturating_add(u64::from(plan.count)),
        sent: calls,
    }
}

/// How many lines a plan logs: one for each message; two for each turn, that goes out and comes back, of which a
/// dialogue has one for up to 16 entries; two for each frame, that is picked and sent; three for the stranger, and one
/// for the end.
fn line_count_of(plan: Plan) -> usize {
    let of_dialogue = if plan.is_long { 5 } else { 3 };
    let of_dialogues = plan.count.saturating_mul(of_dialogue);
    let of_frames = plan.call_count().saturating_mul(2);
    let of_stranger = 3 * u32::from(plan.has_stranger);
    of_dialogues
        .saturating_add(of_frames)
        .saturating_add(of_stranger)
        .saturating_add(1) as usize
}

/// What is wrong with the answers to a plan, or nothing.
fn answers_fault(alloc: Global, plan: Plan, answers: &mut Vec<Vec<u8>>) -> &'static str {
    if plan.has_stranger {
        if !is_of_stranger(alloc, answers.last()) {
            return "the stranger wasn't answered last";
        }
        drop(answers.pop());
    }
    if answers.len() != plan.call_count() as usize {
        return "another number of answers";
    }
    // Answers differ in the identifier alone, so the smaller one is first.
    answers.sort_unstable();
    if plan.is_long || are_answers(alloc, plan, answers.as_slice()) {
        ""
    } else {
        "another answer"
    }
}

/// Whether these octets are the answer to the stranger.
fn is_of_stranger(alloc: Global, octets: Option<&Vec<u8>>) -> bool {
    match octets {
        Some(octets) => is_of_digits(alloc, STRANGE_ANSWER, octets.as_slice()),
        None => false,
    }
}

/// Whether these are the answers to the identifiers of a plan, the smallest one first.
fn are_answers(alloc: Global, plan: Plan, answers: &[Vec<u8>]) -> bool {
    let mut identifier = plan.first;
    for octets in answers {
        if !is_answer(alloc, identifier, octets.as_slice()) {
            return false;
        }
        identifier = identifier.saturating_add(plan.step);
    }
    true
}

/// Whether these octets have these hexadecimal digits. `false` also if memory runs out.
fn is_of_digits(alloc: Global, digits: &str, octets: &[u8]) -> bool {
    match hex::decode(alloc, digits) {
        Ok(wanted) => wanted.as_slice() == octets,
        Err(_) => false,
    }
}

/// Whether these octets are the answer to a Begin with InitialDP from this identifier, with its head: an End for this
/// identifier, with Connect. `false` also if memory runs out.
fn is_answer(alloc: Global, identifier: u32, octets: &[u8]) -> bool {
    let text = format!(in alloc;
        "0000001F641D4904{identifier:08X}6C15A113020101020114300BA009040783100322324304"
    );
    match text {
        Ok(text) => is_of_digits(alloc, text.as_str(), octets),
        Err(_) => false,
    }
}
