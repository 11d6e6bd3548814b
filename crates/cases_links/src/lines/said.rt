//! What lines say, in words.

use cases::Answer;
use fp_book::{Given, Line, LoggedStep, Posted};
use fp_digits::Moment;
use fp_frames::Frame;

/// Writes words and a number after them.
fn push_number(out: &mut Answer, words: &str, number: u64) {
    out.value(words);
    out.value(number);
}

/// What became of a message.
fn word_of(answer: Posted) -> &'static str {
    match answer {
        Posted::Opened(_) => ", opened ",
        Posted::Accepted(_) => ", accepted ",
        Posted::Aborted(_) => ", aborted for cause ",
        Posted::Ended => ", ended",
        Posted::Discarded => ", discarded",
    }
}

/// Writes what became of a message.
fn push_posted(out: &mut Answer, answer: Posted) {
    let word = word_of(answer);
    match answer {
        Posted::Opened(local) => push_number(out, word, u64::from(local)),
        Posted::Accepted(entries) => push_number(out, word, u64::from(entries)),
        Posted::Aborted(cause) => push_number(out, word, u64::from(cause.code())),
        Posted::Ended | Posted::Discarded => out.text(word),
    }
}

/// Writes a message that came, and when.
fn push_message(out: &mut Answer, moment: Moment, message: &Frame) {
    out.octets(message.octets());
    push_number(out, " at ", moment.milliseconds())
}

/// Writes a turn: the place of its first entry, and the birth of its dialogue.
fn push_turn(out: &mut Answer, birth: u64, position: u64) {
    push_number(out, "", position);
    push_number(out, " of ", birth)
}

/// Writes a tick.
fn push_tick(out: &mut Answer, moment: Moment, added: u32, wanting: u32) {
    push_number(out, "", moment.milliseconds());
    push_number(out, ", added ", u64::from(added));
    push_number(out, ", wanting ", u64::from(wanting))
}

/// Writes what became of requests.
fn push_given(out: &mut Answer, given: Given) {
    match given {
        Given::Silent => out.text(", silent"),
        Given::Queued(count) => push_number(out, ", queued ", u64::from(count)),
        Given::Dropped(count) => push_number(out, ", dropped ", u64::from(count)),
    }
}

/// What a step did.
fn verb_of(step: &LoggedStep) -> &'static str {
    match step {
        LoggedStep::Post { .. } => "posted ",
        LoggedStep::Lost { .. } => "lost ",
        LoggedStep::Tick { .. } => "tick at ",
        LoggedStep::Take { .. } => "took ",
        LoggedStep::Give { .. } => "gave ",
        LoggedStep::PutBack { .. } => "put back ",
        LoggedStep::Pick { .. } => "picked ",
        LoggedStep::Sent { .. } => "sent ",
        LoggedStep::Unsent { .. } => "not sent ",
        LoggedStep::Down => "down",
        LoggedStep::Gap { .. } => "gap of ",
    }
}

/// Writes a step.
fn push_step(out: &mut Answer, step: &LoggedStep) {
    out.text(verb_of(step));
    match step {
        LoggedStep::Post {
            table,
            moment,
            message,
            answer,
        } => {
            push_message(out, *moment, message);
            push_number(out, " by table ", u64::from(*table));
            push_posted(out, *answer)
        }
        LoggedStep::Lost {
            moment,
            message,
            answer,
        } => {
            push_message(out, *moment, message);
            push_posted(out, *answer)
        }
        LoggedStep::Tick {
            moment,
            added,
            wanting,
        } => push_tick(out, *moment, *added, *wanting),
        LoggedStep::Take {
            birth,
            position,
            count,
        } => {
            push_turn(out, *birth, *position);
            push_number(out, ", count ", u64::from(*count))
        }
        LoggedStep::PutBack { birth, position } => push_turn(out, *birth, *position),
        LoggedStep::Give {
            birth,
            position,
            served,
            given,
        } => {
            push_turn(out, *birth, *position);
            push_number(out, ", served ", u64::from(*served));
            push_given(out, *given)
        }
        LoggedStep::Pick { birth } | LoggedStep::Sent { birth } | LoggedStep::Unsent { birth } => {
            push_number(out, "", *birth)
        }
        LoggedStep::Gap { lost } => push_number(out, "", *lost),
        LoggedStep::Down => {}
    }
}

/// Writes the head of a log. A tag of 0 isn't named.
fn push_head(out: &mut Answer, links: u8, tag: u16) {
    push_number(out, "log of ", u64::from(links));
    out.text(" links");
    if tag > 0 {
        push_number(out, ", tag ", u64::from(tag));
    }
}

/// Writes a line.
pub(crate) fn push_line(out: &mut Answer, line: &Line) {
    match line {
        Line::Head { links, tag } => push_head(out, *links, *tag),
        Line::Step { link, step } => {
            push_number(out, "link ", u64::from(*link));
            out.text(": ");
            push_step(out, step)
        }
    }
}
