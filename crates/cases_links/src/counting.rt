//! What is counted on a link.
//!
//! | Case | What it gives |
//! |---|---|
//! | `counted TEXT` | the counters that aren't 0 after the steps of these log lines: each is counted apart, and they are added up. A `;` and a blank stand for a line feed |
//! | `sent MESSAGE COMPONENT ..` | the same after the frame of a message of the service, `continue`, `end` or `abort`, was sent |
//! | `aborted CAUSE` | the same after the frame of an Abort of the provider for a cause was sent |
//! | `octets-sent OCTETS` | the same after a frame with these octets was sent |
//! | `ended` | the same after the peer closed the connection |
//! | `times TIME ..` | the numbers of the buckets that aren't 0, each by its place, and the sum |
//! | `highest NUMBER ..` | the greatest of these numbers |

use crate::lines::ended_line;
use crate::texts::peer_of;
use cases::{Answer, first_word, number_of, octets_of};
use fp_book::Line;
use fp_counters::{BUCKETS, Counter, Counters, Highest, Histogram, frame_counts};
use fp_digits::Cause;
use fp_linkstate::Why;
use fp_q773::{AbortCause, InvokeProblem, Problem};
use fp_replay::{LineFault, read_line};
use fp_reply::{abort_frame, bytes_of};
use fp_service::{AbortPortion, Component, Components, Instruction, Request};
use std::alloc::{AllocError, Global};

/// The local transaction identifier of the dialogues.
const LOCAL: u32 = 1;

/// Writes the counters that aren't 0.
fn push_numbers(out: &mut Answer, counters: &Counters) {
    for counter in &Counter::all() {
        let number = counters.number(*counter);
        if number > 0 {
            out.shown(counter);
            out.labeled(" ", number);
            out.text(", ");
        }
    }
    out.text("no other");
}

/// Counts the step of a log line, which ends in a line feed.
fn count_step(alloc: Global, line: &[u8], counters: &mut Counters, out: &mut Answer) {
    match read_line(alloc, line) {
        Ok(Line::Step { step, .. }) => counters.count_step(&step),
        Ok(Line::Head { .. }) => {}
        Err(LineFault::Memory) => out.run_out(),
        Err(_) => out.fail("no line"),
    }
}

/// Counts the step of a log line.
fn count_line(alloc: Global, text: &str, counters: &mut Counters, out: &mut Answer) {
    match ended_line(alloc, text) {
        Ok(line) => count_step(alloc, line.as_slice(), counters, out),
        Err(_) => out.run_out(),
    }
}

/// The counters after the steps of these lines.
fn counted(alloc: Global, text: &str, out: &mut Answer) {
    let mut counters = Counters::new();
    for line in text.split("; ") {
        let mut step = Counters::new();
        count_line(alloc, line, &mut step, out);
        counters.merge(&step);
    }
    push_numbers(out, &counters);
}

/// The instruction of a component, if it is an Invoke. Any other word is a fault of the answer.
fn instruction_of(word: &str, out: &mut Answer) -> Instruction {
    match word {
        "release-3" => Instruction::ReleaseCall(Cause::NoRouteToDestination),
        "release-17" => Instruction::ReleaseCall(Cause::UserBusy),
        "report" => Instruction::RequestReportBcsmEvent,
        "continue" => Instruction::Continue,
        "test" => Instruction::ActivityTest,
        _ => {
            out.fail("no such component");
            Instruction::Continue
        }
    }
}

/// A component: an Invoke, or a Reject.
fn component_of(word: &str, out: &mut Answer) -> Component {
    if word == "reject" {
        return Component::Reject {
            identifier: None,
            problem: Problem::Invoke(InvokeProblem::UnrecognizedOperation),
        };
    }
    Component::Invoke {
        identifier: 1,
        instruction: instruction_of(word, out),
    }
}

/// The components of a message: none, one, or one and an Invoke of ActivityTest.
fn components_of(words: &str, out: &mut Answer) -> Components {
    let (first, second) = first_word(words);
    if first.is_empty() {
        return Components::none();
    }
    let component = component_of(first, out);
    if second != "test" {
        return Components::one(component);
    }
    let test = Component::Invoke {
        identifier: 2,
        instruction: Instruction::ActivityTest,
    };
    Components::two(component, test)
}

/// Writes the counters that aren't 0 after a frame was sent.
fn push_sent(out: &mut Answer, frame: &[u8]) {
    let mut counters = Counters::new();
    counters.count_frame(&frame_counts(frame));
    push_numbers(out, &counters)
}

/// Writes the counters after a request was sent.
fn push_request(alloc: Global, request: &Request, out: &mut Answer) {
    let peer = peer_of("2a", out);
    match bytes_of(alloc, request, LOCAL, &peer) {
        Ok(frame) => push_sent(out, frame.as_slice()),
        Err(_) => out.run_out(),
    }
}

/// The counters after a message of the service was sent.
fn sent(alloc: Global, words: &str, out: &mut Answer) {
    let (kind, rest) = first_word(words);
    let request = match kind {
        "continue" => Request::Continue {
            acceptance: None,
            components: components_of(rest, out),
        },
        "end" => Request::End {
            acceptance: None,
            components: components_of(rest, out),
        },
        "abort" => Request::Abort(AbortPortion::Absent),
        _ => return out.fail("no such message"),
    };
    push_request(alloc, &request, out);
}

/// The counters after an Abort of the provider was sent.
fn aborted(cause: &str, out: &mut Answer) {
    let peer = peer_of("0000002a", out);
    match AbortCause::from_code(number_of(cause, out)) {
        Some(cause) => push_sent(out, abort_frame(peer, cause).as_slice()),
        None => out.fail("no such cause"),
    }
}

/// The frame of a message.
fn frame_of(alloc: Global, message: &[u8]) -> Result<Vec<u8>, AllocError> {
    let mut frame = Vec::from_slice(alloc, &[0, 0, 0, 0])?;
    frame.extend_from_slice(message)?;
    Ok(frame)
}

/// The counters after a frame with a message of these octets was sent.
fn octets_sent(alloc: Global, text: &str, out: &mut Answer) {
    let message = octets_of(alloc, text, out);
    match frame_of(alloc, message.as_slice()) {
        Ok(frame) => push_sent(out, frame.as_slice()),
        Err(_) => out.run_out(),
    }
}

/// The counters after the peer closed the connection.
fn ended(out: &mut Answer) {
    let mut counters = Counters::new();
    counters.count_end(Why::PeerClosed);
    push_numbers(out, &counters)
}

/// The buckets of these times.
fn times(words: &str, out: &mut Answer) {
    let mut histogram = Histogram::new();
    for word in words.split(' ') {
        histogram.observe(number_of(word, out));
    }
    for bucket in 0..BUCKETS {
        let number = histogram.number(bucket);
        if number > 0 {
            out.value(bucket);
            out.labeled(": ", number);
            out.text(", ");
        }
    }
    out.labeled("sum ", histogram.sum());
}

/// The greatest of these numbers.
fn highest(words: &str, out: &mut Answer) {
    let mut highest = Highest::new();
    for word in words.split(' ') {
        highest.note(number_of(word, out));
    }
    out.value(highest.number());
}

/// Writes what a case of this module gives, and says whether it has one of this kind.
pub(crate) fn answer(alloc: Global, kind: &str, rest: &str, out: &mut Answer) -> bool {
    match kind {
        "counted" => counted(alloc, rest, out),
        "sent" => sent(alloc, rest, out),
        "aborted" => aborted(rest, out),
        "octets-sent" => octets_sent(alloc, rest, out),
        "ended" => ended(out),
        "times" => times(rest, out),
        "highest" => highest(rest, out),
        _ => return false,
    }
    true
}
