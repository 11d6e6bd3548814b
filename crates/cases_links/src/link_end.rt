//! How the end of a link goes on.
//!
//! | Step | Event |
//! |---|---|
//! | `failed` | a write failed |
//! | `input AT`, `quit AT`, `clock AT` | the end of the input; the command `quit`; the time |
//! | `loop`, `run`, `entries` | a length came that no frame has; the log can't be written; too many entries |
//! | `quiet`, `closed` | nothing is left to be sent; the peer closed |
//!
//! Each answers the state, and what is to be done. `left AT` answers how much time is left.

use cases::{Answer, Steps, first_word, number_of, play};
use fp_linkstate::{Action, LinkEnd, LinkEvent, Why};

/// The end of a link in a case.
#[derive(Drop)]
struct Ending {
    end: LinkEnd,
}

/// The event of a step.
fn event_of(verb: &str, rest: &str, out: &mut Answer) -> LinkEvent {
    match verb {
        "failed" => LinkEvent::CallFailed {
            why: Why::WriteFault,
        },
        "input" => LinkEvent::EndOfInput {
            at: number_of(rest, out),
        },
        "quit" => LinkEvent::Quit {
            at: number_of(rest, out),
        },
        "clock" => LinkEvent::Clock {
            at: number_of(rest, out),
        },
        "loop" => LinkEvent::LoopFault {
            why: Why::BadFrameLength,
        },
        "run" => LinkEvent::RunFault { why: Why::LogFault },
        "entries" => LinkEvent::TooManyEntries,
        "quiet" => LinkEvent::Quiet,
        "closed" => LinkEvent::PeerClosed,
        _ => {
            out.fail("no such step");
            LinkEvent::Quiet
        }
    }
}

/// The name of a state.
fn name_of(end: LinkEnd) -> &'static str {
    match end {
        LinkEnd::Up { .. } => "up",
        LinkEnd::Draining { .. } => "draining",
        LinkEnd::Lingering { .. } => "lingering",
        LinkEnd::Down => "down",
    }
}

/// Writes what is to be done, if there is something.
fn push_action(out: &mut Answer, action: Action) {
    match action {
        Action::Nothing => {}
        Action::EndSending { why } => out.labeled(", end sending: ", why),
        Action::End { why } => out.labeled(", end: ", why),
        Action::Close => out.text(", close"),
    }
}

/// Writes how much time is left at this one.
fn push_left(out: &mut Answer, end: LinkEnd, at: &str) {
    match end.time_left(number_of(at, out)) {
        Some(left) => out.value(left),
        None => out.text("none"),
    }
}

impl Steps for Ending {
    fn step(&mut self, step: &str, out: &mut Answer) {
        let (verb, rest) = first_word(step);
        if verb == "left" {
            return push_left(out, self.end, rest);
        }
        let action = self.end.meet(event_of(verb, rest, out));
        out.text(name_of(self.end));
        push_action(out, action)
    }
}

/// Writes what the steps of a case answer.
pub(crate) fn answer(script: &str, out: &mut Answer) {
    let end = LinkEnd::new();
    play(&mut Ending { end }, script, out)
}
