//! What the steps of a run answer, as text.

use super::making::{Asked, Part};
use crate::book::loops::push_posts;
use crate::book::texts::{letter_of, push_given, push_posted, push_totals};
use cases::Answer;
use fp_book::{Posted, Totals};
use fp_steps::Output;

/// The word of an output that has no more to say.
fn word_of(output: &Output) -> &'static str {
    match output {
        Output::NoRoom => "no room",
        Output::WentBack => "back",
        Output::Busy => "busy",
        Output::Sent => "sent",
        Output::Unsent => "unsent",
        Output::Down => "down",
        _ => "nothing",
    }
}

/// Writes what became of a message.
fn push_message(out: &mut Answer, answer: Posted, components: u32) {
    push_posted(out, answer);
    out.labeled(" ", components);
}

/// Writes a parcel that is out.
fn push_parcel(out: &mut Answer, local: u32, frame: &[u8]) {
    out.text("picked ");
    out.identifier(local);
    out.text(" ");
    out.octets(frame)
}

/// Writes what a step answers.
pub(super) fn push_output(out: &mut Answer, output: &Output) {
    match output {
        Output::Posted { answer, components } => push_message(out, *answer, *components),
        Output::Ticked { added, wanting } => {
            out.labeled("ticked ", *added);
            out.labeled(" ", *wanting);
        }
        Output::Took {
            local,
            position,
            count,
        } => {
            out.text("took ");
            out.identifier(*local);
            out.labeled(" ", *position);
            out.labeled(" ", *count);
        }
        Output::Gave {
            local,
            position,
            served,
            given,
        } => {
            out.text("gave ");
            out.identifier(*local);
            out.labeled(" ", *position);
            out.labeled(" ", *served);
            out.text(" ");
            push_given(out, *given);
        }
        Output::Picked { local, frame } => push_parcel(out, *local, frame.as_slice()),
        _ => out.text(word_of(output)),
    }
}

/// The dialogue of the parcel that is out after this output, 0 for an Abort of the provider and for none.
fn out_after(output: &Output, out: u32) -> u32 {
    match output {
        Output::Picked { local, .. } => *local,
        Output::Sent | Output::Unsent => 0,
        _ => out,
    }
}

/// Counts an output. The parcel that was out before it is of the dialogue `out`.
fn count(totals: &mut Totals, output: &Output, out: u32) {
    match output {
        Output::Posted { components, .. } => {
            totals.accepted = totals.accepted.saturating_add(u64::from(*components));
        }
        Output::Gave { served, .. } => {
            totals.served = totals.served.saturating_add(u64::from(*served));
        }
        Output::Sent if out != 0 => totals.sent = totals.sent.saturating_add(1),
        _ => {}
    }
}

/// What these outputs come to.
pub(super) fn totals_of(outputs: &[Output]) -> Totals {
    let mut totals = Totals {
        accepted: 0,
        served: 0,
        sent: 0,
    };
    let mut out: u32 = 0;
    for output in outputs {
        count(&mut totals, output, out);
        out = out_after(output, out);
    }
    totals
}

/// Writes these outputs.
fn push_outputs(out: &mut Answer, outputs: &[Output]) {
    let mut is_first = true;
    for output in outputs {
        if !is_first {
            out.text(", ");
        }
        push_output(out, output);
        is_first = false;
    }
}

/// What became of a message, from its output; `None` if it is another output.
fn posted_of(output: &Output) -> Option<Posted> {
    match output {
        Output::Posted { answer, .. } => Some(*answer),
        _ => None,
    }
}

/// Whether each of these outputs is what became of a message, with the letter of this one.
fn have_letter(outputs: &[Output], first: Posted) -> bool {
    for output in outputs {
        match posted_of(output) {
            Some(posted) if letter_of(posted) == letter_of(first) => {}
            _ => return false,
        }
    }
    true
}

/// Writes the answers of several messages: how many, the first and the last. All have the same letter.
fn push_ends(out: &mut Answer, outputs: &[Output]) {
    let (Some(first), Some(last)) = (
        outputs.first().and_then(posted_of),
        outputs.last().and_then(posted_of),
    ) else {
        return out.fail("no message");
    };
    if !have_letter(outputs, first) {
        return out.fail("answers of two kinds");
    }
    push_posts(out, outputs.len(), first, last);
}

/// Writes what a part of a script answers, from the outputs before it and its own.
fn push_part(out: &mut Answer, asked: Asked, before: &[Output], own: &[Output]) {
    match asked {
        Asked::Moment(milliseconds) => {
            out.value(milliseconds);
        }
        Asked::Totals => push_totals(out, totals_of(before)),
        Asked::Ends => push_ends(out, own),
        Asked::Last(count) => {
            let (_, last) = own.split_at(own.len().saturating_sub(count));
            push_outputs(out, last)
        }
    }
}

/// Writes what all parts of a script answer.
pub(super) fn push_answers(out: &mut Answer, parts: &[Part], outputs: &[Output]) {
    let mut place: usize = 0;
    for part in parts {
        out.separator("; ");
        let Part { asked, end } = *part;
        let (Some(before), Some(own)) = (outputs.get(..place), outputs.get(place..end)) else {
            return out.fail("too few outputs");
        };
        push_part(out, asked, before, own);
        place = end;
    }
    if place != outputs.len() {
        return out.fail("too many outputs");
    }
}
