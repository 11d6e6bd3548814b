//! Messages of a drawn run, as hexadecimal text with the identifiers left open, and what is known of each.

use cases::Answer;
use std::alloc::Global;

/// The identifiers of a message to a dialogue: of its sender, of the dialogue, and of its first component.
#[derive(Clone, Copy)]
pub(super) struct Aimed {
    pub(super) peer: u32,
    pub(super) aim: u32,
    pub(super) number: u32,
}

/// What is known of a message from its making.
#[derive(Clone, Copy)]
pub(super) struct Known {
    /// Whether it is a Begin that can be read.
    pub(super) is_begin: bool,
    /// The identifier of its sender, 0 if it has none.
    pub(super) peer: u32,
    /// The identifier that it is aimed at, 0 if it has none.
    pub(super) aim: u32,
    /// How many entries it has.
    pub(super) entries: u32,
    /// How many of them come from components.
    pub(super) components: u32,
}

/// What is known of a step without a message.
pub(super) const NOTHING: Known = Known {
    is_begin: false,
    peer: 0,
    aim: 0,
    entries: 0,
    components: 0,
};

/// Writes a text, and an identifier of four octets after it.
fn push_long(out: &mut Answer, text: &str, identifier: u32) {
    out.text(text);
    out.identifier(identifier);
}

/// Writes a text, and a number of one octet after it.
fn push_short(out: &mut Answer, text: &str, number: u32) {
    out.text(text);
    write!(out, "{number:02X}");
}

/// A Begin with an InitialDP, for the number 80012345 and this digit.
pub(super) fn push_begin(out: &mut Answer, peer: u32, digit: u32) -> Known {
    push_long(out, "622D4804", peer);
    push_short(out, "6C25A123020101020100301B8001648207831008103254", digit);
    out.text("83078313032143650785010A9C0103");
    Known {
        is_begin: true,
        peer,
        aim: 0,
        entries: 2,
        components: 1,
    }
}

/// Results of an invocation that isn't active.
fn push_results(out: &mut Answer, count: u32, number: u32) {
    for index in 0..count {
        push_short(out, "A2030201", number.saturating_add(index));
    }
}

/// An EventReportBCSM: of the event 5, busy, a request; of the others, a notification.
fn push_event(out: &mut Answer, number: u32, event: u32) {
    push_short(out, "A1150201", number);
    push_short(out, "020118300D8001", event);
    out.text("A303810102A4038001");
    out.either(event == 5, "00", "01");
}

/// The components of a Continue: none, results, an Invoke of an unknown operation, an event, or a ReturnError.
fn push_components(out: &mut Answer, draw: u32, number: u32) {
    match draw {
        0 => {}
        1..=9 => push_results(out, components_of(draw), number),
        10 => {
            push_short(out, "A1060201", number);
            out.text("02017D");
        }
        11 | 12 => push_event(out, number, 5),
        13 => push_event(out, number, 7),
        14 => push_event(out, number, 9),
        _ => out.text("A306020102020106"),
    }
}

/// How many components these are.
fn components_of(draw: u32) -> u32 {
    match draw {
        0 => 0,
        4..=9 => 2,
        _ => 1,
    }
}

/// Writes a Continue with these components.
fn push_continue_with(out: &mut Answer, aimed: Aimed, components: &Answer) {
    let length = u32::try_from(components.as_str().len() / 2).unwrap_or(u32::MAX);
    let portion = if length == 0 {
        0
    } else {
        length.saturating_add(2)
    };
    push_short(out, "65", portion.saturating_add(12));
    push_long(out, "4804", aimed.peer);
    push_long(out, "4904", aimed.aim);
    if length > 0 {
        push_short(out, "6C", length);
        out.append(components);
    }
}

/// A Continue.
pub(super) fn push_continue(alloc: Global, out: &mut Answer, draw: u32, aimed: Aimed) -> Known {
    let Aimed { peer, aim, number } = aimed;
    let mut components = Answer::new(alloc);
    push_components(&mut components, draw, number);
    push_continue_with(out, aimed, &components);
    Known {
        is_begin: false,
        peer,
        aim,
        entries: components_of(draw),
        components: components_of(draw),
    }
}

/// An End without components, one with a result, an Abort of the user, or one of the provider.
pub(super) fn push_ending(out: &mut Answer, draw: u32, aimed: Aimed) -> Known {
    let Aimed { peer, aim, number } = aimed;
    match draw {
        0 => push_long(out, "64064904", aim),
        1 => {
            push_long(out, "640D4904", aim);
            push_short(out, "6C05A2030201", number);
        }
        2 => push_long(out, "67064904", aim),
        _ => {
            push_long(out, "67094904", aim);
            out.text("4A0101");
        }
    }
    let components = if draw == 1 { 1 } else { 0 };
    Known {
        is_begin: false,
        peer,
        aim,
        entries: components + 1,
        components,
    }
}

/// Writes octets with both identifiers.
fn push_aimed(out: &mut Answer, front: &str, peer: u32, aim: u32, end: &str) {
    push_long(out, front, peer);
    push_long(out, "4904", aim);
    out.text(end);
}

/// What is refused, or isn't looked at: an unknown tag, a Continue with an element too many, one that is cut, an End
/// with an element too many, a Begin that is cut, a Unidirectional, and octets that are nothing at all.
pub(super) fn push_bad(out: &mut Answer, draw: u32, peer: u32, aim: u32) -> Known {
    match draw {
        0 => push_aimed(out, "660C4804", peer, aim, ""),
        1 => push_aimed(out, "650E4804", peer, aim, "0500"),
        2 => push_aimed(out, "65254804", peer, aim, "6C17A1"),
        3 => {
            push_long(out, "64084904", aim);
            out.text("0500");
        }
        4 => {
            push_long(out, "622D4804", peer);
            out.text("6C25");
        }
        5 => out.text("61026C00"),
        6 => out.text("622D48040000"),
        _ => out.text("FF"),
    }
    let peer = if draw <= 2 || draw == 4 { peer } else { 0 };
    let aim = if draw <= 3 { aim } else { 0 };
    Known {
        peer,
        aim,
        ..NOTHING
    }
}
