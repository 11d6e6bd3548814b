//! The page on which an operator sees how a run is.
//!
//! | Case | What it gives |
//! |---|---|
//! | `escaped TEXT` | the text as the page has it |
//! | `span WIDTH MOST TIME:TOTAL ..` | the numbers of a span after these notes, that of the current period first |
//! | `history SECONDS RATE` | the numbers of the last minute, hour and day, once this many calls a second came for so long |
//! | `troubles STATE` | the number of troubles in this state, and their names |
//! | `html STATE PEER EVENT` | the page in this state, `|` for a line feed |
//! | `says STATE TEXT` | whether the page in this state has this text, `|` for a line feed |
//!
//! A state is `rest`, `load`, `down`, `ended`, `full`, `hang`, `gap`, `many` or `two`. In `down` the run is a node, and one
//! call came in 200 seconds; in `many` 1,234 come each second, and in the others five. In `ended` the link has just gone
//! down. In `two` link 3 is under load, and link 5 has a gap.

use cases::{Answer, first_word, number_of};
use fp_book::{Book, Outbox};
use fp_counters::{Counter, Counters, Histogram};
use fp_metrics::{Gauges, LinkNumbers};
use fp_page::{History, LinkView, PageNumbers, RunHistory, Span, escaped, page_text, troubles_of};
use std::alloc::{AllocError, Global};

/// The events of the network of a node that is alone.
const GONE: [&str; 1] = ["2024-05-06T11:59:57.000Z connection 1 over: peer-closed"];

/// A text, escaped.
fn escapes(alloc: Global, text: &str, out: &mut Answer) {
    match escaped(alloc, text) {
        Ok(text) => out.text(text.as_str()),
        Err(_) => out.run_out(),
    }
}

/// The numbers of a span, from the current period to the oldest one that is kept, and one more.
fn numbers(span: &Span, out: &mut Answer) {
    for before in 0..span.most() {
        out.value(span.number(before));
        out.text(" ");
    }
    let oldest = span.number(span.most());
    let gone = span.number(span.most().saturating_add(1));
    out.value(oldest);
    out.labeled(" ", gone);
}

/// The numbers of a span after notes.
fn span(alloc: Global, words: &str, out: &mut Answer) {
    let (width, rest) = first_word(words);
    let (most, notes) = first_word(rest);
    let width: u64 = number_of(width, out);
    if width == 0 {
        return out.fail("no width");
    }
    let most = number_of(most, out);
    let Ok(mut span) = Span::new(alloc, width, most) else {
        return out.run_out();
    };
    for word in notes.split(' ') {
        if let Some((time, total)) = word.split_once(':') {
            span.note(number_of(time, out), number_of(total, out));
        }
    }
    numbers(&span, out)
}

/// Notes this number of calls each second, for so long.
fn note_steady(history: &mut History, seconds: u64, rate: u64) {
    for second in 0..seconds {
        let total = second.saturating_add(1).saturating_mul(rate);
        history.note(second.saturating_mul(1_000), total);
    }
}

/// Notes the calls of a link in a state.
fn note_state(history: &mut History, state: &str) {
    match state {
        "rest" => {}
        "down" => {
            history.note(70_000, 1);
            history.note(199_000, 1);
        }
        "many" => note_steady(history, 200, 1_234),
        _ => note_steady(history, 200, 5),
    }
}

/// The numbers of a steady history.
fn history(alloc: Global, words: &str, out: &mut Answer) {
    let (seconds, rate) = first_word(words);
    let Ok(mut history) = History::new(alloc) else {
        return out.run_out();
    };
    note_steady(&mut history, number_of(seconds, out), number_of(rate, out));
    numbers(history.minute(), out);
    out.text("; ");
    numbers(history.hour(), out);
    out.text("; ");
    numbers(history.day(), out);
}

/// The counters of a link in a state.
fn counters_of(state: &str) -> Counters {
    let mut counters = Counters::new();
    if state == "rest" {
        return counters;
    }
    counters.add(Counter::Opened, 12_345);
    counters.add(Counter::Connect, 9_000);
    counters.add(Counter::ReleaseBusy, 345);
    counters.add(Counter::SentUnknownTransaction, 7);
    counters.add(Counter::LinesWritten, 1_002_030_004);
    match state {
        "gap" => counters.add(Counter::LinesLost, 4_000),
        "many" => counters.add(Counter::RefusedLimit, 3),
        "full" => counters.add(Counter::OutOfMemory, 1),
        _ => {}
    }
    counters
}

/// The most places for frames that were held in a state: all, as many as hold messages back, or one fewer.
fn places_of(state: &str) -> usize {
    match state {
        "many" => Outbox::MOST_FRAMES,
        "gap" => Book::MANY_PLACES,
        "hang" => Book::MANY_PLACES - 1,
        "down" => Outbox::MOST_FRAMES - 1,
        _ => 3,
    }
}

/// The current values of a link in a state, and its maxima.
fn gauges_of(state: &str) -> Gauges {
    Gauges {
        is_up: state != "rest" && state != "down" && state != "ended",
        up_since: if state == "rest" { 0 } else { 1_700_000_000 },
        dialogues: if state == "many" { 3_900 } else { 2 },
        most_dialogues: if state == "many" { 4_096 } else { 10 },
        most_places: places_of(state) as u64,
        lines: 1,
        most_lines: if state == "many" { 24_576 } else { 100 },
    }
}

/// The times of answers in a state.
fn times_of(state: &str) -> Histogram {
    let mut times = Histogram::new();
    if state != "rest" {
        times.observe(90);
        times.observe(180);
        times.observe(190);
        times.observe(900);
    }
    times
}

/// The page of a run with these links in this state.
fn view<'a>(
    state: &str,
    links: &'a [LinkView<'a>],
    history: RunHistory<'a>,
    events: &'a [&'a str],
) -> PageNumbers<'a> {
    PageNumbers {
        version: "1.0",
        moment: "2024-05-06 12:00:00 UTC",
        records: "ab12",
        counts: (4, 5),
        reloads: 1,
        answer_times: times_of(state),
        links,
        history,
        log_fails: state == "full",
        log_hangs: state == "hang",
        lacks_network: state == "down",
        is_ending: state == "down",
        events,
        network_events: if state == "down" { &GONE } else { &[] },
    }
}

/// Writes the troubles on a page.
fn push_troubles(alloc: Global, page: &PageNumbers<'_>, out: &mut Answer) {
    let Ok(troubles) = troubles_of(alloc, page) else {
        return out.run_out();
    };
    out.value(troubles.len());
    for trouble in troubles.as_slice() {
        out.text(" ");
        out.shown(trouble);
    }
}

/// The text of a page, with a bar for each line feed.
fn text_of(alloc: Global, page: &PageNumbers<'_>) -> Result<String, AllocError> {
    page_text(alloc, page)?.as_str().replace(alloc, "\n", "|")
}

/// Writes a page, or, if a text is wanted, whether it has this text.
fn push_page(alloc: Global, page: &PageNumbers<'_>, wanted: Option<&str>, out: &mut Answer) {
    let Ok(text) = text_of(alloc, page) else {
        return out.run_out();
    };
    match wanted {
        Some(wanted) => out.either(text.as_str().contains(wanted), "yes", "no"),
        None => out.text(text.as_str()),
    }
}

/// Writes the page, the troubles on it, or whether it has a text.
fn write_page(alloc: Global, kind: &str, page: &PageNumbers<'_>, wanted: &str, out: &mut Answer) {
    match kind {
        "troubles" => push_troubles(alloc, page, out),
        "says" => push_page(alloc, page, Some(wanted), out),
        _ => push_page(alloc, page, None, out),
    }
}

/// A link of this number in a state.
fn link_of<'a>(link: u8, state: &str, peer: &'a str, calls: &'a History) -> LinkView<'a> {
    LinkView {
        numbers: LinkNumbers {
            link,
            gauges: gauges_of(state),
            counters: counters_of(state),
        },
        peer,
        since: "2024-05-06 11:00:00 UTC",
        calls,
        hangs: state == "hang",
    }
}

/// A case about the page in a state, of links with this history.
fn push_state(alloc: Global, kind: &str, words: &str, history: &History, out: &mut Answer) {
    let (state, rest) = first_word(words);
    let (peer, event) = first_word(if kind == "says" { "" } else { rest });
    let runs = RunHistory {
        calls: history,
        answers: history,
        aborts: history,
    };
    let links = [
        link_of(3, state, peer, history),
        link_of(5, "gap", peer, history),
    ];
    let events = [event];
    let shown = if state == "two" { 2 } else { 1 };
    let page = view(state, &links[..shown], runs, &events);
    write_page(alloc, kind, &page, rest, out);
}

/// A case about the page in a state.
fn page(alloc: Global, kind: &str, words: &str, out: &mut Answer) {
    let (state, _) = first_word(words);
    let Ok(mut history) = History::new(alloc) else {
        return out.run_out();
    };
    note_state(&mut history, state);
    push_state(alloc, kind, words, &history, out);
}

/// Writes the result of a case of this kind. `false`: this module has none of the kind.
pub(crate) fn answer(alloc: Global, kind: &str, rest: &str, out: &mut Answer) -> bool {
    match kind {
        "escaped" => escapes(alloc, rest, out),
        "span" => span(alloc, rest, out),
        "history" => history(alloc, rest, out),
        "troubles" | "html" | "says" => page(alloc, kind, rest, out),
        _ => return false,
    }
    true
}
