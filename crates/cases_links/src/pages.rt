//! What an operator's tools get over HTTP.
//!
//! | Case | What it gives |
//! |---|---|
//! | `page METHOD PATH HEALTH` | the status and the body, where HEALTH is `live`, `ready`, `both` or `none` |
//! | `build VERSION RECORDS` | the line that says which program runs |
//! | `metrics LINK ..` | the lines of the counters that aren't 0, each link having counted one Begin; in the run an answer took 20 seconds |
//! | `number DIGITS` | the lines of a called number for which the counter in place 0 counted one, that in place 1 two, and so on |

use cases::{Answer, first_word, number_of};
use fp_counters::{Counter, Counters, Histogram};
use fp_metrics::{Gauges, Health, LinkNumbers, RunNumbers, answer_to, metrics_text, number_text};
use std::alloc::Global;

/// What each link has in a case.
const GAUGES: Gauges = Gauges {
    is_up: true,
    up_since: 4,
    dialogues: 5,
    most_dialogues: 6,
    most_places: 7,
    lines: 8,
    most_lines: 9,
};

/// What a page says.
fn page(words: &str, out: &mut Answer) {
    let (method, rest) = first_word(words);
    let (path, health) = first_word(rest);
    let health = Health {
        is_live: health == "live" || health == "both",
        is_ready: health == "ready" || health == "both",
    };
    let answer = answer_to(method, path, health);
    let status = answer.status().as_u16();
    let body = answer.body("page\n", "numbers\n").trim_end();
    out.value(status);
    out.text(" ");
    out.text(body);
}

/// The line that says which program runs, in a run without links.
fn build(alloc: Global, words: &str, out: &mut Answer) {
    let (version, records) = first_word(words);
    let run = RunNumbers {
        version,
        records,
        reloads: 0,
        answer_times: Histogram::new(),
        links: &[],
    };
    let Ok(text) = metrics_text(alloc, &run) else {
        return out.run_out();
    };
    for line in text.as_str().lines() {
        if line.ends_with("} 1") {
            out.text(line);
        }
    }
}

/// The numbers of a link.
fn numbers_of(link: u8) -> LinkNumbers {
    let mut counters = Counters::new();
    counters.count(Counter::Begins);
    counters.add(Counter::LinesLost, u64::MAX);
    LinkNumbers {
        link,
        gauges: GAUGES,
        counters,
    }
}

/// Writes the lines that don't end in 0, and the number of all lines.
fn push_metrics(alloc: Global, links: &[LinkNumbers], out: &mut Answer) {
    let mut answer_times = Histogram::new();
    answer_times.observe(20_000_000);
    let run = RunNumbers {
        version: "1.0",
        records: "ab",
        reloads: 3,
        answer_times,
        links,
    };
    let Ok(text) = metrics_text(alloc, &run) else {
        return out.run_out();
    };
    let mut count: usize = 0;
    for line in text.as_str().lines() {
        count = count.saturating_add(1);
        if !line.starts_with('#') && !line.ends_with(" 0") {
            out.text(line);
            out.text("; ");
        }
    }
    out.value(count);
    out.text(" lines");
}

/// The lines that don't end in 0, and the number of all lines.
fn metrics(alloc: Global, words: &str, out: &mut Answer) {
    let mut links = Vec::new(alloc);
    for word in words.split(' ') {
        let link: u8 = number_of(word, out);
        out.push(&mut links, numbers_of(link));
    }
    push_metrics(alloc, links.as_slice(), out);
}

/// The lines of a called number, each counter of which counted one more than the one before it.
fn number(alloc: Global, called: &str, out: &mut Answer) {
    let mut counters = Counters::new();
    let mut amount: u64 = 0;
    let all = Counter::all();
    for counter in &all {
        amount = amount.saturating_add(1);
        counters.add(*counter, amount);
    }
    let Ok(text) = number_text(alloc, called, &counters) else {
        return out.run_out();
    };
    let mut count: usize = 0;
    for line in text.as_str().lines() {
        count = count.saturating_add(1);
        out.text(line);
        out.text("; ");
    }
    out.value(count);
    out.text(" lines");
}

/// Writes what a case of this module gives, and says whether it has one of this kind.
pub(crate) fn answer(alloc: Global, kind: &str, rest: &str, out: &mut Answer) -> bool {
    match kind {
        "page" => page(rest, out),
        "build" => build(alloc, rest, out),
        "metrics" => metrics(alloc, rest, out),
        "number" => number(alloc, rest, out),
        _ => return false,
    }
    true
}
