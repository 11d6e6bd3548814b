//! An operator's page with the health of the run, and the history that it needs.
//!
//! The thread that answers notes the numbers once a second, even without visitors, and makes the page at most once a
//! second while a visitor is connected.

use crate::health::link_hangs;
use crate::recent::LinkSeen;
use crate::{RecentEvents, TimedEvent, Watch, WatchedRun};
use fp_counters::Counter;
use fp_metrics::LinkNumbers;
use fp_page::{
    History, LinkView, PageNumbers, RunHistory, aborts_sent, components_sent, page_text,
};
use fp_tally::now;
use jiff::Timestamp;
use std::alloc::{AllocError, Global};
use std::rt::Clock;
use std::sync::{Arc, Wait};

/// The number of milliseconds in a second.
const MILLISECONDS_OF_A_SECOND: u64 = 1_000;

/// The texts of a link on a page.
#[derive(Drop)]
struct LinkTexts {
    peer: String,
    since: String,
}

/// The text of a moment, in seconds since 1970, on a page.
fn moment_text(alloc: Global, seconds: u64) -> Result<String, AllocError> {
    match Timestamp::from_second(i64::try_from(seconds).unwrap_or(i64::MAX)) {
        Ok(moment) => format!(in alloc; "{moment:.0}"),
        Err(_) => Ok(String::new(alloc)),
    }
}

/// The texts of a link.
fn link_texts(alloc: Global, seen: Option<LinkSeen>) -> Result<LinkTexts, AllocError> {
    let Some(seen) = seen else {
        return Ok(LinkTexts {
            peer: String::new(alloc),
            since: String::new(alloc),
        });
    };
    let peer = seen.peer.text(alloc)?;
    let since = moment_text(alloc, seen.since.milliseconds() / MILLISECONDS_OF_A_SECOND)?;
    Ok(LinkTexts { peer, since })
}

/// The history of the numbers, and the page that was made last.
#[derive(Drop)]
pub(crate) struct Page {
    alloc: Global,
    recent: Arc<RecentEvents>,
    // The calls of each link, in their order.
    links: Vec<History>,
    calls: History,
    answers: History,
    aborts: History,
    // The seconds of the run, from 1, when numbers were noted and when the page was made last.
    noted_in: u64,
    made_in: u64,
    text: String,
}

impl Page {
    /// An empty history for this number of links.
    pub(crate) fn new(
        alloc: Global,
        recent: Arc<RecentEvents>,
        count: usize,
    ) -> Result<Page, AllocError> {
        let mut links = Vec::with_capacity(alloc, count)?;
        for _ in 0..count {
            links.push(History::new(alloc)?)?;
        }
        Ok(Page {
            alloc,
            recent,
            links,
            calls: History::new(alloc)?,
            answers: History::new(alloc)?,
            aborts: History::new(alloc)?,
            noted_in: 0,
            made_in: 0,
            text: String::new(alloc),
        })
    }

    /// The page that was made last.
    pub(crate) fn text(&self) -> &str {
        self.text.as_str()
    }

    /// Notes these numbers at this time of the run.
    fn note_numbers(&mut self, time: u64, links: &[LinkNumbers]) {
        let (mut calls, mut answers, mut aborts) = (0u64, 0u64, 0u64);
        for (history, link) in self.links.iter_mut().zip(links.iter()) {
            let opened = link.counters.number(Counter::Opened);
            history.note(time, opened);
            calls = calls.saturating_add(opened);
            answers = answers.saturating_add(components_sent(&link.counters));
            aborts = aborts.saturating_add(aborts_sent(&link.counters));
        }
        self.calls.note(time, calls);
        self.answers.note(time, answers);
        self.aborts.note(time, aborts);
    }

    /// Notes the numbers, if a second began since they were noted. If memory runs out, or the clock gives no time, they
    /// are noted later.
    pub(crate) fn note<R: Wait + Clock, W: WatchedRun + Drop>(&mut self, rt: &R, watch: &Watch<W>) {
        let Some(time) = watch.run.elapsed(rt) else {
            return;
        };
        let second = time / MILLISECONDS_OF_A_SECOND + 1;
        if second == self.noted_in {
            return;
        }
        self.noted_in = second;
        if let Ok(links) = watch.metrics.numbers(rt, self.alloc, &watch.run) {
            self.note_numbers(time, links.as_slice());
        }
    }

    /// Makes the page anew, if a second began since it was made. If memory runs out, the last one stays.
    pub(crate) fn refresh<R: Wait + Clock, W: WatchedRun + Drop>(
        &mut self,
        rt: &R,
        watch: &Watch<W>,
    ) {
        if self.made_in == self.noted_in {
            return;
        }
        if let Ok(text) = self.made(rt, watch) {
            self.text = text;
            self.made_in = self.noted_in;
        }
    }

    /// The texts of each of these links.
    fn texts<R: Wait>(&self, rt: &R, links: &[LinkNumbers]) -> Result<Vec<LinkTexts>, AllocError> {
        let mut texts = Vec::with_capacity(self.alloc, links.len())?;
        for link in links {
            texts.push(link_texts(self.alloc, self.recent.link(rt, link.link))?)?;
        }
        Ok(texts)
    }

    /// The lines of these events, the last one first.
    fn event_lines(&self, events: &[TimedEvent]) -> Result<Vec<String>, AllocError> {
        let mut lines = Vec::with_capacity(self.alloc, events.len())?;
        for event in events.iter().rev() {
            lines.push(event.line_of_all(self.alloc)?)?;
        }
        Ok(lines)
    }

    /// The lines without their line feeds.
    fn trimmed<'a>(&self, lines: &'a [String]) -> Result<Vec<&'a str>, AllocError> {
        let mut trimmed = Vec::with_capacity(self.alloc, lines.len())?;
        for line in lines {
            trimmed.push(line.as_str().trim_end())?;
        }
        Ok(trimmed)
    }

    /// The page, made of the present numbers.
    fn made<R: Wait + Clock, W: WatchedRun + Drop>(
        &self,
        rt: &R,
        watch: &Watch<W>,
    ) -> Result<String, AllocError> {
        let links = watch.metrics.numbers(rt, self.alloc, &watch.run)?;
        let texts = self.texts(rt, links.as_slice())?;
        let time = watch.time(rt);
        let mut views = Vec::with_capacity(self.alloc, links.len())?;
        let noted = self.links.iter().zip(watch.metrics.links().iter());
        for ((numbers, texts), (calls, metrics)) in links.iter().zip(texts.iter()).zip(noted) {
            views.push(LinkView {
                numbers: *numbers,
                peer: texts.peer.as_str(),
                since: texts.since.as_str(),
                calls,
                hangs: link_hangs(rt, metrics, time),
            })?;
        }
        self.written(rt, watch, time, views.as_slice())
    }

    /// The page of these links, at this time of the run.
    fn written<R: Wait + Clock, W: WatchedRun + Drop>(
        &self,
        rt: &R,
        watch: &Watch<W>,
        time: u64,
        links: &[LinkView<'_>],
    ) -> Result<String, AllocError> {
        let kept = self.recent.events(rt, self.alloc)?;
        let lines = self.event_lines(kept.as_slice())?;
        let events = self.trimmed(lines.as_slice())?;
        let kept_of_network = self.recent.network_events(rt, self.alloc)?;
        let lines_of_network = self.event_lines(kept_of_network.as_slice())?;
        let network_events = self.trimmed(lines_of_network.as_slice())?;
        let metrics = &watch.metrics;
        let records = metrics.records(rt);
        let digest = records.digest_text(self.alloc)?;
        let seconds = now(rt).milliseconds() / MILLISECONDS_OF_A_SECOND;
        let moment = moment_text(self.alloc, seconds)?;
        let version = metrics.version();
        let page = PageNumbers {
            version: version.as_str(),
            moment: moment.as_str(),
            records: digest.as_str(),
            counts: records.counts,
            reloads: records.reloads,
            answer_times: metrics.answer_times(rt),
            links,
            history: RunHistory {
                calls: &self.calls,
                answers: &self.answers,
                aborts: &self.aborts,
            },
            log_fails: self.recent.log_fails(),
            log_hangs: watch.log_hangs(time),
            lacks_network: metrics.lacks_connection(),
            is_ending: watch.run.is_ending(rt),
            events: events.as_slice(),
            network_events: network_events.as_slice(),
        };
        page_text(self.alloc, &page)
    }
}
