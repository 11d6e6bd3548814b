//! The counters of a run.

ghost use Rattle.std.specs.Prelude.{IfOk, string_bytes};
ghost use Rattle.fp_watch.specs.Numbers.{TellsNumbers};

use crate::{Version, WatchedRun};
use fp_counters::{Counters, Histogram};
use fp_metrics::{LinkNumbers, RunNumbers, metrics_text};
use fp_tally::{CalledNumber, LinkMetrics};
use std::alloc::{AllocError, Global};
use std::sync::atomic::{AtomicBool, Ordering};
use std::sync::{Arc, Mutex, Wait};
use std::time::Duration;

/// The records that calls are answered from.
#[derive(Clone, Copy)]
pub(crate) struct Records {
    // The SHA-256 digest of their file.
    digest: [u8; 32],
    /// How often the records were replaced.
    pub(crate) reloads: u64,
    /// How many numbers and rules the records have.
    pub(crate) counts: (u32, u32),
}

impl Records {
    /// The digest, in hexadecimal digits.
    pub(crate) fn digest_text(&self, alloc: Global) -> Result<String, AllocError> {
        hexadecimal(alloc, &self.digest)
    }
}

/// The counters of a run, for its watchers: each link's, in the order of their numbers, and the times of answers.
#[derive(Drop)]
pub struct Metrics {
    version: Version,
    first_link: u8,
    records: Mutex<Records>,
    answer_times: Mutex<Histogram>,
    links: Vec<LinkMetrics>,
    // No request is answered any more.
    is_over: AtomicBool,
    // The run is a node, and no connection of its network carries messages.
    lacks_connection: AtomicBool,
}

/// A digest in hexadecimal digits.
fn hexadecimal(alloc: Global, digest: &[u8; 32]) -> Result<String, AllocError> {
    let mut text = String::new(alloc);
    for octet in digest {
        let digits = format!(in alloc; "{octet:02x}")?;
        text.push_str(digits.as_str())?;
    }
    Ok(text)
}

/// The numbers of a run in the text format of Prometheus.
fn numbers_text(alloc: Global, run: &RunNumbers<'_>) -> Result<String, AllocError>
    ensures { IfOk result (λ text. TellsNumbers (string_bytes text)) }
{
    metrics_text(alloc, run)
}

impl Metrics {
    /// Counters of 0 for a run of `count` links, numbered from `first_link` on, by a program of this version, with the
    /// records of a file of this SHA-256 digest; `counts` are how many numbers and rules these have. With
    /// `counts_numbers`, each called number has counters of its own. If memory runs out, there are none.
    pub fn new(
        alloc: Global,
        first_link: u8,
        count: u8,
        version: Version,
        digest: [u8; 32],
        counts: (u32, u32),
        counts_numbers: bool,
    ) -> Result<Arc<Metrics>, AllocError> {
        let mut links = Vec::with_capacity(alloc, usize::from(count))?;
        for _ in 0..count {
            links.push(LinkMetrics::new(alloc, counts_numbers)?)?;
        }
        let metrics = Metrics {
            version,
            first_link,
            records: Mutex::new(Records {
                digest,
                reloads: 0,
                counts,
            }),
            answer_times: Mutex::new(Histogram::new()),
            links,
            is_over: AtomicBool::new(false),
            lacks_connection: AtomicBool::new(false),
        };
        Ok(Arc::new(alloc, metrics)?)
    }

    /// Notes that the records were replaced by the records of a file of this digest; `counts` are how many numbers and
    /// rules these have.
    pub fn note_reload<R: Wait>(&self, rt: &R, digest: [u8; 32], counts: (u32, u32)) {
        let mut records = self.records.lock(rt);
        records.digest = digest;
        records.counts = counts;
        records.reloads = records.reloads.saturating_add(1);
    }

    /// Notes whether a connection of the network carries messages now, for a run that is a node on a signalling
    /// network.
    pub fn note_connected(&self, is_connected: bool) {
        self.lacks_connection.store(!is_connected, Ordering::SeqCst);
    }

    /// Whether the run is a node that gets no messages, since no connection of its network carries any.
    pub(crate) fn lacks_connection(&self) -> bool {
        self.lacks_connection.load(Ordering::SeqCst)
    }

    /// The counters of the link in this place. `None` if the run has no such link.
    pub fn link(&self, place: u8) -> Option<&LinkMetrics> {
        self.links.get(usize::from(place))
    }

    /// The counters of each link.
    pub(crate) fn links(&self) -> &[LinkMetrics] {
        self.links.as_slice()
    }

    /// Notes the time from the read of a message to the write of its answer.
    pub fn note_answer<R: Wait>(&self, rt: &R, time: Duration) {
        let microseconds = u64::try_from(time.as_micros()).unwrap_or(u64::MAX);
        self.answer_times.lock(rt).observe(microseconds);
    }

    /// Ends the answers to requests: the run ends.
    pub fn end(&self) {
        self.is_over.store(true, Ordering::SeqCst);
    }

    /// Whether no request is answered any more.
    pub(crate) fn is_over(&self) -> bool {
        self.is_over.load(Ordering::SeqCst)
    }

    /// The counters of a called number, over all links. `None` if numbers aren't counted.
    pub fn counters_of<R: Wait>(&self, rt: &R, number: CalledNumber) -> Option<Counters> {
        let mut counters = Counters::new();
        let mut is_counted = false;
        for link in self.links.iter() {
            if let Some(numbers) = link.number_counts() {
                numbers.add_to(rt, number, &mut counters);
                is_counted = true;
            }
        }
        if is_counted { Some(counters) } else { None }
    }

    /// The version of the program.
    pub(crate) fn version(&self) -> Version {
        self.version
    }

    /// The records that calls are answered from.
    pub(crate) fn records<R: Wait>(&self, rt: &R) -> Records {
        *self.records.lock(rt)
    }

    /// The times of answers.
    pub(crate) fn answer_times<R: Wait>(&self, rt: &R) -> Histogram {
        *self.answer_times.lock(rt)
    }

    /// The numbers of each link of this run.
    pub(crate) fn numbers<R: Wait, W: WatchedRun>(
        &self,
        rt: &R,
        alloc: Global,
        run: &W,
    ) -> Result<Vec<LinkNumbers>, AllocError> {
        let mut links = Vec::with_capacity(alloc, self.links.len())?;
        let mut number = self.first_link;
        for (place, link) in self.links.iter().enumerate() {
            let written = run.written(place);
            links.push(link.numbers(rt, number, written))?;
            number = number.saturating_add(1);
        }
        Ok(links)
    }

    /// All counters of this run in the text format of Prometheus. If memory runs out, there is no text.
    pub fn text<R: Wait, W: WatchedRun>(
        &self,
        rt: &R,
        alloc: Global,
        watched: &W,
    ) -> Result<String, AllocError>
        ensures { IfOk result (λ text. TellsNumbers (string_bytes text)) }
    {
        let links = self.numbers(rt, alloc, watched)?;
        let records = self.records(rt);
        let digest = records.digest_text(alloc)?;
        let run = RunNumbers {
            version: self.version.as_str(),
            records: digest.as_str(),
            reloads: records.reloads,
            answer_times: self.answer_times(rt),
            links: links.as_slice(),
        };
        numbers_text(alloc, &run)
    }
}
