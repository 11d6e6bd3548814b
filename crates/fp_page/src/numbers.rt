//! The numbers and texts of a page.

use crate::History;
use fp_counters::{Counter, Histogram};
use fp_metrics::LinkNumbers;

/// A link on the page.
#[derive(Clone, Copy)]
pub struct LinkView<'a> {
    /// The counters of the link, and its current values.
    pub numbers: LinkNumbers,
    /// The peer of the link; an empty text if none was connected yet.
    pub peer: &'a str,
    /// The moment since which the link is up, or down; an empty text if no peer was connected yet.
    pub since: &'a str,
    /// Messages that opened a dialogue.
    pub calls: &'a History,
    /// The link is up, and its clock hasn't ticked for ten seconds.
    pub hangs: bool,
}

/// The history of a run's numbers.
#[derive(Clone, Copy)]
pub struct RunHistory<'a> {
    /// Messages that opened a dialogue.
    pub calls: &'a History,
    /// Components that were sent.
    pub answers: &'a History,
    /// Aborts that were sent, of the provider and of the service.
    pub aborts: &'a History,
}

/// The numbers and texts of a run's page.
#[derive(Clone, Copy)]
pub struct PageNumbers<'a> {
    /// The version of the program.
    pub version: &'a str,
    /// The moment of the page.
    pub moment: &'a str,
    /// The SHA-256 digest of the records that calls are answered from, in hexadecimal digits.
    pub records: &'a str,
    /// How many numbers these records have, and how many rules.
    pub counts: (u32, u32),
    /// How often the records were replaced.
    pub reloads: u64,
    /// The times from the read of a message to the write of its answer, of a sample.
    pub answer_times: Histogram,
    /// The links of the run.
    pub links: &'a [LinkView<'a>],
    /// The history of all links together.
    pub history: RunHistory<'a>,
    /// The log can't be written, and lines are lost.
    pub log_fails: bool,
    /// The thread that writes the log hasn't moved for ten seconds.
    pub log_hangs: bool,
    /// The run is a node on a signalling network, and none of its units has a connection.
    pub lacks_network: bool,
    /// The run is about to end.
    pub is_ending: bool,
    /// The last events, the newest one first, each a line.
    pub events: &'a [&'a str],
    /// The last events of the network that carries the link, if one does, the newest one first.
    pub network_events: &'a [&'a str],
}

impl PageNumbers<'_> {
    /// The number of a counter, summed over all links.
    pub(crate) fn total(&self, counter: Counter) -> u64 {
        let mut total: u64 = 0;
        for link in self.links {
            total = total.saturating_add(link.numbers.counters.number(counter));
        }
        total
    }
}
