//! What an operator sees of a run: its counters and its health over HTTP, a page for a browser, its events, and the
//! answers to commands that ask for counters or for the status of links.
//!
//! The layer is handed the counters of each link (`fp_tally`), the run ([`WatchedRun`]), its events, and a listener. It
//! takes memory and locks, accepts connections and answers them, and reads the clock. It starts no thread and binds no
//! address: the caller runs the answering thread ([`Listening::answer`]).
//!
//! Each thread of a link notes its counts at once in the link's `LinkMetrics`, in a place of its own, under a lock that
//! is held for the length of a copy or of a portion of log lines. No lock of a book, of a socket or of the log is taken
//! to read them, so a reader holds up a thread of a link at most for such a copy. A run without watchers counts nothing.
//!
//! ```text
//!   threads of the links --counts--> Metrics ---\
//!   the log, the clock, the drain --> WatchedRun --> Watch --> Listening --> Visitor (at most eight) <--> clients
//!   threads of the run --events--> RecentEvents ---/   (one thread)
//! ```
//!
//! * [`Metrics`]: the counters of a run, and their text. [`Watched`] has them with the address for requests.
//! * [`Listening`]: the state of the thread that answers HTTP, with the page and its history.
//! * [`Event`]: an event of a run. [`TimedEvent`] has its moment, and gives its line; [`RecentEvents`] keeps the last
//!   ones; [`Peer`] is the peer of a link.
//!
//! | File | Contents |
//! |---|---|
//! | `metrics.rt` | [`Metrics`]: the counters of a run, and their text |
//! | `answers.rt`, `link_status.rt` | the answers to `counters` and `counters NUMBER`; the status of a link, and the answer to `links` |
//! | `event.rt`, `peer.rt`, `recent.rt` | the events of a run and their lines; the peer of a link; the last events |
//! | `page.rt` | the page for a browser, and its history |
//! | `watched_run.rt`, `health.rt` | the run as its watchers see it; whether it is live, and whether it is ready |
//! | `listener.rt`, `visitor.rt` | the thread that answers HTTP; a connection of that thread |
//!
//! The layer above may rely on this: the text of the counters is `metrics_text` of `fp_metrics` for some numbers
//! ([`Metrics::text`], `specs/Numbers.antt`), and the answer to `links` has a line for each of its links
//! ([`links_answer`], `specs/Links.antt`). No contract says what is counted meanwhile, or speaks of the octets of a
//! connection: `tools/counters`, `tools/metrics` and `tools/page` compare them with the log.
#![tactic(auto)]

mod answers;
mod event;
mod health;
mod link_status;
mod listener;
mod metrics;
mod page;
mod peer;
mod recent;
mod visitor;
mod watched_run;

pub use answers::number_answer;
pub use event::{Event, TimedEvent, Version, Wanted};
pub use health::Watch;
pub use link_status::{LinkStatus, links_answer};
pub use listener::{Listening, MetricsListener, Watched};
pub use metrics::Metrics;
pub use peer::{Peer, PeerName};
pub use recent::RecentEvents;
pub use watched_run::WatchedRun;
