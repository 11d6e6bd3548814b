//! The answers of a run to an operator's tools over HTTP: its numbers in the text format of Prometheus, and its health.
//!
//! The layer is handed the counters of each link and the health of the run, and gives texts and answers. It asks the
//! system only for memory. The caller moves the octets of a connection.
//!
//! * [`metrics_text`]: the numbers of a run and its links, as a text.
//! * [`number_text`]: the counters of a called number, as a text.
//! * [`answer_to`]: the answer to a request, by its method and its path.
//! * [`Pages`]: the answers as a service of the kit's `http_server`.
//!
//! The layer above may rely on this: the text is `metrics_text` of `specs/Text.antt`. Each name and label in it is a
//! fixed text, except the version, the digest of the records and the numbers of links. The text of a called number is
//! `number_text` of `specs/Number.antt`; only the number in it isn't fixed. An answer is `answer_to` of
//! `specs/Answer.antt`, and is the response that is sent.
#![tactic(auto)]

mod answer;
mod gauge;
mod number;
mod pages;
mod series;
mod text;
mod times;

pub use answer::{Answer, Health, answer_to};
pub use gauge::Gauges;
pub use number::{NUMBER_COUNTERS, number_counters, number_text};
pub use pages::Pages;
pub use text::{LinkNumbers, RunNumbers, metrics_text};
