//! A page for an operator with the health of a run: an HTML text for a browser, without scripts.
//!
//! The layer is handed the counters of each link, their history and the last events, and gives a text. It asks the
//! system for nothing but memory: it has no clock, no lock and no socket.
//!
//! * [`page_text`]: the page of a run, [`PageNumbers`].
//! * [`History`]: the history of a number over the last minute, hour and day, in bounded memory. Each is a [`Span`].
//! * [`Trouble`]: a fault of a run. [`troubles_of`] are all of them, and the page begins with the advice for each.
//!
//! The layer above may rely on this: `escaped` of `specs/Escaped.antt` has no marks, and no two texts have the same
//! octets there. A place of a span has the count of its period, by the totals that were noted (`specs/Spans.antt`). The
//! troubles are `troubles_of` of `specs/Troubles.antt`. No contract speaks of the page's text: the types of
//! `src/html.rt` guarantee that a text from outside this program is there only as `escaped`, and the cases of
//! `cases_links` show the page octet by octet.
#![tactic(auto)]

mod answers;
mod bars;
mod curves;
mod escaping;
mod events;
mod heading;
mod history;
mod html;
mod limits;
mod links;
mod names;
mod numbers;
mod page;
mod spans;
mod style;
mod times;
mod trouble_texts;
mod troubles;

pub use escaping::{escaped, escapes_mark_nothing};
pub use history::History;
pub use names::{aborts_sent, components_sent};
pub use numbers::{LinkView, PageNumbers, RunHistory};
pub use page::page_text;
pub use spans::Span;
pub use troubles::{Trouble, troubles_of};
