//! One message after another: a book is handed messages and moments. For each of them all entries are served and all
//! frames sent before the next one.
//!
//! The layer is handed the records, the names of application contexts, the tag of the run, a moment, a reader and a
//! writer, and asks the system only for memory.
//!
//! * [`ask_with_tag`] answers the lines of a reader: it reads its lines with `fp_streams::follow_lines`. [`ask`] does
//!   so in a run without a tag.
//! * [`Session`] is the link: [`Session::post`] takes a message that was prepared, and [`Session::tick`] a moment.
//! * [`SentFrame`] is a frame that was sent, with its head.
//!
//! Turns and parcels of the book never leave one call. If memory runs out while a message is posted, the receipt of the
//! book says so. The log of the book is emptied after each call, and nobody reads it.
//!
//! The layer above may rely on this: the frames sent are those of `post` and `tick` of `specs/Solo.antt`, a definition
//! over a plain list of dialogues and the serials that may be given to the next ones. It knows no waiting entry, no
//! turn and no position. The text that [`ask_with_tag`] writes is defined in `specs/Lines.antt` for the lines of its
//! input, one after another. `specs/Asked.antt` states which reads were made, one by one. A session's clauses hold for
//! every list that describes it before (`specs/Tied.antt`), and say that the list still describes it after; at the
//! beginning the empty list does. After an error no clause speaks of a session.
#![tactic(auto)]

mod answerer;
mod answering;
mod engine;
mod fault;
mod input;
mod laws;
mod line;
mod link;
mod output;
mod refusal;
mod sent_frame;
mod session;

pub use fault::AskFault;
pub use input::{ask, ask_with_tag};
pub use laws::lines_have_one_text;
pub use sent_frame::SentFrame;
pub use session::Session;
