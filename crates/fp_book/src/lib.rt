//! All dialogues of a link (the transaction sublayer of ITU-T Q.774, clause 3): each event of the link is one call of
//! its book.
//!
//! The layer is handed prepared messages, moments, served turns and reports of sent frames, and answers with the next
//! thing to do. It knows no clock, no thread and no socket, and asks the system only for memory. [`Book::new`] reserves
//! memory that never grows. Afterwards only [`Book::post`] (or [`Book::post_with_receipt`]), [`Book::tick`],
//! [`Book::take`] and [`Book::serve`] take memory.
//!
//! | Call | Event | Answer |
//! |---|---|---|
//! | [`Book::post`] | a message | [`Posted`]: its outcome |
//! | [`Book::post_with_receipt`] | a message | [`Receipt`]: its outcome, counts, and whether memory ran out |
//! | [`Book::tick`] | a moment | [`Ticked`]: how many dialogues were given a Clock |
//! | [`Book::take`] | a worker is free | [`Taken`]: the turn of the longest ready dialogue, or why there is none |
//! | [`Book::serve`] | the receiver is free | [`InPlace`]: a take, the service steps and a give in one, or why not |
//! | [`Book::give`] | a turn that was served | [`Given`]: the outcome of its requests |
//! | [`Book::put_back`] | a turn that wasn't served | |
//! | [`Book::pick`] | the link may send | [`Picked`]: the parcel that is sent next, or why there is none |
//! | [`Book::sent`], [`Book::unsent`] | the parcel was sent, or couldn't be | |
//! | [`Book::down`] | the link is gone | |
//! | [`Book::is_down`] | | whether the link is down |
//! | [`Book::drain`] | room for lines | the oldest lines of the log |
//! | [`Book::exchange_log`] | an empty log | all lines of the log, and their link |
//! | [`Book::holds_back`] | a message | whether it should be posted later: the cause against it goes away |
//! | [`Book::is_quiet`] | | whether nothing is left to be served or sent |
//! | [`Book::entry_count`] | | how many entries the dialogues that are held keep |
//! | [`Book::totals`] | | [`Totals`]: components accepted, entries served, frames sent |
//! | [`Book::status`] | | [`Status`]: whether the link is down, these totals, and how many dialogues it holds |
//!
//! A dialogue is *admitted* from its Begin until its core is over, its peer's End or Abort is accepted, a message for
//! it is refused, or its link goes down; it is *closed* by the last two of these. It is *ready* when an entry of it
//! waits and no turn of it is out, and *held* as long as it is admitted, an entry or a frame of it waits, or a turn or
//! a parcel of it is out. A dialogue that is no longer held is forgotten, except in the totals; its identifier may be
//! given to another dialogue, after many others ([`serials_of_dialogues_come_back_late`]). So the log names a dialogue
//! by its *birth*: its number among those that the link opened.
//!
//! You must spend each [`Turn`](fp_row::Turn) and [`Parcel`]. One that you give back is compared with the one that is
//! out; a stale or foreign one is returned and changes nothing. A dialogue whose turn or parcel was abandoned stays
//! held.
//!
//! The cost of a call, by the number of held dialogues: `post`, `take`, `serve`, `give`, `put_back` and `sent` look one
//! of them up by hash. A deadline that is set, cleared or changed is found at an end of a lane, or by halves, and then
//! 16 octets move for each one between its place and the nearer end of that lane: next to none for the oldest and the
//! newest. A Begin that makes the rows grow moves all of them. `tick` pays this for each dialogue that is due, and
//! looks at four deadlines, twice, if none is. `entry_count`, `down`, `unsent`, and a tick that runs out of memory, go
//! through all dialogues. A message that is refused or ends its dialogue goes through the waiting frames only if one of
//! them is that dialogue's, and through the order of service only if that dialogue is in it. No other cost grows with
//! other dialogues: an identifier is given by a count or from the front of a queue, and its serial goes to the back of
//! that queue once the dialogue is no longer held.
//!
//! [`Log`], [`Outbox`] and [`ReadyQueue`] are parts of a book, public so that worked cases can try each alone. The
//! layers above use only [`Log`] of these, as the list that they exchange.
//!
//! The layer above may rely on this: contracts see a [`Book`] as a `Shelf` (`specs/Shelf.antt`), and its type keeps the
//! invariant `Sound`. Identifiers are the link's, each of a serial that isn't free meanwhile, and births are distinct.
//! For each dialogue, the frames sent, being sent and waiting are the kept ones of the frames that its served entries
//! request (its [`Row`](fp_row::Row) keeps the rest of it). Each ready dialogue is once in the order of service. All
//! limits hold, and no total is below the sum over the held dialogues. Each call states the whole shelf afterwards
//! (`specs/Calls.antt`), so that the totals are the sums over the dialogues held and those gone. The first matching
//! rule of `specs/Rules.antt` applies to a message. The clauses named `known` state that a stale or foreign turn or
//! parcel is returned, and the right one never. Laws that follow:
//!
//! * [`read_messages_have_few_entries`]: a message that was read has at most one entry more than it has elements.
//! * [`births_are_distinct`]: no two held dialogues have the same birth.
//! * [`serials_of_dialogues_come_back_late`]: the serial of a dialogue is given again after at least 126,976 others,
//!   all serials but [`Book::MOST_DIALOGUES`].
//! * [`dialogues_are_kept_in_order`]: the served, out and waiting entries of each held dialogue are those accepted; and
//!   the sent, being sent and waiting frames are those that it requests on the entries served, each unsent one under
//!   its birth. If it was closed, is over or was ended from outside, they are the first of these.
#![tactic(auto)]

mod answers;
mod book;
mod dialogues;
mod holding;
mod in_place;
mod laws;
mod line;
mod log;
mod outbox;
mod parcel;
mod posting;
mod ready_queue;
mod rules;
mod sending;
mod sending_out;
mod serving;
mod status;
mod taken;
mod ticked;
mod ticking;
mod totals;
mod verdict;

pub use answers::{Given, Posted, Receipt};
pub use book::Book;
pub use in_place::InPlace;
pub use laws::{
    births_are_distinct, clocks_keep_a_book_sound, dialogues_are_kept_in_order,
    going_down_keeps_a_book_sound, messages_keep_a_book_sound, read_messages_have_few_entries,
    sending_keeps_a_book_sound, serials_of_dialogues_come_back_late, steps_are_told_or_counted,
    turns_keep_a_book_sound,
};
pub use line::{Line, LoggedStep};
pub use log::Log;
pub use outbox::Outbox;
pub use parcel::{Parcel, Picked};
pub use ready_queue::ReadyQueue;
pub use rules::{Facts, Rule};
pub use status::Status;
pub use taken::Taken;
pub use ticked::Ticked;
pub use totals::Totals;
pub use verdict::Verdict;
