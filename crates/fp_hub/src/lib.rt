//! The book of a link under its lock, which all threads of the link share.
//!
//! The layer is handed prepared frames, moments, served turns and reports of sent frames by its threads. It asks the
//! system only for memory, locks and sleep, and, if a wait has a bound, how much time went by. It starts no thread and
//! knows no socket and no time of day: the layer above does.
//!
//! * [`Hub`] is the book of one link under its lock. Each of its ten calls that change the book, [`Hub::post`],
//!   [`tick`](Hub::tick), [`take`](Hub::take), [`give`](Hub::give), [`put_back`](Hub::put_back), [`pick`](Hub::pick),
//!   [`sent`](Hub::sent), [`unsent`](Hub::unsent), [`down`](Hub::down) and [`drain`](Hub::drain), takes the lock once,
//!   makes the one call of the book of that name, and releases it. So do [`Hub::tick_and_look`], which also returns the
//!   state of the book, and [`Hub::exchange_log`], which hands out all lines of the log for an empty one.
//! * Four calls make several of these steps in one hold, a bounded number of them, each by one call of the book:
//!   [`Hub::post_front`] posts messages of one read, each unless it is held back, [`Hub::give_and_take`] takes back
//!   turns and hands out the share of a worker, [`Hub::serve_front`] serves turns in their places, each by a take and a
//!   give, and [`Hub::reports`] holds the lock for up to 64 reports, each of which takes back a parcel and hands out the
//!   next one.
//! * [`Kept`] is the state under the lock: the book, and the books of three ledgers (of components accepted, entries
//!   served and frames sent), whose totals its type keeps equal to the book's.
//! * `Hold` (`src/hold.rt`) is the lock while it is held. Its release publishes how full the log is.
//! * [`Seat`] is a thread's share of the three ledgers. The first one has all 64 parts. It is split among the threads
//!   of the link. Each thread counts its own work in its seat, and the seats are joined again when the threads have
//!   ended.
//! * [`Hub::worker`] serves turns: it waits for a hint, and then takes, serves and gives until no turn is ready. Before
//!   it serves a turn it passes a [`Gate`], with no lock held. [`Hub::help`] serves turns in their places by a thread
//!   that isn't a worker, up to a bound.
//! * [`finish`] returns the totals of the link, if all parts were joined.
//! * [`Tables`] is the records that all links of a run answer from, under a lock of their own: they may be replaced
//!   while the links run.
//!
//! | Thread | Calls | Waits for |
//! |---|---|---|
//! | receiving | [`Hub::post_front`], then [`Hub::help`], and [`Hub::pick`], [`Hub::reports`] or [`Hub::tell_sender`]; [`Hub::exchange_log`] | the socket; room, by [`Hub::await_room`]; at the end of the input quiet, by [`Hub::await_quiet`] |
//! | worker | [`Hub::give_and_take`], [`Hub::hint`] if it leaves a dialogue ready, [`Turn::serve`](fp_row::Turn::serve) | a hint |
//! | sending | [`Hub::await_parcel`], then [`Hub::reports`] until nothing is left, or [`Hub::unsent`] | a parcel |
//! | clock | [`Hub::rest`], then [`Hub::tick_and_look`] and [`Hub::hint`], [`Hub::exchange_log`] or [`Hub::drain`] | the time, [`LINES_OF_A_REST`] lines of the log, or the end of the link |
//!
//! | Wait | Who wakes it |
//! |---|---|
//! | for a hint | [`Hub::hint`], also by [`Hub::worker`] and [`Hub::help`] if they leave a dialogue ready, and by [`Hub::hint_after_no_room`], which [`Hub::await_parcel`] calls too, after a take found no place; [`Hub::close`] |
//! | for a parcel | a post that queued an Abort of the provider, a give that queued a frame, sent, unsent, down; after [`Hub::post_front`], [`Hub::serve_front`] and [`Hub::give_and_take`] the caller, by [`Hub::tell_sender`] |
//! | for room, for quiet | each give, also of a turn that requests nothing or whose request is dropped, and put_back, a pick that hands out a parcel, sent, unsent, down; each also among several steps |
//! | of the clock | the time, [`LINES_OF_A_REST`] lines of the log, unsent, down |
//!
//! A thread that awaits room looks again each second, and one that awaits quiet has a bound that the caller gives.
//!
//! Each of them waits for the lock too, which is held for a bounded number of calls of the book (64 posts, 32 turns
//! taken back and 32 handed out, 32 served in their places, 64 reports), never while a worker serves a turn, and never
//! while a socket is written.
//!
//! The layer above may rely on this. The book under a lock is sound at each hold (`Sound` of `fp_book`), and each call
//! of [`Kept`] changes it as the book's call does; one of several steps changes it by the chain of these
//! (`specs/Holds.antt`). A seat grows by exactly the counts that the book adds in a call with this seat: the message's
//! components if it was accepted, the entries served if the turn isn't returned, one frame if a dialogue's parcel isn't
//! returned. The book's totals are never less than a seat's amounts. A split moves no amount, a join adds both. So
//! [`finish`] returns the totals of the book, and these are the sums of the threads' counts. No contract says that a
//! call of a [`Hub`] makes the book's call, since no clause names the changes of another thread: the tests in
//! `tests_hub` and `tests_walks` show it.
#![tactic(auto)]

mod clocked;
mod finishing;
mod gate;
mod hints;
mod hold;
mod hub;
mod kept;
mod next;
mod resting;
mod seat;
mod tables;
mod work;
mod workers;

pub use clocked::AfterTick;
pub use finishing::finish;
pub use gate::{Gate, OpenGate};
pub use hints::Hints;
pub use hub::{Hub, Reports};
pub use kept::Kept;
pub use next::{Next, SentAndNext};
pub use resting::{LINES_OF_A_REST, LINES_OF_A_TEXT};
pub use seat::{PARTS, Seat};
pub use tables::Tables;
pub use work::{Stopped, Work, Worked};
pub use workers::abandon_all;
