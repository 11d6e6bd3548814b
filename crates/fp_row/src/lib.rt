//! One dialogue of a link: the entries that it accepted, how many of them were served, and how many of their requests
//! were sent (the transaction of ITU-T Q.774, clause 3, seen from its service logic).
//!
//! The layer is handed entries, moments, served turns and reports of sent frames, and gives the state of the dialogue.
//! Entries are served in one of two ways, with the same result: you take a [`Turn`] out, serve it on any thread and
//! give its [`Done`] back; or [`Row::serve_next`] does all three in the row, without a copy of the entries. It asks the
//! system only for memory.
//!
//! * [`Row`] is one dialogue: all entries that it accepted, in order, how many of them were served, and how many are
//!   out as a turn; its core after those that were served; how many of its requests were accepted for
//!   sending, how many of these are kept, and how many were sent.
//! * [`Turn`] has the next entries of a dialogue, at most sixteen, one turn at a time. [`Done`] is a served turn: how
//!   many of its entries were served, up to the first after which the dialogue is over, the core after those, and the
//!   frames of their requests. You must spend both: neither may be dropped, so that no entry gets lost unseen. They are
//!   small: their cores are on the heap.
//! * [`Rows`] is a finite map from local transaction identifier to row; putting a row back under its identifier changes
//!   nothing ([`putting_back_changes_nothing`]).
//!
//! | State | When |
//! |---|---|
//! | admitted | the core isn't over, and the dialogue wasn't ended from outside: by its peer, or closed |
//! | ready | an entry waits, and no turn is out; no entry waits once the dialogue was closed or its core is over |
//! | due | it is admitted, no Clock waits or is out, and the earliest moment when a Clock does something is reached |
//! | held | it is admitted, or an entry waits, or a turn is out, or a request is kept that wasn't sent |
//!
//! The layer above may rely on the type of a [`Row`]: the entries served are the first of those accepted, none after
//! the one that ends the dialogue; its core is the service step's after them; its counts are of the requests of those
//! entries; and a turn that is out has the next entries. The type of a [`Done`] guarantees that the entries served are
//! those up to the first after which the dialogue is over, that its core is the service step's after them, and that its
//! frames are those of their requests, under the turn's own identifiers. The laws [`rows_keep_their_order`] and
//! [`turns_are_served_by_the_step`] state this.
#![tactic(auto)]

mod done;
mod ending;
mod heap_core;
mod identifier_hash;
mod laws;
mod lists;
mod request_frame;
mod request_frames;
mod requested;
mod row;
mod rows;
mod served_turn;
mod serving;
mod turn;

pub use done::Done;
pub use ending::Ending;
pub use laws::{
    after_is_one, putting_back_changes_nothing, rows_keep_their_order, turns_are_served_by_the_step,
};
pub use request_frame::RequestFrame;
pub use request_frames::RequestFrames;
pub use requested::Requested;
pub use row::Row;
pub use rows::Rows;
pub use served_turn::ServedTurn;
pub use turn::Turn;
