//! A link: its threads, their shared state, and its end.
//!
//! | File | Contents |
//! |---|---|
//! | `shared.rt` | [`Link`]: the shared state, the link's end (the table of `fp_linkstate`), and its totals |
//! | `threads.rt` | the threads: their start and their end |
//! | `arrivals.rt` | the receiving thread, and how it helps |
//! | `hold_back.rt` | how long the messages of a network are held back |
//! | `lingering.rt` | how the receiving thread awaits the end of its link |
//! | `departures.rt` | the sending thread, and the waiting parcels, which the receiving thread sends too |
//! | `ticking.rt` | the clock, which takes the link down if its dialogues keep too many entries |
//! | `turns.rt` | a worker, and its part in moving lines |

mod arrivals;
mod departures;
mod hold_back;
mod lingering;
mod shared;
mod threads;
mod ticking;
mod turns;

pub(crate) use shared::{Link, Plan, run_link};
