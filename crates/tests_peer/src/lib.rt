//! Clients of a run of `fp_serve`, for its tests: what they say and do, and what a run shares with them.
//!
//! Only `std`, `hex` and `libc` are needed here, so each function is proved over few libraries. `tests_serve` has the
//! runs and the tests.
//!
//! * [`streams`]: the output, the log, the errors and the commands of a run, in memory. [`memory`] has the writer of
//!   the output, [`device`] that of the log, which may be slow, fail or hang, and [`typed`] the reader of commands.
//! * [`acts`]: what clients do while a run goes on. [`connections`] has those that break off, come late or are refused,
//!   [`ends`] what ends a link, [`logs`] calls beside a log whose device is in trouble, and [`turns`] calls whose turns
//!   are held.
//! * [`client`]: connections. [`talk`]: messages and their answers. [`crowd`]: clients with many calls. [`unmet`]: what
//!   a client wanted, and what came.
#![tactic(auto)]

pub mod acts;
pub mod client;
pub mod connections;
pub mod crowd;
pub mod device;
pub mod ends;
pub mod logs;
pub mod memory;
pub mod streams;
pub mod talk;
pub mod turns;
pub mod typed;
pub mod unmet;
