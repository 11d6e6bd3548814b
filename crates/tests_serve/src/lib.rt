//! Tests of `fp_serve`, for those who change it: whole runs over the loopback of this machine.
//!
//! No contract follows a value through a socket, a lock or a file, or says that threads get on. These tests show that
//! each call is answered on its own link, what ends a link and what ends a run, and that the log of a run replays to
//! what its links counted. They are in a crate of their own so that `fp_serve` is proved once. `tools/attacks` plays
//! the built program, `scp serve`, in the same way.
//!
//! * `run`: a run of `fp_serve`, beside the clients of `tests_peer`, and what came of it.
//! * `links`: calls on one link or more, and connections that break off, come late or can't be accepted.
//! * `ends`: what ends a link.
//! * `logs`: logs whose device hangs, fails or is slow.
//! * `gates`: turns that pass a gate, which counts or holds them.
//! * `tables`: records that are replaced as often as they can be.
#![tactic(auto)]

#[cfg(test)]
mod ends;
#[cfg(test)]
mod gates;
#[cfg(test)]
mod links;
#[cfg(test)]
mod logs;
#[cfg(test)]
mod run;
#[cfg(test)]
mod tables;
