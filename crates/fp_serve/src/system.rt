//! The needs of a run from the system, besides sockets and memory.

use crate::run::ServeFault;
use std::rt::Clock;
use std::sync::Wait;
use std::thread;
use std::thread::Threads;

/// The system as a run needs it: it starts threads, which wait and know the time.
pub trait System: Threads + Wait + Clock {}

impl<R: Threads + Wait + Clock> System for R {}

/// Starts a thread that belongs to no scope: nobody joins it, and the end of the program may cut it off.
pub(crate) fn start_thread<R: Threads, F: FnOnce() + Send + 'static>(
    rt: &R,
    work: F,
) -> Result<(), ServeFault>
    requires { F.pre work }
{
    match thread::spawn(rt, work) {
        Ok(_) => Ok(()),
        Err(_) => Err(ServeFault::NoThread),
    }
}
