//! The threads of a link: their start and their end.

ghost use Rattle.fp_hub.specs.Shares.{Whole};

use crate::link::Link;
use crate::run::ServeFault;
use crate::system::System;
use fp_hub::{Gate, Seat};
use fp_linkstate::LinkEvent;
use std::sync::ledger::Ledger;
use std::thread;
use std::thread::{JoinHandle, Scope};

/// The threads of a link, while they are started.
#[derive(Drop)]
struct Starting<
    's,
    E: 's,
    R: 's,
    A: Ledger + Send + Sync + 's,
    B: Ledger + Send + Sync + 's,
    C: Ledger + Send + Sync + 's,
> {
    scope: &'s Scope<'s, E>,
    link: Link<'s, R, A, B, C>,
    // The rest of the link's seat: each thread but the clock gets a part of it.
    seat: Seat<A, B, C>,
    // The threads that have a seat.
    handles: Vec<JoinHandle<Seat<A, B, C>>>,
    // The reason why a thread wasn't started.
    fault: Option<ServeFault>,
}

impl<
    's,
    E: 's,
    R: System + Sync + 's,
    A: Ledger + Send + Sync + 's,
    B: Ledger + Send + Sync + 's,
    C: Ledger + Send + Sync + 's,
> Starting<'s, E, R, A, B, C> {
    /// No thread yet, and room for the handles of the workers, the sending and the receiving thread.
    fn new(
        scope: &'s Scope<'s, E>,
        link: Link<'s, R, A, B, C>,
        seat: Seat<A, B, C>,
    ) -> Starting<'s, E, R, A, B, C> {
        let mut handles = Vec::new(link.run.service.alloc);
        let most = usize::from(link.run.settings.workers) + 2;
        let fault = match handles.reserve(most) {
            Ok(()) => None,
            Err(_) => Some(ServeFault::Memory),
        };
        Starting {
            scope,
            link,
            seat,
            handles,
            fault,
        }
    }

    /// Notes why a thread wasn't started, unless there was a fault before.
    fn fail(&mut self, fault: ServeFault) {
        self.fault = self.fault.or(Some(fault));
    }

    /// A part of the seat, for a thread.
    fn split(&mut self) -> Option<Seat<A, B, C>> {
        let seat = self.seat.split();
        if seat.is_none() {
            self.fail(ServeFault::LostSeat);
        }
        seat
    }

    /// Keeps a thread to be joined, if it was started. There is room for its handle, unless memory ran out for it: then
    /// the link is ended anyway.
    fn keep(&mut self, handle: Option<JoinHandle<Seat<A, B, C>>>) {
        match handle {
            Some(handle) => {
                let _ = self.handles.push(handle);
            }
            None => self.fail(ServeFault::NoThread),
        }
    }

    /// Starts a worker, which passes this gate with each turn.
    fn start_worker<G: Gate + Sync>(&mut self, gate: &'s G) {
        let Ok(hints) = self.link.hub.hints() else {
            self.fail(ServeFault::Memory);
            return;
        };
        let Some(seat) = self.split() else {
            return;
        };
        let link = self.link;
        let run = move || link.serve_turns(gate, hints, seat);
        let handle = self.scope.spawn(run).ok();
        self.keep(handle);
    }

    /// Starts the workers, the sending thread and the clock, which has no seat; and, if all of these were started, the
    /// receiving thread. The workers and the receiving thread pass this gate. Returns the clock.
    fn start_all<G: Gate + Sync>(&mut self, gate: &'s G) -> Option<JoinHandle<()>> {
        let link = self.link;
        for _ in 0..link.run.settings.workers {
            self.start_worker(gate);
        }
        if let Some(seat) = self.split() {
            let handle = self.scope.spawn(move || link.send_all(seat)).ok();
            self.keep(handle);
        }
        let clock = self.scope.spawn(move || link.keep_time()).ok();
        if clock.is_none() {
            self.fail(ServeFault::NoThread);
        }
        if self.fault.is_none()
            && let Some(seat) = self.split()
        {
            let handle = self.scope.spawn(move || link.receive_all(gate, seat)).ok();
            self.keep(handle);
        }
        clock
    }
}

impl<
    'x,
    R: System + Sync,
    A: Ledger + Send + Sync,
    B: Ledger + Send + Sync,
    C: Ledger + Send + Sync,
> Link<'x, R, A, B, C> {
    /// Runs the threads of the link until it is down and they have ended. Returns the seat that all their seats were
    /// joined into.
    pub(crate) fn run_threads<G: Gate + Sync>(
        self,
        gate: &'x G,
        seat: Seat<A, B, C>,
    ) -> Seat<A, B, C>
        requires whole { Whole A.parts B.parts C.parts }
    {
        let link = self;
        let run = link.run;
        thread::scope(
            thread::scope_env(),
            run.rt,
            move |scope| -> Seat<A, B, C>
                requires { Whole A.parts B.parts C.parts }
            {
                let mut starting = Starting::new(scope, link, seat);
                let clock = starting.start_all(gate);
                let Starting {
                    mut seat,
                    handles,
                    fault,
                    ..
                } = starting;
                if let Some(fault) = fault {
                    run.stop.ask_for(run.rt, fault);
                    link.meet(LinkEvent::RunFault { why: fault.why() });
                }
                for handle in handles {
                    seat.join(handle.join(run.rt));
                }
                if let Some(handle) = clock {
                    handle.join(run.rt);
                }
                seat
            },
        )
    }
}
