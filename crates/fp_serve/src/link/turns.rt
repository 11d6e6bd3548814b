//! The workers of a link.

use crate::link::Link;
use crate::system::System;
use fp_hub::{Gate, Hints, Seat};
use std::sync::ledger::Ledger;

/// A gate that passes `gate`, and then moves log lines of the link if many wait: a thread that serves adds most of
/// them.
#[derive(Drop)]
pub(crate) struct LineGate<'x, R, G: Gate, A: Ledger, B: Ledger, C: Ledger> {
    pub(crate) link: Link<'x, R, A, B, C>,
    pub(crate) gate: &'x G,
}

impl<R: System, G: Gate, A: Ledger, B: Ledger, C: Ledger> Gate for LineGate<'_, R, G, A, B, C> {
    fn pass(&self, link: u8, birth: u64, position: u64) {
        self.gate.pass(link, birth, position);
        self.link.log.move_lines_if_many();
    }

    fn after_hold(&self) {
        self.gate.after_hold();
        self.link.log.move_lines_if_many();
    }
}

impl<'x, R: System, A: Ledger, B: Ledger, C: Ledger> Link<'x, R, A, B, C> {
    /// Serves turns until the hub is closed, as a worker that passes this gate. Returns the seat, with its counts.
    pub(crate) fn serve_turns<G: Gate>(
        self,
        gate: &'x G,
        hints: Hints,
        seat: Seat<A, B, C>,
    ) -> Seat<A, B, C> {
        let Link { run, hub, .. } = self;
        let gate = LineGate { link: self, gate };
        hub.worker(run.rt, run.service.alloc, hints, &gate, seat)
    }
}
