//! The commands that a run takes while it serves links.

ghost use Rattle.std.specs.Prelude.{◌≤◌, IfOk};

use crate::fault::RunFault;
use crate::run::records_in;
use fp_hub::Tables;
use fp_records::Table;
use fp_serve::{Event, Events, Metrics, Operator, Refusal, ServeFault};
use sha2::{Digest, Sha256};
use std::fmt;
use std::io::Write;
use std::rt::{Clock, Files};
use std::sync::{Arc, Wait};

/// Reads the records of a run again from their file, and writes the faults of commands, a line each.
#[derive(Drop)]
pub(crate) struct Console<'a, H, E> {
    pub(crate) rt: &'a H,
    // The path of the records.
    pub(crate) records: &'a str,
    pub(crate) events: &'a Events,
    // The counters, if the run has them.
    pub(crate) metrics: &'a Option<Arc<Metrics>>,
    pub(crate) errors: &'a mut E,
}

impl<H: Files + AllocGlobal + Wait + Clock, E: Write> Console<'_, H, E> {
    /// Writes a line in one piece, so that no event gets between its parts. If memory runs out for it, writes `out of
    /// memory` instead. Text that can't be written is left out.
    fn say<D: fmt::Display + Drop>(&mut self, text: D) {
        let _ = match format!(in self.rt.alloc(); "{text}\n") {
            Ok(line) => self.errors.write_all(line.as_bytes()),
            Err(_) => self.errors.write_all(b"out of memory\n"),
        };
        let _ = self.errors.flush();
    }

    /// Reads the records again, and reports the index of the new table and the digest of their file as an event.
    fn reread(&self, tables: &Tables) -> Result<u32, RunFault>
        ensures { IfOk result (λ index. (1 ≤ index) × (index ≤ tables.now)) }
    {
        let text = records_in(self.rt, self.records)?;
        let digest = Sha256::digest(text.as_slice());
        let table = Table::read_and_free(self.rt.alloc(), text)?;
        let counts = table.counts();
        let Some(index) = tables.reload(self.rt, table) else {
            return Err(RunFault::RefusedReload);
        };
        self.events
            .report(self.rt, Event::Reloaded { index, digest });
        if let Some(metrics) = self.metrics {
            metrics.note_reload(self.rt, digest, counts);
        }
        Ok(index)
    }
}

impl<H: Files + AllocGlobal + Wait + Clock, E: Write> Operator for Console<'_, H, E> {
    fn reload(&mut self, tables: &Tables) -> Option<u32> {
        match self.reread(tables) {
            Ok(index) => Some(index),
            Err(fault) => {
                self.say(fault);
                None
            }
        }
    }

    fn refuse(&mut self, refusal: Refusal) {
        self.say(refusal);
    }

    fn fail(&mut self, fault: ServeFault) {
        self.say(fault);
    }
}
