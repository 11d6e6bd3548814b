//! The service step, entry by entry. A scene keeps the records and the core of a dialogue from one case to the next.
//!
//! | Case | Result |
//! |---|---|
//! | `step-table HEAD` | begins a file of records with this first record: how many numbers and rules it has |
//! | `step-row ROW` | adds this record to the file: the same |
//! | `fresh`, `fresh BIRTH MS` | the core of a new dialogue, the BIRTH-th of its link (else the first), with its Begin MS milliseconds after noon (else at noon) |
//! | `step MS ENTRY` | the core after this entry, MS milliseconds after noon, and then the request |
//! | `core keep` | `kept`: the core is kept |
//! | `again MS ENTRY` | as `step`, from the kept core |
//! | `core compare` | whether the core is the `same` as the kept one, or `different` |
//! | `core itself` | the same, for the core and itself |
//!
//! Noon is 2024-05-06T12:00:00Z, a Monday. `kinds` has the entries, `shown` cores and requests.

mod shown;

use crate::kinds::kind_of;
use crate::rows::Rows;
use crate::steps::shown::{push_core, push_served};
use crate::values::after_noon;
use cases::{Answer, first_word, number_of};
use fp_entry::{Entry, EntryKind};
use fp_service::{Core, step};
use std::alloc::Global;

/// The state that cases leave for later ones.
#[derive(Drop)]
pub(crate) struct Scene {
    rows: Rows,
    core: Core,
    kept: Core,
}

impl Scene {
    /// The state before the first case: no records.
    pub(crate) fn new(alloc: Global) -> Scene {
        Scene {
            rows: Rows::new(alloc),
            core: Core::new(1, after_noon(0)),
            kept: Core::new(1, after_noon(0)),
        }
    }

    /// Writes the result of a case of this kind. `false` if this module has no such cases.
    pub(crate) fn answer(
        &mut self,
        alloc: Global,
        kind: &str,
        rest: &str,
        out: &mut Answer,
    ) -> bool {
        match kind {
            "step-table" => self.rows.begin(alloc, rest, out),
            "step-row" => self.rows.push(alloc, rest, out),
            "fresh" => self.fresh(rest, out),
            "step" => self.step(alloc, rest, out),
            "again" => self.step_again(alloc, rest, out),
            "core" => self.whole(rest, out),
            _ => return false,
        }
        true
    }

    /// Begins a dialogue, and writes its core.
    fn fresh(&mut self, text: &str, out: &mut Answer) {
        self.begin(if text.is_empty() { "1 0" } else { text }, out);
        push_core(&self.core, out);
    }

    /// Begins a dialogue. The text has its number on its link, and its moment in milliseconds after noon.
    fn begin(&mut self, text: &str, out: &mut Answer) {
        let (birth, milliseconds) = first_word(text);
        let birth: u64 = number_of(birth, out);
        let moment = after_noon(number_of(milliseconds, out));
        self.core = Core::new(birth, moment);
    }

    /// Serves an entry.
    fn step(&mut self, alloc: Global, text: &str, out: &mut Answer) {
        let (milliseconds, kind) = first_word(text);
        let moment = after_noon(number_of(milliseconds, out));
        if let Some(kind) = self.kind(alloc, kind, out) {
            self.serve(alloc, &Entry { moment, kind }, out);
        }
    }

    /// The kind of entry that a text spells.
    fn kind(&self, alloc: Global, text: &str, out: &mut Answer) -> Option<EntryKind> {
        kind_of(alloc, self.rows.table(out)?, text, out)
    }

    /// Serves an entry from the kept core.
    fn step_again(&mut self, alloc: Global, text: &str, out: &mut Answer) {
        self.core = self.kept;
        self.step(alloc, text, out)
    }

    /// Serves an entry, and writes the core after it and the request.
    fn serve(&mut self, alloc: Global, entry: &Entry, out: &mut Answer) {
        match step(alloc, &self.core, entry) {
            Ok((core, request)) => {
                self.core = core;
                push_served(&core, &request, out);
            }
            Err(_) => out.run_out(),
        }
    }

    /// Keeps the core, or compares it with the kept one or itself.
    fn whole(&mut self, word: &str, out: &mut Answer) {
        let text = match word {
            "keep" => {
                self.kept = self.core;
                "kept"
            }
            "compare" => comparison(&self.core, &self.kept),
            "itself" => comparison(&self.core, &self.core),
            _ => "no case of a core",
        };
        out.text(text);
    }
}

/// Whether two cores are the same, compared both ways.
fn comparison(core: &Core, other: &Core) -> &'static str {
    match (core == other, other == core) {
        (true, true) => "same",
        (false, false) => "different",
        _ => "same from one side alone",
    }
}
