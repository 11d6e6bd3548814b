//! Worked cases from octets to the service logic, one a line: `INPUT => WANTED`. The library `cases` defines how they
//! are written and compared. The first word of a case names the reader, the writer or the call that it tests; each
//! module has a table of these. Some cases continue from the one before: a scene keeps the state that they need.
//!
//! | Module | Subject |
//! |---|---|
//! | `ber` | elements of X.690 and their spellings |
//! | `numbers` | numbers, causes and moments |
//! | `frames` | frames and their heads |
//! | `unit_data` | messages of SCCP, addresses, and returned messages |
//! | `connections` | messages of IPA, and the connections that carry them |
//! | `network` | links to a signalling network |
//! | `nodes` | nodes: their connections and their link, octet by octet |
//! | `messages` | messages and components of TCAP, their identifiers |
//! | `portions` | the dialogue portion |
//! | `streams` | the lines of a reader, and octets written whole |
//! | `arguments` | operations of INAP and their arguments |
//! | `records` | files of records, their faults, and the choice of a rule |
//! | `invocations` | the invocations of a dialogue: outcomes, identifiers, time limits |
//! | `entries` | the entries that a message gives its dialogue |
//! | `steps` | the service step, entry by entry |
//! | `dialogues` | whole dialogues, from frame to frame |
//! | `deadlines` | deadlines by local identifier, and the identifiers that a link hands out |
//!
//! `elements` reads elements from text, and `values` moments, numbers, names, frames and identifiers. `texts` has the
//! writers that several modules share. `kinds` has the kinds of entries, and `rows` files of records that grow row by
//! row.
#![tactic(auto)]

mod arguments;
mod ber;
mod connections;
mod deadlines;
mod dialogues;
mod elements;
mod entries;
mod frames;
mod invocations;
mod kinds;
mod messages;
mod network;
mod nodes;
mod numbers;
mod portions;
mod records;
mod rows;
mod steps;
mod streams;
mod texts;
mod unit_data;
mod values;

use cases::{Answer, Answers, first_word};
use std::alloc::Global;

/// Answers the cases, and keeps the state that cases leave for later ones.
#[derive(Drop)]
struct Scene {
    alloc: Global,
    records: records::Scene,
    invocations: invocations::Scene,
    entries: entries::Scene,
    steps: steps::Scene,
    dialogues: dialogues::Scene,
}

/// Writes the result of a case without a scene. `false` if no module has cases of this kind.
fn plain(alloc: Global, kind: &str, rest: &str, out: &mut Answer) -> bool {
    ber::answer(alloc, kind, rest, out)
        || numbers::answer(alloc, kind, rest, out)
        || frames::answer(alloc, kind, rest, out)
        || unit_data::answer(alloc, kind, rest, out)
        || connections::answer(alloc, kind, rest, out)
        || network::answer(alloc, kind, rest, out)
        || nodes::answer(alloc, kind, rest, out)
        || messages::answer(alloc, kind, rest, out)
        || portions::answer(alloc, kind, rest, out)
        || streams::answer(alloc, kind, rest, out)
        || arguments::answer(alloc, kind, rest, out)
        || deadlines::answer(alloc, kind, rest, out)
}

impl Scene {
    /// Writes the result of a case with a scene. `false` if no module has cases of this kind.
    fn of_scene(&mut self, kind: &str, rest: &str, out: &mut Answer) -> bool {
        let alloc = self.alloc;
        self.records.answer(alloc, kind, rest, out)
            || self.invocations.answer(kind, rest, out)
            || self.entries.answer(alloc, kind, rest, out)
            || self.steps.answer(alloc, kind, rest, out)
            || self.dialogues.answer(alloc, kind, rest, out)
    }
}

impl Answers for Scene {
    fn answer(&mut self, input: &str, out: &mut Answer) {
        let (kind, rest) = first_word(input);
        if !plain(self.alloc, kind, rest, out) && !self.of_scene(kind, rest, out) {
            out.fail("no such case");
        }
    }
}

/// The state before the first case.
fn first(alloc: Global) -> anyhow::Result<Scene> {
    let entries = entries::Scene::new(alloc)?;
    Ok(Scene {
        alloc,
        records: records::Scene::new(),
        invocations: invocations::Scene::new(),
        entries,
        steps: steps::Scene::new(alloc),
        dialogues: dialogues::Scene::new(alloc),
    })
}

fn main(rt: HostRuntime) -> anyhow::Result<()> {
    let mut scene = first(rt.alloc())?;
    cases::run(&rt, &mut scene)
}
