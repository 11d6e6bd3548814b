//! Dialogues by their local transaction identifiers.
//!
//! | Step | What it answers |
//! |---|---|
//! | `put LOCAL BIRTH` | a dialogue of this birth is put under this identifier: `put` |
//! | `fill COUNT` | COUNT are put under the identifiers from 20000001 on, their births 1, 2, 3 ..: how many there are then |
//! | `empty COUNT` | the same identifiers are removed, the first one first: how many there are then |
//! | `get LOCAL` | the birth of the dialogue under this identifier, or `none` |
//! | `remove LOCAL` | it is removed: its birth, or `none` |
//! | `count` | how many there are |
//! | `after LOCAL`, `first` | the least identifier above this one, or of all, or `none` |
//! | `found COUNT` | under how many of the identifiers of `fill COUNT` the dialogue of that birth is |
//! | `close` | all are closed, while no frame is being sent: how many are left |

use crate::texts::{moment_after, push_local};
use cases::{Answer, Steps, first_word, identifier_of, number_of, play};
use fp_q773::Tid;
use fp_row::{Row, Rows};
use std::alloc::Global;

/// The first identifier of `fill`.
const FIRST: u32 = 0x2000_0001;

/// The dialogues of a case.
#[derive(Drop)]
struct Register {
    alloc: Global,
    rows: Rows,
}

/// Writes a birth, or `none`.
fn push_birth(out: &mut Answer, birth: Option<u64>) {
    match birth {
        Some(birth) => out.value(birth),
        None => out.text("none"),
    }
}

impl Register {
    /// Puts a dialogue of this birth under an identifier, in place of the one that was there, if any.
    fn put(&mut self, local: u32, birth: u64, out: &mut Answer) {
        let row = Row::open(
            self.alloc,
            local,
            Tid::of_number(local),
            birth,
            moment_after(0),
        );
        self.rows.forget(local);
        out.note(self.rows.add(local, row));
    }

    /// Puts a dialogue of a birth under an identifier, both from text.
    fn put_of(&mut self, text: &str, out: &mut Answer) {
        let (local, birth) = first_word(text);
        let local = identifier_of(local, out);
        let birth: u64 = number_of(birth, out);
        self.put(local, birth, out);
        out.text("put")
    }

    /// Writes how many there are.
    fn push_count(&self, out: &mut Answer) {
        out.value(self.rows.len());
    }

    /// Puts COUNT dialogues under rising identifiers.
    fn fill(&mut self, count: &str, out: &mut Answer) {
        let count: u16 = number_of(count, out);
        for index in 0..count {
            self.put(FIRST + u32::from(index), u64::from(index) + 1, out);
        }
        self.push_count(out)
    }

    /// Removes a dialogue, and writes its birth.
    fn remove(&mut self, local: u32, out: &mut Answer) {
        let birth = self.rows.get(local).map(Row::birth);
        self.rows.forget(local);
        push_birth(out, birth)
    }

    /// Removes COUNT dialogues under rising identifiers.
    fn empty(&mut self, count: &str, out: &mut Answer) {
        let count: u16 = number_of(count, out);
        for index in 0..count {
            self.rows.forget(FIRST + u32::from(index));
        }
        self.push_count(out)
    }

    /// Writes under how many identifiers the dialogue is that was put there.
    fn push_found(&self, count: &str, out: &mut Answer) {
        let count: u16 = number_of(count, out);
        let mut found: u32 = 0;
        for index in 0..count {
            let birth = self.rows.get(FIRST + u32::from(index)).map(Row::birth);
            if birth == Some(u64::from(index) + 1) {
                found = found.saturating_add(1);
            }
        }
        out.value(found);
    }

    /// Closes all.
    fn close(&mut self, out: &mut Answer) {
        self.rows.close_all(None);
        self.push_count(out)
    }

    /// A step about one dialogue.
    fn look(&mut self, verb: &str, local: &str, out: &mut Answer) {
        let local = identifier_of(local, out);
        match verb {
            "get" => push_birth(out, self.rows.get(local).map(Row::birth)),
            "remove" => self.remove(local, out),
            "after" => push_local(out, self.rows.after(Some(local))),
            _ => out.fail("no such step"),
        }
    }
}

impl Steps for Register {
    fn step(&mut self, step: &str, out: &mut Answer) {
        let (verb, rest) = first_word(step);
        match verb {
            "put" => self.put_of(rest, out),
            "found" => self.push_found(rest, out),
            "close" => self.close(out),
            "count" => self.push_count(out),
            "first" => push_local(out, self.rows.after(None)),
            "fill" => self.fill(rest, out),
            "empty" => self.empty(rest, out),
            _ => self.look(verb, rest, out),
        }
    }
}

/// Writes what the steps of a case answer.
pub(crate) fn answer(alloc: Global, script: &str, out: &mut Answer) {
    let rows = Rows::new(alloc);
    play(&mut Register { alloc, rows }, script, out)
}
