//! One thread makes the calls of a hub, one after the other, as the lines of a script say.
//!
//! A line is `CALL => WORDS`: a call of the hub, and the words that it must answer; a line without ` => ` has a call
//! that answers nothing. The first line whose words are others ends the walk, and the test names the script and this
//! line. `SLEEP | CALL; CALL` lets another thread sleep for something (`sleeping`), makes these calls 50 milliseconds
//! later, and answers how the sleep ended, and then the words of the calls. A line that begins with `+ ` is played only
//! if foreign turns and parcels are brought, one with `- ` only if they aren't, and one with `# ` never.
//!
//! A `MESSAGE` is the identifier of a Begin with InitialDP, in hexadecimal digits, or a name of `messages`. Whatever
//! else a call names is a number. What a call hands out stays at hand for the calls after it (`held`).
//!
//! | Module | The calls of |
//! |---|---|
//! | `posting` | messages: `post`, `offer`, `add`, `begins`, `front` |
//! | `turns` | turns, one by one: `turn`, `put-back`, `give-closed`, `put-back-closed`, `serve`, `worker` |
//! | `shares` | turns, several in one hold, or in their places: `share`, `help`, `serve-in-place` and others |
//! | `parcels` | parcels: `send`, `unsend`, `pick`, `in-hold` and others |
//! | `link` | the link and its workers: `tick`, `state`, `rest`, `quiet`, `down`, `hints`, `hint`, `close` and others |
//! | `lines` | the log: `fullness`, `amount`, `drain`, `exchange`, `log` |
//! | `foreign` | turns and parcels of another hub: `foreign-turns`, `mix`, `foreign-parcels`, `foreign-in-hold` |
//! | `caller` | several calls that are the same: `posts`, `offers`, `adds`, `sends`, `serve-all` and others |
//!
//! Some calls have several steps (`caller`), which the modules list, too; a script doesn't call a step. Calls with a
//! step `take`, `take-first` or `take-one` answer `turns at hand` if there are some, and take none.

ghost use Rattle.fp_hub.specs.Shares.{AreBlanks};

mod caller;
mod each_call;
mod foreign;
mod held;
mod lines;
mod link;
mod parcels;
mod playing;
mod posting;
mod several;
mod shares;
mod sleeping;
mod turns;
mod waiting;
mod words;

use fp_book::Totals;
use fp_hub::{Hub, PARTS, finish};
use fp_records::Table;
use playing::play;
use std::alloc::Global;
use std::marker::Brand;
use std::rt::Clock;
use std::sync::Wait;
use std::sync::ledger::{Blank, Ledger};
use std::test::Fail;
use std::thread::Threads;
use tests_hub::messages::RECORDS;

/// The calls that are made with the hub of a link, and the counts in the end.
#[derive(Clone, Copy)]
struct Walk {
    link: u8,
    are_foreign_brought: bool,
    // The name of the script, for the text about a failure.
    name: &'static str,
    script: &'static str,
    totals: Totals,
}

/// A walk of no calls.
const WALK: Walk = Walk {
    link: 0,
    are_foreign_brought: false,
    name: "",
    script: "",
    totals: Totals {
        accepted: 0,
        served: 0,
        sent: 0,
    },
};

/// Makes the calls of a walk with a hub whose ledgers are these, and finishes the link: the counts. The text about a
/// failure is cleared if each line answers its words. `None`: out of memory.
fn walk_over<
    R: Threads + Wait + Clock + Sync,
    A: Ledger + Send + Sync,
    B: Ledger + Send + Sync,
    C: Ledger + Send + Sync,
>(
    rt: &R,
    alloc: Global,
    blanks: (Blank, Blank, Blank),
    table: &Table,
    walk: Walk,
    fault: &mut String,
) -> Option<Totals>
    requires { AreBlanks blanks A.name A.parts B.name B.parts C.name C.parts }
{
    if walk.link >= 8 {
        return None;
    }
    let (hub, seat) = Hub::<A, B, C>::new(alloc, walk.link, blanks).ok()?;
    let seat = play(rt, alloc, &hub, seat, table, walk, fault);
    finish(hub, seat)
}

/// Makes the calls of a walk, and finishes the link. `None`: out of memory.
fn walk_link<R: Threads + Wait + Clock + Sync>(
    rt: &R,
    alloc: Global,
    table: &Table,
    walk: Walk,
    fault: &mut String,
) -> Option<Totals> {
    let blanks = (Blank::new(PARTS), Blank::new(PARTS), Blank::new(PARTS));
    walk_over::<R, Brand, Brand, Brand>(rt, alloc, blanks, table, walk, fault)
}

/// Asserts that each line of a walk answers its words, and that as much is counted. A failure names the script.
fn assert_walk<R: Threads + Wait + Clock + Sync>(
    rt: &R,
    alloc: Global,
    table: &Table,
    walk: Walk,
) -> Result<(), Fail> {
    let name = walk.name;
    let mut fault = String::from_str(alloc, name)?;
    let totals = walk_link(rt, alloc, table, walk, &mut fault);
    if fault.is_empty() && totals == Some(walk.totals) {
        return Ok(());
    }
    Err(Fail::new(format_args!("{name} counted {totals:?}. {fault}")))
}

/// Asserts the same of each of these walks, one after the other.
fn assert_walks<R: Threads + Wait + Clock + Sync>(
    rt: &R,
    alloc: Global,
    walks: &[Walk],
) -> Result<(), Fail> {
    let table = Table::read(alloc, RECORDS.as_bytes())?;
    for walk in walks {
        assert_walk(rt, alloc, &table, *walk)?;
    }
    Ok(())
}
