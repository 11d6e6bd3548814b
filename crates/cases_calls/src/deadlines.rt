//! Deadlines of dialogues by local transaction identifier, and the identifiers that a link hands out.
//!
//! | Case | Result |
//! |---|---|
//! | `deadlines DONE, DONE, ..` | the results, if any, of these operations on new deadlines, in turn |
//! | `local-ids LINK DONE, ..` | the same for the identifiers of a link, 0 to 7, none of which was given yet |
//! | `turns LINK COUNT` | the last of COUNT identifiers of a link, each given after the one before it was ended; and the next one |
//!
//! `LINK/TAG` in place of LINK gives the run this tag, 0 to 4,094. Otherwise it has none, which is the tag 0.
//!
//! | Operation on deadlines | Result |
//! |---|---|
//! | `set ID MS` | nothing: the identifier has this deadline, in milliseconds since 1970 |
//! | `clear ID` | nothing: the identifier has no deadline |
//! | `due MS` | the identifier that is due at this moment, or `none` |
//! | `first MS` | the first deadline, if it is due at this moment, as `ID MS`, or `none` |
//! | `after ID MS MS` | the first deadline after this one of this identifier, if it is due at the second moment |
//! | `count` | how many identifiers have a deadline |
//! | `fill COUNT rising` | nothing: COUNT identifiers from 20000001 on have the deadlines 1, 2, 3 .. |
//! | `fill COUNT falling` | the same with the deadlines COUNT .. 3, 2, 1 |
//! | `drain MS` | deadlines due at this moment are cleared until none is: how many there were, the first and the last identifier, and whether each was one more, or one less, than the one before; or `none` |
//!
//! | Operation on identifiers | Result |
//! |---|---|
//! | `give` | the next identifier, or `none` |
//! | `pass COUNT` | nothing: this number of identifiers is given |
//! | `link ID` | the link of an identifier |

ghost use Rattle.std.specs.Prelude.{◌≡◌, ◌<◌, ◌≤◌, IfSome};
ghost use Rattle.fp_tids.specs.Identifiers.{AreSerials, all_serials};

use crate::values::{after_noon, kept, local_of};
use cases::{Answer, first_word, number_of};
use fp_digits::Moment;
use fp_tids::{LocalIds, link_of, serials_are_distinct};
use fp_timers::{Deadlines, Timer};
use std::alloc::Global;

/// The first identifier of those that `fill` gives a deadline.
const FIRST: u32 = 0x2000_0001;

/// Writes the result of a case of this kind. `false` if this module has no such cases.
pub(crate) fn answer(alloc: Global, kind: &str, rest: &str, out: &mut Answer) -> bool {
    match kind {
        "deadlines" => of_deadlines(alloc, rest, out),
        "local-ids" => of_local_ids(alloc, rest, out),
        "turns" => of_turns(alloc, rest, out),
        _ => return false,
    }
    true
}

/// Performs the operations of a text on new deadlines.
fn of_deadlines(alloc: Global, text: &str, out: &mut Answer) {
    if let Some(mut deadlines) = kept(Deadlines::new(alloc), out) {
        change_all(&mut deadlines, text, out);
    }
}

/// Performs operations on deadlines, in turn.
fn change_all(deadlines: &mut Deadlines, text: &str, out: &mut Answer) {
    for part in text.split(", ") {
        change(deadlines, part, out);
    }
}

/// Performs an operation on deadlines, and writes its result, if it has one.
fn change(deadlines: &mut Deadlines, text: &str, out: &mut Answer) {
    let (word, rest) = first_word(text);
    match word {
        "set" => set_of(deadlines, rest, out),
        "clear" => deadlines.clear(local_of(rest, out)),
        "due" => push_due(deadlines, rest, out),
        "first" => push_first(deadlines, rest, out),
        "after" => push_after(deadlines, rest, out),
        "count" => push_count(deadlines, out),
        "fill" => fill(deadlines, rest, out),
        "drain" => drain(deadlines, rest, out),
        _ => out.fail("no such case"),
    }
}

/// Gives the identifier in a text the deadline in that text.
fn set_of(deadlines: &mut Deadlines, text: &str, out: &mut Answer) {
    let (local, deadline) = first_word(text);
    let local = local_of(local, out);
    let deadline: u64 = number_of(deadline, out);
    set(deadlines, local, deadline, out);
}

/// Writes the identifier that is due at a moment.
fn push_due(deadlines: &Deadlines, moment: &str, out: &mut Answer) {
    let moment = moment_of(moment, out);
    push_local(deadlines.due(moment), out)
}

/// Writes the first deadline, if it is due at a moment.
fn push_first(deadlines: &Deadlines, moment: &str, out: &mut Answer) {
    let moment = moment_of(moment, out);
    push_timer(deadlines.due_after(None, moment), out)
}

/// Writes the first deadline after another one, if it is due at a moment.
fn push_after(deadlines: &Deadlines, text: &str, out: &mut Answer) {
    let (local, rest) = first_word(text);
    let (deadline, moment) = first_word(rest);
    let last = Timer {
        local: local_of(local, out),
        deadline: number_of(deadline, out),
    };
    let moment = moment_of(moment, out);
    push_timer(deadlines.due_after(Some(last), moment), out)
}

/// Writes an identifier and its deadline, or `none`.
fn push_timer(timer: Option<Timer>, out: &mut Answer) {
    let Some(timer) = timer else {
        return push_local(None, out);
    };
    push_local(Some(timer.local), out);
    out.labeled(" ", timer.deadline);
}

/// Writes how many identifiers have a deadline.
fn push_count(deadlines: &Deadlines, out: &mut Answer) {
    push_blank(out);
    out.value(deadlines.len());
}

/// The moment this number of milliseconds after 1970-01-01T00:00:00Z; another one, and a fault, for another text.
fn moment_of(text: &str, out: &mut Answer) -> Moment {
    match Moment::new(number_of(text, out)) {
        Some(moment) => moment,
        None => {
            out.fail("no moment");
            after_noon(0)
        }
    }
}

/// Gives an identifier a deadline, if there is room for one more.
fn set(deadlines: &mut Deadlines, local: u32, deadline: u64, out: &mut Answer) {
    if deadlines.len() < Deadlines::MOST {
        deadlines.set(local, deadline);
    } else {
        out.fail("no room");
    }
}

/// Gives this number of identifiers a deadline each, rising or falling.
fn fill(deadlines: &mut Deadlines, text: &str, out: &mut Answer) {
    let (count, order) = first_word(text);
    let count: u16 = number_of(count, out);
    let rises = order == "rising";
    for index in 0..count {
        let deadline = if rises { index + 1 } else { count - index };
        set(
            deadlines,
            FIRST + u32::from(index),
            u64::from(deadline),
            out,
        );
    }
}

/// Clears the deadline of the identifier that is due, and returns the identifier.
fn taken(deadlines: &mut Deadlines, moment: Moment) -> Option<u32> {
    let local = deadlines.due(moment)?;
    deadlines.clear(local);
    Some(local)
}

/// Clears the deadlines that are due, and writes how many there were, the first and the last identifier, and their
/// order.
fn drain(deadlines: &mut Deadlines, moment: &str, out: &mut Answer) {
    let moment = moment_of(moment, out);
    match taken(deadlines, moment) {
        Some(first) => push_drained(drain_all(deadlines, moment, first), out),
        None => push_local(None, out),
    }
}

/// Identifiers whose deadlines were cleared, in turn.
#[derive(Clone, Copy)]
struct Drained {
    count: u32,
    first: u32,
    last: u32,
    rises: bool,
    falls: bool,
}

/// Clears deadlines until none is due. The deadline of `first` was cleared before.
fn drain_all(deadlines: &mut Deadlines, moment: Moment, first: u32) -> Drained {
    let mut drained = Drained {
        count: 1,
        first,
        last: first,
        rises: true,
        falls: true,
    };
    for _ in 0..Deadlines::MOST {
        let Some(local) = taken(deadlines, moment) else {
            break;
        };
        drained = with_next(drained, local);
    }
    drained
}

/// The cleared identifiers and one more.
fn with_next(drained: Drained, local: u32) -> Drained {
    Drained {
        count: drained.count.saturating_add(1),
        first: drained.first,
        last: local,
        rises: drained.rises && local == drained.last.saturating_add(1),
        falls: drained.falls && local == drained.last.saturating_sub(1),
    }
}

/// Writes the cleared identifiers: their number, the first, the last, and their order.
fn push_drained(drained: Drained, out: &mut Answer) {
    push_blank(out);
    out.value(drained.count);
    out.text(" from ");
    out.identifier(drained.first);
    out.text(" to ");
    out.identifier(drained.last);
    out.text(", ");
    out.text(order_text(drained.rises, drained.falls));
}

/// The word for the order of identifiers: whether each is one more, or one less, than the one before.
fn order_text(rises: bool, falls: bool) -> &'static str {
    if rises {
        "rising"
    } else if falls {
        "falling"
    } else {
        "in no order"
    }
}

/// The link of this number; 0, and a fault, for another text.
fn link_in(text: &str, out: &mut Answer) -> u8
    ensures { result < LocalIds.LINKS }
{
    let link: u8 = number_of(text, out);
    if link < LocalIds::LINKS {
        return link;
    }
    out.fail("no link");
    0
}

/// The tag of this number; 0, and a fault, for another text.
fn tag_in(text: &str, out: &mut Answer) -> u16
    ensures { result ≤ LocalIds.LAST_TAG }
{
    let tag: u16 = number_of(text, out);
    if tag <= LocalIds::LAST_TAG {
        return tag;
    }
    out.fail("no tag");
    0
}

/// The identifiers of a link and a tag, `LINK/TAG`, or of a link without a tag. None of them was given yet. `None`, and
/// a fault, if memory ran out.
fn ids_of(alloc: Global, text: &str, out: &mut Answer) -> Option<LocalIds>
    ensures { IfSome result (λ ids. ids.queue ≡ all_serials) }
{
    let (link, tag) = match text.split_once('/') {
        Some(parts) => parts,
        None => (text, "0"),
    };
    let link = link_in(link, out);
    let tag = tag_in(tag, out);
    match LocalIds::with_tag(alloc, link, tag) {
        Ok(ids) => Some(ids),
        Err(_) => {
            out.run_out();
            None
        }
    }
}

/// Performs the operations of a text on the identifiers of a link. None was given yet.
fn of_local_ids(alloc: Global, text: &str, out: &mut Answer) {
    let (link, rest) = first_word(text);
    if let Some(mut ids) = ids_of(alloc, link, out) {
        use_all(&mut ids, rest, out);
    }
}

/// Gives identifiers of a link, each after the one before it was ended, and writes the last of them and the next.
fn of_turns(alloc: Global, text: &str, out: &mut Answer) {
    let (link, count) = first_word(text);
    let Some(mut ids) = ids_of(alloc, link, out) else {
        return;
    };
    let count: u32 = number_of(count, out);
    serials_are_distinct();
    let mut last = None;
    for _ in 0..count {
        last = turn(&mut ids);
    }
    push_local(last, out);
    push_local(ids.next(), out);
}

/// Gives the next identifier and ends it.
fn turn(ids: &mut LocalIds) -> Option<u32>
    requires { AreSerials ids.old.queue }
    ensures { AreSerials ids.new.queue }
{
    serials_are_distinct();
    let local = ids.give()?;
    ids.end(local);
    Some(local)
}

/// Performs operations on identifiers, in turn.
fn use_all(ids: &mut LocalIds, text: &str, out: &mut Answer) {
    for part in text.split(", ") {
        use_ids(ids, part, out);
    }
}

/// Performs an operation on identifiers, and writes its result.
fn use_ids(ids: &mut LocalIds, text: &str, out: &mut Answer) {
    let (word, rest) = first_word(text);
    match word {
        "give" => push_local(ids.give(), out),
        "pass" => pass(ids, rest, out),
        "link" => push_link(rest, out),
        _ => out.fail("no such case"),
    }
}

/// Gives this number of identifiers.
fn pass(ids: &mut LocalIds, count: &str, out: &mut Answer) {
    let count: u32 = number_of(count, out);
    for _ in 0..count {
        ids.give();
    }
}

/// Writes the link of an identifier.
fn push_link(local: &str, out: &mut Answer) {
    let link = link_of(local_of(local, out));
    push_blank(out);
    out.value(link);
}

/// Writes an identifier, in eight hexadecimal digits, or `none`.
fn push_local(local: Option<u32>, out: &mut Answer) {
    push_blank(out);
    match local {
        Some(local) => out.identifier(local),
        None => out.text("none"),
    }
}

/// Writes a blank, if there is text before it.
fn push_blank(out: &mut Answer) {
    out.separator(" ");
}
