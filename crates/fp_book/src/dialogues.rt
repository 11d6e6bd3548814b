//! Changes of one dialogue of a link.

ghost use Rattle.std.specs.Prelude.{◌≡◌, ◌≢◌, ◌<◌, [], ◌↔◌, not, true, None, Some, IfErr, IfOk, IsOk, IsTrue, OnErr, ◌&&◌, if◌then◌else◌};
ghost use Rattle.std.specs.FinMap.{contains_key, get, remove};
ghost use Rattle.fp_book.specs.Calls.{turn_of};
ghost use Rattle.fp_book.specs.proof_only.Dialogues.{ClockedAt, EndsAt, ExtendsAt, GivesAt, HandsOutAt, OpensAt, PutsBackAt, SendsAt, ServesAt, Drops, drops_frames, is_due_at, is_unsent, left_as, takes_more};
ghost use Rattle.fp_row.specs.declared.row.Row.{Row};
ghost use Rattle.fp_row.specs.Row.{is_ready};
ghost use Rattle.fp_book.specs.Shelf.{ready_count};

use fp_digits::Moment;
use fp_entry::Entries;
use fp_q773::Tid;
use fp_row::{Done, Ending, Requested, Row, Rows, ServedTurn, Turn, putting_back_changes_nothing};
use std::alloc::{AllocError, Global};

/// A changed dialogue, as the other parts of a book need to know it.
#[derive(Clone, Copy, Debug)]
pub(crate) struct Left {
    /// The birth of the dialogue.
    pub(crate) birth: u64,
    /// Whether the dialogue is still held.
    pub(crate) is_held: bool,
    /// Whether the dialogue is ready, or has become so.
    pub(crate) is_ready: bool,
    /// The earliest moment when the dialogue is given a Clock, in milliseconds, if there is one.
    pub(crate) deadline: Option<u64>,
}

impl Left {
    /// The summary of this dialogue.
    #[inline(always)]
    fn of(row: &Row) -> Left
        ensures { result ≡ left_as row.now }
    {
        Left {
            birth: row.birth(),
            is_held: row.is_held(),
            is_ready: row.is_ready(),
            deadline: row.deadline(),
        }
    }
}

/// The result of taking a turn back, served.
#[derive(Debug, Drop)]
pub(crate) struct Served {
    /// The outcome of its requests.
    pub(crate) requested: Requested,
    /// The dialogue afterwards.
    pub(crate) left: Left,
}

/// The result of serving the next entries of a dialogue in their place.
#[derive(Debug, Drop)]
pub(crate) struct ServedInPlace {
    /// The turn that the entries would have been, and the outcome of its requests.
    pub(crate) turn: ServedTurn,
    /// The dialogue afterwards.
    pub(crate) left: Left,
}

/// The result of accepting entries for a dialogue.
#[derive(Clone, Copy, Debug)]
pub(crate) struct Extended {
    /// The dialogue afterwards, and whether it has become ready.
    pub(crate) left: Left,
    /// Whether waiting frames of the dialogue are to be dropped.
    pub(crate) drops_frames: bool,
}

/// The result of ending a dialogue from outside, with the parts of it that the book must drop.
#[derive(Clone, Copy, Debug)]
pub(crate) struct Dropped {
    /// Whether the dialogue is still held.
    pub(crate) is_held: bool,
    /// Whether the dialogue was ready, so that it has a place in the order of service.
    pub(crate) was_ready: bool,
    /// Whether waiting frames of the dialogue are to be dropped.
    pub(crate) frames: bool,
}

/// Whether a dialogue is ready now and wasn't before.
fn has_become_ready(row: &Row, was_ready: bool) -> bool
    ensures { result ≡ (not was_ready && is_ready row.now) }
{
    !was_ready && row.is_ready()
}

/// Removes a dialogue unless it is still held. Takes no memory.
#[inline(always)]
fn keep(rows: &mut Rows, local: u32, is_held: bool)
    ensures { rows.new ≡ (if is_held then rows.old else remove rows.old local) }
{
    if !is_held {
        rows.forget(local);
    }
}

/// Hands out the turn of a ready dialogue, with this many free places. If memory runs out for a copy of the entries and
/// of the core, nothing changes.
pub(crate) fn take(rows: &mut Rows, local: u32, free: usize) -> Result<Turn, AllocError>
    requires ready { ready_count (get rows.old local) ≡ 1 }
    requires room { 0 < free }
    ensures ok { IfOk result (λ turn. HandsOutAt free rows.old local turn rows.new) }
    ensures err { OnErr result (rows.new ≡ rows.old) }
{
    putting_back_changes_nothing();
    let alloc = rows.allocator();
    let Some(row) = rows.get_mut(local) else {
        unreachable!()
    };
    let Some(turn) = row.take(alloc, free)? else {
        unreachable!()
    };
    Ok(turn)
}

/// Serves the next entries of a ready dialogue, with this many free places. The dialogue is removed if it is no longer
/// held. If memory runs out for the frames, nothing changes.
pub(crate) fn serve(rows: &mut Rows, local: u32, free: usize) -> Result<ServedInPlace, AllocError>
    requires ready { ready_count (get rows.old local) ≡ 1 }
    requires room { 0 < free }
    ensures ok { IfOk result (λ served. ServesAt free rows.old local served.turn served.left rows.new) }
    ensures err { OnErr result (rows.new ≡ rows.old) }
{
    putting_back_changes_nothing();
    let alloc = rows.allocator();
    let Some(row) = rows.get_mut(local) else {
        unreachable!()
    };
    let Some(turn) = row.serve_next(alloc, free)? else {
        unreachable!()
    };
    let left = Left::of(row);
    keep(rows, local, left.is_held);
    Ok(ServedInPlace { turn, left })
}

/// Gives a turn that was served back to its dialogue, which is removed if it is no longer held. A stale or foreign turn
/// is returned, and nothing changes. Takes no memory.
pub(crate) fn give(rows: &mut Rows, done: Done) -> Result<Served, Done>
    ensures ok { IfOk result (λ served. GivesAt rows.old done served.requested served.left rows.new) }
    ensures err { IfErr result (λ back. (back ≡ done) × (rows.new ≡ rows.old)) }
    ensures known { IsOk result ↔ (turn_of (get rows.old done.turn.local) ≡ Some done.turn) }
{
    putting_back_changes_nothing();
    let local = done.turn().local();
    let Some(row) = rows.get_mut(local) else {
        return Err(done);
    };
    let requested = match row.give(done) {
        Ok(requested) => requested,
        Err(foreign) => return Err(foreign),
    };
    let left = Left::of(row);
    keep(rows, local, left.is_held);
    Ok(Served { requested, left })
}

/// Gives a turn that wasn't served back to its dialogue, which is removed if it is no longer held. A stale or foreign
/// turn is returned, and nothing changes. Takes no memory.
pub(crate) fn put_back(rows: &mut Rows, turn: Turn) -> Result<Left, Turn>
    ensures ok { IfOk result (λ left. PutsBackAt rows.old turn left rows.new) }
    ensures err { IfErr result (λ back. (back ≡ turn) × (rows.new ≡ rows.old)) }
    ensures known { IsOk result ↔ (turn_of (get rows.old turn.local) ≡ Some turn) }
{
    putting_back_changes_nothing();
    let local = turn.local();
    let Some(row) = rows.get_mut(local) else {
        return Err(turn);
    };
    match row.put_back(turn) {
        Ok(()) => {}
        Err(foreign) => return Err(foreign),
    }
    let left = Left::of(row);
    keep(rows, local, left.is_held);
    Ok(left)
}

/// Counts one more frame of a dialogue as sent; one of its kept frames must not be sent yet. Returns whether the
/// dialogue is still held, and removes it if it isn't. Takes no memory.
#[inline(always)]
pub(crate) fn sent(rows: &mut Rows, local: u32) -> bool
    requires { is_unsent (get rows.old local) ≡ true }
    ensures { SendsAt rows.old local result rows.new }
{
    let Some(row) = rows.get_mut(local) else {
        unreachable!()
    };
    row.sent();
    let is_held = row.is_held();
    keep(rows, local, is_held);
    is_held
}

/// Ends a dialogue, which must be there, from outside, and removes it if it is no longer held. Returns whether it
/// stays, and the parts of it that you must drop elsewhere. Takes no memory.
pub(crate) fn end(rows: &mut Rows, local: u32, ending: Ending, is_sending: bool) -> Dropped
    requires { IsTrue (contains_key rows.old local) }
    ensures ends { EndsAt rows.old local ending is_sending result.is_held rows.new }
    ensures dropped { (row : Row) → get rows.old local ≡ Some row → Drops row is_sending result }
{
    let Some(row) = rows.get_mut(local) else {
        unreachable!()
    };
    let was_ready = row.is_ready();
    let frames = row.end(ending, is_sending);
    let is_held = row.is_held();
    keep(rows, local, is_held);
    Dropped {
        is_held,
        was_ready,
        frames,
    }
}

/// Puts entries at the end of a dialogue that takes messages, and ends it if its peer does. The dialogue is removed if
/// it is no longer held. Returns whether it has become ready. If memory runs out, nothing changes, and the entries are
/// lost; without entries it never runs out.
pub(crate) fn extend(
    rows: &mut Rows,
    local: u32,
    entries: Entries,
    ends: bool,
    is_sending: bool,
) -> Result<Extended, AllocError>
    requires { takes_more (get rows.old local) ≡ true }
    ensures ok { IfOk result (λ extended. ExtendsAt rows.old local entries ends is_sending extended.left rows.new) }
    ensures only { OnErr result (entries ≢ []) }
    ensures drops { IfOk result (λ extended. (row : Row) → get rows.old local ≡ Some row → extended.drops_frames ≡ (ends && drops_frames row is_sending)) }
    ensures err { OnErr result (rows.new ≡ rows.old) }
{
    putting_back_changes_nothing();
    let Some(row) = rows.get_mut(local) else {
        unreachable!()
    };
    let was_ready = row.is_ready();
    row.accept(entries)?;
    let drops_frames = if ends {
        row.end(Ending::ByPeer, is_sending)
    } else {
        false
    };
    let left = Left {
        birth: row.birth(),
        is_held: row.is_held(),
        is_ready: has_become_ready(row, was_ready),
        deadline: row.deadline(),
    };
    keep(rows, local, left.is_held);
    Ok(Extended { left, drops_frames })
}

/// Opens a dialogue with these entries: this end knows it by `local`, its peer by `peer`, and it is the `birth`-th of
/// its link. There must be no dialogue under `local`. If memory runs out, nothing changes, and the entries are lost.
pub(crate) fn open(
    alloc: Global,
    rows: &mut Rows,
    local: u32,
    peer: Tid,
    birth: u64,
    moment: Moment,
    entries: Entries,
) -> Result<Left, AllocError>
    requires { get rows.old local ≡ None }
    ensures ok { IfOk result (λ left. OpensAt rows.old local peer birth moment entries left rows.new) }
    ensures err { OnErr result (rows.new ≡ rows.old) }
{
    let mut opened = Row::open(alloc, local, peer, birth, moment);
    opened.accept(entries)?;
    let left = Left::of(&opened);
    rows.add(local, opened)?;
    Ok(left)
}

/// Gives a dialogue that is due a Clock of this moment, and returns whether it has become ready. If memory runs out,
/// nothing changes.
pub(crate) fn clock(rows: &mut Rows, local: u32, moment: Moment) -> Result<bool, AllocError>
    requires { is_due_at (get rows.old local) moment ≡ true }
    ensures ok { IfOk result (λ joins. ClockedAt rows.old local moment joins rows.new) }
    ensures err { OnErr result (rows.new ≡ rows.old) }
{
    putting_back_changes_nothing();
    let Some(row) = rows.get_mut(local) else {
        unreachable!()
    };
    let was_ready = row.is_ready();
    row.accept_clock(moment)?;
    Ok(has_become_ready(row, was_ready))
}
