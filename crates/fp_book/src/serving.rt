//! Turns of a book: taken, given and put back, and served in their place.

ghost use Rattle.std.specs.Prelude.{◌≡◌, ◌↔◌, ◌<◌, ◌≤◌, ◌+◌, ◌++◌, false, true, Some, IfErr, IfOk, IsOk, IsSome, IsTrue, length, is_some, OnOk, if◌then◌else◌};
ghost use Rattle.std.specs.FinMap.{get};
ghost use Rattle.fp_timers.specs.Deadlines.{HasRoom};
ghost use Rattle.fp_book.specs.Calls.{GivesDone, NoneReady, PutsTurnBack, Serves, Takes, given_of, joins, more_served, turn_of, waiting_in};
ghost use Rattle.fp_book.specs.InPlace.{count_in};
ghost use Rattle.fp_book.specs.proof_only.Dialogues.{request_count, with_deadline};
ghost use Rattle.fp_row.specs.Calls.{frames_in};
ghost use Rattle.fp_book.specs.Shelf.{Sound};
ghost use Rattle.fp_tids.specs.Identifiers.{IsGiven, with_returned};

use crate::dialogues::ServedInPlace;
use crate::{
    Book, Given, InPlace, LoggedStep, Outbox, ReadyQueue, Taken, dialogues, turns_keep_a_book_sound,
};
use fp_row::{Done, Requested, ServedTurn, Turn, turns_are_served_by_the_step};
use fp_tids::LocalIds;
use fp_timers::Deadlines;

/// Puts the serial of a dialogue that is held no longer after the others that may be given. Takes no memory.
pub(crate) fn end_serial_unless_held(ids: &mut LocalIds, local: u32, is_held: bool)
    requires { is_held ≡ false → IsGiven ids.old local }
    ensures { ids.new ≡ (if is_held then ids.old else with_returned ids.old local) }
{
    if !is_held {
        ids.end(local);
    }
}

/// Sets the deadline of a dialogue, or clears it. Takes no memory.
#[inline(always)]
pub(crate) fn set_deadline(deadlines: &mut Deadlines, local: u32, deadline: Option<u64>)
    requires { HasRoom deadlines.old local }
    ensures { deadlines.new ≡ with_deadline deadlines.old local deadline }
{
    match deadline {
        Some(deadline) => deadlines.set(local, deadline),
        None => deadlines.clear(local),
    }
}

/// Puts a dialogue after the others that are ready, if it has become ready. Takes no memory.
pub(crate) fn join(ready: &mut ReadyQueue, local: u32, is_ready: bool)
    requires { IsTrue is_ready → length ready.old < ReadyQueue.MOST }
    ensures { ready.new ≡ ready.old ++ joins local is_ready }
{
    if is_ready {
        ready.join(local);
    }
}

/// Puts the frames of requests after the others that wait, if they are to be sent. Takes no memory.
fn queue(outbox: &mut Outbox, local: u32, birth: u64, requested: Requested) -> Given
    requires place { length outbox.old.frames + length (frames_in requested) ≤ Outbox.MOST_FRAMES }
    requires few { request_count requested ≤ Outbox.MOST_FRAMES }
    ensures value { outbox.new
        ≡ record outbox.old { frames = outbox.old.frames ++ waiting_in local birth requested } }
    ensures given { result ≡ given_of requested }
{
    match requested {
        Requested::Nothing => Given::Silent,
        Requested::Frames(frames) => {
            let count = frames.len() as u32;
            outbox.add_frames(local, birth, frames);
            Given::Queued(count)
        }
        Requested::Dropped(count) => Given::Dropped(count as u32),
    }
}

impl Book {
    /// Hands out the turn of the dialogue that has been ready longest. `Nothing`: no dialogue is ready. `NoRoom`: all
    /// places for frames, [`Outbox::MOST_FRAMES`], are held, by frames that wait, by the frame that is being sent, and
    /// by entries that are out. `Memory`: memory ran out for a copy of the entries and of the core. In these cases
    /// nothing changes. A turn has as many entries as wait and as there are free places for, at most
    /// [`Turn::MOST_ENTRIES`].
    pub fn take(&mut self) -> Taken
        ensures takes { Takes self.old result self.new }
        ensures none { NoneReady result self.old }
        ensures sound { Sound self.new }
    {
        turns_keep_a_book_sound();
        let Some(local) = self.ready.first() else {
            return Taken::Nothing;
        };
        let held = self.places_held();
        if held >= Outbox::MOST_FRAMES {
            return Taken::NoRoom;
        }
        let Ok(turn) = dialogues::take(&mut self.rows, local, Outbox::MOST_FRAMES - held) else {
            return Taken::Memory;
        };
        self.ready.next();
        let position = turn.position();
        let count = turn.count();
        self.turns += count;
        self.log.add(LoggedStep::Take {
            birth: turn.birth(),
            position,
            count: count as u32,
        });
        Taken::Turn(turn)
    }

    /// Serves the turn of the dialogue that has been ready longest, in its place: with the same result and log as
    /// [`Book::take`], [`Turn::serve`] and [`Book::give`], one right after the other. `Nothing`, `NoRoom` and `Memory`
    /// are as for `take`, and then nothing changes; `Memory` is also the answer if memory runs out for a frame.
    pub fn serve(&mut self) -> InPlace
        ensures serves { Serves self.old result self.new }
        ensures totals { self.new.totals ≡ more_served self.old.totals (count_in result) }
        ensures sound { Sound self.new }
    {
        turns_keep_a_book_sound();
        turns_are_served_by_the_step();
        let Some(local) = self.ready.first() else {
            return InPlace::Nothing;
        };
        let held = self.places_held();
        if held >= Outbox::MOST_FRAMES {
            return InPlace::NoRoom;
        }
        let free = Outbox::MOST_FRAMES - held;
        let Ok(came) = dialogues::serve(&mut self.rows, local, free) else {
            return InPlace::Memory;
        };
        let ServedInPlace { turn, left } = came;
        let ServedTurn {
            position,
            count,
            served,
            requested,
        } = turn;
        let birth = left.birth;
        let position = position as u64;
        self.ready.next();
        self.log.add(LoggedStep::Take {
            birth,
            position,
            count: count as u32,
        });
        self.totals.served += served as u64;
        end_serial_unless_held(&mut self.ids, local, left.is_held);
        set_deadline(&mut self.deadlines, local, left.deadline);
        join(&mut self.ready, local, left.is_ready);
        let given = queue(&mut self.outbox, local, birth, requested);
        self.log.add(LoggedStep::Give {
            birth,
            position,
            served: served as u32,
            given,
        });
        InPlace::Served {
            count: served,
            given,
        }
    }

    /// Takes back a turn that was served: its served entries count as such. `Queued`: the frames of their requests wait
    /// after the others. `Silent`: they request nothing. `Dropped`: the dialogue was ended from outside, so their
    /// requests aren't accepted. A stale or foreign turn is returned, and nothing changes: its identifiers, position,
    /// entries or core before aren't those of a turn that is out. Takes no memory.
    pub fn give(&mut self, done: Done) -> Result<Given, Done>
        ensures ok { IfOk result (λ given. GivesDone self.old done given self.new) }
        ensures err { IfErr result (λ back. (back ≡ done) × (self.new ≡ self.old)) }
        ensures known { IsOk result ↔ (turn_of (get self.old.rows done.turn.local) ≡ Some done.turn) }
        ensures sound { Sound self.new }
    {
        turns_keep_a_book_sound();
        turns_are_served_by_the_step();
        let local = done.turn().local();
        let position = done.turn().position();
        let count = done.turn().count();
        let served_count = done.served();
        let served = match dialogues::give(&mut self.rows, done) {
            Ok(served) => served,
            Err(foreign) => return Err(foreign),
        };
        let birth = served.left.birth;
        self.turns -= count;
        self.totals.served += served_count as u64;
        end_serial_unless_held(&mut self.ids, local, served.left.is_held);
        set_deadline(&mut self.deadlines, local, served.left.deadline);
        join(&mut self.ready, local, served.left.is_ready);
        let given = queue(&mut self.outbox, local, birth, served.requested);
        self.log.add(LoggedStep::Give {
            birth,
            position,
            served: served_count as u32,
            given,
        });
        Ok(given)
    }

    /// Takes back a turn that wasn't served: its entries are the next ones of its dialogue again, and the dialogue
    /// joins the ready ones at the end; or they are dropped, if the dialogue was closed meanwhile. A stale or foreign
    /// turn is returned, and nothing changes. Takes no memory.
    pub fn put_back(&mut self, turn: Turn) -> Result<(), Turn>
        ensures ok { OnOk result (PutsTurnBack self.old turn self.new) }
        ensures err { IfErr result (λ back. (back ≡ turn) × (self.new ≡ self.old)) }
        ensures known { IsOk result ↔ (turn_of (get self.old.rows turn.local) ≡ Some turn) }
        ensures sound { Sound self.new }
    {
        turns_keep_a_book_sound();
        let local = turn.local();
        let position = turn.position();
        let count = turn.count();
        let left = match dialogues::put_back(&mut self.rows, turn) {
            Ok(left) => left,
            Err(foreign) => return Err(foreign),
        };
        self.turns -= count;
        end_serial_unless_held(&mut self.ids, local, left.is_held);
        join(&mut self.ready, local, left.is_ready);
        self.log.add(LoggedStep::PutBack {
            birth: left.birth,
            position,
        });
        Ok(())
    }
}
