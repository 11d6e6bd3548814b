//! A book, and the tokens that it handed out.

ghost use Rattle.std.specs.Prelude.{◌≡◌, ◌<◌, ◌≤◌, IfOk, Some, is_some};
ghost use Rattle.std.specs.FinMap.{get};
ghost use Rattle.fp_book.specs.Calls.{PutsTurnBack, turn_of};
ghost use Rattle.fp_book.specs.Shelf.{Sound, empty_shelf};
ghost use Rattle.fp_steps.specs.Places.{table_at};
ghost use Rattle.fp_steps.specs.Makes.{GivesTo, MakesStep, PicksTo, PostsTo, PutsBackTo, SendsTo, TakesTo, TicksTo, UnsendsTo};
ghost use Rattle.fp_steps.specs.proof_only.Tokens.{Holds};

use crate::parts::{is_lost, take_turn};
use crate::{Output, Step};
use bytes::Bytes;
use fp_apdu::Name;
use fp_book::{Book, Parcel, Picked, Taken};
use fp_digits::Moment;
use fp_entry::Prepared;
use fp_records::Table;
use fp_row::Turn;
use fp_tids::LocalIds;
use std::alloc::{AllocError, Global};

/// A book, and the tokens that it handed out. You must spend it by [`Engine::abandon`].
pub(crate) struct Engine {
    pub(crate) book: Book,
    pub(crate) turns: Vec<Turn>,
    pub(crate) parcel: Option<Parcel>,
}

/// Puts back a turn that couldn't be served, so that the turns that are out are exactly the kept
/// ones.
fn give_up(book: &mut Book, turn: Turn)
    requires { turn_of (get book.old.rows turn.local) ≡ Some turn }
    ensures puts { PutsTurnBack book.old turn book.new }
    ensures sound { Sound book.new }
{
    if let Err(strange) = book.put_back(turn) {
        strange.abandon();
    }
}

/// Whether there is a table in this place, 0 to 65,535.
fn is_handed_in(tables: &[Table], place: usize) -> bool
    ensures { result ≡ is_some (table_at tables.now place) }
{
    place <= usize::from(Table::LAST_INDEX) && place < tables.len()
}

impl Engine {
    /// Advances the clock. `Err`: memory ran out for a Clock.
    fn tick(&mut self, moment: Moment) -> Result<Output, AllocError>
        requires sound { Sound self.old.book }
        requires holds { Holds self.old.turns.items self.old.parcel self.old.book }
        ensures makes { IfOk result (λ output. TicksTo moment output self.old.book self.new.book) }
        ensures sound { Sound self.new.book }
        ensures holds { Holds self.new.turns.items self.new.parcel self.new.book }
    {
        let ticked = self.book.tick(moment);
        if ticked.wanting > 0 {
            return Err(AllocError);
        }
        Ok(Output::Ticked {
            added: ticked.added,
            wanting: ticked.wanting,
        })
    }

    /// Hands out a turn.
    fn take(&mut self) -> Result<Output, AllocError>
        requires sound { Sound self.old.book }
        requires holds { Holds self.old.turns.items self.old.parcel self.old.book }
        ensures makes { IfOk result (λ output. TakesTo output self.old.book self.new.book) }
        ensures sound { Sound self.new.book }
        ensures holds { Holds self.new.turns.items self.new.parcel self.new.book }
    {
        self.turns.reserve(1)?;
        match self.book.take() {
            Taken::Nothing => Ok(Output::Nothing),
            Taken::NoRoom => Ok(Output::NoRoom),
            Taken::Memory => Err(AllocError),
            Taken::Turn(turn) => {
                let local = turn.local();
                let position = turn.position();
                let count = turn.count();
                self.turns.push_reserved(turn);
                Ok(Output::Took {
                    local,
                    position,
                    count: count as u32,
                })
            }
        }
    }

    /// Serves the turn of a dialogue and gives it back.
    fn give(&mut self, alloc: Global, local: u32) -> Result<Output, AllocError>
        requires sound { Sound self.old.book }
        requires holds { Holds self.old.turns.items self.old.parcel self.old.book }
        ensures makes { IfOk result (λ output. GivesTo local output self.old.book self.new.book) }
        ensures sound { Sound self.new.book }
        ensures holds { Holds self.new.turns.items self.new.parcel self.new.book }
    {
        let Some(turn) = take_turn(&mut self.turns, local) else {
            return Ok(Output::Nothing);
        };
        match turn.serve(alloc) {
            Err(turn) => {
                give_up(&mut self.book, turn);
                Err(AllocError)
            }
            Ok(done) => {
                let position = done.turn().position();
                let served = done.served();
                match self.book.give(done) {
                    Ok(given) => Ok(Output::Gave {
                        local,
                        position,
                        served: served as u32,
                        given,
                    }),
                    Err(strange) => {
                        strange.abandon();
                        Ok(Output::Nothing)
                    }
                }
            }
        }
    }

    /// Puts the turn of a dialogue back.
    fn put_back(&mut self, local: u32) -> Output
        requires sound { Sound self.old.book }
        requires holds { Holds self.old.turns.items self.old.parcel self.old.book }
        ensures makes { PutsBackTo local result self.old.book self.new.book }
        ensures sound { Sound self.new.book }
        ensures holds { Holds self.new.turns.items self.new.parcel self.new.book }
    {
        let Some(turn) = take_turn(&mut self.turns, local) else {
            return Output::Nothing;
        };
        match self.book.put_back(turn) {
            Ok(()) => Output::WentBack,
            Err(strange) => {
                strange.abandon();
                Output::Nothing
            }
        }
    }

    /// Reports the parcel sent.
    fn sent(&mut self) -> Output
        requires sound { Sound self.old.book }
        requires holds { Holds self.old.turns.items self.old.parcel self.old.book }
        ensures makes { SendsTo result self.old.book self.new.book }
        ensures sound { Sound self.new.book }
        ensures holds { Holds self.new.turns.items self.new.parcel self.new.book }
    {
        let Some(parcel) = self.parcel.take() else {
            return Output::Nothing;
        };
        match self.book.sent(parcel) {
            Ok(()) => Output::Sent,
            Err(strange) => {
                strange.abandon();
                Output::Nothing
            }
        }
    }

    /// Reports the parcel not sent.
    fn unsent(&mut self) -> Output
        requires sound { Sound self.old.book }
        requires holds { Holds self.old.turns.items self.old.parcel self.old.book }
        ensures makes { UnsendsTo result self.old.book self.new.book }
        ensures sound { Sound self.new.book }
        ensures holds { Holds self.new.turns.items self.new.parcel self.new.book }
    {
        let Some(parcel) = self.parcel.take() else {
            return Output::Nothing;
        };
        match self.book.unsent(parcel) {
            Ok(()) => Output::Unsent,
            Err(strange) => {
                strange.abandon();
                Output::Nothing
            }
        }
    }

    /// Hands out the next parcel.
    fn pick(&mut self, alloc: Global) -> Result<Output, AllocError>
        requires sound { Sound self.old.book }
        requires holds { Holds self.old.turns.items self.old.parcel self.old.book }
        ensures makes { IfOk result (λ output. PicksTo output self.old.book self.new.book) }
        ensures sound { Sound self.new.book }
        ensures holds { Holds self.new.turns.items self.new.parcel self.new.book }
    {
        match self.book.pick() {
            Picked::Busy => Ok(Output::Busy),
            Picked::Nothing => Ok(Output::Nothing),
            Picked::Parcel(parcel) => {
                let local = parcel.local();
                let frame = Bytes::copy_from_slice(alloc, parcel.octets());
                if let Some(other) = self.parcel.replace(parcel) {
                    other.abandon();
                }
                Ok(Output::Picked {
                    local,
                    frame: frame?,
                })
            }
        }
    }

    /// The engine of a link without steps yet.
    pub(crate) fn new(alloc: Global, link: u8, tag: u16) -> Result<Engine, AllocError>
        requires links { link < LocalIds.LINKS }
        requires tags { tag ≤ LocalIds.LAST_TAG }
        ensures value { IfOk result (λ engine. engine.book ≡ empty_shelf link tag) }
        ensures sound { IfOk result (λ engine. Sound engine.book) }
        ensures holds { IfOk result (λ engine. Holds engine.turns.items engine.parcel engine.book) }
    {
        Ok(Engine {
            book: Book::with_tag(alloc, link, tag)?,
            turns: Vec::new(alloc),
            parcel: None,
        })
    }

    /// Posts a message. `Err`: memory ran out for it.
    fn post(&mut self, alloc: Global, came: Prepared) -> Result<Output, AllocError>
        requires sound { Sound self.old.book }
        requires holds { Holds self.old.turns.items self.old.parcel self.old.book }
        ensures makes { IfOk result (λ output. PostsTo output (Some came) self.old.book self.new.book) }
        ensures sound { Sound self.new.book }
        ensures holds { Holds self.new.turns.items self.new.parcel self.new.book }
    {
        let receipt = self.book.post_with_receipt(alloc, came);
        if receipt.lost {
            return Err(AllocError);
        }
        Ok(Output::Posted {
            answer: receipt.posted,
            components: receipt.components,
        })
    }

    /// Makes a step. `Err`: memory ran out.
    pub(crate) fn make(
        &mut self,
        alloc: Global,
        tables: &[Table],
        contexts: &[Name],
        step: &Step,
    ) -> Result<Output, AllocError>
        requires sound { Sound self.old.book }
        requires holds { Holds self.old.turns.items self.old.parcel self.old.book }
        ensures makes { IfOk result (λ o. MakesStep tables.now contexts.now self.old.book step.now o self.new.book) }
        ensures sound { Sound self.new.book }
        ensures holds { Holds self.new.turns.items self.new.parcel self.new.book }
    {
        match step {
            Step::Post {
                table,
                frame,
                moment,
            } => {
                if !is_handed_in(tables, *table) {
                    return Ok(Output::Nothing);
                }
                let table = &tables[*table];
                let came = Prepared::read(alloc, table, contexts, frame.try_clone()?, *moment);
                if is_lost(&came) {
                    return Err(AllocError);
                }
                self.post(alloc, came)
            }
            Step::Lost(frame, moment) => {
                let came = Prepared::lost(frame.try_clone()?, *moment);
                self.post(alloc, came)
            }
            Step::Tick(moment) => self.tick(*moment),
            Step::Take => self.take(),
            Step::Give(local) => self.give(alloc, *local),
            Step::PutBack(local) => Ok(self.put_back(*local)),
            Step::Pick => self.pick(alloc),
            Step::Sent => Ok(self.sent()),
            Step::Unsent => Ok(self.unsent()),
            Step::Down => {
                self.book.down();
                Ok(Output::Down)
            }
        }
    }

    /// Spends the tokens that are out.
    pub(crate) fn abandon(self) {
        let Engine {
            book: _,
            mut turns,
            parcel,
        } = self;
        while let Some(turn) = turns.pop() {
            turn.abandon();
        }
        turns.destroy_empty();
        if let Some(parcel) = parcel {
            parcel.abandon();
        }
    }
}
