//! The state under the lock of a link.

ghost use Rattle.std.specs.Prelude.{◌≡◌, ◌↔◌, ◌<◌, ◌≤◌, ◌-◌, [], false, Some, IfErr, IfOk, IsOk, OnOk, vec_capacity, vec_len};
ghost use Rattle.std.specs.FinMap.{get};
ghost use Rattle.fp_book.specs.declared.line.LoggedStep.TheVariants as line;
ghost use Rattle.fp_book.specs.Calls.{DrainsBook, GivesDone, GoesDown, Hands, IsOut, NoneReady, Posts, PutsTurnBack, Sends, Serves, Takes, Ticks, Unsends, posted_totals, turn_of};
ghost use Rattle.fp_book.specs.Log.{lines_of};
ghost use Rattle.fp_book.specs.Holding.{holds_back};
ghost use Rattle.fp_book.specs.Shelf.{Sound, empty_shelf};
ghost use Rattle.fp_hub.specs.Next.{Finds};
ghost use Rattle.fp_hub.specs.Shares.{AreBlanks, Whole, Within, after_give, after_post, after_sent, after_serve, amounts, blank};

mod several;

use crate::next::Next;
use crate::{PARTS, Seat};
use fp_book::{Book, Given, InPlace, Line, Log, Parcel, Picked, Posted, Taken, Ticked, Totals};
use fp_digits::Moment;
use fp_entry::Prepared;
use fp_row::{Done, Turn};
use fp_tids::LocalIds;
pub(crate) use several::MOST_TURNS;
use std::alloc::{AllocError, Global};
use std::marker::Model;
use std::sync::ledger;
use std::sync::ledger::{Blank, Ledger};

/// The state under the lock of a link: its book, and the books of three ledgers, of the components that it accepted,
/// the entries that it served and the frames that it sent. Its type guarantees that the totals of these three are the
/// book's totals. Contracts see the book.
///
/// A call named like one of the book's is that call, with that call's clauses about the book. [`Kept::post_front`],
/// [`Kept::serve_front`], [`Kept::return_front`], [`Kept::take_share`], [`Kept::give_and_take`] and
/// [`Kept::sent_and_next`] are several calls of the book, a bounded number of them. A call that is lent the seat of the
/// calling thread compares it with the totals, and adds to it exactly the counts that the book adds.
#[derive(Drop)]
pub struct Kept<A: Ledger, B: Ledger, C: Ledger> {
    book: Book,
    accepted: ledger::Book<A>,
    served: ledger::Book<B>,
    sent: ledger::Book<C>,
}

impl<A: Ledger, B: Ledger, C: Ledger> Model for Kept<A, B, C> {
    ghost use Rattle.std.specs.Prelude.{◌≡◌};
    ghost use Rattle.std.specs.Coded.{codes, coded_ℕ};
    ghost use Rattle.std.specs.Ordering.{nat_cmp};
    ghost use Rattle.std.specs.FinMap as map;
    ghost use Rattle.fp_book.specs.Shelf.{Shelf};
    ghost use Rattle.fp_row.specs.contracts.row.Row as row_type;

    ghost Value = { Shelf };

    ghost coded = { Prim.hlevel (codes, map.code {R = nat_cmp} coded_ℕ row_type.the_row.coded) };

    ghost view = { λ k. k.book };

    ghost invariant = { λ k. (k.accepted.total ≡ k.book.totals.accepted) × (k.served.total ≡ k.book.totals.served) × (k.sent.total ≡ k.book.totals.sent) };
}

impl<A: Ledger, B: Ledger, C: Ledger> Kept<A, B, C> {
    /// The book of a link, 0 to 7, in a run with this tag, 0 to 4,094, and its first seat, which has all parts. If
    /// memory runs out, the blanks are spent.
    pub fn new(
        alloc: Global,
        link: u8,
        tag: u16,
        blanks: (Blank, Blank, Blank),
    ) -> Result<(Kept<A, B, C>, Seat<A, B, C>), AllocError>
        requires link { link < LocalIds.LINKS }
        requires tags { tag ≤ LocalIds.LAST_TAG }
        requires blanks { AreBlanks blanks A.name A.parts B.name B.parts C.name C.parts }
        ensures empty { IfOk result (λ made. made.0 ≡ empty_shelf link tag) }
        ensures sound { IfOk result (λ made. Sound made.0) }
        ensures seat { IfOk result (λ made. made.1 ≡ blank 64) }
    {
        let book = Book::with_tag(alloc, link, tag)?;
        let (for_accepted, for_served, for_sent) = blanks;
        let (accepted, all_accepted) = for_accepted.open::<A>();
        let (served, all_served) = for_served.open::<B>();
        let (sent, all_sent) = for_sent.open::<C>();
        let kept = Kept {
            book,
            accepted,
            served,
            sent,
        };
        let seat = Seat {
            parts: PARTS,
            accepted: all_accepted,
            served: all_served,
            sent: all_sent,
        };
        Ok((kept, seat))
    }

    /// The book, to be read.
    pub fn book(&self) -> &Book
        ensures value { result.now ≡ self.now }
    {
        &self.book
    }

    /// States that the book is sound, as each of its calls does. Does nothing else.
    fn say_sound(&self)
        ensures { Sound self.now }
    {
        let _is_down = self.book.is_down();
    }

    /// Compares the totals with a seat, and changes neither: no amount of the seat is more than the total.
    fn compare(&mut self, seat: &mut Seat<A, B, C>)
        ensures kept { self.new ≡ self.old }
        ensures seat { seat.new ≡ seat.old }
        ensures within { Within seat.old self.old.totals }
        ensures sound { Sound self.old }
    {
        self.say_sound();
        self.accepted.audit(&mut seat.accepted);
        self.served.audit(&mut seat.served);
        self.sent.audit(&mut seat.sent);
    }

    /// Posts a message, as [`Book::post`].
    pub fn post(&mut self, alloc: Global, seat: &mut Seat<A, B, C>, came: Prepared) -> Posted
        ensures posts { Posts self.old came result self.new }
        ensures totals { self.new.totals ≡ posted_totals self.old.totals came result }
        ensures sound { Sound self.new }
        ensures grows { seat.new ≡ after_post seat.old came result }
        ensures within { Within seat.old self.old.totals }
    {
        self.compare(seat);
        let receipt = self.book.post_with_receipt(alloc, came);
        self.accepted
            .add(&mut seat.accepted, u64::from(receipt.components));
        receipt.posted
    }

    /// Posts a message, unless it is held back, as [`Book::post_unless_held_back`]: then it is returned, and nothing
    /// changes. The message is judged once.
    pub fn post_unless_held_back(
        &mut self,
        alloc: Global,
        seat: &mut Seat<A, B, C>,
        came: Prepared,
    ) -> Result<Posted, Prepared>
        ensures ok { IfOk result (λ posted. Posts self.old came posted self.new) }
        ensures totals { IfOk result (λ posted. self.new.totals ≡ posted_totals self.old.totals came posted) }
        ensures grows { IfOk result (λ posted. seat.new ≡ after_post seat.old came posted) }
        ensures err { IfErr result (λ back. (back ≡ came) × (self.new ≡ self.old) × (seat.new ≡ seat.old)) }
        ensures known { IsOk result ↔ (holds_back self.old came ≡ false) }
        ensures sound { Sound self.new }
        ensures within { Within seat.old self.old.totals }
    {
        self.compare(seat);
        let receipt = self.book.post_unless_held_back(alloc, came)?;
        let count = u64::from(receipt.components);
        self.accepted.add(&mut seat.accepted, count);
        Ok(receipt.posted)
    }

    /// Advances the clock, as [`Book::tick`].
    pub fn tick(&mut self, moment: Moment) -> Ticked
        ensures ticks { Ticks self.old moment result.added result.wanting self.new }
        ensures sound { Sound self.new }
    {
        self.book.tick(moment)
    }

    /// Hands out a turn, as [`Book::take`].
    pub fn take(&mut self) -> Taken
        ensures takes { Takes self.old result self.new }
        ensures none { NoneReady result self.old }
        ensures sound { Sound self.new }
    {
        self.book.take()
    }

    /// Takes back a turn that was served, as [`Book::give`].
    pub fn give(&mut self, seat: &mut Seat<A, B, C>, done: Done) -> Result<Given, Done>
        ensures ok { IfOk result (λ given. GivesDone self.old done given self.new) }
        ensures err { IfErr result (λ back. (back ≡ done) × (self.new ≡ self.old)) }
        ensures known { IsOk result ↔ (turn_of (get self.old.rows done.turn.local) ≡ Some done.turn) }
        ensures sound { Sound self.new }
        ensures grows { seat.new ≡ after_give seat.old done result }
        ensures within { Within seat.old self.old.totals }
    {
        self.compare(seat);
        let count = done.served() as u64;
        let given = self.book.give(done)?;
        self.served.add(&mut seat.served, count);
        Ok(given)
    }

    /// Serves a turn in its place, as [`Book::serve`].
    pub fn serve(&mut self, seat: &mut Seat<A, B, C>) -> InPlace
        ensures serves { Serves self.old result self.new }
        ensures sound { Sound self.new }
        ensures grows { seat.new ≡ after_serve seat.old result }
        ensures within { Within seat.old self.old.totals }
    {
        self.compare(seat);
        let answer = self.book.serve();
        self.served.add(&mut seat.served, answer.served() as u64);
        answer
    }

    /// Takes back a turn that wasn't served, as [`Book::put_back`].
    pub fn put_back(&mut self, turn: Turn) -> Result<(), Turn>
        ensures ok { OnOk result (PutsTurnBack self.old turn self.new) }
        ensures err { IfErr result (λ back. (back ≡ turn) × (self.new ≡ self.old)) }
        ensures known { IsOk result ↔ (turn_of (get self.old.rows turn.local) ≡ Some turn) }
        ensures sound { Sound self.new }
    {
        self.book.put_back(turn)
    }

    /// Hands out the next parcel, as [`Book::pick`].
    #[inline(always)]
    pub fn pick(&mut self) -> Picked
        ensures hands { Hands self.old result self.new }
        ensures sound { Sound self.new }
    {
        self.book.pick()
    }

    /// Takes back the parcel that was sent, as [`Book::sent`].
    #[inline(always)]
    pub fn sent(&mut self, seat: &mut Seat<A, B, C>, parcel: Parcel) -> Result<(), Parcel>
        ensures ok { OnOk result (Sends self.old parcel.content self.new) }
        ensures err { IfErr result (λ back. (back ≡ parcel) × (self.new ≡ self.old)) }
        ensures known { IsOk result ↔ IsOut self.old parcel }
        ensures sound { Sound self.new }
        ensures grows { seat.new ≡ after_sent seat.old parcel result }
        ensures within { Within seat.old self.old.totals }
    {
        self.compare(seat);
        let count = u64::from(parcel.dialogue().is_some());
        self.book.sent(parcel)?;
        self.sent.add(&mut seat.sent, count);
        Ok(())
    }

    /// Takes back the parcel that couldn't be sent, as [`Book::unsent`].
    pub fn unsent(&mut self, parcel: Parcel) -> Result<(), Parcel>
        ensures ok { OnOk result (Unsends self.old parcel self.new) }
        ensures err { IfErr result (λ back. (back ≡ parcel) × (self.new ≡ self.old)) }
        ensures known { IsOk result ↔ IsOut self.old parcel }
        ensures sound { Sound self.new }
    {
        self.book.unsent(parcel)
    }

    /// Takes the link down, as [`Book::down`].
    pub fn down(&mut self)
        ensures down { GoesDown self.old.outbox.out self.old line.Down self.new }
        ensures sound { Sound self.new }
    {
        self.book.down();
    }

    /// Moves the oldest lines of the log to the end of `lines`, as [`Book::drain`].
    pub fn drain(&mut self, lines: &mut Vec<Line>)
        ensures drains { DrainsBook self.old lines.old.items (vec_capacity lines.old - vec_len lines.old) self.new lines.new.items }
        ensures capacity { vec_capacity lines.new ≡ vec_capacity lines.old }
        ensures sound { Sound self.new }
    {
        self.book.drain(lines);
    }

    /// Exchanges the log for an empty one, as [`Book::exchange_log`].
    pub fn exchange_log(&mut self, log: &mut Log) -> u8
        requires empty { log.old ≡ [] }
        ensures link { result ≡ self.old.link }
        ensures drains { DrainsBook self.old [] Log.MOST self.new (lines_of result log.new) }
        ensures sound { Sound self.new }
    {
        self.book.exchange_log(log)
    }

    /// Hands out the next parcel, unless the link is down.
    #[inline(always)]
    pub(crate) fn next(&mut self) -> Next
        ensures finds { Finds self.old result self.new }
        ensures sound { Sound self.new }
    {
        if self.book.is_down() {
            return Next::Down;
        }
        match self.pick() {
            Picked::Parcel(parcel) => Next::Parcel(parcel),
            Picked::Busy | Picked::Nothing => Next::Nothing,
        }
    }

    /// The totals. You must pass the seat with all parts: then the totals are its amounts. Changes neither the book nor
    /// the seat.
    pub fn last(&mut self, seat: &mut Seat<A, B, C>) -> Totals
        requires whole { Whole A.parts B.parts C.parts }
        requires all { seat.old.parts ≡ 64 }
        ensures totals { result ≡ self.old.totals }
        ensures amounts { result ≡ amounts seat.old }
        ensures kept { self.new ≡ self.old }
        ensures seat { seat.new ≡ seat.old }
    {
        self.accepted.audit(&mut seat.accepted);
        self.served.audit(&mut seat.served);
        self.sent.audit(&mut seat.sent);
        self.book.totals()
    }
}
