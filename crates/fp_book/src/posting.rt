//! Messages that are posted to a book.

ghost use Rattle.std.specs.Prelude.{◌≡◌, false, length, IfSome, if◌then◌else◌};
ghost use Rattle.fp_book.specs.declared.verdict.Verdict.TheVariants as verdicts;
ghost use Rattle.fp_entry.specs.declared.prepared.Prepared.TheVariants as prepared;
ghost use Rattle.fp_book.specs.Calls.{without, abort_for, Discards, Follows, Posts, Refuses, posted_line, posted_totals};
ghost use Rattle.fp_book.specs.proof_only.Dialogues.{AnsweredBy};
ghost use Rattle.fp_book.specs.Rules.{facts_with, is_full, named, verdict};
ghost use Rattle.fp_book.specs.Outbox.{without_frames_of};
ghost use Rattle.fp_book.specs.Receipt.{IsReceipt};
ghost use Rattle.fp_book.specs.Shelf.{Sound};
ghost use Rattle.fp_book.specs.proof_only.Named.{HasItsPlaces, local_in};

use crate::rules::Facts;
use crate::serving::{end_serial_unless_held, join, set_deadline};
use crate::verdict::Verdict;
use crate::{
    Book, LoggedStep, Outbox, Posted, ReadyQueue, Receipt, dialogues, messages_keep_a_book_sound,
};
use fp_entry::{Arrival, Incoming, Prepared};
use fp_q773::{AbortCause, Ids, Tid};
use fp_reply::abort_frame;
use fp_row::Ending;
use std::alloc::Global;

/// The admitted dialogue that a message names.
#[derive(Clone, Copy, Debug)]
pub(crate) struct Named {
    pub(crate) local: u32,
    // The number of the dialogue's places for entries that are taken.
    pub(crate) places: usize,
}

/// The identifier of the dialogue that a message names, if it names one.
fn local_in(dialogue: Option<Named>) -> Option<u32>
    ensures { result ≡ local_in dialogue }
{
    match dialogue {
        Some(dialogue) => Some(dialogue.local),
        None => None,
    }
}

/// The log line of a posted message.
fn line_of(came: Prepared, answer: Posted) -> LoggedStep
    ensures { result ≡ posted_line came answer }
{
    match came {
        Prepared::Message { arrival, .. } => LoggedStep::Post {
            table: arrival.table,
            moment: arrival.moment,
            message: arrival.frame,
            answer,
        },
        Prepared::Refused { arrival, .. } => LoggedStep::Post {
            table: arrival.table,
            moment: arrival.moment,
            message: arrival.frame,
            answer,
        },
        Prepared::Lost { arrival } => LoggedStep::Lost {
            moment: arrival.moment,
            message: arrival.frame,
            answer,
        },
    }
}

/// Answers a message that is refused: if a cause is named, its sender gave its identifier, and there is a place, an
/// Abort of the provider waits to be sent. `closed` is the dialogue that was closed because of it, if one was. Takes no
/// memory.
fn answer_by(
    outbox: &mut Outbox,
    cause: Option<AbortCause>,
    peer: Option<Tid>,
    closed: Option<u32>,
) -> Posted
    ensures { AnsweredBy outbox.old (abort_for (length outbox.old.aborts) cause peer) closed result outbox.new }
{
    if let (Some(cause), Some(peer)) = (cause, peer) {
        if outbox.add_abort(abort_frame(peer, cause)) {
            return Posted::Aborted(cause);
        }
    }
    match closed {
        Some(_) => Posted::Ended,
        None => Posted::Discarded,
    }
}

/// Drops the waiting frames of a dialogue, if it has any. Only then are the frames of all dialogues searched. Takes no
/// memory.
fn drop_frames_if(outbox: &mut Outbox, local: u32, some_wait: bool)
    ensures { outbox.new ≡ (if some_wait then without_frames_of local outbox.old else outbox.old) }
{
    if some_wait {
        outbox.drop_frames(local);
    }
}

/// Takes a dialogue out of the order of service, if it has a place there. Only then is the whole order searched. Takes
/// no memory.
fn leave_if(ready: &mut ReadyQueue, local: u32, was_ready: bool)
    ensures { ready.new ≡ (if was_ready then without local ready.old else ready.old) }
{
    if was_ready {
        ready.leave(local);
    }
}

impl Book {
    /// Whether the link has reached its limit on accepted entries, [`Book::ALL_ENTRIES`].
    pub(crate) fn is_full(&self) -> bool
        ensures { result ≡ is_full self.now }
    {
        self.entries >= Self::ALL_ENTRIES
    }

    /// The admitted dialogue that a message names, if it names one.
    fn named(&self, ids: &Ids) -> Option<Named>
        ensures local { local_in result ≡ named self.now ids.now }
        ensures places { IfSome result (HasItsPlaces self.now) }
    {
        let local = ids.dest?.number()?;
        let row = self.rows.get(local)?;
        if !row.is_admitted() {
            return None;
        }
        let places = row.places_taken();
        Some(Named { local, places })
    }

    /// The facts that decide about a message that names this admitted dialogue, or none.
    fn facts(&self, named: Option<Named>) -> Facts
        requires { IfSome named (HasItsPlaces self.now) }
        ensures facts { result ≡ facts_with self.now (local_in named) }
        ensures sound { Sound self.now }
    {
        Facts {
            is_down: self.is_down,
            names_one: named.is_some(),
            unserved: match named {
                Some(dialogue) => dialogue.places,
                None => 0,
            },
            entries: self.entries,
            held: self.rows.len(),
        }
    }

    /// The verdict on a message: the first matching rule of receipt applies.
    #[inline(always)]
    pub(crate) fn verdict(&self, came: &Prepared) -> Verdict
        ensures value { result ≡ verdict self.now came.now }
        ensures sound { Sound self.now }
    {
        let ids = &came.arrival().ids;
        let named = self.named(ids);
        let rule = self.facts(named).rule(came);
        Verdict::of(rule, local_in(named), ids.orig)
    }

    /// Opens a dialogue for a Begin. If memory runs out, the Begin is treated as lost.
    fn open(&mut self, alloc: Global, peer: Tid, came: Prepared) -> Receipt
        requires { verdict self.old came ≡ verdicts.Open peer }
        ensures { IsReceipt self.old came result self.new }
    {
        messages_keep_a_book_sound();
        let Prepared::Message { arrival, incoming } = came else {
            unreachable!()
        };
        let Incoming { entries, .. } = incoming;
        let count = entries.len() as u64;
        let components = entries.component_count();
        let moment = arrival.moment;
        let Some(local) = self.ids.next() else {
            unreachable!()
        };
        let birth = self.births + 1;
        let Ok(left) = dialogues::open(alloc, &mut self.rows, local, peer, birth, moment, entries)
        else {
            return Receipt::not_accepted(self.lose(arrival), true);
        };
        self.ids.give();
        self.births = birth;
        self.entries += count;
        self.totals.accepted += components as u64;
        set_deadline(&mut self.deadlines, local, left.deadline);
        join(&mut self.ready, local, left.is_ready);
        let posted = Posted::Opened(local);
        self.log.add(LoggedStep::Post {
            table: arrival.table,
            moment,
            message: arrival.frame,
            answer: posted,
        });
        Receipt {
            posted,
            components: components as u32,
            lost: false,
        }
    }

    /// Puts the entries of a message at the end of its dialogue, and ends the dialogue if the message is its peer's end
    /// or abort. If memory runs out, the message is treated as lost.
    fn extend(&mut self, local: u32, ends: bool, came: Prepared) -> Receipt
        requires { verdict self.old came ≡ verdicts.Extend local ends }
        ensures { IsReceipt self.old came result self.new }
    {
        messages_keep_a_book_sound();
        let Prepared::Message { arrival, incoming } = came else {
            unreachable!()
        };
        let Incoming { entries, .. } = incoming;
        let count = entries.len();
        let components = entries.component_count();
        let is_sending = self.outbox.is_sending(local);
        let Ok(extended) = dialogues::extend(&mut self.rows, local, entries, ends, is_sending)
        else {
            return Receipt::not_accepted(self.lose(arrival), true);
        };
        drop_frames_if(&mut self.outbox, local, extended.drops_frames);
        self.entries += count as u64;
        self.totals.accepted += components as u64;
        end_serial_unless_held(&mut self.ids, local, extended.left.is_held);
        set_deadline(&mut self.deadlines, local, extended.left.deadline);
        join(&mut self.ready, local, extended.left.is_ready);
        let posted = Posted::Accepted(count as u32);
        self.log.add(LoggedStep::Post {
            table: arrival.table,
            moment: arrival.moment,
            message: arrival.frame,
            answer: posted,
        });
        Receipt {
            posted,
            components: components as u32,
            lost: false,
        }
    }

    /// Refuses a message: closes the dialogue that it names, if one is to be closed, and answers by an Abort of the
    /// provider, if a cause is named and one can be sent. Takes no memory.
    fn refuse(&mut self, cause: Option<AbortCause>, closes: Option<u32>, came: Prepared) -> Posted
        requires { verdict self.old came ≡ verdicts.Refuse cause closes }
        ensures { Refuses self.old cause closes came result self.new }
    {
        messages_keep_a_book_sound();
        if let Some(local) = closes {
            let is_sending = self.outbox.is_sending(local);
            let dropped = dialogues::end(&mut self.rows, local, Ending::Closed, is_sending);
            end_serial_unless_held(&mut self.ids, local, dropped.is_held);
            self.deadlines.clear(local);
            leave_if(&mut self.ready, local, dropped.was_ready);
            drop_frames_if(&mut self.outbox, local, dropped.frames);
        }
        let peer = came.arrival().ids.orig;
        let answer = answer_by(&mut self.outbox, cause, peer, closes);
        self.log.add(line_of(came, answer));
        answer
    }

    /// Discards a message: only logs it. Takes no memory.
    fn discard(&mut self, came: Prepared) -> Posted
        requires { verdict self.old came ≡ verdicts.Discard }
        ensures { Discards self.old came result self.new }
    {
        messages_keep_a_book_sound();
        self.log.add(line_of(came, Posted::Discarded));
        Posted::Discarded
    }

    /// Treats a message that ran out of memory as lost. Takes no memory.
    fn lose(&mut self, arrival: Arrival) -> Posted
        ensures { Follows (verdict self.old (prepared.Lost arrival)) self.old (prepared.Lost arrival) result self.new }
    {
        let came = Prepared::Lost { arrival };
        match self.verdict(&came) {
            Verdict::Refuse { cause, closes } => self.refuse(cause, closes, came),
            Verdict::Discard => self.discard(came),
            Verdict::Open { .. } | Verdict::Extend { .. } => unreachable!(),
        }
    }

    /// Executes the verdict on a message.
    #[inline(always)]
    pub(crate) fn receive(&mut self, alloc: Global, found: Verdict, came: Prepared) -> Receipt
        requires { found ≡ verdict self.old came }
        ensures { IsReceipt self.old came result self.new }
    {
        match found {
            Verdict::Open { peer } => self.open(alloc, peer, came),
            Verdict::Extend { local, ends } => self.extend(local, ends, came),
            Verdict::Refuse { cause, closes } => {
                Receipt::not_accepted(self.refuse(cause, closes, came), false)
            }
            Verdict::Discard => Receipt::not_accepted(self.discard(came), false),
        }
    }

    /// Takes a message, or refuses it; the first matching one of these rules applies.
    ///
    /// 1. The link is down: `Discarded`.
    /// 2. It is a Unidirectional: `Discarded`.
    /// 3. Memory ran out as it was read: cause 4 for a Begin and for a Continue of an admitted dialogue, cause 1 for
    ///    another Continue, none for an End or an Abort; the admitted dialogue is closed. An unknown tag: as in rule 4.
    /// 4. Octets that aren't a valid message: cause 0 for an unknown tag, else 2; the admitted dialogue is closed.
    /// 5. A Continue, an End or an Abort that names no admitted dialogue: cause 1 for a Continue, else `Discarded`.
    /// 6. A Begin, a Continue or an End with more than [`Book::MOST_ELEMENTS`] elements in its component portion, or
    ///    while no further dialogue may be held, or that would make more than [`Book::MOST_ENTRIES`] entries of the
    ///    dialogue wait, or after the last entry that the link accepts: cause 4, and the dialogue is closed. If memory
    ///    runs out as a message is accepted, rule 3 applies to it.
    /// 7. Else `Opened` or `Accepted`.
    ///
    /// A Begin without entries that is over no limit of rule 6 is discarded. No message that was read is one.
    ///
    /// If a cause is named, the sender gave its identifier, and fewer Aborts of the provider wait than may
    /// ([`Outbox::MOST_ABORTS`](crate::Outbox::MOST_ABORTS)), one more waits, and the answer is `Aborted`; else it is
    /// `Ended` if a dialogue was closed, and `Discarded` if none was. For example, a Continue that names no admitted
    /// dialogue and gives its sender's identifier is answered by an Abort with cause 1. (ITU-T Q.774, 3.3.4 and 3.3.5.)
    pub fn post(&mut self, alloc: Global, came: Prepared) -> Posted
        ensures posts { Posts self.old came result self.new }
        ensures totals { self.new.totals ≡ posted_totals self.old.totals came result }
        ensures sound { Sound self.new }
    {
        self.post_with_receipt(alloc, came).posted
    }

    /// Takes a message, or refuses it, as [`Book::post`], and also returns how many of its components were accepted,
    /// and whether memory ran out in this call.
    pub fn post_with_receipt(&mut self, alloc: Global, came: Prepared) -> Receipt
        ensures receipt { IsReceipt self.old came result self.new }
        ensures posts { Posts self.old came result.posted self.new }
        ensures totals { self.new.totals ≡ posted_totals self.old.totals came result.posted }
        ensures sound { Sound self.new }
    {
        messages_keep_a_book_sound();
        let found = self.verdict(&came);
        self.receive(alloc, found, came)
    }
}
