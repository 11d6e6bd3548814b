//! When a message is held back, and when a link is quiet. Nothing here takes memory.

ghost use Rattle.std.specs.Prelude.{◌≡◌, ◌↔◌, false, IfErr, IfOk, IsOk, IsTrue, nat_lt};
ghost use Rattle.fp_book.specs.Calls.{Posts, posted_totals};
ghost use Rattle.fp_book.specs.Holding.{IsQuiet, busy_count, entries_kept, gets_room, holds_back, is_owed_an_abort, lacks_only_room};
ghost use Rattle.fp_book.specs.Receipt.{IsReceipt};
ghost use Rattle.fp_book.specs.Rules.{verdict};
ghost use Rattle.fp_book.specs.Shelf.{Sound};

use crate::rules::too_many;
use crate::verdict::Verdict;
use crate::{Book, Outbox, Receipt, messages_keep_a_book_sound};
use fp_entry::Prepared;
use fp_q773::Kind;
use std::alloc::Global;

impl Book {
    /// The threshold of held places for frames: from there on no message is taken. Seven eighths of all.
    pub const MANY_PLACES: usize = Outbox::MOST_FRAMES / 8 * 7;

    /// Whether a dialogue is busy: a turn of it is out, an entry of it waits, or a frame of it is to be sent.
    fn has_busy(&self) -> bool
        ensures { result ≡ nat_lt 0 (busy_count self.now) }
    {
        let place_count = self.places_held();
        let ready_count = self.ready.len();
        place_count > 0 || ready_count > 0
    }

    /// Whether an Abort of the provider is to answer a message that has this verdict.
    fn is_owed_an_abort(&self, found: &Verdict, came: &Prepared) -> bool
        requires { found.now ≡ verdict self.now came.now }
        ensures { result ≡ is_owed_an_abort self.now came.now }
    {
        found.names_a_cause() && came.arrival().ids.orig.is_some()
    }

    /// Whether a message lacks only room: it is readable, it hasn't too many elements, and the link accepts further
    /// entries.
    fn lacks_only_room(&self, came: &Prepared) -> bool
        ensures { result ≡ lacks_only_room self.now came.now }
    {
        match came {
            Prepared::Message { incoming, .. } => !too_many(incoming) && !self.is_full(),
            Prepared::Refused { .. } | Prepared::Lost { .. } => false,
        }
    }

    /// Whether there will be room for a message that lacks only room.
    fn gets_room(&self, came: &Prepared) -> bool
        ensures { result ≡ gets_room self.now came.now }
    {
        match came.arrival().ids.kind {
            Kind::Begin => self.has_busy(),
            _ => true,
        }
    }

    /// Whether a message that has this verdict is held back.
    fn is_held_back(&self, found: &Verdict, came: &Prepared) -> bool
        requires { found.now ≡ verdict self.now came.now }
        ensures { result ≡ holds_back self.now came.now }
    {
        if self.is_down {
            return false;
        }
        if self.places_held() >= Self::MANY_PLACES && found.is_taken() {
            return true;
        }
        if self.is_owed_an_abort(found, came) && self.outbox.has_all_aborts() {
            return true;
        }
        found.is_over_a_limit() && self.lacks_only_room(came) && self.gets_room(came)
    }

    /// Whether you should post a message later: posted now it would be refused, or its entries would wait, for a cause
    /// that goes away as turns are served and frames are sent. On a link that is up, a message is held back
    ///
    /// * if it would be taken while [`Book::MANY_PLACES`] for frames are held;
    /// * if an Abort of the provider is to answer it, and [`Outbox::MOST_ABORTS`] wait;
    /// * if it is a readable Continue or End that would make more than [`Book::MOST_ENTRIES`] of its dialogue wait;
    /// * if it is a readable Begin while [`Book::MOST_DIALOGUES`] are held and one of them is busy.
    ///
    /// The last two apply only to a message with at most [`Book::MOST_ELEMENTS`] elements, on a link that accepts
    /// further entries. Any other message is posted at once: it is accepted, or refused for a cause that serving and
    /// sending don't take away. So is one that runs out of memory at the post. For example, a Continue with one Invoke
    /// is held back while 64 entries of its dialogue wait. Doesn't go through all dialogues.
    pub fn holds_back(&self, came: &Prepared) -> bool
        ensures value { result ≡ holds_back self.now came.now }
        ensures sound { Sound self.now }
    {
        let found = self.verdict(came);
        self.is_held_back(&found, came)
    }

    /// Takes a message, or refuses it, as [`Book::post_with_receipt`], unless it is held back ([`Book::holds_back`]):
    /// then it is returned, and nothing changes. The message is judged once.
    pub fn post_unless_held_back(
        &mut self,
        alloc: Global,
        came: Prepared,
    ) -> Result<Receipt, Prepared>
        ensures posted { IfOk result (λ receipt. IsReceipt self.old came receipt self.new) }
        ensures posts { IfOk result (λ receipt. Posts self.old came receipt.posted self.new) }
        ensures totals { IfOk result (λ receipt. self.new.totals ≡ posted_totals self.old.totals came receipt.posted) }
        ensures back { IfErr result (λ back. (back ≡ came) × (self.new ≡ self.old)) }
        ensures known { IsOk result ↔ (holds_back self.old came ≡ false) }
        ensures sound { Sound self.new }
    {
        messages_keep_a_book_sound();
        let found = self.verdict(&came);
        if self.is_held_back(&found, &came) {
            return Err(came);
        }
        Ok(self.receive(alloc, found, came))
    }

    /// Whether nothing is left to be served or sent: no turn is out, no dialogue is ready, and no frame and no Abort of
    /// the provider waits or is being sent. Goes through no dialogues.
    pub fn is_quiet(&self) -> bool
        ensures value { IsTrue result ↔ IsQuiet self.now }
        ensures sound { Sound self.now }
    {
        !self.has_busy() && self.outbox.is_empty()
    }

    /// How many entries the held dialogues keep: the sum of all that they accepted. Goes through all of them.
    pub fn entry_count(&self) -> u64
        ensures value { result ≡ entries_kept self.now }
        ensures sound { Sound self.now }
    {
        self.rows.entry_count()
    }
}
