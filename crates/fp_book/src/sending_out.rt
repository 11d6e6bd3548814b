//! Parcels of a book: picked, sent and unsent; and the end of a link.

ghost use Rattle.std.specs.Prelude.{◌≡◌, ◌↔◌, ℕ, IfErr, IsOk, OnOk};
ghost use Rattle.std.specs.FinMap.{get};
ghost use Rattle.fp_book.specs.declared.line.LoggedStep.TheVariants as line;
ghost use Rattle.fp_book.specs.Calls.{GoesDown, Hands, IsOut, Sends, Unsends};
ghost use Rattle.fp_book.specs.Parcel.{is_frame_of};
ghost use Rattle.fp_book.specs.Shelf.{Sound};
ghost use Rattle.fp_book.specs.proof_only.Views.{AreTimed};
ghost use Rattle.fp_row.specs.Rows.{ClosesAt};

use crate::serving::end_serial_unless_held;
use crate::{
    Book, LoggedStep, Outbox, Parcel, Picked, dialogues, going_down_keeps_a_book_sound,
    sending_keeps_a_book_sound,
};
use fp_row::Rows;
use fp_service::entries_ask_once_at_most;
use fp_timers::Deadlines;

/// Closes all dialogues, and clears all deadlines. Takes no memory.
fn close_all(rows: &mut Rows, deadlines: &mut Deadlines, outbox: &Outbox)
    ensures closes { (local : ℕ) → ClosesAt (is_frame_of local outbox.now.out) (get rows.old local) (get rows.new local) }
    ensures timed { AreTimed deadlines.new rows.new }
{
    rows.close_all(outbox.sending());
    deadlines.clear_all();
}

impl Book {
    /// Hands out the next parcel: the oldest Abort of the provider, or, if none waits, the oldest frame of a dialogue.
    /// `Busy`: a parcel is out already. `Nothing`: no frame waits. In these cases nothing changes. Takes no memory.
    #[inline(always)]
    pub fn pick(&mut self) -> Picked
        ensures hands { Hands self.old result self.new }
        ensures sound { Sound self.new }
    {
        sending_keeps_a_book_sound();
        let picked = self.outbox.pick(self.link);
        if let Picked::Parcel(parcel) = &picked {
            let birth = parcel.birth();
            self.log.add(LoggedStep::Pick { birth });
        }
        picked
    }

    /// Takes back the parcel that was sent: a frame counts as one more that its dialogue sent, an Abort of the provider
    /// isn't counted. A foreign parcel, of another link or not the one that is out, is returned, and nothing changes.
    /// Takes no memory.
    #[inline(always)]
    pub fn sent(&mut self, parcel: Parcel) -> Result<(), Parcel>
        ensures ok { OnOk result (Sends self.old parcel.content self.new) }
        ensures err { IfErr result (λ back. (back ≡ parcel) × (self.new ≡ self.old)) }
        ensures known { IsOk result ↔ IsOut self.old parcel }
        ensures sound { Sound self.new }
    {
        sending_keeps_a_book_sound();
        entries_ask_once_at_most();
        let dialogue = parcel.dialogue();
        let birth = parcel.birth();
        match self.outbox.take_back(self.link, parcel) {
            Ok(()) => {}
            Err(foreign) => return Err(foreign),
        }
        let Some(local) = dialogue else {
            self.log.add(LoggedStep::Sent { birth: 0 });
            return Ok(());
        };
        let is_held = dialogues::sent(&mut self.rows, local);
        self.totals.sent += 1;
        end_serial_unless_held(&mut self.ids, local, is_held);
        self.log.add(LoggedStep::Sent { birth });
        Ok(())
    }

    /// Takes back the parcel that couldn't be sent: the link goes down, as by [`Book::down`], and its frame counts as
    /// not sent. A foreign parcel is returned, and nothing changes. Takes no memory.
    pub fn unsent(&mut self, parcel: Parcel) -> Result<(), Parcel>
        ensures ok { OnOk result (Unsends self.old parcel self.new) }
        ensures err { IfErr result (λ back. (back ≡ parcel) × (self.new ≡ self.old)) }
        ensures known { IsOk result ↔ IsOut self.old parcel }
        ensures sound { Sound self.new }
    {
        going_down_keeps_a_book_sound();
        let birth = parcel.birth();
        match self.outbox.take_back(self.link, parcel) {
            Ok(()) => {}
            Err(foreign) => return Err(foreign),
        }
        close_all(&mut self.rows, &mut self.deadlines, &self.outbox);
        self.ready.clear();
        self.outbox.clear();
        self.is_down = true;
        self.log.add(LoggedStep::Unsent { birth });
        Ok(())
    }

    /// The link goes down: all dialogues are closed, and the waiting entries and frames are dropped. You may still give
    /// back the turns that are out, whose requests aren't accepted, and the parcel. Each message posted from now on is
    /// discarded, so no identifier is given any more. If the link is down already, nothing but the log changes. Takes
    /// no memory.
    pub fn down(&mut self)
        ensures down { GoesDown self.old.outbox.out self.old line.Down self.new }
        ensures sound { Sound self.new }
    {
        going_down_keeps_a_book_sound();
        close_all(&mut self.rows, &mut self.deadlines, &self.outbox);
        self.ready.clear();
        self.outbox.clear();
        self.is_down = true;
        self.log.add(LoggedStep::Down);
    }
}
