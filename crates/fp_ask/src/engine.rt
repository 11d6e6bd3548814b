//! A book, driven until no entry and no frame waits.

ghost use Rattle.std.specs.Prelude.{◌≡◌, [], ◌∷◌, ◌++◌, IfOk, OnOk};
ghost use Rattle.fp_ask.specs.Tied.{Rest};
ghost use Rattle.fp_ask.specs.proof_only.Serving.{Fit, IsServed, KeepsEnd, SameCounts, KeepsDialogues, frames_in};

use crate::SentFrame;
use fp_book::{Book, Picked, Taken};
use std::alloc::{AllocError, Global};

/// Serves entries until none waits.
pub(crate) fn serve_waiting(alloc: Global, book: &mut Book) -> Result<(), AllocError>
    requires fit { Fit book.old }
    ensures served { OnOk result (IsServed book.new) }
    ensures ends { OnOk result (KeepsEnd book.old book.new) }
    ensures counts { OnOk result (SameCounts book.old book.new) }
{
    loop {
        match book.take() {
            Taken::Turn(turn) => match turn.serve(alloc) {
                Ok(done) => {
                    if let Err(done) = book.give(done) {
                        done.abandon();
                        unreachable!()
                    }
                }
                Err(turn) => {
                    turn.abandon();
                    return Err(AllocError);
                }
            },
            Taken::Nothing => return Ok(()),
            Taken::NoRoom => unreachable!(),
            Taken::Memory => return Err(AllocError),
        }
    }
}

/// Appends a copy of these octets to the frames.
fn push_copy(alloc: Global, frames: &mut Vec<SentFrame>, octets: &[u8]) -> Result<(), AllocError>
    ensures { OnOk result (frames.new.items ≡ frames.old.items ++ octets.now ∷ []) }
{
    let frame = SentFrame::copied(alloc, octets)?;
    frames.push(frame)?;
    Ok(())
}

/// Sends the waiting frames, until none waits.
pub(crate) fn send_waiting(alloc: Global, book: &mut Book) -> Result<Vec<SentFrame>, AllocError>
    requires served { IsServed book.old }
    ensures rest { OnOk result (Rest book.new) }
    ensures frames { IfOk result (λ frames. frames.items ≡ frames_in book.old.outbox) }
    ensures keeps { OnOk result (KeepsDialogues book.old book.new) }
{
    let mut frames = Vec::new(alloc);
    loop {
        match book.pick() {
            Picked::Parcel(parcel) => {
                if let Err(error) = push_copy(alloc, &mut frames, parcel.octets()) {
                    parcel.abandon();
                    return Err(error);
                }
                if let Err(parcel) = book.sent(parcel) {
                    parcel.abandon();
                    unreachable!()
                }
            }
            Picked::Nothing => return Ok(frames),
            Picked::Busy => unreachable!(),
        }
    }
}
