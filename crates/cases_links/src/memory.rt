//! An inbox and an outlet that keep what goes through them, as long as no allocation fails.

ghost use Rattle.std.specs.Prelude.{◌≡◌, [], ◌∷◌, IfOk};
ghost use Rattle.fp_streams.specs.Grows.{Grows};
ghost use Rattle.fp_book.specs.Parcel.{octets_in};
ghost use Rattle.fp_linkio.specs.Calls.{OutletCall, picks, reports_sent, reports_unsent};
ghost use Rattle.cases_links.specs.Told.{call_of, calls_of, told};

use fp_book::{Book, Parcel, Picked};
use fp_frames::Frame;
use fp_linkio::{Inbox, Outlet};
use std::alloc::{AllocError, Global};
use std::cell::Cell;

/// The frames that were handed on, and at which places those of a read ended.
#[derive(Drop)]
pub(crate) struct Frames<'a> {
    pub(crate) frames: Vec<Frame>,
    // How many frames there were at the end of each read.
    pub(crate) ends: Vec<usize>,
    // Whether all of them are kept.
    pub(crate) is_whole: bool,
    // How many there were.
    pub(crate) count: &'a Cell<u32>,
}

impl Inbox for Frames<'_> {
    ghost messages = { λ inbox. told inbox.is_whole inbox.frames.items };

    fn frame(&mut self, frame: Frame) {
        self.count.set(self.count.get().saturating_add(1));
        if !self.is_whole {
            return;
        }
        if self.frames.push(frame).is_err() {
            self.is_whole = false;
        }
    }

    fn end_of_read(&mut self) {
        if self.ends.push(self.frames.len()).is_err() {
            self.is_whole = false;
        }
    }
}

/// A call that was made of an outlet: the local transaction identifier of the parcel's dialogue, and its octets.
#[derive(Drop)]
pub(crate) enum Call {
    Picked(u32, Vec<u8>),
    NoMore,
    Sent(u32, Vec<u8>),
    Unsent(u32, Vec<u8>),
}

/// Hands out the parcels of a book.
#[derive(Drop)]
pub(crate) struct Desk {
    pub(crate) alloc: Global,
    pub(crate) book: Book,
    // Whether each parcel that is reported comes back, as a foreign one would.
    pub(crate) is_strange: bool,
    pub(crate) calls: Vec<Call>,
    // Whether all of them are kept.
    pub(crate) is_whole: bool,
}

/// The octets of a parcel.
fn octets_of(alloc: Global, parcel: &Parcel) -> Result<Vec<u8>, AllocError>
    ensures { IfOk result (λ octets. octets.items ≡ octets_in parcel.now) }
{
    let mut octets = Vec::new(alloc);
    octets.extend_from_slice(parcel.octets())?;
    Ok(octets)
}

/// The call that handed this out.
fn picked_call(alloc: Global, parcel: &Option<Parcel>) -> Result<Call, AllocError>
    ensures { IfOk result (λ call. call_of call ≡ picks parcel.now) }
{
    match parcel {
        Some(parcel) => {
            let octets = octets_of(alloc, parcel)?;
            Ok(Call::Picked(parcel.local(), octets))
        }
        None => Ok(Call::NoMore),
    }
}

/// The call that reported this sent.
fn sent_call(alloc: Global, parcel: &Parcel) -> Result<Call, AllocError>
    ensures { IfOk result (λ call. call_of call ≡ reports_sent parcel.now) }
{
    let octets = octets_of(alloc, parcel)?;
    Ok(Call::Sent(parcel.local(), octets))
}

/// The call that reported this unsent.
fn unsent_call(alloc: Global, parcel: &Parcel) -> Result<Call, AllocError>
    ensures { IfOk result (λ call. call_of call ≡ reports_unsent parcel.now) }
{
    let octets = octets_of(alloc, parcel)?;
    Ok(Call::Unsent(parcel.local(), octets))
}

/// Keeps a call if no allocation failed for it or one before it, and returns whether it is kept.
fn keep(calls: &mut Vec<Call>, is_whole: bool, call: Result<Call, AllocError>) -> bool
    ensures { (made : OutletCall) → IfOk call (λ kept. call_of kept ≡ made)
        → Grows (told is_whole (calls_of calls.old.items)) (told result (calls_of calls.new.items)) (made ∷ []) }
{
    match call {
        Ok(call) if is_whole => calls.push(call).is_ok(),
        _ => false,
    }
}

impl Outlet for Desk {
    ghost calls = { λ desk. told desk.is_whole (calls_of desk.calls.items) };

    fn pick(&mut self) -> Option<Parcel> {
        let parcel = match self.book.pick() {
            Picked::Parcel(parcel) => Some(parcel),
            Picked::Busy => None,
            Picked::Nothing => None,
        };
        let call = picked_call(self.alloc, &parcel);
        self.is_whole = keep(&mut self.calls, self.is_whole, call);
        parcel
    }

    fn sent(&mut self, parcel: Parcel) -> Result<(), Parcel> {
        let call = sent_call(self.alloc, &parcel);
        self.is_whole = keep(&mut self.calls, self.is_whole, call);
        if self.is_strange {
            return Err(parcel);
        }
        self.book.sent(parcel)
    }

    fn unsent(&mut self, parcel: Parcel) -> Result<(), Parcel> {
        let call = unsent_call(self.alloc, &parcel);
        self.is_whole = keep(&mut self.calls, self.is_whole, call);
        if self.is_strange {
            return Err(parcel);
        }
        self.book.unsent(parcel)
    }
}
