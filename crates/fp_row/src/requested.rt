//! The outcome of requests.

ghost use Rattle.std.specs.Prelude.{◌≡◌, length};
ghost use Rattle.fp_row.specs.Calls.{frames_in, requested_of};

use crate::{Ending, RequestFrames};

/// The outcome of the requests of a turn that is given back.
#[derive(Debug, Drop)]
pub enum Requested {
    /// No frame: the entries requested nothing.
    Nothing,
    /// Frames to be sent.
    Frames(RequestFrames),
    /// The number of requests that weren't accepted, because the dialogue was ended from outside.
    Dropped(usize),
}

impl Requested {
    /// The outcome of these frames in a dialogue with this ending from outside, if it has one.
    /// Takes no memory.
    pub(crate) fn of(ended: Option<Ending>, frames: RequestFrames) -> Requested
        ensures { result ≡ requested_of ended frames }
    {
        if frames.is_empty() {
            return Requested::Nothing;
        }
        match ended {
            None => Requested::Frames(frames),
            Some(_) => Requested::Dropped(frames.len()),
        }
    }

    /// How many frames are to be sent.
    pub(crate) fn frame_count(&self) -> usize
        ensures { result ≡ length (frames_in self.now) }
    {
        match self {
            Requested::Frames(frames) => frames.len(),
            Requested::Nothing | Requested::Dropped(_) => 0,
        }
    }
}
