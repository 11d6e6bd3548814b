//! Parcels.

ghost use Rattle.std.specs.Prelude.{◌≡◌};
ghost use Rattle.fp_book.specs.Parcel.{birth_of, dialogue_of, local_of, octets_of};

use fp_reply::AbortFrame;
use fp_row::RequestFrame;

/// The content that is being sent on a link: the frame of a dialogue's request, or of an Abort of the provider. You
/// must report it sent or unsent, or abandon it.
#[must_use]
#[derive(Debug)]
pub struct Parcel {
    /// The link, 0 to 7.
    pub(crate) link: u8,
    pub(crate) content: Content,
}

/// The content of a parcel.
#[derive(Debug, Drop)]
pub(crate) enum Content {
    /// An Abort of the provider.
    Abort(AbortFrame),
    /// The frame of a dialogue.
    Frame(Waiting),
}

/// A frame of a dialogue that waits to be sent.
#[derive(Debug, Drop)]
pub(crate) struct Waiting {
    /// The local transaction identifier of the dialogue.
    pub(crate) local: u32,
    /// The birth of the dialogue.
    pub(crate) birth: u64,
    /// The frame of its request.
    pub(crate) frame: RequestFrame,
}

/// The answer to a pick.
#[must_use]
#[derive(Debug)]
pub enum Picked {
    /// The parcel to send next.
    Parcel(Parcel),
    /// A parcel is out already.
    Busy,
    /// No frame waits.
    Nothing,
}

impl Parcel {
    /// The local transaction identifier of the dialogue whose frame it is; `None` for an Abort of the provider.
    pub fn dialogue(&self) -> Option<u32>
        ensures { result ≡ dialogue_of self.now.content }
    {
        match &self.content {
            Content::Abort(_) => None,
            Content::Frame(waiting) => Some(waiting.local),
        }
    }

    /// The local transaction identifier of the dialogue, 0 for an Abort of the provider.
    pub fn local(&self) -> u32
        ensures { result ≡ local_of self.now.content }
    {
        match &self.content {
            Content::Abort(_) => 0,
            Content::Frame(waiting) => waiting.local,
        }
    }

    /// The birth of the dialogue, 0 for an Abort of the provider.
    pub fn birth(&self) -> u64
        ensures { result ≡ birth_of self.now.content }
    {
        match &self.content {
            Content::Abort(_) => 0,
            Content::Frame(waiting) => waiting.birth,
        }
    }

    /// The octets that are to be sent: the frame, its head included.
    pub fn octets(&self) -> &[u8]
        ensures { result.now ≡ octets_of self.now.content }
    {
        match &self.content {
            Content::Abort(frame) => frame.as_slice(),
            Content::Frame(waiting) => waiting.frame.octets(),
        }
    }

    /// Gives up a parcel without a report. Its link stays busy with it. Takes no memory.
    pub fn abandon(self) {
        let Parcel {
            link: _,
            content: _,
        } = self;
    }
}
