//! Stream identifiers.

ghost use Rattle.std.specs.Prelude.{◌≡◌};
ghost use Rattle.fp_ipa.specs.StreamIdentifier.{IsByName, stream_code, stream_of};

/// The stream of a message.
#[derive(Clone, Copy, Debug, PartialEq, Eq)]
pub enum StreamIdentifier {
    /// FE: connection management (CCM).
    ConnectionManagement,
    /// FD: SCCP.
    Sccp,
    /// Another stream. [`StreamIdentifier::from_code`] and the reader never return this for a code with a name.
    Other(u8),
}

impl StreamIdentifier {
    /// The stream with this code, by its name if it has one.
    pub fn from_code(code: u8) -> StreamIdentifier
        ensures value { result ≡ stream_of code }
        ensures code { stream_code result ≡ code }
        ensures named { IsByName result }
    {
        match code {
            0xFE => StreamIdentifier::ConnectionManagement,
            0xFD => StreamIdentifier::Sccp,
            other => StreamIdentifier::Other(other),
        }
    }

    /// The code of the stream.
    pub fn code(self) -> u8
        ensures { result ≡ stream_code self }
    {
        match self {
            StreamIdentifier::ConnectionManagement => 0xFE,
            StreamIdentifier::Sccp => 0xFD,
            StreamIdentifier::Other(code) => code,
        }
    }
}
