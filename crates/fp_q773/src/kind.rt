//! Kinds of messages (Q.773, 4.2.1), by the first octet.

ghost use Rattle.std.specs.Prelude.{◌≡◌};
ghost use Rattle.fp_q773.specs.Ids.{kind_of};

/// The kind of a message.
#[derive(Clone, Copy, Debug, PartialEq, Eq)]
pub enum Kind {
    /// Components outside a dialogue.
    Unidirectional,
    /// The first message of a dialogue.
    Begin,
    /// The last message of a dialogue.
    End,
    /// A message between the first and the last.
    Continue,
    /// A message that cuts off a dialogue.
    Abort,
    /// Any other first octet.
    Unknown,
}

impl Kind {
    /// The kind of a message with this first octet. For example, 62 is a Begin.
    pub(crate) fn of(first: u8) -> Kind
        ensures { result ≡ kind_of first }
    {
        match first {
            0x61 => Kind::Unidirectional,
            0x62 => Kind::Begin,
            0x64 => Kind::End,
            0x65 => Kind::Continue,
            0x67 => Kind::Abort,
            _ => Kind::Unknown,
        }
    }
}
