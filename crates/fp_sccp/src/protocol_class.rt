//! Protocol classes.

ghost use Rattle.std.specs.Prelude.{◌≡◌, ◌≤◌, IfSome, IfNone, Some};
ghost use Rattle.fp_sccp.specs.declared.protocol_class.ProtocolClass.{ProtocolClass};
ghost use Rattle.fp_sccp.specs.ProtocolClass.{class_code};

/// A class of the connectionless service (Q.711, 6.2; Q.713, 3.6).
#[derive(Clone, Copy, Debug, PartialEq, Eq)]
pub enum ProtocolClass {
    /// Class 0: messages may overtake each other.
    Basic,
    /// Class 1: messages arrive in the order in which they were sent.
    Sequenced,
}

impl ProtocolClass {
    /// The class with this code; `None` for a code above 1.
    pub fn from_code(code: u8) -> Option<ProtocolClass>
        ensures value { IfSome result (λ class. class_code class ≡ code) }
        ensures none { IfNone result (2 ≤ code) }
        ensures only { (class : ProtocolClass) → class_code class ≡ code → result ≡ Some class }
    {
        match code {
            0 => Some(ProtocolClass::Basic),
            1 => Some(ProtocolClass::Sequenced),
            _ => None,
        }
    }

    /// The code of the class.
    pub fn code(self) -> u8
        ensures { result ≡ class_code self }
    {
        match self {
            ProtocolClass::Basic => 0,
            ProtocolClass::Sequenced => 1,
        }
    }
}
