//! Return causes.

ghost use Rattle.std.specs.Prelude.{◌≡◌, Some};
ghost use Rattle.fp_sccp.specs.declared.return_cause.ReturnCause.{ReturnCause};
ghost use Rattle.fp_sccp.specs.ReturnCause.{HasCause, cause_code};

/// Why a message is returned to its sender (Q.713, 3.12).
#[derive(Clone, Copy, Debug, PartialEq, Eq)]
pub enum ReturnCause {
    /// 0: an address of this nature has no translation.
    NoTranslationForSuch,
    /// 1: this very address has no translation.
    NoTranslationForThis,
    /// 2: the subsystem is congested.
    SubsystemCongestion,
    /// 3: the subsystem failed.
    SubsystemFailure,
    /// 4: the node has no such subsystem.
    UnequippedUser,
    /// 5: the message transfer part failed.
    MtpFailure,
    /// 6: the network is congested.
    NetworkCongestion,
    /// 7: a cause without a name of its own.
    Unqualified,
    /// 8: the transport of the message failed.
    ErrorInMessageTransport,
    /// 9: the processing at this node failed.
    ErrorInLocalProcessing,
    /// 10: the message is a segment, and its destination can't reassemble segments.
    DestinationCannotPerformReassembly,
    /// 11: SCCP failed.
    SccpFailure,
    /// 12: the message was relayed too often.
    HopCounterViolation,
    /// 13: the message would have to be cut into segments, which isn't supported.
    SegmentationNotSupported,
    /// 14: the message could not be cut into segments.
    SegmentationFailure,
}

impl ReturnCause {
    /// The cause with this code; `None` for a code above 14.
    pub fn from_code(code: u8) -> Option<ReturnCause>
        ensures value { HasCause code result }
        ensures only { (cause : ReturnCause) → cause_code cause ≡ code → result ≡ Some cause }
    {
        match code {
            0 => Some(ReturnCause::NoTranslationForSuch),
            1 => Some(ReturnCause::NoTranslationForThis),
            2 => Some(ReturnCause::SubsystemCongestion),
            3 => Some(ReturnCause::SubsystemFailure),
            4 => Some(ReturnCause::UnequippedUser),
            5 => Some(ReturnCause::MtpFailure),
            6 => Some(ReturnCause::NetworkCongestion),
            7 => Some(ReturnCause::Unqualified),
            8 => Some(ReturnCause::ErrorInMessageTransport),
            9 => Some(ReturnCause::ErrorInLocalProcessing),
            10 => Some(ReturnCause::DestinationCannotPerformReassembly),
            11 => Some(ReturnCause::SccpFailure),
            12 => Some(ReturnCause::HopCounterViolation),
            13 => Some(ReturnCause::SegmentationNotSupported),
            14 => Some(ReturnCause::SegmentationFailure),
            _ => None,
        }
    }

    /// The code of the cause.
    pub fn code(self) -> u8
        ensures { result ≡ cause_code self }
    {
        match self {
            ReturnCause::NoTranslationForSuch => 0,
            ReturnCause::NoTranslationForThis => 1,
            ReturnCause::SubsystemCongestion => 2,
            ReturnCause::SubsystemFailure => 3,
            ReturnCause::UnequippedUser => 4,
            ReturnCause::MtpFailure => 5,
            ReturnCause::NetworkCongestion => 6,
            ReturnCause::Unqualified => 7,
            ReturnCause::ErrorInMessageTransport => 8,
            ReturnCause::ErrorInLocalProcessing => 9,
            ReturnCause::DestinationCannotPerformReassembly => 10,
            ReturnCause::SccpFailure => 11,
            ReturnCause::HopCounterViolation => 12,
            ReturnCause::SegmentationNotSupported => 13,
            ReturnCause::SegmentationFailure => 14,
        }
    }
}
