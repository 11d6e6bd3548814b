//! The verdict on a request for a dialogue.

ghost use Rattle.std.specs.Prelude.{◌≡◌};
ghost use Rattle.fp_apdu.specs.Verdict.{associate_result, source, diagnostic};

/// The result of an accepted dialogue.
const ACCEPTED: u8 = 0;
/// The result of a permanently rejected dialogue.
const REJECT_PERMANENT: u8 = 1;

/// The number of the context tag of a diagnostic of the dialogue service user.
const DIALOGUE_SERVICE_USER: u16 = 1;
/// The number of the context tag of a diagnostic of the dialogue service provider.
const DIALOGUE_SERVICE_PROVIDER: u16 = 2;

/// The user's diagnostic: null.
const NULL: u8 = 0;
/// The user's diagnostic: the name isn't supported.
const APPLICATION_CONTEXT_NAME_NOT_SUPPORTED: u8 = 2;
/// The provider's diagnostic: no common version.
const NO_COMMON_DIALOGUE_PORTION: u8 = 2;

/// The answer to a request for a dialogue, with its reason (Q.773, 4.2.3).
#[derive(Clone, Copy, Debug, PartialEq, Eq)]
pub enum Verdict {
    /// The dialogue is accepted.
    Accepted,
    /// The service user rejects the dialogue permanently, as it doesn't support the application context name.
    NoName,
    /// The service provider rejects the dialogue permanently, as no version of the dialogue portion is common.
    NoVersion,
}

impl Verdict {
    /// The result.
    pub(crate) fn result(self) -> u8
        ensures { result ≡ associate_result self }
    {
        match self {
            Verdict::Accepted => ACCEPTED,
            Verdict::NoName | Verdict::NoVersion => REJECT_PERMANENT,
        }
    }

    /// The tag of the result's source.
    pub(crate) fn source(self) -> u16
        ensures { result ≡ source self }
    {
        match self {
            Verdict::Accepted | Verdict::NoName => DIALOGUE_SERVICE_USER,
            Verdict::NoVersion => DIALOGUE_SERVICE_PROVIDER,
        }
    }

    /// The diagnostic of the result's source.
    pub(crate) fn diagnostic(self) -> u8
        ensures { result ≡ diagnostic self }
    {
        match self {
            Verdict::Accepted => NULL,
            Verdict::NoName => APPLICATION_CONTEXT_NAME_NOT_SUPPORTED,
            Verdict::NoVersion => NO_COMMON_DIALOGUE_PORTION,
        }
    }
}
