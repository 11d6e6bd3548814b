//! Events of a call.

ghost use Rattle.std.specs.Prelude.{◌≡◌};
ghost use Rattle.fp_inap.specs.Event.{code_of, event_of, IsByName};

/// An event of the basic call state model, eventTypeBCSM (after ITU-T Q.1218), by its name.
#[derive(Clone, Copy, Debug, PartialEq, Eq)]
pub enum Event {
    /// 4, routeSelectFailure: no route to the destination was found.
    RouteSelectFailure,
    /// 5, oCalledPartyBusy: the called party is busy.
    OCalledPartyBusy,
    /// 6, oNoAnswer: the called party did not answer.
    ONoAnswer,
    /// 7, oAnswer: the called party answered.
    OAnswer,
    /// 9, oDisconnect: a party of the answered call left.
    ODisconnect,
    /// 10, oAbandon: the caller left before an answer.
    OAbandon,
    /// An event with another code. [`Event::from_code`] and the readers never return this for a code with a name.
    Other(u8),
}

impl Event {
    /// The event with this code, by its name if it has one.
    pub fn from_code(code: u8) -> Event
        ensures value { result ≡ event_of code }
        ensures code { code_of result ≡ code }
        ensures named { IsByName result }
    {
        match code {
            4 => Event::RouteSelectFailure,
            5 => Event::OCalledPartyBusy,
            6 => Event::ONoAnswer,
            7 => Event::OAnswer,
            9 => Event::ODisconnect,
            10 => Event::OAbandon,
            other => Event::Other(other),
        }
    }

    /// The code of the event.
    pub fn code(self) -> u8
        ensures { result ≡ code_of self }
    {
        match self {
            Event::RouteSelectFailure => 4,
            Event::OCalledPartyBusy => 5,
            Event::ONoAnswer => 6,
            Event::OAnswer => 7,
            Event::ODisconnect => 9,
            Event::OAbandon => 10,
            Event::Other(code) => code,
        }
    }
}
