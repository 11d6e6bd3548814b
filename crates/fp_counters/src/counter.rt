//! The events that are counted on a link.

ghost use Rattle.std.specs.Prelude.{◌≡◌, ◌<◌};
ghost use Rattle.fp_counters.specs.Counter.{AreListed, all_counters, most_counters, place_of};

/// An event that is counted on a link: of a received message, of its dialogues, or of a sent frame.
#[derive(Clone, Copy, Debug, PartialEq, Eq)]
pub enum Counter {
    /// A Begin was received.
    Begins,
    /// A Continue was received.
    Continues,
    /// An End was received.
    Ends,
    /// An Abort was received.
    Aborts,
    /// A Unidirectional was received.
    Unidirectionals,
    /// A message with an unknown tag was received.
    UnknownMessages,
    /// A Begin opened a dialogue.
    Opened,
    /// The dialogue that a message names accepted it.
    Accepted,
    /// A message was refused, which closed the dialogue that it names, and nothing is sent.
    Ended,
    /// No dialogue accepted a message, none was closed, and nothing is sent.
    Discarded,
    /// A message was refused, and an Abort of the provider waits to be sent, with cause 0, unrecognized message type.
    RefusedUnknownMessage,
    /// A message was refused, and an Abort of the provider waits to be sent, with cause 1, unrecognized transaction
    /// identifier.
    RefusedUnknownTransaction,
    /// A message was refused, and an Abort of the provider waits to be sent, with cause 2, badly formatted transaction
    /// portion.
    RefusedBadTransaction,
    /// A message was refused, and an Abort of the provider waits to be sent, with cause 3, incorrect transaction
    /// portion.
    RefusedIncorrectTransaction,
    /// A message was refused, and an Abort of the provider waits to be sent, with cause 4, resource limitation.
    RefusedLimit,
    /// Memory ran out for a message.
    OutOfMemory,
    /// A dialogue accepted an End or an Abort.
    EndedByPeer,
    /// A dialogue was given the clock's entry.
    ClockEntries,
    /// A dialogue was due, and memory ran out for the clock's entry.
    ClockEntriesLeftOut,
    /// A turn was taken, to be served.
    TurnsTaken,
    /// A turn was put back, not served.
    TurnsPutBack,
    /// An entry was served.
    EntriesServed,
    /// A request of the service was accepted: its frame waits to be sent.
    RequestsQueued,
    /// A request of the service was dropped, since its dialogue was ended from outside.
    RequestsDropped,
    /// The frame of a request was sent.
    FramesSent,
    /// An Abort of the provider was sent.
    ProviderAbortsSent,
    /// A frame or an Abort of the provider couldn't be sent.
    Unsent,
    /// A log line found no place.
    LinesLost,
    /// A Continue was sent.
    SentContinue,
    /// An End was sent.
    SentEnd,
    /// An Abort by the user was sent.
    SentUserAbort,
    /// An End or an Abort by the user was sent.
    EndedByService,
    /// An Abort of the provider was sent, with cause 0, unrecognized message type.
    SentUnknownMessage,
    /// An Abort of the provider was sent, with cause 1, unrecognized transaction identifier.
    SentUnknownTransaction,
    /// An Abort of the provider was sent, with cause 2, badly formatted transaction portion.
    SentBadTransaction,
    /// An Abort of the provider was sent, with cause 3, incorrect transaction portion.
    SentIncorrectTransaction,
    /// An Abort of the provider was sent, with cause 4, resource limitation.
    SentLimit,
    /// An Invoke of Connect was sent.
    Connect,
    /// An Invoke of ReleaseCall was sent, with cause 3, no route to destination.
    ReleaseNoRoute,
    /// An Invoke of ReleaseCall was sent, with cause 17, user busy.
    ReleaseBusy,
    /// An Invoke of ReleaseCall was sent, with cause 19, no answer from user.
    ReleaseNoAnswer,
    /// An Invoke of ReleaseCall was sent, with cause 21, call rejected.
    ReleaseRejected,
    /// An Invoke of RequestReportBCSMEvent was sent.
    RequestReport,
    /// An Invoke of the operation Continue was sent.
    ContinueOperation,
    /// An Invoke of ActivityTest was sent.
    ActivityTest,
    /// A ReturnError was sent, with error 6, missingCustomerRecord.
    MissingCustomerRecord,
    /// A ReturnError was sent, with error 7, missingParameter.
    MissingParameter,
    /// A ReturnError was sent, with error 14, unexpectedComponentSequence.
    UnexpectedComponentSequence,
    /// A ReturnError was sent, with error 15, unexpectedDataValue.
    UnexpectedDataValue,
    /// A Reject was sent, with General problem 0, unrecognized component.
    RejectUnrecognizedComponent,
    /// A Reject was sent, with General problem 1, mistyped component.
    RejectMistypedComponent,
    /// A Reject was sent, with Invoke problem 1, unrecognized operation.
    RejectUnrecognizedOperation,
    /// A Reject was sent, with Invoke problem 2, mistyped parameter.
    RejectMistypedParameter,
    /// A Reject was sent, with Invoke problem 5, unrecognized linked identifier.
    RejectUnrecognizedLinkedIdentifier,
    /// A Reject was sent, with Invoke problem 6, linked response unexpected.
    RejectLinkedResponseUnexpected,
    /// A Reject was sent, with ReturnResult problem 0, unrecognized invoke identifier.
    RejectUnrecognizedResult,
    /// A Reject was sent, with ReturnResult problem 1, return result unexpected.
    RejectResultUnexpected,
    /// A Reject was sent, with ReturnError problem 0, unrecognized invoke identifier.
    RejectUnrecognizedError,
    /// A Reject was sent, with ReturnError problem 1, return error unexpected.
    RejectErrorUnexpected,
    /// A Reject was sent, with any other problem.
    RejectOther,
    /// A message was held back, since its link was too busy to take it.
    HeldBack,
    /// A log line was written.
    LinesWritten,
    /// The link went down: the peer closed the connection, or its sending side, between two frames.
    EndPeerClosed,
    /// The link went down: no frame has the length that was read.
    EndBadFrameLength,
    /// The link went down: the peer closed the connection inside a frame.
    EndInsideFrame,
    /// The link went down: a read failed.
    EndReadFault,
    /// The link went down: a write failed.
    EndWriteFault,
    /// The link went down: an allocation for a frame failed.
    EndMemory,
    /// The link went down: its dialogues keep too many entries.
    EndEntries,
    /// The link went down: the log can't be written.
    EndLogFault,
    /// The link went down: the peer acknowledges nothing any more.
    EndPeerGone,
    /// The link went down: the run had another fault.
    EndRunFault,
    /// The link went down: the limit on reads or frames of a link was reached.
    EndLimit,
    /// The link went down: the command `quit` was given.
    EndQuit,
}

/// The number of counters.
pub const COUNTERS: usize = 74;

impl Counter {
    /// The place of the counter, from 0, in the order of the declaration.
    pub fn place(self) -> usize
        ensures value { result ≡ place_of self }
        ensures range { place_of self < most_counters }
    {
        match self {
            Counter::Begins => 0,
            Counter::Continues => 1,
            Counter::Ends => 2,
            Counter::Aborts => 3,
            Counter::Unidirectionals => 4,
            Counter::UnknownMessages => 5,
            Counter::Opened => 6,
            Counter::Accepted => 7,
            Counter::Ended => 8,
            Counter::Discarded => 9,
            Counter::RefusedUnknownMessage => 10,
            Counter::RefusedUnknownTransaction => 11,
            Counter::RefusedBadTransaction => 12,
            Counter::RefusedIncorrectTransaction => 13,
            Counter::RefusedLimit => 14,
            Counter::OutOfMemory => 15,
            Counter::EndedByPeer => 16,
            Counter::ClockEntries => 17,
            Counter::ClockEntriesLeftOut => 18,
            Counter::TurnsTaken => 19,
            Counter::TurnsPutBack => 20,
            Counter::EntriesServed => 21,
            Counter::RequestsQueued => 22,
            Counter::RequestsDropped => 23,
            Counter::FramesSent => 24,
            Counter::ProviderAbortsSent => 25,
            Counter::Unsent => 26,
            Counter::LinesLost => 27,
            Counter::SentContinue => 28,
            Counter::SentEnd => 29,
            Counter::SentUserAbort => 30,
            Counter::EndedByService => 31,
            Counter::SentUnknownMessage => 32,
            Counter::SentUnknownTransaction => 33,
            Counter::SentBadTransaction => 34,
            Counter::SentIncorrectTransaction => 35,
            Counter::SentLimit => 36,
            Counter::Connect => 37,
            Counter::ReleaseNoRoute => 38,
            Counter::ReleaseBusy => 39,
            Counter::ReleaseNoAnswer => 40,
            Counter::ReleaseRejected => 41,
            Counter::RequestReport => 42,
            Counter::ContinueOperation => 43,
            Counter::ActivityTest => 44,
            Counter::MissingCustomerRecord => 45,
            Counter::MissingParameter => 46,
            Counter::UnexpectedComponentSequence => 47,
            Counter::UnexpectedDataValue => 48,
            Counter::RejectUnrecognizedComponent => 49,
            Counter::RejectMistypedComponent => 50,
            Counter::RejectUnrecognizedOperation => 51,
            Counter::RejectMistypedParameter => 52,
            Counter::RejectUnrecognizedLinkedIdentifier => 53,
            Counter::RejectLinkedResponseUnexpected => 54,
            Counter::RejectUnrecognizedResult => 55,
            Counter::RejectResultUnexpected => 56,
            Counter::RejectUnrecognizedError => 57,
            Counter::RejectErrorUnexpected => 58,
            Counter::RejectOther => 59,
            Counter::HeldBack => 60,
            Counter::LinesWritten => 61,
            Counter::EndPeerClosed => 62,
            Counter::EndBadFrameLength => 63,
            Counter::EndInsideFrame => 64,
            Counter::EndReadFault => 65,
            Counter::EndWriteFault => 66,
            Counter::EndMemory => 67,
            Counter::EndEntries => 68,
            Counter::EndLogFault => 69,
            Counter::EndPeerGone => 70,
            Counter::EndRunFault => 71,
            Counter::EndLimit => 72,
            Counter::EndQuit => 73,
        }
    }

    /// Each counter once, in the order of their places.
    pub fn all() -> [Counter; COUNTERS]
        ensures { result ≡ all_counters }
    {
        [
            Counter::Begins,
            Counter::Continues,
            Counter::Ends,
            Counter::Aborts,
            Counter::Unidirectionals,
            Counter::UnknownMessages,
            Counter::Opened,
            Counter::Accepted,
            Counter::Ended,
            Counter::Discarded,
            Counter::RefusedUnknownMessage,
            Counter::RefusedUnknownTransaction,
            Counter::RefusedBadTransaction,
            Counter::RefusedIncorrectTransaction,
            Counter::RefusedLimit,
            Counter::OutOfMemory,
            Counter::EndedByPeer,
            Counter::ClockEntries,
            Counter::ClockEntriesLeftOut,
            Counter::TurnsTaken,
            Counter::TurnsPutBack,
            Counter::EntriesServed,
            Counter::RequestsQueued,
            Counter::RequestsDropped,
            Counter::FramesSent,
            Counter::ProviderAbortsSent,
            Counter::Unsent,
            Counter::LinesLost,
            Counter::SentContinue,
            Counter::SentEnd,
            Counter::SentUserAbort,
            Counter::EndedByService,
            Counter::SentUnknownMessage,
            Counter::SentUnknownTransaction,
            Counter::SentBadTransaction,
            Counter::SentIncorrectTransaction,
            Counter::SentLimit,
            Counter::Connect,
            Counter::ReleaseNoRoute,
            Counter::ReleaseBusy,
            Counter::ReleaseNoAnswer,
            Counter::ReleaseRejected,
            Counter::RequestReport,
            Counter::ContinueOperation,
            Counter::ActivityTest,
            Counter::MissingCustomerRecord,
            Counter::MissingParameter,
            Counter::UnexpectedComponentSequence,
            Counter::UnexpectedDataValue,
            Counter::RejectUnrecognizedComponent,
            Counter::RejectMistypedComponent,
            Counter::RejectUnrecognizedOperation,
            Counter::RejectMistypedParameter,
            Counter::RejectUnrecognizedLinkedIdentifier,
            Counter::RejectLinkedResponseUnexpected,
            Counter::RejectUnrecognizedResult,
            Counter::RejectResultUnexpected,
            Counter::RejectUnrecognizedError,
            Counter::RejectErrorUnexpected,
            Counter::RejectOther,
            Counter::HeldBack,
            Counter::LinesWritten,
            Counter::EndPeerClosed,
            Counter::EndBadFrameLength,
            Counter::EndInsideFrame,
            Counter::EndReadFault,
            Counter::EndWriteFault,
            Counter::EndMemory,
            Counter::EndEntries,
            Counter::EndLogFault,
            Counter::EndPeerGone,
            Counter::EndRunFault,
            Counter::EndLimit,
            Counter::EndQuit,
        ]
    }
}

/// The list of all counters has each in its place.
pub fn all_counters_are_listed()
    ensures { AreListed }
{}
