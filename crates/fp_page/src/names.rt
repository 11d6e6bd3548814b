//! The rows of the page: their counters and an operator's names for them.

ghost use Rattle.std.specs.Prelude.{◌≡◌};
ghost use Rattle.fp_page.specs.Sent.{aborts, components, sum_of};

use fp_counters::{Counter, Counters};

/// The components that are sent, in the order of the page.
pub(crate) fn answer_counters() -> [Counter; 23]
    ensures { result ≡ components }
{
    [
        Counter::Connect,
        Counter::ReleaseNoRoute,
        Counter::ReleaseBusy,
        Counter::ReleaseNoAnswer,
        Counter::ReleaseRejected,
        Counter::RequestReport,
        Counter::ContinueOperation,
        Counter::ActivityTest,
        Counter::MissingCustomerRecord,
        Counter::MissingParameter,
        Counter::UnexpectedComponentSequence,
        Counter::UnexpectedDataValue,
        Counter::RejectUnrecognizedComponent,
        Counter::RejectMistypedComponent,
        Counter::RejectUnrecognizedOperation,
        Counter::RejectMistypedParameter,
        Counter::RejectUnrecognizedLinkedIdentifier,
        Counter::RejectLinkedResponseUnexpected,
        Counter::RejectUnrecognizedResult,
        Counter::RejectResultUnexpected,
        Counter::RejectUnrecognizedError,
        Counter::RejectErrorUnexpected,
        Counter::RejectOther,
    ]
}

/// The Aborts that are sent, in the order of the page.
pub(crate) fn abort_counters() -> [Counter; 6]
    ensures { result ≡ aborts }
{
    [
        Counter::SentUnknownMessage,
        Counter::SentUnknownTransaction,
        Counter::SentBadTransaction,
        Counter::SentIncorrectTransaction,
        Counter::SentLimit,
        Counter::SentUserAbort,
    ]
}

/// The sum of the numbers of these counters.
#[tactic(auto, using(std::proofs::lemmas::List::Sums::sum_by_more))]
fn sum(counters: &Counters, of: &[Counter]) -> u64
    ensures { result ≡ sum_of counters.now of.now }
{
    let mut sum: u64 = 0;
    for counter in of {
        sum = sum.saturating_add(counters.number(*counter));
    }
    sum
}

/// How many components were sent.
pub fn components_sent(counters: &Counters) -> u64
    ensures { result ≡ sum_of counters.now components }
{
    sum(counters, &answer_counters())
}

/// How many Aborts were sent, of the provider and by the service.
pub fn aborts_sent(counters: &Counters) -> u64
    ensures { result ≡ sum_of counters.now aborts }
{
    sum(counters, &abort_counters())
}

/// An operator's name for a counter of the page.
pub(crate) fn name(counter: Counter) -> &'static str {
    match counter {
        Counter::Connect => "Connect",
        Counter::ReleaseNoRoute => "ReleaseCall, no route (3)",
        Counter::ReleaseBusy => "ReleaseCall, busy (17)",
        Counter::ReleaseNoAnswer => "ReleaseCall, no answer (19)",
        Counter::ReleaseRejected => "ReleaseCall, rejected (21)",
        Counter::RequestReport => "RequestReport<wbr>BCSMEvent",
        Counter::ContinueOperation => "Continue",
        Counter::ActivityTest => "ActivityTest",
        Counter::MissingCustomerRecord => "error, no such number (6)",
        Counter::MissingParameter => "error, missing parameter (7)",
        Counter::UnexpectedComponentSequence => "error, unexpected sequence (14)",
        Counter::UnexpectedDataValue => "error, unexpected value (15)",
        Counter::RejectUnrecognizedComponent => "Reject, unrecognized component",
        Counter::RejectMistypedComponent => "Reject, mistyped component",
        Counter::RejectUnrecognizedOperation => "Reject, unrecognized operation",
        Counter::RejectMistypedParameter => "Reject, mistyped parameter",
        Counter::RejectUnrecognizedLinkedIdentifier => "Reject, linked identifier",
        Counter::RejectLinkedResponseUnexpected => "Reject, linked response",
        Counter::RejectUnrecognizedResult => "Reject, unrecognized result",
        Counter::RejectResultUnexpected => "Reject, result unexpected",
        Counter::RejectUnrecognizedError => "Reject, unrecognized error",
        Counter::RejectErrorUnexpected => "Reject, error unexpected",
        Counter::RejectOther => "Reject, another problem",
        Counter::SentUnknownMessage => "unrecognized message (0)",
        Counter::SentUnknownTransaction => "unrecognized transaction (1)",
        Counter::SentBadTransaction => "badly formatted (2)",
        Counter::SentIncorrectTransaction => "incorrect transaction (3)",
        Counter::SentLimit => "limit reached (4)",
        Counter::SentUserAbort => "by the service",
        _ => "other",
    }
}
