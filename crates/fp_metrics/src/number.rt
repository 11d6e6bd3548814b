//! The text of a called number's counters.

ghost use Rattle.std.specs.Prelude.{◌≡◌, ◌++◌, IfOk, OnOk, codes, decimal, string_bytes};
ghost use Rattle.fp_metrics.specs.Number.{number_counters, number_front, number_labels, number_line, number_text};

use fp_counters::{Counter, Counters};
use std::alloc::{AllocError, Global};

/// The number of counters of a called number.
pub const NUMBER_COUNTERS: usize = 29;

/// The counters of a called number: of its dialogues, and of the messages and components sent in them.
pub fn number_counters() -> [Counter; NUMBER_COUNTERS]
    ensures { result ≡ number_counters }
{
    [
        Counter::Opened,
        Counter::EndedByPeer,
        Counter::SentContinue,
        Counter::SentEnd,
        Counter::SentUserAbort,
        Counter::EndedByService,
        Counter::Connect,
        Counter::ReleaseNoRoute,
        Counter::ReleaseBusy,
        Counter::ReleaseNoAnswer,
        Counter::ReleaseRejected,
        Counter::RequestReport,
        Counter::ContinueOperation,
        Counter::ActivityTest,
        Counter::MissingCustomerRecord,
        Counter::MissingParameter,
        Counter::UnexpectedComponentSequence,
        Counter::UnexpectedDataValue,
        Counter::RejectUnrecognizedComponent,
        Counter::RejectMistypedComponent,
        Counter::RejectUnrecognizedOperation,
        Counter::RejectMistypedParameter,
        Counter::RejectUnrecognizedLinkedIdentifier,
        Counter::RejectLinkedResponseUnexpected,
        Counter::RejectUnrecognizedResult,
        Counter::RejectResultUnexpected,
        Counter::RejectUnrecognizedError,
        Counter::RejectErrorUnexpected,
        Counter::RejectOther,
    ]
}

/// The front of a counter's line: the name of its family, up to the called number.
fn number_front(counter: Counter) -> &'static str
    ensures { result.now ≡ number_front counter }
{
    match counter {
        Counter::Opened => "freephone_scp_message_results_total{number=\"",
        Counter::EndedByPeer => "freephone_scp_dialogues_ended_by_peer_total{number=\"",
        Counter::EndedByService => "freephone_scp_dialogues_ended_by_service_total{number=\"",
        Counter::SentContinue => "freephone_scp_messages_sent_total{number=\"",
        Counter::SentEnd => "freephone_scp_messages_sent_total{number=\"",
        Counter::SentUserAbort => "freephone_scp_messages_sent_total{number=\"",
        _ => "freephone_scp_answers_total{number=\"",
    }
}

/// The text between the called number and the value of a counter: its labels.
fn number_labels(counter: Counter) -> &'static str
    ensures { result.now ≡ number_labels counter }
{
    match counter {
        Counter::Opened => "\",result=\"opened\"} ",
        Counter::EndedByPeer => "\"} ",
        Counter::EndedByService => "\"} ",
        Counter::SentContinue => "\",kind=\"continue\"} ",
        Counter::SentEnd => "\",kind=\"end\"} ",
        Counter::SentUserAbort => "\",kind=\"abort\"} ",
        Counter::Connect => "\",kind=\"connect\",cause=\"\"} ",
        Counter::ReleaseNoRoute => "\",kind=\"release_call\",cause=\"3\"} ",
        Counter::ReleaseBusy => "\",kind=\"release_call\",cause=\"17\"} ",
        Counter::ReleaseNoAnswer => "\",kind=\"release_call\",cause=\"19\"} ",
        Counter::ReleaseRejected => "\",kind=\"release_call\",cause=\"21\"} ",
        Counter::RequestReport => "\",kind=\"request_report\",cause=\"\"} ",
        Counter::ContinueOperation => "\",kind=\"continue\",cause=\"\"} ",
        Counter::ActivityTest => "\",kind=\"activity_test\",cause=\"\"} ",
        Counter::MissingCustomerRecord => "\",kind=\"return_error\",cause=\"6\"} ",
        Counter::MissingParameter => "\",kind=\"return_error\",cause=\"7\"} ",
        Counter::UnexpectedComponentSequence => "\",kind=\"return_error\",cause=\"14\"} ",
        Counter::UnexpectedDataValue => "\",kind=\"return_error\",cause=\"15\"} ",
        Counter::RejectUnrecognizedComponent => "\",kind=\"reject\",cause=\"general 0\"} ",
        Counter::RejectMistypedComponent => "\",kind=\"reject\",cause=\"general 1\"} ",
        Counter::RejectUnrecognizedOperation => "\",kind=\"reject\",cause=\"invoke 1\"} ",
        Counter::RejectMistypedParameter => "\",kind=\"reject\",cause=\"invoke 2\"} ",
        Counter::RejectUnrecognizedLinkedIdentifier => "\",kind=\"reject\",cause=\"invoke 5\"} ",
        Counter::RejectLinkedResponseUnexpected => "\",kind=\"reject\",cause=\"invoke 6\"} ",
        Counter::RejectUnrecognizedResult => "\",kind=\"reject\",cause=\"result 0\"} ",
        Counter::RejectResultUnexpected => "\",kind=\"reject\",cause=\"result 1\"} ",
        Counter::RejectUnrecognizedError => "\",kind=\"reject\",cause=\"error 0\"} ",
        Counter::RejectErrorUnexpected => "\",kind=\"reject\",cause=\"error 1\"} ",
        _ => "\",kind=\"reject\",cause=\"other\"} ",
    }
}

/// The line of a counter with this value.
fn number_line(
    alloc: Global,
    called: &str,
    counter: Counter,
    value: u64,
) -> Result<String, AllocError>
    ensures { IfOk result (λ text. string_bytes text
        ≡ number_front counter ++ (called.now ++ (number_labels counter ++ (decimal value ++ codes "\n")))) }
{
    let front = number_front(counter);
    let labels = number_labels(counter);
    format!(in alloc; "{front}{called}{labels}{value}\n")
}

/// Adds the line of a counter.
fn push_number_line(
    alloc: Global,
    out: &mut String,
    called: &str,
    counters: &Counters,
    counter: Counter,
) -> Result<(), AllocError>
    ensures { OnOk result (string_bytes out.new ≡ string_bytes out.old ++ number_line called.now counters.now counter) }
{
    let line = number_line(alloc, called, counter, counters.number(counter))?;
    out.push_str(line.as_str())?;
    Ok(())
}

/// The counters of the called number with the digits `called`, on all links of a run: a line for each, with the names
/// and labels of `metrics_text`, and the number in place of the link. `Err`: memory ran out.
pub fn number_text(alloc: Global, called: &str, counters: &Counters) -> Result<String, AllocError>
    ensures { IfOk result (λ text. string_bytes text ≡ number_text called.now counters.now) }
{
    let mut out = String::new(alloc);
    push_number_lines(alloc, &mut out, called, counters)?;
    Ok(out)
}

/// Adds the lines of all counters of a called number.
fn push_number_lines(
    alloc: Global,
    out: &mut String,
    called: &str,
    counters: &Counters,
) -> Result<(), AllocError>
    ensures { OnOk result (string_bytes out.new ≡ string_bytes out.old ++ number_text called.now counters.now) }
{
    let all = number_counters();
    for counter in &all {
        push_number_line(alloc, out, called, counters, *counter)?;
    }
    Ok(())
}
