//! The guarantees of the types of a log's lines, as clauses. Each function takes a value apart and does nothing with
//! it.

ghost use Rattle.std.specs.Prelude.{◌<◌, ◌≤◌, ◌^◌, length};
ghost use Rattle.fp_frames.specs.Frame.{IsMessageLength};
ghost use Rattle.fp_steps.specs.LogLines.{AreOctets, IsCounted, IsInRange, IsPosting, IsStep};
ghost use Rattle.fp_steps.specs.Places.{greatest_place};

use fp_book::{Given, LoggedStep, Posted};
use fp_digits::Moment;
use fp_frames::Frame;

/// A moment is before the year 2100.
fn moment_is_in_time(moment: Moment)
    ensures { moment < Moment.END }
{
    let _milliseconds = moment.milliseconds();
}

/// Octets are below 256.
fn are_octets(octets: &[u8])
    ensures { AreOctets octets.now }
{
    let _octets = octets;
}

/// A message has 1 to 4,096 octets.
fn message_is_in_range(message: &Frame)
    ensures size { IsMessageLength (length message.now) }
    ensures octets { AreOctets message.now }
{
    are_octets(message.octets());
}

/// The numbers of an answer have at most 32 bits.
fn answer_is_in_range(answer: Posted)
    ensures { IsInRange answer }
{
    match answer {
        Posted::Opened(_local) => {}
        Posted::Accepted(_entries) => {}
        Posted::Aborted(_cause) => {}
        Posted::Ended => {}
        Posted::Discarded => {}
    }
}

/// A message, its moment and the numbers of its answer are in range.
fn posting_is_in_range(moment: Moment, message: &Frame, answer: Posted)
    ensures { IsPosting moment message.now answer }
{
    moment_is_in_time(moment);
    message_is_in_range(message);
    answer_is_in_range(answer);
}

/// The numbers in the outcome of requests have at most 32 bits.
fn given_is_in_range(given: Given)
    ensures { IsCounted given }
{
    match given {
        Given::Silent => {}
        Given::Queued(_count) => {}
        Given::Dropped(_count) => {}
    }
}

/// The numbers of due dialogues and of the entries of a turn have at most 32 bits.
fn is_number(number: u32)
    ensures { number < 2 ^ 32 }
{
    let _number = number;
}

/// Births, positions and numbers of lost steps have at most 64 bits.
fn is_long_number(number: u64)
    ensures { number < 2 ^ 64 }
{
    let _number = number;
}

/// The place of a table has at most 16 bits.
fn is_place(place: u16)
    ensures { place ≤ greatest_place }
{
    let _place = place;
}

/// A step of a log is in range.
pub(crate) fn step_is_in_range(step: &LoggedStep)
    ensures { IsStep step.now }
{
    match step {
        LoggedStep::Post {
            table,
            moment,
            message,
            answer,
        } => {
            is_place(*table);
            posting_is_in_range(*moment, message, *answer);
        }
        LoggedStep::Lost {
            moment,
            message,
            answer,
        } => posting_is_in_range(*moment, message, *answer),
        LoggedStep::Tick {
            moment,
            added,
            wanting,
        } => {
            moment_is_in_time(*moment);
            is_number(*added);
            is_number(*wanting);
        }
        LoggedStep::Take {
            birth,
            position,
            count,
        } => {
            is_long_number(*birth);
            is_long_number(*position);
            is_number(*count);
        }
        LoggedStep::Give {
            birth,
            position,
            served,
            given,
        } => {
            is_long_number(*birth);
            is_long_number(*position);
            is_number(*served);
            given_is_in_range(*given);
        }
        LoggedStep::PutBack { birth, position } => {
            is_long_number(*birth);
            is_long_number(*position);
        }
        LoggedStep::Pick { birth } => is_long_number(*birth),
        LoggedStep::Sent { birth } => is_long_number(*birth),
        LoggedStep::Unsent { birth } => is_long_number(*birth),
        LoggedStep::Down => {}
        LoggedStep::Gap { lost } => is_long_number(*lost),
    }
}
