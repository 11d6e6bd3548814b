//! Whether two lines are of the same step with the same answer.

ghost use Rattle.std.specs.Prelude.{◌≡◌, ◌↔◌, IsTrue, Some};

use fp_book::LoggedStep;

/// Whether there is a line `told`, equal to this line.
pub(crate) fn is_told(told: &Option<LoggedStep>, line: &LoggedStep) -> bool
    ensures { IsTrue result ↔ (told.now ≡ Some line.now) }
{
    match told {
        Some(step) => is_same(step, line),
        None => false,
    }
}

/// Whether two lines are equal.
fn is_same(step: &LoggedStep, line: &LoggedStep) -> bool
    ensures { IsTrue result ↔ (step.now ≡ line.now) }
{
    match line {
        LoggedStep::Post {
            table,
            moment,
            message,
            answer,
        } => {
            matches!(step, LoggedStep::Post { table: by, moment: at, message: came, answer: became }
                if by == table && at == moment && became == answer && came.octets() == message.octets())
        }
        LoggedStep::Lost {
            moment,
            message,
            answer,
        } => {
            matches!(step, LoggedStep::Lost { moment: at, message: came, answer: became }
                if at == moment && became == answer && came.octets() == message.octets())
        }
        LoggedStep::Tick {
            moment,
            added,
            wanting,
        } => {
            matches!(step, LoggedStep::Tick { moment: at, added: given, wanting: left }
                if at == moment && given == added && left == wanting)
        }
        LoggedStep::Take {
            birth,
            position,
            count,
        } => {
            matches!(step, LoggedStep::Take { birth: of, position: place, count: many }
                if of == birth && place == position && many == count)
        }
        LoggedStep::Give {
            birth,
            position,
            served,
            given,
        } => {
            matches!(step, LoggedStep::Give { birth: of, position: place, served: many, given: became }
                if of == birth && place == position && many == served && became == given)
        }
        LoggedStep::PutBack { birth, position } => {
            matches!(step, LoggedStep::PutBack { birth: of, position: place }
                if of == birth && place == position)
        }
        LoggedStep::Pick { birth } => matches!(step, LoggedStep::Pick { birth: of } if of == birth),
        LoggedStep::Sent { birth } => matches!(step, LoggedStep::Sent { birth: of } if of == birth),
        LoggedStep::Unsent { birth } =>
            matches!(step, LoggedStep::Unsent { birth: of } if of == birth),
        LoggedStep::Down => matches!(step, LoggedStep::Down),
        LoggedStep::Gap { lost } => matches!(step, LoggedStep::Gap { lost: many } if many == lost),
    }
}
