//! The outcome of a message, and of requests.

ghost use Rattle.std.specs.Prelude.{◌≡◌, decimal, IfSome};
ghost use Rattle.fp_book.specs.declared.answers.Given.{Given};
ghost use Rattle.fp_book.specs.declared.answers.Posted.{Posted};
ghost use Rattle.fp_q773.specs.ProviderAbort.{cause_code};
ghost use Rattle.fp_q773.specs.declared.provider_abort.AbortCause.{AbortCause};
ghost use Rattle.fp_replay.specs.Format.{IsCounted, IsInRange, given_text, posted_text};
ghost use Rattle.fp_replay.specs.proof_only.Writing.{HasRoom, Puts};

use crate::line_part::LinePart;
use crate::number::{number_in, short_number_in};
use crate::octets::{identifier_in, put_identifier};
use fp_book::{Given, Posted};
use fp_q773::AbortCause;

/// Puts the outcome of a message at the front of a part of a line.
#[inline(always)]
pub(crate) fn put_posted(answer: Posted, part: &mut LinePart)
    requires { HasRoom 21 part.old }
    ensures { Puts 21 (posted_text answer) part.old part.new }
{
    match answer {
        Posted::Opened(local) => {
            put_identifier(local, part);
            part.put(b'O');
        }
        Posted::Accepted(entries) => {
            part.put_number(u64::from(entries));
            part.put(b'A');
        }
        Posted::Aborted(cause) => {
            part.put_number(u64::from(cause.code()));
            part.put(b'X');
        }
        Posted::Ended => part.put(b'E'),
        Posted::Discarded => part.put(b'D'),
    }
}

/// The cause of an Abort in a field.
fn cause_in(field: &[u8]) -> Option<AbortCause>
    ensures found { IfSome result (λ cause. field.now ≡ decimal (cause_code cause)) }
    ensures only { (cause : AbortCause) → field.now ≡ decimal (cause_code cause) → result ≡ Some cause }
{
    let Some(code) = number_in(field, u8::MAX as u64) else {
        return None;
    };
    AbortCause::from_code(code as u8)
}

/// The outcome of a message in a field.
pub(crate) fn posted_in(field: &[u8]) -> Option<Posted>
    ensures found { IfSome result (λ answer. IsInRange answer × (field.now ≡ posted_text answer)) }
    ensures only { (answer : Posted) → IsInRange answer → field.now ≡ posted_text answer → result ≡ Some answer }
{
    let [letter, behind @ ..] = field else {
        return None;
    };
    match *letter {
        b'O' => identifier_in(behind).map(Posted::Opened),
        b'A' => short_number_in(behind).map(Posted::Accepted),
        b'X' => cause_in(behind).map(Posted::Aborted),
        b'E' if behind.is_empty() => Some(Posted::Ended),
        b'D' if behind.is_empty() => Some(Posted::Discarded),
        _ => None,
    }
}

/// Puts the outcome of requests at the front of a part of a line.
#[inline(always)]
pub(crate) fn put_given(given: Given, part: &mut LinePart)
    requires { HasRoom 21 part.old }
    ensures { Puts 21 (given_text given) part.old part.new }
{
    match given {
        Given::Queued(count) => {
            part.put_number(u64::from(count));
            part.put(b'Q');
        }
        Given::Dropped(count) => {
            part.put_number(u64::from(count));
            part.put(b'D');
        }
        Given::Silent => part.put(b'S'),
    }
}

/// The outcome of requests in a field.
pub(crate) fn given_in(field: &[u8]) -> Option<Given>
    ensures found { IfSome result (λ given. IsCounted given × (field.now ≡ given_text given)) }
    ensures only { (given : Given) → IsCounted given → field.now ≡ given_text given → result ≡ Some given }
{
    let [letter, behind @ ..] = field else {
        return None;
    };
    match *letter {
        b'Q' => short_number_in(behind).map(Given::Queued),
        b'D' => short_number_in(behind).map(Given::Dropped),
        b'S' if behind.is_empty() => Some(Given::Silent),
        _ => None,
    }
}
