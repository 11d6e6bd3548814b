//! A posted message, and one that ran out of memory.

ghost use Rattle.std.specs.Prelude.{◌≡◌, ◌++◌, ◌∷◌, [], ℕ, List, decimal, IfOk, MatchResult, OnErr, OnOk};
ghost use Rattle.hex.specs.Hex.{encode_upper};
ghost use Rattle.fp_book.specs.declared.answers.Posted.{Posted};
ghost use Rattle.fp_replay.specs.Format.{IsPosting, posted_text};
ghost use Rattle.fp_replay.specs.proof_only.Reading.{ReadsStep, lost_fields, post_fields};
ghost use Rattle.fp_replay.specs.proof_only.Writing.{KeepsFront};
ghost use Rattle.fp_replay.specs.declared.fault.LineFault.TheVariants.{Memory};

use crate::LineFault;
use crate::answer::{posted_in, put_posted};
use crate::fields::{four_fields, three_fields};
use crate::line_part::LinePart;
use crate::number::{moment_in, table_in};
use crate::octets::{message_in, write_octets};
use fp_book::{LoggedStep, Posted};
use fp_digits::Moment;
use fp_frames::Frame;
use std::alloc::{AllocError, Global};

/// A message with its moment and its outcome.
#[derive(Drop)]
struct Posting {
    moment: Moment,
    message: Frame,
    answer: Posted,
}

/// Adds a message and its outcome to a text, each after a blank, and a line feed.
#[inline(always)]
fn write_answered(message: &Frame, answer: Posted, text: &mut Vec<u8>) -> Result<(), AllocError>
    ensures written { OnOk result (text.new.items
        ≡ text.old.items ++ 32 ∷ encode_upper message.now ++ 32 ∷ posted_text answer ++ 10 ∷ []) }
    ensures front { OnErr result (KeepsFront text.old.items text.new.items) }
{
    text.push(b' ')?;
    write_octets(message.octets(), text)?;
    let mut part = LinePart::new();
    part.put(b'\n');
    put_posted(answer, &mut part);
    part.put(b' ');
    part.add_to(text)
}

/// Adds to a text the line of a posted message.
#[inline(always)]
pub(crate) fn write_post(
    link: u8,
    table: u16,
    moment: Moment,
    message: &Frame,
    answer: Posted,
    text: &mut Vec<u8>,
) -> Result<(), AllocError>
    ensures written { OnOk result (text.new.items
        ≡ text.old.items ++ decimal link ++ 32 ∷ 80 ∷ post_fields table moment message.now answer ++ 10 ∷ []) }
    ensures front { OnErr result (KeepsFront text.old.items text.new.items) }
{
    let mut part = LinePart::new();
    part.put_field(u64::from(table));
    part.put_field(moment.milliseconds());
    part.put(b'P');
    part.put_link(link);
    part.add_to(text)?;
    write_answered(message, answer, text)
}

/// Adds to a text the line of a message that ran out of memory.
pub(crate) fn write_lost(
    link: u8,
    moment: Moment,
    message: &Frame,
    answer: Posted,
    text: &mut Vec<u8>,
) -> Result<(), AllocError>
    ensures written { OnOk result (text.new.items
        ≡ text.old.items ++ decimal link ++ 32 ∷ 76 ∷ lost_fields moment message.now answer ++ 10 ∷ []) }
    ensures front { OnErr result (KeepsFront text.old.items text.new.items) }
{
    let mut part = LinePart::new();
    part.put_field(moment.milliseconds());
    part.put(b'L');
    part.put_link(link);
    part.add_to(text)?;
    write_answered(message, answer, text)
}

/// A message with its moment and its outcome, from their fields.
fn posting_in(
    alloc: Global,
    first: &[u8],
    second: &[u8],
    third: &[u8],
) -> Result<Posting, LineFault>
    ensures found { IfOk result (λ p. IsPosting p.moment p.message p.answer
        × (first.now ≡ decimal p.moment) × (second.now ≡ encode_upper p.message) × (third.now ≡ posted_text p.answer)) }
    ensures only { (moment : ℕ) (message : List ℕ) (answer : Posted) → IsPosting moment message answer
        → first.now ≡ decimal moment → second.now ≡ encode_upper message → third.now ≡ posted_text answer
        → MatchResult result (λ p. (p.moment ≡ moment) × (p.message ≡ message) × (p.answer ≡ answer)) (λ fault. fault ≡ Memory) }
{
    let Some(moment) = moment_in(first) else {
        return Err(LineFault::BadLine);
    };
    let Some(answer) = posted_in(third) else {
        return Err(LineFault::BadLine);
    };
    let message = message_in(alloc, second)?;
    Ok(Posting {
        moment,
        message,
        answer,
    })
}

/// The step of a message that was posted, from the fields after its letter.
pub(crate) fn post_in(alloc: Global, fields: &[u8]) -> Result<LoggedStep, LineFault>
    ensures { ReadsStep 80 fields.now result }
{
    let Some((first, second, third, fourth)) = four_fields(fields) else {
        return Err(LineFault::BadLine);
    };
    let Some(table) = table_in(second) else {
        return Err(LineFault::BadLine);
    };
    let Posting {
        moment,
        message,
        answer,
    } = posting_in(alloc, first, third, fourth)?;
    Ok(LoggedStep::Post {
        table,
        moment,
        message,
        answer,
    })
}

/// The step of a message that ran out of memory, from the fields after its letter.
pub(crate) fn lost_in(alloc: Global, fields: &[u8]) -> Result<LoggedStep, LineFault>
    ensures { ReadsStep 76 fields.now result }
{
    let Some((first, second, third)) = three_fields(fields) else {
        return Err(LineFault::BadLine);
    };
    let Posting {
        moment,
        message,
        answer,
    } = posting_in(alloc, first, second, third)?;
    Ok(LoggedStep::Lost {
        moment,
        message,
        answer,
    })
}
