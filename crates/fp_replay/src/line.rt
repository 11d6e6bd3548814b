//! A line of a log, written and read.

ghost use Rattle.std.specs.Prelude.{◌≡◌, [], ◌∷◌, ◌++◌, IfOk, MatchResult, OnErr, OnOk};
ghost use Rattle.fp_book.specs.declared.line.Line.{Line};
ghost use Rattle.fp_book.specs.declared.line.Line.TheVariants.{Step};
ghost use Rattle.fp_replay.specs.Format.{IsLine, text_of};
ghost use Rattle.fp_replay.specs.proof_only.Writing.{KeepsFront};
ghost use Rattle.fp_replay.specs.declared.fault.LineFault.TheVariants.{Memory};

use crate::LineFault;
use crate::fields::{cut, is_text};
use crate::head::{head_in, put_head};
use crate::line_part::LinePart;
use crate::number::number_in;
use crate::step::{step_in, write_step};
use fp_book::{Line, LoggedStep};
use std::alloc::{AllocError, Global};

/// Adds the text of a line and a line feed to a text.
fn write_ended(line: &Line, text: &mut Vec<u8>) -> Result<(), AllocError>
    ensures written { OnOk result (text.new.items ≡ text.old.items ++ text_of line.now ++ 10 ∷ []) }
    ensures front { OnErr result (KeepsFront text.old.items text.new.items) }
{
    match line {
        Line::Head { links, tag } => {
            let mut part = LinePart::new();
            part.put(b'\n');
            put_head(*links, *tag, &mut part);
            part.add_to(text)
        }
        Line::Step { link, step } => write_step(*link, step, text),
    }
}

/// Adds a line to a text: its own text, and a line feed. If memory runs out, the text is unchanged.
///
/// A line that no log has is written, too, but isn't read again. For example, a head of nine links, one with the tag
/// 4,095 or a step of link 8.
pub fn write_line(line: &Line, text: &mut Vec<u8>) -> Result<(), AllocError>
    ensures written { OnOk result (text.new.items ≡ text.old.items ++ text_of line.now ++ 10 ∷ []) }
    ensures unchanged { OnErr result (text.new.items ≡ text.old.items) }
{
    let before = text.len();
    let written = write_ended(line, text);
    if written.is_err() {
        text.truncate(before);
    }
    written
}

/// Adds the line of a step of this link to a text, as [`write_line`]. If memory runs out, the text is unchanged.
pub fn write_step_line(link: u8, step: &LoggedStep, text: &mut Vec<u8>) -> Result<(), AllocError>
    ensures written { OnOk result (text.new.items ≡ text.old.items ++ text_of (Step link step.now) ++ 10 ∷ []) }
    ensures unchanged { OnErr result (text.new.items ≡ text.old.items) }
{
    let before = text.len();
    let written = write_step(link, step, text);
    if written.is_err() {
        text.truncate(before);
    }
    written
}

/// The line of this text, which has no line feed: a head of 1 to 8 links, or a step of a link below 8.
pub(crate) fn line_in(alloc: Global, text: &[u8]) -> Result<Line, LineFault>
    // A line that is read has this text.
    ensures found { IfOk result (λ line. IsLine line × (text.now ≡ text_of line)) }
    // A line with this text is read, unless memory runs out.
    ensures only { (line : Line) → IsLine line → text.now ≡ text_of line → MatchResult result (λ read. read ≡ line) (λ fault. fault ≡ Memory) }
{
    let Some((first, behind)) = cut(text) else {
        return Err(LineFault::BadLine);
    };
    if is_text(first, b"fplog") {
        return head_in(behind);
    }
    let Some(link) = number_in(first, 7) else {
        return Err(LineFault::BadLine);
    };
    let Some((letter, fields)) = behind.split_first() else {
        return Err(LineFault::BadLine);
    };
    let step = step_in(alloc, *letter, fields)?;
    Ok(Line::Step {
        link: link as u8,
        step,
    })
}

/// The line of a text, with its line feed at the end: a head of 1 to 8 links, or a step of a link below 8.
///
/// A text that [`write_line`] writes for no line of a log is a bad line. Only the message of a line takes memory.
pub fn read_line(alloc: Global, text: &[u8]) -> Result<Line, LineFault>
    // A line that is read is written as this text.
    ensures found { IfOk result (λ line. IsLine line × (text.now ≡ text_of line ++ 10 ∷ [])) }
    // A line that is written as this text is read, unless memory runs out.
    ensures only { (line : Line) → IsLine line → text.now ≡ text_of line ++ 10 ∷ [] → MatchResult result (λ read. read ≡ line) (λ fault. fault ≡ Memory) }
{
    let Some((last, line)) = text.split_last() else {
        return Err(LineFault::BadLine);
    };
    if *last != b'\n' {
        return Err(LineFault::BadLine);
    }
    line_in(alloc, line)
}
