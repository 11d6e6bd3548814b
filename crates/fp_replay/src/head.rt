//! The head of a log, written and read.

ghost use Rattle.std.specs.Prelude.{◌≡◌, ◌∷◌, ◌++◌, ◌≤◌, ℕ, codes, decimal, IfOk, IfSome};
ghost use Rattle.fp_book.specs.declared.line.Line.{Line};
ghost use Rattle.fp_book.specs.declared.line.Line.TheVariants as lines;
ghost use Rattle.fp_replay.specs.Format.{IsLine, text_of};
ghost use Rattle.fp_replay.specs.proof_only.Writing.{HasRoom, Puts};
ghost use Rattle.fp_tids.specs.Identifiers.{last_tag};

use crate::LineFault;
use crate::fields::{cut, is_text};
use crate::line_part::LinePart;
use crate::number::positive_number_in;
use fp_book::Line;
use fp_tids::LocalIds;

/// Puts the head of a log at the front of a part of a line: how many links there are, and the tag of the run, if it has
/// one.
pub(crate) fn put_head(links: u8, tag: u16, part: &mut LinePart)
    requires { HasRoom 49 part.old }
    ensures { Puts 49 (text_of (lines.Head links tag)) part.old part.new }
{
    if tag == 0 {
        part.put_number(u64::from(links));
        part.put_eight(b"fplog 4 ");
        return;
    }
    part.put_field(u64::from(tag));
    part.put_number(u64::from(links));
    part.put_eight(b"fplog 5 ");
}

/// The number of links, 1 to 8, in a field.
fn link_count_in(field: &[u8]) -> Option<u8>
    ensures found { IfSome result (λ links. (1 ≤ links) × (links ≤ 8) × (field.now ≡ decimal links)) }
    ensures only { (links : ℕ) → 1 ≤ links → links ≤ 8 → field.now ≡ decimal links → result ≡ Some links }
{
    let Some(links) = positive_number_in(field, u64::from(LocalIds::LINKS)) else {
        return None;
    };
    Some(links as u8)
}

/// The head of the log of a run without a tag, from the field after its version.
fn untagged_head_in(field: &[u8]) -> Result<Line, LineFault>
    ensures found { IfOk result (λ line. IsLine line × (codes "fplog 4 " ++ field.now ≡ text_of line)) }
    ensures only { (links : ℕ) → 1 ≤ links → links ≤ 8 → field.now ≡ decimal links → result ≡ Ok (lines.Head links 0) }
{
    let Some(links) = link_count_in(field) else {
        return Err(LineFault::BadLine);
    };
    Ok(Line::Head { links, tag: 0 })
}

/// The head of the log of a run with a tag, from the fields after its version.
fn tagged_head_in(fields: &[u8]) -> Result<Line, LineFault>
    ensures found { IfOk result (λ line. IsLine line × (codes "fplog 5 " ++ fields.now ≡ text_of line)) }
    ensures only { (links tag : ℕ) → 1 ≤ links → links ≤ 8 → 1 ≤ tag → tag ≤ last_tag
        → fields.now ≡ decimal links ++ 32 ∷ decimal tag → result ≡ Ok (lines.Head links tag) }
{
    let Some((first, second)) = cut(fields) else {
        return Err(LineFault::BadLine);
    };
    let Some(links) = link_count_in(first) else {
        return Err(LineFault::BadLine);
    };
    let Some(tag) = positive_number_in(second, u64::from(LocalIds::LAST_TAG)) else {
        return Err(LineFault::BadLine);
    };
    Ok(Line::Head {
        links,
        tag: tag as u16,
    })
}

/// The head of a log, from the text after the name of the format and a blank.
pub(crate) fn head_in(text: &[u8]) -> Result<Line, LineFault>
    ensures found { IfOk result (λ line. IsLine line × (codes "fplog " ++ text.now ≡ text_of line)) }
    ensures only { (line : Line) → IsLine line → codes "fplog " ++ text.now ≡ text_of line → result ≡ Ok line }
{
    let Some((version, fields)) = cut(text) else {
        return Err(LineFault::BadLine);
    };
    if is_text(version, b"4") {
        return untagged_head_in(fields);
    }
    if is_text(version, b"5") {
        return tagged_head_in(fields);
    }
    Err(LineFault::BadLine)
}
