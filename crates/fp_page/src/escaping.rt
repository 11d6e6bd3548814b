//! Texts from outside, escaped for a page.

ghost use Rattle.std.specs.Prelude.{◌≡◌, ◌++◌, ℕ, List, IfOk, OnOk, false, string_bytes};
ghost use Rattle.std.specs.List.{list_any};
ghost use Rattle.std.specs.Char.{encode_utf8};
ghost use Rattle.fp_page.specs.Escaped.{escaped, is_mark};

use std::alloc::{AllocError, Global};

/// Adds a character, or its reference.
fn push_escaped(out: &mut String, character: char) -> Result<(), AllocError>
    ensures { OnOk result (string_bytes out.new ≡ string_bytes out.old ++ escaped (encode_utf8 character)) }
{
    match character {
        '&' => out.push_str("&amp;"),
        '<' => out.push_str("&lt;"),
        '>' => out.push_str("&gt;"),
        '"' => out.push_str("&quot;"),
        '\'' => out.push_str("&#39;"),
        _ => out.push(character),
    }
}

/// Adds a text with a reference in place of each character that is a mark in HTML, between tags and in the value of an
/// attribute (HTML Standard, 13.1.2.3 and 13.1.4).
pub(crate) fn push_text(out: &mut String, text: &str) -> Result<(), AllocError>
    ensures { OnOk result (string_bytes out.new ≡ string_bytes out.old ++ escaped text.now) }
{
    for character in text.chars() {
        push_escaped(out, character)?;
    }
    Ok(())
}

/// A text with a reference in place of each of `&`, `<`, `>`, `"` and `'`. For example, `a<b` gives `a&lt;b`. `Err`:
/// memory ran out.
pub fn escaped(alloc: Global, text: &str) -> Result<String, AllocError>
    ensures { IfOk result (λ out. string_bytes out ≡ escaped text.now) }
{
    let mut out = String::new(alloc);
    push_text(&mut out, text)?;
    Ok(out)
}

/// An escaped text has none of `<`, `>`, `"` and `'`, and belongs to one text alone.
pub fn escapes_mark_nothing()
    ensures marks { (text : List ℕ) → list_any is_mark (escaped text) ≡ false }
    ensures one { (a b : List ℕ) → escaped a ≡ escaped b → a ≡ b }
{}
