//! Cases of the dialogue portion of TCAP for structured dialogue (ITU-T Q.773, 4.2.3).
//!
//! | Case | Result |
//! |---|---|
//! | `name HEX` | the octets that an application context name made of these keeps, or `none` |
//! | `name-lengths OCTET MOST` | the lengths, up to this one, at which repetitions of an octet are a name and are kept unchanged |
//! | `same-name HEX HEX` | whether two names are equal: `yes` or `no` |
//! | `opening NAMES PORTION` | the dialogue that a dialogue portion opens if these names are accepted: `none`, `known NAME`, `unknown NAME` or `bad version NAME`; or `badly` |
//! | `request NAMES APDU` | the same for the dialogue portion around this APDU, with indefinite lengths |
//! | `answer NAME VERDICT` | the octets of the dialogue portion that answers with this VERDICT: `accepted`, `no-name` or `no-version` |
//! | `abort` | the octets of the dialogue portion that aborts |
//!
//! Names have commas between them. `empty` is no octets, and `-` is no names or no dialogue portion.

use crate::elements::{element_of, new_writer, push_written};
use crate::values::name_of;
use cases::{Answer, first_word, number_of, octets_of};
use fp_apdu::{Badly, Name, Opening, Verdict, opening_of, write_aare, write_abrt};
use std::alloc::Global;

/// The names that this text spells.
fn names_of(alloc: Global, text: &str, out: &mut Answer) -> Vec<Name> {
    let mut names = Vec::new(alloc);
    if text == "-" {
        return names;
    }
    for name in text.split(',') {
        if let Some(name) = name_of(alloc, name, out) {
            out.push(&mut names, name);
        }
    }
    names
}

/// The octets that a name made of these keeps, or `none`.
fn name(alloc: Global, text: &str, out: &mut Answer) {
    let octets = octets_of(alloc, text, out);
    match Name::new(octets.as_slice()) {
        Some(name) => out.octets(name.as_slice()),
        None => out.text("none"),
    }
}

/// Whether these octets are a name, and the name keeps them unchanged.
fn is_kept(octets: &[u8]) -> bool {
    match Name::new(octets) {
        Some(name) => name.as_slice() == octets,
        None => false,
    }
}

/// Writes a length, after a blank if others precede it.
fn push_length(out: &mut Answer, length: u8) {
    out.separator(" ");
    out.value(length);
}

/// The lengths at which repetitions of an octet are a name.
fn name_lengths(alloc: Global, text: &str, out: &mut Answer) {
    let (octet, most) = first_word(text);
    let octet: u8 = number_of(octet, out);
    let most: u8 = number_of(most, out);
    let mut octets = Vec::new(alloc);
    for length in 0..=most {
        if is_kept(octets.as_slice()) {
            push_length(out, length);
        }
        out.push(&mut octets, octet);
    }
}

/// Whether two names are equal.
fn same_name(alloc: Global, text: &str, out: &mut Answer) {
    let (one, other) = first_word(text);
    let is_same = name_of(alloc, one, out) == name_of(alloc, other, out);
    out.either(is_same, "yes", "no");
}

/// Writes the kind of an opening, with its name.
fn push_named(out: &mut Answer, kind: &str, name: &Name) {
    out.text(kind);
    out.octets(name.as_slice())
}

/// Writes an opening, or `badly`.
fn push_opening(out: &mut Answer, found: Result<Opening, Badly>) {
    match &found {
        Ok(Opening::None) => out.text("none"),
        Ok(Opening::Known(name)) => push_named(out, "known ", name),
        Ok(Opening::Unknown(name)) => push_named(out, "unknown ", name),
        Ok(Opening::BadVersion(name)) => push_named(out, "bad version ", name),
        Err(Badly) => out.text("badly"),
    }
}

/// Writes the opening in a dialogue portion, if these names are accepted.
fn push_opened(alloc: Global, names: &[Name], portion: &str, out: &mut Answer) {
    if portion == "-" {
        return push_opening(out, opening_of(None, names));
    }
    if let Some(portion) = element_of(alloc, portion, out) {
        push_opening(out, opening_of(Some(&portion), names));
    }
}

/// The opening in a dialogue portion.
fn opening(alloc: Global, text: &str, out: &mut Answer) {
    let (names, portion) = first_word(text);
    let names = names_of(alloc, names, out);
    push_opened(alloc, names.as_slice(), portion, out);
}

/// The opening in the dialogue portion around an APDU: an EXTERNAL of the abstract syntax of dialogue APDUs. Each
/// element down to the APDU has an indefinite length.
fn request(alloc: Global, text: &str, out: &mut Answer) {
    let (names, apdu) = first_word(text);
    let mut text = Answer::new(alloc);
    text.text(names);
    text.text(" 6B802880060700118605010101A080");
    text.text(apdu);
    text.text("000000000000");
    opening(alloc, text.as_str(), out);
}

/// The verdict of this name; another one, and a fault, for another text.
fn verdict_of(name: &str, out: &mut Answer) -> Verdict {
    match name {
        "accepted" => Verdict::Accepted,
        "no-name" => Verdict::NoName,
        "no-version" => Verdict::NoVersion,
        _ => {
            out.fail("no verdict");
            Verdict::Accepted
        }
    }
}

/// The octets of an answer.
fn answering(alloc: Global, text: &str, out: &mut Answer) {
    let (name, verdict) = first_word(text);
    let verdict = verdict_of(verdict, out);
    if let Some(name) = name_of(alloc, name, out) {
        push_answer(alloc, &name, verdict, out);
    }
}

/// Writes the octets of an answer.
fn push_answer(alloc: Global, name: &Name, verdict: Verdict, out: &mut Answer) {
    if let Some(mut portion) = new_writer(alloc, out) {
        out.note(write_aare(name, verdict, &mut portion));
        push_written(out, portion);
    }
}

/// The octets of an abort.
fn abort(alloc: Global, out: &mut Answer) {
    if let Some(mut portion) = new_writer(alloc, out) {
        out.note(write_abrt(&mut portion));
        push_written(out, portion);
    }
}

/// Writes the result of a case of this kind. `false` if this module has no such cases.
pub(crate) fn answer(alloc: Global, kind: &str, rest: &str, out: &mut Answer) -> bool {
    match kind {
        "name" => name(alloc, rest, out),
        "name-lengths" => name_lengths(alloc, rest, out),
        "same-name" => same_name(alloc, rest, out),
        "opening" => opening(alloc, rest, out),
        "request" => request(alloc, rest, out),
        "answer" => answering(alloc, rest, out),
        "abort" => abort(alloc, out),
        _ => return false,
    }
    true
}
