//! Reading a case: how to run the program, and with what limits.

use cases::{Answer, first_word, number_of};

/// How the program is run.
#[derive(Clone, Copy)]
pub(crate) enum Kind<'a> {
    /// One run.
    Once,
    /// One run, whose input is interrupted before each octet and fails after the last one.
    Torn,
    /// One run, whose output is compared with the file of this name.
    Beside(&'a str),
    /// One run, whose input gives so many octets a read. It notes how many lines were flushed before each read.
    Paced(usize),
    /// Several runs. In each one this device fails one octet later.
    Failing(Device),
    /// Several runs, with the first octets of the message: from the first of these numbers of octets to the second.
    Fronts(usize, usize),
}

/// A device that fails.
#[derive(Clone, Copy)]
pub(crate) enum Device {
    /// Standard input.
    Input,
    /// Standard output.
    Output,
}

/// The limits of a run's writers.
#[derive(Clone, Copy)]
pub(crate) struct Limits {
    /// How many octets standard output takes.
    pub(crate) output: usize,
    /// Whether standard output can be flushed.
    pub(crate) is_flushed: bool,
    /// How many octets standard error takes.
    pub(crate) errors: usize,
}

impl Limits {
    /// Writers that take everything.
    pub(crate) const NONE: Limits = Limits {
        output: usize::MAX,
        is_flushed: true,
        errors: usize::MAX,
    };
}

/// A case: the kind of its runs, their limits, and their words and input.
#[derive(Clone, Copy)]
pub(crate) struct Asked<'a> {
    /// How the program is run.
    pub(crate) kind: Kind<'a>,
    /// The limits of its writers.
    pub(crate) limits: Limits,
    /// The text after the name of the program.
    pub(crate) text: &'a str,
}

/// Reads a case. `None`, and a fault, if it is none.
pub(crate) fn asked_by<'a>(input: &'a str, out: &mut Answer) -> Option<Asked<'a>> {
    let mut limits = Limits::NONE;
    match input.strip_prefix("mute ") {
        None => run_of(input, limits, out),
        Some(run) => {
            limits.errors = 0;
            run_of(run, limits, out)
        }
    }
}

/// Reads a case after its `mute`, if it had one. `limits` already has the limit of standard error.
fn run_of<'a>(input: &'a str, limits: Limits, out: &mut Answer) -> Option<Asked<'a>> {
    let (word, rest) = first_word(input);
    match word {
        "scp" => run_as(Kind::Once, limits, input, out),
        "torn" => run_as(Kind::Torn, limits, rest, out),
        "full" => limited(rest, limits, true, out),
        "unflushed" => limited(rest, limits, false, out),
        "as" => beside(rest, limits, out),
        "paced" => run_as(Kind::Paced(1), limits, rest, out),
        "pieces" => pieces(rest, limits, out),
        "failing" => failing(rest, limits, out),
        "fronts" => fronts(rest, limits, out),
        _ => {
            out.fail("no such case");
            None
        }
    }
}

/// A run of this kind. `text` is `scp` and the words of the run.
fn run_as<'a>(
    kind: Kind<'a>,
    limits: Limits,
    text: &'a str,
    out: &mut Answer,
) -> Option<Asked<'a>> {
    match text.strip_prefix("scp") {
        Some(text) => Some(Asked { kind, limits, text }),
        None => {
            out.fail("no run of scp");
            None
        }
    }
}

/// A run whose standard output takes the number of octets at the front of `text`.
fn limited<'a>(
    text: &'a str,
    limits: Limits,
    is_flushed: bool,
    out: &mut Answer,
) -> Option<Asked<'a>> {
    let (room, rest) = first_word(text);
    let limits = Limits {
        output: number_of(room, out),
        is_flushed,
        errors: limits.errors,
    };
    run_as(Kind::Once, limits, rest, out)
}

/// A run whose output is compared with the file named at the front of `text`.
fn beside<'a>(text: &'a str, limits: Limits, out: &mut Answer) -> Option<Asked<'a>> {
    let (file, rest) = first_word(text);
    run_as(Kind::Beside(file), limits, rest, out)
}

/// A run whose input gives as many octets a read as the number at the front of `text`.
fn pieces<'a>(text: &'a str, limits: Limits, out: &mut Answer) -> Option<Asked<'a>> {
    let (size, rest) = first_word(text);
    let size: usize = number_of(size, out);
    run_as(Kind::Paced(size), limits, rest, out)
}

/// Runs with a device whose calls fail.
fn failing<'a>(text: &'a str, limits: Limits, out: &mut Answer) -> Option<Asked<'a>> {
    let (calls, rest) = first_word(text);
    match calls {
        "reads" => run_as(Kind::Failing(Device::Input), limits, rest, out),
        "writes" => run_as(Kind::Failing(Device::Output), limits, rest, out),
        _ => {
            out.fail("neither reads nor writes");
            None
        }
    }
}

/// Runs with the first octets of the message, from the first number of octets in `text` to the second.
fn fronts<'a>(text: &'a str, limits: Limits, out: &mut Answer) -> Option<Asked<'a>> {
    let (first, rest) = first_word(text);
    let (last, rest) = first_word(rest);
    let first: usize = number_of(first, out);
    let last: usize = number_of(last, out);
    run_as(Kind::Fronts(first, last), limits, rest, out)
}
