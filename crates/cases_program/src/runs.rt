//! The runs of a case.

use crate::asked::{Asked, Device, Kind, Limits, asked_by};
use crate::command_line::CommandLine;
use crate::devices::{Failing, Paced, Shown, Sink, Torn};
use crate::outcome::Outcome;
use cases::{Answer, Answers};
use scp::program;
use std::cell::Cell;
use std::fs;
use std::io::Read;
use std::rt::Files;

/// Answers the cases.
#[derive(Drop)]
pub(crate) struct Runs<'a, H> {
    /// The capability to open files.
    pub(crate) rt: &'a H,
}

impl<H: Files + AllocGlobal> Answers for Runs<'_, H> {
    fn answer(&mut self, input: &str, out: &mut Answer) {
        if let Some(asked) = asked_by(input, out) {
            let line = CommandLine::read(self.rt.alloc(), asked.text, out);
            write_answer(self.rt, &asked, &line, out);
        }
    }
}

/// Adds the answer to a case.
fn write_answer<H: Files + AllocGlobal>(
    rt: &H,
    asked: &Asked<'_>,
    line: &CommandLine,
    out: &mut Answer,
) {
    let input = line.input.as_slice();
    match asked.kind {
        Kind::Once => outcome(rt, line, input, asked.limits).write(out),
        Kind::Torn => outcome(rt, line, Torn::new(input), asked.limits).write(out),
        Kind::Beside(file) => write_beside(rt, line, asked.limits, file, out),
        Kind::Paced(size) => write_paced(rt, line, size, out),
        Kind::Failing(device) => write_failing(rt, line, device, out),
        Kind::Fronts(first, last) => write_fronts(rt, line, first, last, out),
    }
}

/// The outcome of a run with this input and these limits.
fn outcome<H: Files + AllocGlobal, R: Read + Drop>(
    rt: &H,
    line: &CommandLine,
    input: R,
    limits: Limits,
) -> Outcome {
    let mut output = Sink::new(rt.alloc(), limits.output, limits.is_flushed);
    let mut errors = Sink::new(rt.alloc(), limits.errors, true);
    let status = program(rt, line.words.as_slice(), input, &mut output, &mut errors);
    Outcome {
        status,
        output: output.octets,
        errors: errors.octets,
    }
}

/// Adds the outcome of a run that is compared with a file.
fn write_beside<H: Files + AllocGlobal>(
    rt: &H,
    line: &CommandLine,
    limits: Limits,
    file: &str,
    out: &mut Answer,
) {
    let Ok(octets) = fs::read(rt, file) else {
        return out.fail("a file that can't be read, or out of memory");
    };
    let outcome = outcome(rt, line, line.input.as_slice(), limits);
    outcome.write_beside(file, octets.as_slice(), out)
}

/// The outcome of a run whose input gives `size` octets a read. Notes how many lines were flushed before each read.
fn paced_outcome<H: Files + AllocGlobal>(
    rt: &H,
    line: &CommandLine,
    size: usize,
    flushed: &Cell<usize>,
    notes: &mut Vec<usize>,
) -> Outcome {
    let input = Paced::new(line.input.as_slice(), size, flushed, notes);
    let mut output = Shown::new(rt.alloc(), flushed);
    let mut errors = Sink::new(rt.alloc(), usize::MAX, true);
    let status = program(rt, line.words.as_slice(), input, &mut output, &mut errors);
    Outcome {
        status,
        output: output.octets,
        errors: errors.octets,
    }
}

/// Adds the outcome of a run whose input gives `size` octets a read, and how many lines were flushed before each read
/// and at its end.
fn write_paced<H: Files + AllocGlobal>(rt: &H, line: &CommandLine, size: usize, out: &mut Answer) {
    let flushed = Cell::new(0);
    let mut notes = Vec::new(rt.alloc());
    paced_outcome(rt, line, size, &flushed, &mut notes).write(out);
    out.text(",");
    for count in &notes {
        out.labeled(" ", *count);
    }
    out.labeled(" ", flushed.get());
}

impl Device {
    /// The line that reports a failure of this device.
    fn fault(self) -> &'static str {
        match self {
            Device::Input => "input: cannot be read\n",
            Device::Output => "output: cannot be written\n",
        }
    }
}

/// The outcome of a run if a device fails after this number of octets.
fn failed_outcome<H: Files + AllocGlobal>(
    rt: &H,
    line: &CommandLine,
    device: Device,
    octets: usize,
) -> Outcome {
    let mut limits = Limits::NONE;
    let mut input = Failing {
        octets: line.input.as_slice(),
        reads: usize::MAX,
    };
    match device {
        Device::Input => input.reads = octets,
        Device::Output => limits.output = octets,
    }
    outcome(rt, line, input, limits)
}

/// The number of runs that end early, as the device fails after no octet, one, two, and so on.
fn early_ends<H: Files + AllocGlobal>(
    rt: &H,
    line: &CommandLine,
    device: Device,
    whole: &Outcome,
) -> usize {
    for octets in 0..usize::MAX {
        let outcome = failed_outcome(rt, line, device, octets);
        if !outcome.ended_early(whole, device.fault()) {
            return octets;
        }
    }
    usize::MAX
}

/// Adds how many runs end early, and the outcome of the first one that doesn't.
fn write_failing<H: Files + AllocGlobal>(
    rt: &H,
    line: &CommandLine,
    device: Device,
    out: &mut Answer,
) {
    let whole = failed_outcome(rt, line, device, usize::MAX);
    let ends = early_ends(rt, line, device, &whole);
    out.value(ends);
    out.text(", then ");
    failed_outcome(rt, line, device, ends).write(out)
}

/// The outcome of the run with the first octets of the message.
fn front_outcome<H: Files + AllocGlobal>(
    rt: &H,
    line: &CommandLine,
    octets: usize,
    out: &mut Answer,
) -> Outcome {
    let digits = line.input.as_slice().get(..octets.saturating_mul(2));
    let mut front = Vec::new(rt.alloc());
    match digits {
        Some(digits) => out.note(front.extend_from_slice(digits)),
        None => out.fail("no such front"),
    }
    out.push(&mut front, b'\n');
    outcome(rt, line, front.as_slice(), Limits::NONE)
}

/// How many runs with prefixes of the message have this outcome, before one that doesn't.
fn like_fronts<H: Files + AllocGlobal>(
    rt: &H,
    line: &CommandLine,
    first: usize,
    last: usize,
    wanted: &Outcome,
    out: &mut Answer,
) -> u32 {
    let mut count: u32 = 0;
    for octets in first..=last {
        if !front_outcome(rt, line, octets, out).is_like(wanted) {
            break;
        }
        count = count.saturating_add(1);
    }
    count
}

/// Adds how many runs with prefixes of the message have the same outcome, and that outcome.
fn write_fronts<H: Files + AllocGlobal>(
    rt: &H,
    line: &CommandLine,
    first: usize,
    last: usize,
    out: &mut Answer,
) {
    let wanted = front_outcome(rt, line, first, out);
    let count = like_fronts(rt, line, first, last, &wanted, out);
    out.value(count);
    out.text(" times ");
    wanted.write(out);
}
