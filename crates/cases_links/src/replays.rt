//! Logs, replayed.
//!
//! | Case | What it gives |
//! |---|---|
//! | `replay LOG` | the report of the log, or why there is none |
//! | `pieces COUNT LOG` | the same if a read gives so many octets at most, and a write takes so many |
//! | `turns COUNT LOG` | the same if so many reads may be made |
//! | `reads TURNS COUNT LOG` | how many reads were made, of TURNS that might be, each of so many octets at most, and the same |
//! | `failing-read COUNT LOG` | the same if the read of this number fails, counted from 1; each gives 7 octets |
//! | `failing-write COUNT LOG` | the same if the write of this number does; each takes 7 octets |
//! | `failing-flush LOG` | the same if the output can't be flushed |
//!
//! `{COUNT*TEXT}` in a log stands for a text so many times over. If something was written before a fault, it stands
//! behind it.

use crate::devices::{Octets, Pieces};
use crate::texts::push_barred;
use cases::{Answer, first_word, number_of};
use fp_records::Table;
use fp_replay::{ReplayFault, replay};
use fp_streams::Counted;
use std::alloc::{AllocError, Global};

/// How a log is read, and its report written: how many octets a read gives and a write takes at most, and which of them
/// fails, from 1; 0: none.
#[derive(Clone, Copy)]
pub(crate) struct Devices {
    turns: u64,
    read: usize,
    failing_read: u32,
    write: usize,
    failing_write: u32,
    flushes: bool,
}

/// Devices that never fail.
pub(crate) const SOUND: Devices = Devices {
    turns: 1_000_000,
    read: 4096,
    failing_read: 0,
    write: 4096,
    failing_write: 0,
    flushes: true,
};

/// Adds a text to a log, with a line feed for each bar.
fn push_text(log: &mut Vec<u8>, text: &str) -> Result<(), AllocError> {
    for octet in text.as_bytes() {
        log.push(if *octet == b'|' { b'\n' } else { *octet })?;
    }
    Ok(())
}

/// Adds what stands between braces.
fn push_repeated(log: &mut Vec<u8>, text: &str, out: &mut Answer) {
    let Some((count, text)) = text.split_once('*') else {
        return out.fail("no count between braces");
    };
    let count: u32 = number_of(count, out);
    for _ in 0..count {
        out.note(push_text(log, text));
    }
}

/// Adds what a text stands for.
fn push_log(log: &mut Vec<u8>, text: &str, out: &mut Answer) {
    for part in text.split('{') {
        match part.split_once('}') {
            Some((repeated, rest)) => {
                push_repeated(log, repeated, out);
                out.note(push_text(log, rest));
            }
            None => out.note(push_text(log, part)),
        }
    }
}

/// Writes why there is no report, and what was written of it, or the report.
fn push_answer(answer: Result<(), ReplayFault>, report: &[u8], out: &mut Answer) {
    if let Err(fault) = answer {
        out.value(fault);
        if !report.is_empty() {
            out.text(", behind ");
        }
    }
    push_barred(out, report);
}

/// Writes what replaying a log gives, and returns how many reads were made of it.
pub(crate) fn push_replay(
    alloc: Global,
    tables: &[Table],
    devices: &Devices,
    log: &[u8],
    out: &mut Answer,
) -> u32 {
    let mut reader = Counted::new(Octets {
        octets: log,
        given: 0,
        most: devices.read,
        cuts: [0, 0],
        failing: devices.failing_read,
        made: 0,
    });
    let mut writer = Counted::new(Pieces {
        octets: Vec::new(alloc),
        most: devices.write,
        failing: devices.failing_write,
        takes_none: false,
        flushes: devices.flushes,
        made: 0,
    });
    let answer = replay(alloc, tables, &[], devices.turns, &mut reader, &mut writer);
    push_answer(answer, writer.device.octets.as_slice(), out);
    reader.device.made
}

/// Writes what replaying the log of a text gives, and returns how many reads were made of it.
fn replayed(
    alloc: Global,
    tables: &[Table],
    devices: &Devices,
    text: &str,
    out: &mut Answer,
) -> u32 {
    let mut log = Vec::new(alloc);
    push_log(&mut log, text, out);
    push_replay(alloc, tables, devices, log.as_slice(), out)
}

/// What replaying the log of a text gives.
fn report(alloc: Global, tables: &[Table], devices: &Devices, text: &str, out: &mut Answer) {
    replayed(alloc, tables, devices, text, out);
}

/// How many reads are made of a log, and what that gives.
fn reads(alloc: Global, tables: &[Table], rest: &str, out: &mut Answer) {
    let (turns, rest) = first_word(rest);
    let (piece, text) = first_word(rest);
    let mut devices = SOUND;
    devices.turns = number_of(turns, out);
    devices.read = number_of(piece, out);
    let mut report = Answer::new(alloc);
    let count = replayed(alloc, tables, &devices, text, &mut report);
    out.labeled("reads ", count);
    out.text(", ");
    out.append(&report);
}

/// The devices of which the flush fails.
fn unflushed() -> Devices {
    let mut devices = SOUND;
    devices.flushes = false;
    devices
}

/// Devices with a count: the turns, the number of the read or the write that fails, or the octets of each read and
/// write.
fn devices_of(kind: &str, count: &str, out: &mut Answer) -> Devices {
    let mut devices = SOUND;
    match kind {
        "turns" => devices.turns = number_of(count, out),
        "failing-read" => {
            devices.read = 7;
            devices.failing_read = number_of(count, out);
        }
        "failing-write" => {
            devices.write = 7;
            devices.failing_write = number_of(count, out);
        }
        _ => {
            devices.read = number_of(count, out);
            devices.write = devices.read;
        }
    }
    devices
}

/// What replaying a log gives with devices that have a count.
fn counted(alloc: Global, tables: &[Table], kind: &str, rest: &str, out: &mut Answer) {
    let (count, text) = first_word(rest);
    let devices = devices_of(kind, count, out);
    report(alloc, tables, &devices, text, out)
}

/// Writes what a case of this module gives, and says whether it has one of this kind.
pub(crate) fn answer(
    alloc: Global,
    tables: &[Table],
    kind: &str,
    rest: &str,
    out: &mut Answer,
) -> bool {
    match kind {
        "replay" => report(alloc, tables, &SOUND, rest, out),
        "reads" => reads(alloc, tables, rest, out),
        "failing-flush" => report(alloc, tables, &unflushed(), rest, out),
        "pieces" | "turns" | "failing-read" | "failing-write" => {
            counted(alloc, tables, kind, rest, out)
        }
        _ => return false,
    }
    true
}
