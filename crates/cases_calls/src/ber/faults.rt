//! The faults of many inputs: how often each occurs in a row.

use crate::values::kept;
use cases::{Answer, octets_of};
use fp_ber::{BerFault, read};
use std::alloc::Global;

/// The first fault of these octets; `None` if they spell an element.
fn fault_of(alloc: Global, octets: &[u8]) -> Option<BerFault> {
    read(alloc, octets).err()
}

/// Writes how often in a row this fault occurred, or, for `None`, an element.
fn push_count(out: &mut Answer, count: u32, fault: Option<BerFault>) {
    out.value(count);
    out.text(" ");
    match fault {
        Some(fault) => out.shown(&fault),
        None => out.text("elements"),
    }
}

/// Writes how often each fault occurs in a row.
fn push_faults(out: &mut Answer, faults: &[Option<BerFault>]) {
    let mut last = None;
    let mut count: u32 = 0;
    for fault in faults {
        if count > 0 && *fault != last {
            push_count(out, count, last);
            out.text(", ");
            count = 0;
        }
        last = *fault;
        count = count.saturating_add(1);
    }
    push_count(out, count, last)
}

/// The faults of all prefixes of these octets.
fn prefixes(alloc: Global, text: &str, out: &mut Answer) {
    let octets = octets_of(alloc, text, out);
    let mut faults = Vec::new(alloc);
    for length in 0..octets.len() {
        out.push(&mut faults, fault_of(alloc, &octets[..length]));
    }
    push_faults(out, faults.as_slice())
}

/// The faults of these octets followed by one more, 00 to FF.
fn trailing(alloc: Global, text: &str, out: &mut Answer) {
    let mut octets = octets_of(alloc, text, out);
    let mut faults = Vec::new(alloc);
    for octet in 0..=u8::MAX {
        out.push(&mut octets, octet);
        out.push(&mut faults, fault_of(alloc, octets.as_slice()));
        octets.pop();
    }
    push_faults(out, faults.as_slice())
}

/// The faults of these octets followed by none to seven more.
fn following(alloc: Global, text: &str, out: &mut Answer) {
    let mut octets = octets_of(alloc, text, out);
    let mut faults = Vec::new(alloc);
    out.push(&mut faults, fault_of(alloc, octets.as_slice()));
    for octet in [0x00, 0xFF, 0x30, 0x80, 0x00, 0x00, 0x00] {
        out.push(&mut octets, octet);
        out.push(&mut faults, fault_of(alloc, octets.as_slice()));
    }
    push_faults(out, faults.as_slice())
}

/// Writes the result of a case of this kind. `false` if this module has no such cases.
pub(crate) fn answer(alloc: Global, kind: &str, rest: &str, out: &mut Answer) -> bool {
    match kind {
        "prefixes" => prefixes(alloc, rest, out),
        "trailing" => trailing(alloc, rest, out),
        "following" => following(alloc, rest, out),
        _ => return false,
    }
    true
}
