//! Clients with many calls.

use crate::client::Client;
use crate::streams::Streams;
use crate::talk::{
    ABORTED, END, ERROR, ERROR_REFUSED, UNKNOWN, answer, begin, continues, long_begin,
};
use crate::unmet::Unmet;
use std::alloc::Global;
use std::net::{Net, SocketAddr, TcpStream};
use std::rt::Clock;
use std::sync::Wait;
use std::time::Instant;

/// Writes the Begins from this number of identifiers at once, from this one on.
pub(crate) fn write_begins(
    alloc: Global,
    client: &mut Client,
    first: u32,
    count: u32,
) -> Result<(), Unmet> {
    let mut text = String::new(alloc);
    for number in 0..count {
        text.push_str(begin(alloc, first.wrapping_add(number))?.as_str())?;
    }
    client.write_text(alloc, text.as_str())
}

/// Reads the answers to the Begins from this number of identifiers, from this one on. It is an error if one
/// wasn't answered once, under its own identifier.
pub(crate) fn read_answers(
    alloc: Global,
    client: &mut Client,
    first: u32,
    count: u32,
) -> Result<(), Unmet> {
    let mut messages = Vec::new(alloc);
    for _ in 0..count {
        messages.push(client.message(alloc)?)?;
    }
    are_answers(alloc, client.number(), messages, first)
}

/// How many answers are read before one more call is made.
const ANSWERS_BETWEEN: u32 = 100;

/// Reads answers as [`read_answers`] does, and goes on making calls meanwhile, which are answered no more: all with the
/// identifier after these.
pub(crate) fn read_answers_and_call(
    alloc: Global,
    client: &mut Client,
    first: u32,
    count: u32,
) -> Result<(), Unmet> {
    let mut messages = Vec::new(alloc);
    for number in 0..count {
        if number % ANSWERS_BETWEEN == 0 {
            write_begins(alloc, client, first.wrapping_add(count), 1)?;
        }
        messages.push(client.message(alloc)?)?;
    }
    are_answers(alloc, client.number(), messages, first)
}

/// These messages, in whatever order, must be the answers to the Begins from as many identifiers, from this one on.
fn are_answers(
    alloc: Global,
    client: usize,
    messages: Vec<String>,
    first: u32,
) -> Result<(), Unmet> {
    let mut messages = messages;
    // They differ in the identifier alone, so the smaller one comes first.
    messages.sort_unstable();
    for (number, message) in (0u32..).zip(&messages) {
        let wanted = answer(alloc, first.wrapping_add(number))?;
        Unmet::unless_same(alloc, client, wanted.as_str(), message.as_str())?;
    }
    Ok(())
}

/// Makes this number of calls at once, from this identifier on. It is an error if one wasn't answered once, under
/// its own identifier.
pub(crate) fn make_calls(
    alloc: Global,
    client: &mut Client,
    first: u32,
    count: u32,
) -> Result<(), Unmet> {
    write_begins(alloc, client, first, count)?;
    read_answers(alloc, client, first, count)
}

/// Makes 40 calls one after the other on a connection of its own, and gives how many seconds they took; and then 5,000,
/// 500 at once. It is an error if one of them wasn't answered once, under its own identifier.
pub(crate) fn make_all_calls<R: Net<Stream = TcpStream> + Clock>(
    rt: &R,
    alloc: Global,
    address: SocketAddr,
    number: usize,
) -> Result<u64, Unmet> {
    let mut client = Client::connect(rt, address, number)?;
    let start = Instant::now(rt)?;
    for identifier in 0..40 {
        make_calls(alloc, &mut client, identifier, 1)?;
    }
    let seconds = start.elapsed(rt)?.as_secs();
    for round in 0u32..10 {
        make_calls(alloc, &mut client, round.wrapping_mul(500), 500)?;
    }
    Ok(seconds)
}

/// Writes more at once than a link holds, three times: 80 errors of invocations that there aren't for one dialogue,
/// 8,000 Begins, and 20,000 messages for a dialogue that there isn't. It is an error if one wasn't
/// answered.
pub(crate) fn write_bursts<R: Net<Stream = TcpStream> + Wait + Clock>(
    rt: &R,
    alloc: Global,
    streams: &Streams,
) -> Result<(), Unmet> {
    let mut client = Client::connect(rt, streams.address(rt)?, 0)?;
    client.write_text(alloc, long_begin(alloc)?.as_str())?;
    client.message(alloc)?;
    client.write_text(alloc, continues(alloc, ERROR, 5)?.as_str())?;
    client.messages(alloc, 80, ERROR_REFUSED)?;
    client.write_text(alloc, END)?;
    make_calls(alloc, &mut client, 0x100, 8_000)?;
    let mut unknown = String::new(alloc);
    for _ in 0..20_000 {
        unknown.push_str(UNKNOWN)?;
    }
    client.write_text(alloc, unknown.as_str())?;
    client.messages(alloc, 20_000, ABORTED)
}

/// Makes this number of calls at once on a connection of its own, and closes it. It is an error if one wasn't
/// answered.
pub(crate) fn call_at_once<R: Net<Stream = TcpStream> + Wait + Clock>(
    rt: &R,
    alloc: Global,
    streams: &Streams,
    count: u32,
) -> Result<(), Unmet> {
    let mut client = Client::connect(rt, streams.address(rt)?, 0)?;
    make_calls(alloc, &mut client, 0, count)
}
