//! Clients that break off, come late or are refused.

use crate::client::{Client, is_refused};
use crate::device::Mood;
use crate::streams::Streams;
use crate::talk::{LATE_ERROR, LATE_ERROR_REFUSED, begin, calls, long_begin};
use crate::unmet::Unmet;
use std::alloc::Global;
use std::net::{Net, TcpStream};
use std::rt::Clock;
use std::sync::Wait;
use std::thread;
use std::time::Duration;

/// Breaks off inside a frame, sends a length of 0, which ends that link, and then makes a call on a third one, whose
/// error comes eleven seconds late. In the end the device of the log takes octets again. It is an error if that link didn't
/// end, or if the error isn't refused.
pub(crate) fn break_off<R: Net<Stream = TcpStream> + Wait + Clock>(
    rt: &R,
    alloc: Global,
    streams: &Streams,
) -> Result<(), Unmet> {
    let address = streams.address(rt)?;
    let mut first = Client::connect(rt, address, 0)?;
    let mut second = Client::connect(rt, address, 1)?;
    let mut third = Client::connect(rt, address, 2)?;
    first.write_text(alloc, "0000002F622D4804")?;
    drop(first);
    second.write_text(alloc, "00000000")?;
    second.expect_end(alloc)?;
    third.write_text(alloc, long_begin(alloc)?.as_str())?;
    third.message(alloc)?;
    thread::sleep(rt, Duration::from_secs(11));
    third.write_text(alloc, LATE_ERROR)?;
    let answer = third.expect(alloc, LATE_ERROR_REFUSED);
    streams.set_mood(rt, Mood::Takes(0));
    answer
}

/// How many octets of its log a run can write that fails then.
pub const TAKEN: usize = 100;

/// Makes one call, and connects once more when the log has failed. Waits until the server ends the first connection.
/// It is an error if it doesn't, or
/// if it doesn't refuse others within a second.
pub(crate) fn wait_for_end<R: Net<Stream = TcpStream> + Wait + Clock>(
    rt: &R,
    alloc: Global,
    streams: &Streams,
) -> Result<(), Unmet> {
    let address = streams.address(rt)?;
    let mut client = Client::connect(rt, address, 0)?;
    client.write_text(alloc, begin(alloc, 0x2A)?.as_str())?;
    client.message(alloc)?;
    streams.await_octets(rt, TAKEN)?;
    // Now the write that fails returns, too.
    thread::sleep(rt, Duration::from_millis(20));
    let late = Client::connect(rt, address, 1);
    client.expect_end(alloc)?;
    let is_refused = is_refused(rt, address);
    drop(late);
    if is_refused {
        Ok(())
    } else {
        Err(Unmet::Failed("later connections aren't refused"))
    }
}

/// Connects, waits until further connections are refused, and then makes a call. It is an error if it isn't
/// answered.
pub(crate) fn call_beside_refused<R: Net<Stream = TcpStream> + Wait + Clock>(
    rt: &R,
    alloc: Global,
    streams: &Streams,
) -> Result<(), Unmet> {
    let address = streams.address(rt)?;
    let mut client = Client::connect(rt, address, 0)?;
    if !is_refused(rt, address) {
        return Err(Unmet::Failed("further connections aren't refused"));
    }
    calls(alloc, &mut client, 0x2A)
}
