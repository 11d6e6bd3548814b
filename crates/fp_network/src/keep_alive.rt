//! How the end of a connection learns that its peer is gone.
//!
//! | The peer | Its connection is given up |
//! |---|---|
//! | is silent, and acknowledges no probe | 110 seconds after its last octet or acknowledgement |
//! | is silent, and acknowledges one of five probes | never |
//! | doesn't acknowledge octets that were sent | 110 seconds after they were sent first |
//! | acknowledges, but has no room for the octets that wait | after 110 seconds without room |
//!
//! A transfer point's connection is given up sooner, since messages may go by another one. In the
//! last two rows that is after 10 seconds. In the first row it is 70 seconds after its last octet
//! or acknowledgement, once a probe was 10 seconds without an acknowledgement. For example, an
//! answer to a transfer point that is gone falls under the third row.
//!
//! The probes are sent 60, 70, 80, 90 and 100 seconds after the peer's last octet or
//! acknowledgement. On Linux `TCP_USER_TIMEOUT` decides all rows: it takes the place of
//! `TCP_KEEPCNT`, so that a connection is given up when that time is over and a probe is due,
//! however many were lost. So it is as long as five probes take.

use libc::net::{
    IPPROTO_TCP, SO_KEEPALIVE, SOL_SOCKET, TCP_KEEPCNT, TCP_KEEPIDLE, TCP_KEEPINTVL,
    TCP_USER_TIMEOUT, setsockopt,
};
use std::os::fd::AsRawFd;

/// How many seconds after the peer's last octet the system sends a first probe.
const IDLE_SECONDS: i32 = 60;

/// How many seconds after a probe that wasn't acknowledged the system sends the next one.
const PROBE_INTERVAL_SECONDS: i32 = 10;

/// How many probes may stay unacknowledged before the system gives the connection up. Six are lost
/// after 120 seconds. That applies only if the system refused [`USER_TIMEOUT_MILLISECONDS`].
const MOST_PROBES: i32 = 6;

/// For how many milliseconds octets that were sent may stay unacknowledged, octets that wait may
/// find no room at the peer, or a peer that is probed may be silent.
const USER_TIMEOUT_MILLISECONDS: i32 = 110_000;

/// The same for octets that are sent to a transfer point.
const TRANSFER_POINT_MILLISECONDS: i32 = 10_000;

/// How many octets the value of an option has.
const OCTETS_OF_A_NUMBER: u32 = 4;

/// A number as the system takes the value of an option: in the first octets of a room for the
/// longest.
fn value(number: i32) -> [u8; 16] {
    let mut octets = [0u8; 16];
    octets[..4].copy_from_slice(&number.to_ne_bytes());
    octets
}

/// Lets reads and writes of a connection fail once its peer is gone, within two minutes, as the
/// table at the head of this file says. If the system refuses that, the connection goes on without
/// it.
pub fn watch_peer<S: AsRawFd>(stream: &S) {
    let fd = stream.as_raw_fd();
    // SAFETY: each is an option of its level whose value is a number.
    unsafe {
        setsockopt(fd, SOL_SOCKET, SO_KEEPALIVE, &value(1), OCTETS_OF_A_NUMBER);
        setsockopt(
            fd,
            IPPROTO_TCP,
            TCP_KEEPIDLE,
            &value(IDLE_SECONDS),
            OCTETS_OF_A_NUMBER,
        );
        setsockopt(
            fd,
            IPPROTO_TCP,
            TCP_KEEPINTVL,
            &value(PROBE_INTERVAL_SECONDS),
            OCTETS_OF_A_NUMBER,
        );
        setsockopt(
            fd,
            IPPROTO_TCP,
            TCP_KEEPCNT,
            &value(MOST_PROBES),
            OCTETS_OF_A_NUMBER,
        );
        setsockopt(
            fd,
            IPPROTO_TCP,
            TCP_USER_TIMEOUT,
            &value(USER_TIMEOUT_MILLISECONDS),
            OCTETS_OF_A_NUMBER,
        );
    }
}

/// Lets reads and writes of a transfer point's connection fail once the transfer point is gone, or
/// takes none of the octets that wait. They fail within ten seconds of the first octets that it
/// doesn't acknowledge or take. If the system refuses that, the limits of [`watch_peer`] hold.
pub(crate) fn watch_transfer_point<S: AsRawFd>(stream: &S) {
    watch_peer(stream);
    // SAFETY: it is an option of its level whose value is a number.
    unsafe {
        setsockopt(
            stream.as_raw_fd(),
            IPPROTO_TCP,
            TCP_USER_TIMEOUT,
            &value(TRANSFER_POINT_MILLISECONDS),
            OCTETS_OF_A_NUMBER,
        );
    }
}
