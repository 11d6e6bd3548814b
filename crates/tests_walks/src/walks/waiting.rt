//! Walks by messages that are held back, and by threads that sleep.

use super::{WALK, Walk, assert_walks};
use fp_book::Totals;
use std::test::Fail;

/// An Abort of the provider answers one of several messages.
const ABORT: &str = "\
offer 2A => opened
parcel | add unidirectional; add strange; add unidirectional; front; pause 1100; down => woken aborted none
";

/// A turn is given back, and its request is queued.
const ANSWER: &str = "\
offer 2A => opened
parcel | give-in-share; tell; pause 1100; down => woken given
";

/// A thread that sleeps until there is something to be sent is woken by who tells it: after an Abort of the provider
/// answered one of several messages, as the call that posted them says, and after turns were given back.
#[test]
fn sender_is_woken(rt: HostRuntime) -> Result<(), Fail> {
    let abort = Walk {
        name: "ABORT",
        script: ABORT,
        totals: Totals {
            accepted: 1,
            served: 0,
            sent: 0,
        },
        ..WALK
    };
    let answer = Walk {
        name: "ANSWER",
        script: ANSWER,
        totals: Totals {
            accepted: 1,
            served: 2,
            sent: 0,
        },
        ..WALK
    };
    assert_walks(&rt, rt.alloc(), &[abort, answer])
}

/// Messages up to each limit and beyond: 64 entries of a dialogue, 64 Aborts of the provider, 7,168 places for frames,
/// 4,096 dialogues. The first dialogue, and the 448 of the calls, stay held.
const HELD_BACK: &str = "\
offer empty => opened
turn 0 => silent
offers 4 rejects => all accepted
offer reject => held back
turn 1 => silent
offer reject => accepted
serve-all => nothing
posts 64 strange => all aborted
offer strange => held back
offer bad-end => discarded
offer unidirectional => discarded
offer 2A => opened
send => sent
offer strange => aborted
serve-all => nothing
sends 65 => all sent
quiet 0 => quiet
posts 448 calls => all opened
serve-all => nothing
offer unidirectional => discarded
offer reject => held back
send => sent
offer reject => accepted
serve-all => nothing
sends 7167 => all sent
quiet 0 => quiet
posts 3646 empty => all opened
serve-all => nothing
offer 2B => opened
offer empty => held back
turn 0 => queued
offer empty => held back
send => sent
offer empty => opened
turn 0 => silent
offer empty => aborted
";

/// Messages are held back if 7,168 places for frames are held, 64 entries of their dialogue or 64 Aborts of the
/// provider wait, or 4,096 dialogues are held of which one is busy; and taken after one is sent or served. What is
/// refused all the same isn't held back: a message that gets no Abort, and a Begin if all dialogues are quiet.
#[test]
fn messages_are_held_back(rt: HostRuntime) -> Result<(), Fail> {
    let walk = Walk {
        name: "HELD_BACK",
        script: HELD_BACK,
        totals: Totals {
            accepted: 7_236,
            served: 11_334,
            sent: 7_170,
        },
        ..WALK
    };
    assert_walks(&rt, rt.alloc(), &[walk])
}

/// A thread that sleeps at each limit. Turns and parcels are given back in each way that there is.
const WAKING: &str = "\
offer empty => opened
turn 0 => silent
offers 4 rejects => all accepted
room reject | turn 1 => woken silent
offer rejects => accepted
room reject | give-in-share => woken given
offer rejects => accepted
room reject | add unidirectional; add unidirectional; front; give-in-share => woken none given
offer rejects => accepted
# to put it back makes no room
room reject | put-back 49; pause 1100; turn 49 => waited back silent
offer reject => accepted
serve-all => nothing
posts 64 strange => all aborted
room strange | send-late 1100 => woken sent
offer strange => aborted
room strange | await-and-send 1100 => woken sent
quiet 20 => not quiet
offer strange => aborted
# 63 wait, and the one that is picked in the hold makes room
room-later strange | pick; post strange; pause 200; in-hold; pause 1100; report => woken picked aborted sent sent
sends 62 => all sent
quiet | send-late 50 => woken sent
offer strange => aborted
quiet | pick; in-hold => woken picked sent nothing
offer reject => accepted
quiet | serve-all => woken nothing
offer reject => accepted
quiet | give-in-share => woken given
offer reject => accepted
quiet | serve-one-in-place => woken served
offer 2A => opened
quiet | give-closed end-2 => woken dropped
offer 2B => opened
quiet | put-back-closed end-3 => woken back
offer 2C => opened
quiet | put-back-closed-in-share end-4 => woken back
offer 2D => opened
quiet | give-closed-in-share end-5 => woken given
offers 4 rejects => all accepted
offer strange => aborted
room reject | unsend-late 50 => woken unsent
quiet 0 => quiet
offer strange => discarded
";

/// A thread that sleeps for room for a second at most, and a turn is given meanwhile; and then for a while without
/// room.
const IN_TIME: &str = "\
offer empty => opened
turn 0 => silent
offers 4 rejects => all accepted
room-within 1100 reject | turn 1 => woken silent
offer rejects => accepted
sleep room-within 50 reject => in vain
offer reject => held back
";

/// A thread that sleeps until there is room is woken by a turn that is given, alone or with others, also if messages
/// were posted in one hold before; by a parcel that is handed out, whether it was picked, awaited or found after one
/// was sent; and by one that couldn't be sent, which ends the link; without them it sleeps on, also after a second. One
/// that sleeps until the link is quiet is woken when the last parcel was sent, alone or in the hold that picks the next
/// one, and by the last turn: one that is given, also if its request is dropped, or one that is put back, alone or with
/// others, or one that is served in its place. One that sleeps for a time at most is woken, too, and says that there is
/// room; if none comes, it sleeps for that time, and says so.
#[test]
fn waiting_threads_are_woken(rt: HostRuntime) -> Result<(), Fail> {
    let waking = Walk {
        name: "WAKING",
        script: WAKING,
        totals: Totals {
            accepted: 184,
            served: 121,
            sent: 0,
        },
        ..WALK
    };
    let in_time = Walk {
        name: "IN_TIME",
        script: IN_TIME,
        totals: Totals {
            accepted: 80,
            served: 17,
            sent: 0,
        },
        ..WALK
    };
    assert_walks(&rt, rt.alloc(), &[waking, in_time])
}

/// The link goes down while a thread sleeps until there is room.
const DOWN_FOR_ROOM: &str = "\
offer empty => opened
turn 0 => silent
offers 4 rejects => all accepted
room reject | down => woken
";

/// The link goes down while a thread sleeps until it is quiet.
const DOWN_FOR_QUIET: &str = "\
offer empty => opened
turn 0 => silent
offers 4 rejects => all accepted
quiet | down => woken
";

/// A thread that sleeps until there is room, or the link is quiet, is woken when the link goes down.
#[test]
fn end_of_the_link_wakes(rt: HostRuntime) -> Result<(), Fail> {
    let for_room = Walk {
        name: "DOWN_FOR_ROOM",
        script: DOWN_FOR_ROOM,
        totals: Totals {
            accepted: 64,
            served: 1,
            sent: 0,
        },
        ..WALK
    };
    let for_quiet = Walk {
        name: "DOWN_FOR_QUIET",
        script: DOWN_FOR_QUIET,
        ..for_room
    };
    assert_walks(&rt, rt.alloc(), &[for_room, for_quiet])
}
