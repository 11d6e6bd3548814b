//! Frames, read by their octets alone.

/// The tags of the messages that are sent.
const END: u8 = 0x64;

const CONTINUE: u8 = 0x65;

const ABORT: u8 = 0x67;

/// The tags of the identifiers of the sender and of the receiver, and of the cause of an Abort of the provider.
const ORIGIN: u8 = 0x48;

const DESTINATION: u8 = 0x49;

const CAUSE: u8 = 0x4A;

/// The tag of an Invoke, and the code of ActivityTest.
const INVOKE: u8 = 0xA1;

const ACTIVITY_TEST: u8 = 0x37;

/// The tags of a Reject and, in it, of the invoke identifier and of a problem of an Invoke or of a result.
const REJECT: u8 = 0xA4;

const INTEGER: u8 = 0x02;

const INVOKE_PROBLEM: u8 = 0x81;

const RESULT_PROBLEM: u8 = 0x82;

/// Where the tag of a message is: after four octets with its length.
const TAG: usize = 4;

/// Where the first element of a message is, and the one after an identifier of four octets.
const FIRST: usize = 6;

const SECOND: usize = 12;

/// Whether the element of this tag at a place is an identifier, this one.
fn has_identifier(frame: &[u8], place: usize, tag: u8, identifier: u32) -> bool {
    let [a, b, c, d] = identifier.to_be_bytes();
    match frame.get(place..) {
        Some(rest) => rest.starts_with(&[tag, 4, a, b, c, d]),
        None => false,
    }
}

/// Whether a frame is an Abort of the provider for this peer, with this cause.
pub(super) fn is_refusal(frame: &[u8], peer: u32, cause: u8) -> bool {
    let [a, b, c, d] = peer.to_be_bytes();
    let wanted = [
        0,
        0,
        0,
        11,
        ABORT,
        9,
        DESTINATION,
        4,
        a,
        b,
        c,
        d,
        CAUSE,
        1,
        cause,
    ];
    frame == wanted.as_slice()
}

/// Whether a frame of a dialogue carries these identifiers: a Continue both, an End and an Abort that of the peer.
pub(super) fn carries(frame: &[u8], local: u32, peer: u32) -> bool {
    match frame.get(TAG).copied() {
        Some(CONTINUE) => {
            has_identifier(frame, FIRST, ORIGIN, local)
                && has_identifier(frame, SECOND, DESTINATION, peer)
        }
        Some(END | ABORT) => has_identifier(frame, FIRST, DESTINATION, peer),
        _ => false,
    }
}

/// Whether a frame ends with an Invoke of ActivityTest, which has no argument.
pub(super) fn is_test(frame: &[u8]) -> bool {
    match frame {
        [.., INVOKE, 6, INTEGER, 1, _, INTEGER, 1, code] => *code == ACTIVITY_TEST,
        _ => false,
    }
}

/// The invoke identifier that a frame rejects, if it ends with a Reject of an Invoke or of a result.
pub(super) fn rejected_by(frame: &[u8]) -> Option<u8> {
    match frame {
        [
            ..,
            REJECT,
            6,
            INTEGER,
            1,
            number,
            INVOKE_PROBLEM | RESULT_PROBLEM,
            1,
            _,
        ] => Some(*number),
        _ => None,
    }
}
