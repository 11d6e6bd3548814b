//! One line of the input.

ghost use Rattle.std.specs.Prelude.{◌≡◌, IfOk, IfSome, length, option_map};
ghost use Rattle.fp_frames.specs.Frame.{IsMessageLength};
ghost use Rattle.fp_ask.specs.Line.{line_in, wait_in};
ghost use Rattle.fp_ask.specs.proof_only.Answering.{input_of};

use bytes::Bytes;
use fp_frames::Frame;
use hex::FromHexError;
use std::alloc::{AllocError, Global};

/// The content of a line.
#[derive(Debug, Drop)]
pub(crate) enum Line {
    /// A message to post.
    Message(Frame),
    /// A wait of this many milliseconds.
    Wait(u64),
}

/// The most characters of a line: two for each octet of the longest message.
pub(crate) const MOST: usize = 8192;

/// The most digits of a wait.
const MOST_WAIT_DIGITS: usize = 13;

/// The content of a line, or `None` for a bad line.
///
/// `text` is the line without its line feed. It is a message if it is the hexadecimal text of 1 to 4,096 octets, in
/// digits of either case, and a wait if it is `+` and 1 to 13 decimal digits.
pub(crate) fn line_of(alloc: Global, text: &[u8]) -> Result<Option<Line>, AllocError>
    ensures { IfOk result (λ line. option_map input_of line ≡ line_in text.now) }
{
    if let [b'+', digits @ ..] = text {
        return Ok(milliseconds_in(digits).map(Line::Wait));
    }
    match hex::decode(alloc, text) {
        Ok(octets) => match Bytes::from_vec(octets) {
            Ok(message) => Ok(Frame::new(message).map(Line::Message)),
            Err(_) => Err(AllocError),
        },
        Err(FromHexError::OutOfMemory) => Err(AllocError),
        Err(_) => Ok(None),
    }
}

/// The value of 1 to 13 decimal digits.
#[tactic(auto, using(crate::proofs::Waits::waits))]
fn milliseconds_in(digits: &[u8]) -> Option<u64>
    ensures { result ≡ wait_in digits.now }
{
    if digits.is_empty() || digits.len() > MOST_WAIT_DIGITS {
        return None;
    }
    let mut milliseconds = 0;
    for digit in digits {
        if !digit.is_ascii_digit() {
            return None;
        }
        milliseconds = 10 * milliseconds + u64::from(*digit - b'0');
    }
    Some(milliseconds)
}
