//! Octets: two hexadecimal digits each, in upper case.

ghost use Rattle.std.specs.Prelude.{◌≡◌, ◌↔◌, ◌<◌, ◌++◌, ℕ, length, slice_index, EachIndex, IfOk, IfSome, IsTrue, List, MatchResult, OnErr, OnOk, ◌^◌, ◌*◌};
ghost use Rattle.fp_frames.specs.Frame.{IsMessageLength};
ghost use Rattle.hex.specs.Hex.{IsBytes, encode_upper, upper_digits};
ghost use Rattle.hex.specs.declared.error.FromHexError.TheVariants.{OutOfMemory};
ghost use Rattle.fp_replay.specs.Format.{identifier_text};
ghost use Rattle.fp_replay.specs.proof_only.Writing.{HasRoom, KeepsFront, Puts};
ghost use Rattle.fp_replay.specs.declared.fault.LineFault.TheVariants.{Memory};

use crate::LineFault;
use crate::line_part::LinePart;
use bytes::Bytes;
use fp_frames::Frame;
use hex::{FromHex, FromHexError};
use std::alloc::{AllocError, Global};

/// The digit of a value.
fn digit(value: u8) -> u8
    requires { value < 16 }
    ensures { result ≡ slice_index upper_digits value }
{
    // Neither a branch nor a table, so that a loop over octets becomes one over sixteen at a time.
    b'0' + value + 7 * u8::from(value > 9)
}

/// Writes the digits of octets over others.
#[inline(always)]
fn fill_digits(octets: &[u8], digits: &mut [u8])
    requires { length digits.old ≡ 2 * length octets.now }
    ensures { digits.new ≡ encode_upper octets.now }
{
    for place in 0..octets.len() {
        let octet = octets[place];
        digits[2 * place] = digit(octet / 16);
        digits[2 * place + 1] = digit(octet % 16);
    }
}

/// Adds octets to a text.
#[inline(always)]
pub(crate) fn write_octets(octets: &[u8], text: &mut Vec<u8>) -> Result<(), AllocError>
    ensures written { OnOk result (text.new.items ≡ text.old.items ++ encode_upper octets.now) }
    ensures front { OnErr result (KeepsFront text.old.items text.new.items) }
{
    let before = text.len();
    text.reserve(2 * octets.len())?;
    text.resize(before + 2 * octets.len(), 0)?;
    fill_digits(octets, text.slice_mut(before..));
    Ok(())
}

/// Puts a local transaction identifier at the front of a part of a line.
#[inline(always)]
pub(crate) fn put_identifier(local: u32, part: &mut LinePart)
    requires { HasRoom 8 part.old }
    ensures { Puts 8 (identifier_text local) part.old part.new }
{
    // An array of fixed length is written without a loop.
    let mut digits = [0; 8];
    fill_digits(&local.to_be_bytes(), &mut digits);
    part.put_eight(&digits);
}

/// Whether a field has no letter in lower case: their codes are above the digits' and the upper-case letters'.
fn is_upper_case(field: &[u8]) -> bool
    ensures { IsTrue result ↔ EachIndex field.now (λ k. slice_index field.now k < 97) }
{
    field.iter().all(|octet| *octet < b'a')
}

/// The local transaction identifier in a field.
pub(crate) fn identifier_in(field: &[u8]) -> Option<u32>
    ensures found { IfSome result (λ local. (local < 2 ^ 32) × (field.now ≡ identifier_text local)) }
    ensures only { (local : ℕ) → local < 2 ^ 32 → field.now ≡ identifier_text local → result ≡ Some local }
{
    if !is_upper_case(field) {
        return None;
    }
    let Ok(octets) = <[u8; 4]>::from_hex(field) else {
        return None;
    };
    Some(u32::from_be_bytes(octets))
}

/// The fault of digits that aren't read: memory ran out, or they aren't pairs of digits.
fn fault_of(error: FromHexError) -> LineFault
    ensures { error ≡ OutOfMemory → result ≡ Memory }
{
    match error {
        FromHexError::OutOfMemory => LineFault::Memory,
        _ => LineFault::BadLine,
    }
}

/// The message in a field.
pub(crate) fn message_in(alloc: Global, field: &[u8]) -> Result<Frame, LineFault>
    ensures found { IfOk result (λ message. IsMessageLength (length message) × IsBytes message × (field.now ≡ encode_upper message)) }
    ensures only { (message : List ℕ) → IsMessageLength (length message) → IsBytes message → field.now ≡ encode_upper message → MatchResult result (λ read. read ≡ message) (λ fault. fault ≡ Memory) }
{
    if field.len() > 2 * Frame::MOST || !is_upper_case(field) {
        return Err(LineFault::BadLine);
    }
    let octets = match hex::decode(alloc, field) {
        Ok(octets) => octets,
        Err(error) => return Err(fault_of(error)),
    };
    let Ok(message) = Bytes::from_vec(octets) else {
        return Err(LineFault::Memory);
    };
    let Some(frame) = Frame::new(message) else {
        return Err(LineFault::BadLine);
    };
    Ok(frame)
}
