//! Fields as text.

use std::alloc::AllocError;
use std::fmt::Write;

/// The most octets of a field in a line.
const MOST_SHOWN: usize = 60;

/// Appends a field, in quotes: its first 60 octets, and `..` if there are more. An octet that isn't printable ASCII
/// becomes `\xHH`.
pub(crate) fn write_value(field: &[u8], out: &mut String) -> Result<(), AllocError> {
    out.push('"')?;
    for octet in field.iter().take(MOST_SHOWN) {
        match *octet {
            b'"' => out.push_str("\\\"")?,
            b'\\' => out.push_str("\\\\")?,
            b' '..=b'~' => out.push(char::from(*octet))?,
            other => write!(out, "\\x{other:02X}")?,
        }
    }
    if field.len() > MOST_SHOWN {
        out.push_str("..")?;
    }
    out.push('"')
}

/// Appends a field of ASCII characters, unchanged.
pub(crate) fn write_text(field: &[u8], out: &mut String) -> Result<(), AllocError> {
    for octet in field {
        out.push(char::from(*octet))?;
    }
    Ok(())
}

/// Appends the offset of local time from UTC, for example `UTC+01:00`, for the offset in a head.
pub(crate) fn write_offset(offset: &[u8], out: &mut String) -> Result<(), AllocError> {
    let (sign, digits) = match offset {
        [b'-', digits @ ..] => ('-', digits),
        _ => ('+', offset),
    };
    let minutes = number_of(digits);
    write!(out, "UTC{sign}{:02}:{:02}", minutes / 60, minutes % 60)
}

/// The number with these decimal digits, below 2^32.
pub(crate) fn number_of(digits: &[u8]) -> u32 {
    let mut number: u32 = 0;
    for digit in digits {
        number = number
            .wrapping_mul(10)
            .wrapping_add(u32::from(digit.wrapping_sub(b'0')));
    }
    number
}
