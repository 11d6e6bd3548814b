//! The words of an input.

use crate::Answer;
use hex::FromHexError;
use std::alloc::Global;
use std::str::FromStr;

/// The first word of a text, and the text after it and a blank. Either is empty if it is missing.
pub fn first_word(text: &str) -> (&str, &str) {
    match text.split_once(' ') {
        Some(parts) => parts,
        None => (text, ""),
    }
}

/// The number that a word is. Any other word is a fault of the answer, and gives 0.
pub fn number_of<N: FromStr + Default + Drop>(word: &str, out: &mut Answer) -> N
where
    N::Err: Drop,
{
    match word.parse() {
        Ok(number) => number,
        Err(_) => {
            out.fail("not a number, or too large a one");
            N::default()
        }
    }
}

/// The number of four octets that hexadecimal digits spell. Any other word is a fault of the answer, and gives 0.
pub fn identifier_of(word: &str, out: &mut Answer) -> u32 {
    match u32::from_str_radix(word, 16) {
        Ok(number) => number,
        Err(_) => {
            out.fail("not an identifier in hexadecimal");
            0
        }
    }
}

/// The octets that a hexadecimal text spells; none for `empty`. Any other text is a fault of the answer, and gives
/// none.
pub fn octets_of(alloc: Global, text: &str, out: &mut Answer) -> Vec<u8> {
    if text == "empty" {
        return Vec::new(alloc);
    }
    match hex::decode(alloc, text) {
        Ok(octets) => return octets,
        Err(FromHexError::OutOfMemory) => out.run_out(),
        Err(_) => out.fail("not octets in hexadecimal"),
    }
    Vec::new(alloc)
}
