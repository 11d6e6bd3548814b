//! The words of calls, and of their answers.

use std::fmt::Write;

/// Puts a word after others, with a blank between. An empty one is none.
pub(super) fn say(words: &mut String, word: &str) {
    if !words.is_empty() && !word.is_empty() {
        let _ = words.push_str(" ");
    }
    let _ = words.push_str(word);
}

/// Puts a number right after the last word.
pub(super) fn add_number(words: &mut String, number: u64) {
    let _ = write!(words, "{number}");
}

/// One of two words.
pub(super) fn choose(is_first: bool, first: &'static str, second: &'static str) -> &'static str {
    if is_first { first } else { second }
}

/// The number of a text, 0 if it has none.
pub(super) fn number(text: &str) -> usize {
    text.parse().unwrap_or(0)
}

/// The milliseconds of a text, 0 if it has none.
pub(super) fn milliseconds(text: &str) -> u64 {
    number(text) as u64
}

/// The words for the numbers from 0.
const NUMBERS: &str =
    "none one two three four five six seven eight nine ten eleven twelve thirteen";

/// The word for a number.
pub(super) fn number_word(number: usize) -> &'static str {
    match number {
        40 => "forty",
        _ => NUMBERS.split(' ').nth(number).unwrap_or("else"),
    }
}
