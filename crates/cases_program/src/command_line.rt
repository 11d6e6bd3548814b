//! The words and the input of a run, from text: `WORD .. | LINE | ..`.
//!
//! Each `|` begins a line of the input. The words up to the next one are the line, without the spaces between them, and
//! a line feed follows. `SP` is a space, `CR` a carriage return, `6*8192` the digit 6, 8,192 times, and `CUT` at the
//! end says that no line feed follows. With no `|` the input is empty.

use cases::{Answer, number_of};
use std::alloc::Global;

/// The name under which the system hands the program its words.
const EXECUTABLE: &str = "out/scp_main";

/// The words and the input of a run.
#[derive(Drop)]
pub(crate) struct CommandLine {
    /// The words. The first one names the program.
    pub(crate) words: Vec<String>,
    /// The octets of standard input.
    pub(crate) input: Vec<u8>,
}

impl CommandLine {
    /// Reads the words and the input of a run from a text.
    pub(crate) fn read(alloc: Global, text: &str, out: &mut Answer) -> CommandLine {
        let mut line = CommandLine {
            words: Vec::new(alloc),
            input: Vec::new(alloc),
        };
        push_copy(alloc, &mut line.words, EXECUTABLE, out);
        push_parts(alloc, &mut line, text, out);
        line
    }
}

/// Adds a copy of a word.
fn push_copy(alloc: Global, words: &mut Vec<String>, word: &str, out: &mut Answer) {
    match String::from_str(alloc, word) {
        Ok(word) => out.push(words, word),
        Err(_) => out.run_out(),
    }
}

/// Adds the words before the first bar, and the lines after the bars.
fn push_parts(alloc: Global, line: &mut CommandLine, text: &str, out: &mut Answer) {
    for (place, part) in text.split('|').enumerate() {
        if place == 0 {
            push_words(alloc, &mut line.words, part, out);
        } else {
            push_line(&mut line.input, part, out);
        }
    }
}

/// Adds the words of a text.
fn push_words(alloc: Global, words: &mut Vec<String>, text: &str, out: &mut Answer) {
    for word in text.split_whitespace() {
        push_copy(alloc, words, word, out);
    }
}

/// Adds a line.
fn push_line(input: &mut Vec<u8>, text: &str, out: &mut Answer) {
    let mut is_ended = true;
    for word in text.split_whitespace() {
        match word {
            "SP" => out.push(input, b' '),
            "CR" => out.push(input, b'\r'),
            "CUT" => is_ended = false,
            _ => push_word(input, word, out),
        }
    }
    if is_ended {
        out.push(input, b'\n');
    }
}

/// Adds a word; if `*` and a number follow it, that many times.
fn push_word(input: &mut Vec<u8>, word: &str, out: &mut Answer) {
    let Some((word, times)) = word.split_once('*') else {
        return out.note(input.extend_from_slice(word.as_bytes()));
    };
    let times: u32 = number_of(times, out);
    for _ in 0..times {
        out.note(input.extend_from_slice(word.as_bytes()));
    }
}
