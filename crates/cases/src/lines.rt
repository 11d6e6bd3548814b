//! The lines of a script, and their numbers.

use std::alloc::AllocError;
use std::fmt::Write;

/// Counts the lines of a script.
#[derive(Clone, Copy, Default)]
pub struct Cursor {
    number: u32,
}

/// A line of a script: its number, from 1, and its text.
#[derive(Clone, Copy)]
pub struct Line<'a> {
    /// The number of the line.
    pub number: u32,
    /// Its text, without the line feed.
    pub text: &'a str,
}

impl Cursor {
    /// No line yet.
    pub fn new() -> Cursor {
        Cursor { number: 0 }
    }

    /// The next line, which has this text.
    pub fn line<'a>(&mut self, text: &'a str) -> Line<'a> {
        self.number = self.number.saturating_add(1);
        Line {
            number: self.number,
            text,
        }
    }
}

impl<'a> Line<'a> {
    /// Appends the place of the line in its script, as `SCRIPT:NUMBER: `.
    pub fn push_place(self, script: &str, out: &mut String) -> Result<(), AllocError> {
        write!(out, "{script}:{}: ", self.number)
    }

    /// Whether it is empty or a comment.
    pub(crate) fn is_comment(self) -> bool {
        self.text.is_empty() || self.text.starts_with('#')
    }

    /// The text before the first ` => `, and the text after it: the steps and the wanted answers. `None` if there is no
    /// ` => `.
    pub fn parts(self) -> Option<(&'a str, &'a str)> {
        self.text.split_once(" => ")
    }

    /// The name that it gives, and the words for the octets; `None` for any other line.
    pub(crate) fn name(self) -> Option<(&'a str, &'a str)> {
        self.text.strip_prefix("message ")?.split_once(" = ")
    }
}
