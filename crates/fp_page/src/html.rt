//! The text of a page, piece by piece.

ghost use Rattle.std.specs.Prelude.{◌≡◌, ◌++◌, [], OnOk, decimal, string_bytes};
ghost use Rattle.fp_page.specs.Numbers.{grouped, grouped_by, tenths_text, three_digits};
ghost use Rattle.fp_page.specs.Pieces.{piece_text, pieces_text};

use crate::escaping::push_text;
use itoa::Buffer;
use std::alloc::{AllocError, Global};

/// How many commas a number of 64 bits has at most.
const MOST_COMMAS: u32 = 6;

/// A piece of a page.
#[derive(Clone, Copy, Debug)]
pub(crate) enum Piece<'a> {
    /// A text of this program: marks and words.
    Fixed(&'static str),
    /// A text from outside, escaped so that it has no marks.
    Text(&'a str),
    /// A number.
    Number(u64),
    /// A number of tenths.
    Tenths(u64),
}

/// The text of a page so far. Only pieces are added to it.
#[derive(Drop)]
pub(crate) struct Html {
    text: String,
}

impl Html {
    /// An empty text.
    pub(crate) fn new(alloc: Global) -> Html
        ensures { string_bytes result.text ≡ [] }
    {
        Html {
            text: String::new(alloc),
        }
    }

    /// Adds the digits of a number.
    fn push_digits(&mut self, number: u64) -> Result<(), AllocError>
        ensures { OnOk result (string_bytes self.new.text ≡ string_bytes self.old.text ++ decimal number) }
    {
        let mut digits = Buffer::new();
        self.text.push_str(digits.format(number))
    }

    /// Adds three digits of a number below 1,000, with zeros before it.
    fn push_three(&mut self, number: u64) -> Result<(), AllocError>
        ensures { OnOk result (string_bytes self.new.text ≡ string_bytes self.old.text ++ three_digits number) }
    {
        self.push_digits(number / 100)?;
        self.push_digits(number / 10 % 10)?;
        self.push_digits(number % 10)
    }

    /// Adds a number, with a comma before each three digits from its end on, and at most this many commas.
    fn push_groups(&mut self, number: u64, commas: u32) -> Result<(), AllocError>
        ensures { OnOk result (string_bytes self.new.text ≡ string_bytes self.old.text ++ grouped_by commas number) }
    {
        if commas == 0 || number < 1_000 {
            return self.push_digits(number);
        }
        self.push_groups(number / 1_000, commas - 1)?;
        self.text.push_str(",")?;
        self.push_three(number % 1_000)
    }

    /// Adds a number, with a comma before each three digits from its end on. For example, `12,345`.
    fn push_number(&mut self, number: u64) -> Result<(), AllocError>
        ensures { OnOk result (string_bytes self.new.text ≡ string_bytes self.old.text ++ grouped number) }
    {
        self.push_groups(number, MOST_COMMAS)
    }

    /// Adds a number of tenths, with a decimal point.
    fn push_tenths(&mut self, tenths: u64) -> Result<(), AllocError>
        ensures { OnOk result (string_bytes self.new.text ≡ string_bytes self.old.text ++ tenths_text tenths) }
    {
        self.push_digits(tenths / 10)?;
        self.text.push_str(".")?;
        self.push_digits(tenths % 10)
    }

    /// Adds a piece.
    fn push(&mut self, piece: Piece<'_>) -> Result<(), AllocError>
        ensures { OnOk result (string_bytes self.new.text ≡ string_bytes self.old.text ++ piece_text piece.entry) }
    {
        match piece {
            Piece::Fixed(text) => self.text.push_str(text),
            Piece::Text(text) => push_text(&mut self.text, text),
            Piece::Number(number) => self.push_number(number),
            Piece::Tenths(tenths) => self.push_tenths(tenths),
        }
    }

    /// Adds pieces, one after the other.
    pub(crate) fn add(&mut self, pieces: &[Piece<'_>]) -> Result<(), AllocError>
        ensures { OnOk result (string_bytes self.new.text ≡ string_bytes self.old.text ++ pieces_text pieces.now) }
    {
        for piece in pieces {
            self.push(*piece)?;
        }
        Ok(())
    }

    /// The text.
    pub(crate) fn into_text(self) -> String
        ensures { string_bytes result ≡ string_bytes self.text }
    {
        let Html { text } = self;
        text
    }
}
