//! Names for octets.

use std::alloc::{AllocError, Global};

/// A name, and its octets in hexadecimal.
#[derive(Drop)]
struct Name {
    name: String,
    octets: String,
}

/// The names that a program's input gives octets.
#[derive(Drop)]
pub(crate) struct Names {
    names: Vec<Name>,
}

/// What words are replaced with.
#[derive(Clone, Copy)]
pub(crate) enum Replacement {
    /// Names, with their octets.
    Octets,
    /// Octets, with their names.
    Names,
}

impl Name {
    /// The replacement of a word; `None` if it is another word.
    fn replaced(&self, word: &str, replacement: Replacement) -> Option<&str> {
        let (name, octets) = (self.name.as_str(), self.octets.as_str());
        match replacement {
            Replacement::Octets if name == word => Some(octets),
            Replacement::Names if octets == word => Some(name),
            _ => None,
        }
    }
}

/// A word without a semicolon or a comma at its end, and this mark.
fn without_mark(word: &str) -> (&str, &str) {
    if let Some(word) = word.strip_suffix(';') {
        return (word, ";");
    }
    match word.strip_suffix(',') {
        Some(word) => (word, ","),
        None => (word, ""),
    }
}

impl Names {
    /// No names.
    pub(crate) fn new(alloc: Global) -> Names {
        Names {
            names: Vec::new(alloc),
        }
    }

    /// Appends the replacement of a word, or the word itself if it has none.
    fn push_word(
        &self,
        word: &str,
        replacement: Replacement,
        out: &mut String,
    ) -> Result<(), AllocError> {
        for one in self.names.as_slice() {
            if let Some(replaced) = one.replaced(word, replacement) {
                return out.push_str(replaced);
            }
        }
        out.push_str(word)
    }

    /// Gives octets a name. The words for the octets are hexadecimal digits or earlier names.
    pub(crate) fn add(&mut self, alloc: Global, name: &str, words: &str) -> Result<(), AllocError> {
        let mut octets = String::new(alloc);
        for word in words.split(' ') {
            self.push_word(word, Replacement::Octets, &mut octets)?;
        }
        let name = String::from_str(alloc, name)?;
        self.names.push(Name { name, octets })?;
        Ok(())
    }

    /// Appends words, replaced. A semicolon or a comma at the end of a word isn't part of it.
    pub(crate) fn push_words(
        &self,
        words: &str,
        replacement: Replacement,
        out: &mut String,
    ) -> Result<(), AllocError> {
        let mut is_first = true;
        for word in words.split(' ') {
            if !is_first {
                out.push(' ')?;
            }
            let (word, mark) = without_mark(word);
            self.push_word(word, replacement, out)?;
            out.push_str(mark)?;
            is_first = false;
        }
        Ok(())
    }
}
