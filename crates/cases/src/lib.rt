//! Worked cases: steps, and the answers that they must get.
//!
//! A case program answers the cases on its standard input, which is text for a telecom engineer to read:
//!
//! | Line | Meaning |
//! |---|---|
//! | empty, or `# ..` | a comment |
//! | `message NAME = WORD ..` | a name for octets: the words are hexadecimal digits, or earlier names |
//! | `STEPS => ANSWERS` | a case: its steps, and the answers that they must get, with `; ` between them |
//! | ` STEPS => ANSWERS` | after a blank: more steps of the case before, and their answers |
//! | ` WORDS` | after a blank: more words of the last answer |
//!
//! In later cases a name as a word of its own means its octets. Answers are worked out by hand, or taken from a
//! standard.
//!
//! `run` prints the first wrong step of each wrong case, with the line that it is in, the answer and the wanted answer,
//! and below it the steps beside it with their wanted answers. At the end it prints the numbers of all cases and of the
//! wrong ones. For example:
//!
//! ```text
//! stdin:1234: post begin-9: O00000001, wanted D
//!   stdin:1233: at 10 => 10
//!   stdin:1235: tick => 0 0
//! 1155 cases, 1 wrong
//! ```
//!
//! A program has a type that implements `Answers`, and writes the answer to a case to an `Answer`. No call of an
//! `Answer` fails. An invalid step or a lack of memory is its fault: the first one is kept, and nothing is written after
//! it. So functions that write answers need neither results nor `?`. To add a kind of case:
//!
//! * write `fn kind(rest: &str, out: &mut Answer)`, and call it for the first word of the input (`first_word`);
//! * read words by `number_of`, `identifier_of` and `octets_of`, which note a malformed word and give 0, or no octets;
//! * write by `text`, `value`, `labeled`, `identifier` and `octets`; call `fail` for an invalid step;
//! * implement `Steps` if a case has steps of its own, and `play` them.
//!
//! `Cursor` and `Line` count the lines of a script.
#![tactic(auto)]

mod answer;
mod faults;
mod lines;
mod names;
mod running;
mod script;
mod steps;
mod words;

pub use answer::Answer;
pub use lines::{Cursor, Line};
pub use running::run;
pub use steps::{Steps, play};
pub use words::{first_word, identifier_of, number_of, octets_of};

/// Answers the cases of a program.
pub trait Answers {
    /// Writes the answer to this input to `out`, which is empty. An input that isn't a valid case is a fault of `out`.
    fn answer(&mut self, input: &str, out: &mut Answer);
}
