//! The cases of a program's input.

use crate::Line;
use crate::names::{Names, Replacement};
use std::alloc::{AllocError, Global};

/// A line of a case: its number, and how many steps and answers it has.
#[derive(Clone, Copy)]
pub(crate) struct CaseLine {
    pub(crate) number: u32,
    pub(crate) steps: usize,
    pub(crate) answers: usize,
}

/// A case: its steps, the answers that they must get, and its lines, of which there is one at least.
#[derive(Drop)]
pub(crate) struct Case {
    pub(crate) input: String,
    pub(crate) wanted: String,
    pub(crate) lines: Vec<CaseLine>,
    /// Why it can't be played; empty if it can.
    pub(crate) fault: &'static str,
}

/// The cases of a program's input, and the names in it.
#[derive(Drop)]
pub(crate) struct Script {
    pub(crate) names: Names,
    pub(crate) cases: Vec<Case>,
}

/// How many steps or answers a text has.
fn count_of(text: &str) -> usize {
    text.split("; ").count()
}

/// Appends the separator of steps, unless there are none before.
fn push_separator(out: &mut String) -> Result<(), AllocError> {
    if out.is_empty() {
        return Ok(());
    }
    out.push_str("; ")
}

impl Case {
    /// How many answers are wanted.
    pub(crate) fn answers(&self) -> usize {
        count_of(self.wanted.as_str())
    }

    /// Appends steps and their answers.
    fn add_steps(
        &mut self,
        names: &Names,
        number: u32,
        steps: &str,
        answers: &str,
    ) -> Result<(), AllocError> {
        self.lines.push(CaseLine {
            number,
            steps: count_of(steps),
            answers: count_of(answers),
        })?;
        push_separator(&mut self.input)?;
        push_separator(&mut self.wanted)?;
        names.push_words(steps, Replacement::Octets, &mut self.input)?;
        names.push_words(answers, Replacement::Octets, &mut self.wanted)
    }

    /// Continues the last answer.
    fn add_words(&mut self, names: &Names, words: &str) -> Result<(), AllocError> {
        if let Some(last) = self.lines.last_mut() {
            last.answers = last
                .answers
                .saturating_add(words.split("; ").skip(1).count());
        }
        self.wanted.push(' ')?;
        names.push_words(words, Replacement::Octets, &mut self.wanted)
    }

    /// Adds a line: steps and their answers, or the rest of the last answer.
    fn add_line(&mut self, names: &Names, line: Line<'_>) -> Result<(), AllocError> {
        let number = line.number;
        let text = line.text.trim_start();
        match (Line { number, text }).parts() {
            Some((steps, answers)) => self.add_steps(names, number, steps, answers),
            None => self.add_words(names, text),
        }
    }
}

impl Script {
    /// No cases.
    pub(crate) fn new(alloc: Global) -> Script {
        Script {
            names: Names::new(alloc),
            cases: Vec::new(alloc),
        }
    }

    /// Adds a case of one line.
    fn add_case(
        &mut self,
        alloc: Global,
        number: u32,
        steps: &str,
        answers: &str,
        fault: &'static str,
    ) -> Result<(), AllocError> {
        let mut case = Case {
            input: String::new(alloc),
            wanted: String::new(alloc),
            lines: Vec::new(alloc),
            fault,
        };
        case.add_steps(&self.names, number, steps, answers)?;
        self.cases.push(case)?;
        Ok(())
    }

    /// Adds a line that continues the last case.
    fn continue_case(&mut self, alloc: Global, line: Line<'_>) -> Result<(), AllocError> {
        match self.cases.last_mut() {
            Some(case) => case.add_line(&self.names, line),
            None => {
                let steps = line.text.trim_start();
                self.add_case(alloc, line.number, steps, "", "no case before it")
            }
        }
    }

    /// Adds a line: a comment, a name, the first line of a case, or a further one.
    pub(crate) fn add(&mut self, alloc: Global, line: Line<'_>) -> Result<(), AllocError> {
        if line.is_comment() {
            return Ok(());
        }
        if let Some((name, words)) = line.name() {
            return self.names.add(alloc, name, words);
        }
        if line.text.starts_with(' ') {
            return self.continue_case(alloc, line);
        }
        match line.parts() {
            Some((steps, answers)) => self.add_case(alloc, line.number, steps, answers, ""),
            None => self.add_case(alloc, line.number, line.text, "", "no ` => ` in it"),
        }
    }
}
