//! Log lines that the book of a link handed out all at once.

ghost use Rattle.std.specs.Prelude.{◌≡◌, ◌≢◌, ◌⊎◌, ◌≤◌, ◌++◌, ◌↔◌, IsTrue, [], length, drop, IfOk, OnOk};
ghost use Rattle.fp_book.specs.Log.{lines_of};
ghost use Rattle.fp_logtext.specs.Logged.{EndsBelow, lines_text};

use fp_book::Log;
use fp_replay::write_step_line;
use std::alloc::{AllocError, Global};
use std::marker::Model;

/// Lines of a link that its book handed out by an exchange, and that have no text yet. Contracts see their list.
#[derive(Drop)]
pub(crate) struct ExchangedLines {
    // The link, and its steps.
    link: u8,
    log: Log,
    // How many of the steps have their text.
    made: usize,
}

impl Model for ExchangedLines {
    ghost use Rattle.std.specs.Prelude.{◌≤◌, List, drop, length};
    ghost use Rattle.fp_book.specs.Log.{lines_of};
    ghost use Rattle.fp_book.specs.declared.line.Line.{Line};

    ghost Value = { List Line };

    ghost view = { λ lines. lines_of lines.link (drop lines.made lines.log) };

    ghost invariant = { λ lines. lines.made ≤ length lines.log };
}

/// Adds the text of the steps of this link from the place `made` on, while the text has fewer than `most` octets, and
/// moves the place on.
fn add_steps(
    link: u8,
    log: &Log,
    made: &mut usize,
    text: &mut Vec<u8>,
    most: usize,
) -> Result<(), AllocError>
    requires { made.old ≤ length log.now }
    ensures within { made.new ≤ length log.now }
    ensures forth { made.old ≤ made.new }
    ensures in_order { text.new.items ++ lines_text (lines_of link (drop made.new log.now))
        ≡ text.old.items ++ lines_text (lines_of link (drop made.old log.now)) }
    ensures ok { OnOk result ((drop made.new log.now ≡ []) ⊎ (most ≤ length text.new.items)) }
    ensures limit { (text.new.items ≡ text.old.items) ⊎ EndsBelow most text.new.items }
{
    let end = log.len();
    while *made < end {
        let Some(step) = log.get(*made) else {
            return Ok(());
        };
        if text.len() >= most {
            return Ok(());
        }
        write_step_line(link, step, text)?;
        *made += 1;
    }
    Ok(())
}

/// Drops the steps once all have their text, so that their messages take no memory while other lines wait.
#[tactic(auto, using(std::proofs::lemmas::List::drop_all))]
fn drop_made(log: &mut Log, made: &mut usize)
    requires { made.old ≤ length log.old }
    ensures within { made.new ≤ length log.new }
    ensures same { drop made.new log.new ≡ drop made.old log.old }
{
    if *made >= log.len() {
        log.clear();
        *made = 0;
    }
}

impl ExchangedLines {
    /// An empty list. There is room for all lines that the book of a link may have.
    pub(crate) fn new(alloc: Global) -> Result<ExchangedLines, AllocError>
        ensures { IfOk result (λ lines. lines ≡ []) }
    {
        Ok(ExchangedLines {
            link: 0,
            log: Log::new(alloc)?,
            made: 0,
        })
    }

    /// The number of lines without text.
    #[tactic(auto, using(crate::proofs::StepsMade::lines_left))]
    pub(crate) fn len(&self) -> usize
        ensures { result ≡ length self.now }
    {
        self.log.len() - self.made
    }

    /// Takes all lines that the book of this link handed out, and drops its own. `log` gets an empty list.
    pub(crate) fn take(&mut self, link: u8, log: &mut Log)
        ensures taken { self.new ≡ lines_of link log.old }
        ensures left { log.new ≡ [] }
    {
        self.log.clear();
        self.log.exchange(log);
        self.link = link;
        self.made = 0;
    }

    /// Makes the text of lines, while the text has fewer than `most` octets. If an allocation fails, the lines without
    /// text stay.
    pub(crate) fn add_text(&mut self, text: &mut Vec<u8>, most: usize) -> Result<(), AllocError>
        ensures fewer { length self.new ≤ length self.old }
        ensures in_order { text.new.items ++ lines_text self.new ≡ text.old.items ++ lines_text self.old }
        ensures ok { OnOk result ((self.new ≡ []) ⊎ (most ≤ length text.new.items)) }
        ensures limit { (text.new.items ≡ text.old.items) ⊎ EndsBelow most text.new.items }
    {
        let added = add_steps(self.link, &self.log, &mut self.made, text, most);
        drop_made(&mut self.log, &mut self.made);
        added
    }
}
