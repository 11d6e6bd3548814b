//! A link that answers one line after another, each at its moment.

ghost use Rattle.std.specs.Prelude.{◌≡◌, ◌≤◌, ◌+◌, nat_lt, IfOk, if◌then◌else◌, option_map, Some, None};
ghost use Rattle.fp_ask.specs.proof_only.Answering.{IsAt, Taking};
ghost use Rattle.fp_ask.specs.Lines.{at_start};
ghost use Rattle.fp_tids.specs.Identifiers.{base_of};

use crate::SentFrame;
use crate::line::{Line, line_of};
use crate::link::Link;
use fp_apdu::Name;
use fp_digits::Moment;
use fp_entry::Prepared;
use fp_records::Table;
use fp_tids::LocalIds;
use std::alloc::{AllocError, Global};

/// A link, and the current moment.
#[derive(Drop)]
pub(crate) struct Answerer {
    link: Link,
    moment: Moment,
}

impl Answerer {
    /// A link without messages yet, in a run with this tag.
    pub(crate) fn new(alloc: Global, tag: u16, moment: Moment) -> Result<Answerer, AllocError>
        requires { tag ≤ LocalIds.LAST_TAG }
        ensures { IfOk result (IsAt (at_start (base_of 0 tag) moment)) }
    {
        Ok(Answerer {
            link: Link::new(alloc, tag)?,
            moment,
        })
    }

    /// Takes a line, without its line feed, and returns the frames that are sent for it, or `None` for a bad line. If
    /// memory runs out, no later line is answered.
    pub(crate) fn take_line(
        &mut self,
        alloc: Global,
        table: &Table,
        contexts: &[Name],
        line: &[u8],
    ) -> Result<Option<Vec<SentFrame>>, AllocError>
        ensures { IfOk result (λ frames. Taking table.now contexts.now line.now self.old
            (option_map (λ sent. sent.items) frames) self.new) }
    {
        match line_of(alloc, line)? {
            None => Ok(None),
            Some(Line::Message(frame)) => {
                let came = Prepared::read(alloc, table, contexts, frame, self.moment);
                let frames = self.link.post(alloc, came)?;
                Ok(Some(frames))
            }
            Some(Line::Wait(milliseconds)) => {
                let Some(moment) = later(self.moment, milliseconds) else {
                    return Ok(None);
                };
                self.moment = moment;
                let frames = self.link.tick(alloc, moment)?;
                Ok(Some(frames))
            }
        }
    }
}

/// The moment this many milliseconds later, if there is one.
fn later(moment: Moment, milliseconds: u64) -> Option<Moment>
    ensures { result ≡ (if nat_lt (moment + milliseconds) Moment.END then Some (moment + milliseconds) else None) }
{
    Moment::new(moment.milliseconds().saturating_add(milliseconds))
}
