//! The troubles of a run.

ghost use Rattle.std.specs.Prelude.{◌≡◌, ◌++◌, [], ◌∷◌, IfOk, OnOk, if◌then◌else◌};
ghost use Rattle.fp_page.specs.Troubles.{link_troubles, links_troubles, run_troubles, troubles_of};

use crate::{LinkView, PageNumbers};
use fp_counters::Counter;
use std::alloc::{AllocError, Global};

/// The most dialogues that a link holds.
pub(crate) const MOST_DIALOGUES: u64 = 4_096;

/// More dialogues than this are near that limit: four fifths of it.
const MANY_DIALOGUES: u64 = 3_276;

/// The places for frames of a link, `fp_book::Outbox::MOST_FRAMES`. A copy, since nothing else here needs that crate.
pub(crate) const MOST_PLACES: u64 = 8_192;

/// From this number of held places on messages are held back: `fp_book::Book::MANY_PLACES`.
pub(crate) const MANY_PLACES: u64 = 7_168;

/// A trouble of a run.
#[derive(Clone, Copy, Debug, PartialEq, Eq)]
pub enum Trouble {
    /// The log can't be written.
    LogFails,
    /// The thread that writes the log hangs.
    LogHangs,
    /// No unit of the node has a connection.
    NoNetwork,
    /// The run is about to end.
    Ending,
    /// A link of this number was up and is down.
    LinkDown(u8),
    /// The clock of the link of this number hangs.
    LinkHangs(u8),
    /// The log of the link of this number has a gap.
    Gap(u8),
    /// The link of this number holds more than four fifths of the dialogues that it may.
    ManyDialogues(u8),
    /// At least seven eighths of the places for frames of the link of this number were held.
    ManyPlaces(u8),
    /// Messages of the link of this number were refused, since a limit was reached.
    Refused(u8),
    /// Memory ran out for messages of the link of this number.
    OutOfMemory(u8),
}

/// Adds a trouble, if it is there.
fn push_if(out: &mut Vec<Trouble>, is_there: bool, trouble: Trouble) -> Result<(), AllocError>
    ensures { OnOk result (out.new.items ≡ out.old.items ++ (if is_there then trouble ∷ [] else [])) }
{
    if is_there {
        out.push(trouble)?;
    }
    Ok(())
}

/// Adds the troubles of a link.
fn push_link(out: &mut Vec<Trouble>, view: &LinkView<'_>) -> Result<(), AllocError>
    ensures { OnOk result (out.new.items ≡ out.old.items ++ link_troubles view.now) }
{
    let link = view.numbers.link;
    let gauges = &view.numbers.gauges;
    let counters = &view.numbers.counters;
    let is_down = !gauges.is_up && gauges.up_since > 0;
    push_if(out, is_down, Trouble::LinkDown(link))?;
    push_if(out, view.hangs, Trouble::LinkHangs(link))?;
    let lost = counters.number(Counter::LinesLost);
    push_if(out, lost > 0, Trouble::Gap(link))?;
    let are_many = gauges.dialogues > MANY_DIALOGUES;
    push_if(out, are_many, Trouble::ManyDialogues(link))?;
    let are_held = gauges.most_places >= MANY_PLACES;
    push_if(out, are_held, Trouble::ManyPlaces(link))?;
    let refused = counters.number(Counter::RefusedLimit);
    push_if(out, refused > 0, Trouble::Refused(link))?;
    let without_memory = counters.number(Counter::OutOfMemory);
    push_if(out, without_memory > 0, Trouble::OutOfMemory(link))
}

/// Adds the troubles of each of these links.
fn push_links(out: &mut Vec<Trouble>, links: &[LinkView<'_>]) -> Result<(), AllocError>
    ensures { OnOk result (out.new.items ≡ out.old.items ++ links_troubles links.now) }
{
    for link in links {
        push_link(out, link)?;
    }
    Ok(())
}

/// Adds the troubles of the run itself.
fn push_run(out: &mut Vec<Trouble>, page: &PageNumbers<'_>) -> Result<(), AllocError>
    ensures { OnOk result (out.new.items ≡ out.old.items ++ run_troubles page.now) }
{
    push_if(out, page.log_fails, Trouble::LogFails)?;
    push_if(out, page.log_hangs, Trouble::LogHangs)?;
    push_if(out, page.lacks_network, Trouble::NoNetwork)?;
    push_if(out, page.is_ending, Trouble::Ending)
}

/// The troubles of a run, and then of each of its links, in their order. `Err`: memory ran out.
pub fn troubles_of(alloc: Global, page: &PageNumbers<'_>) -> Result<Vec<Trouble>, AllocError>
    ensures { IfOk result (λ found. found.items ≡ troubles_of page.now) }
{
    let mut out = Vec::new(alloc);
    push_run(&mut out, page)?;
    push_links(&mut out, page.links)?;
    Ok(out)
}
