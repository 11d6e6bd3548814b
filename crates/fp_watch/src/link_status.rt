//! The status of a link, and the answer to the command that asks for it.

ghost use Rattle.std.specs.Prelude.{◌≡◌, ◌+◌, IfOk, string_bytes};
ghost use Rattle.fp_watch.specs.Links.{beginning, counts, lines_by, links_answer, status_line};

use crate::Peer;
use fp_book::{Status, Totals};
use std::alloc::{AllocError, Global};

/// The status of a link that was accepted.
#[derive(Clone, Copy, Debug, PartialEq, Eq)]
pub struct LinkStatus {
    /// The peer of the link.
    pub peer: Peer,
    /// The status of its book at its last tick, or in the end.
    pub status: Status,
}

/// The beginning of the status line of a link.
fn beginning(alloc: Global, link: usize, is_down: bool, peer: &str) -> Result<String, AllocError>
    ensures { IfOk result (λ text. string_bytes text ≡ beginning link is_down peer.now) }
{
    if is_down {
        format!(in alloc; "link {link} down {peer} accepted ")
    } else {
        format!(in alloc; "link {link} up {peer} accepted ")
    }
}

/// The rest of the status line.
fn counts(alloc: Global, totals: Totals, dialogues: usize) -> Result<String, AllocError>
    ensures { IfOk result (λ text. string_bytes text ≡ counts totals dialogues) }
{
    let Totals {
        accepted,
        served,
        sent,
    } = totals;
    format!(in alloc; "{accepted} served {served} sent {sent} held {dialogues}\n")
}

/// The status line of a link.
fn status_line(alloc: Global, link: usize, known: LinkStatus) -> Result<String, AllocError>
    ensures { IfOk result (λ text. string_bytes text ≡ status_line link known) }
{
    let LinkStatus { peer, status } = known;
    let peer = peer.text(alloc)?;
    let mut line = beginning(alloc, link, status.is_down, peer.as_str())?;
    let counts = counts(alloc, status.totals, status.dialogues)?;
    line.push_str(counts.as_str())?;
    Ok(line)
}

/// The status line of each of these links, in their order. Their numbers begin with this one.
fn status_lines(alloc: Global, first_link: u8, links: &[LinkStatus]) -> Result<String, AllocError>
    ensures { IfOk result (λ text. string_bytes text ≡ lines_by (λ place. status_line (first_link + place)) 0 links.now) }
{
    let mut text = String::new(alloc);
    for (place, known) in links.iter().enumerate() {
        let line = status_line(alloc, usize::from(first_link) + place, *known)?;
        text.push_str(line.as_str())?;
    }
    Ok(text)
}

/// The answer to `links`: the status lines of these links, whose numbers begin with this one, and the number of links.
/// If memory runs out, there is none.
pub fn links_answer(
    alloc: Global,
    first_link: u8,
    links: &[LinkStatus],
) -> Result<String, AllocError>
    ensures { IfOk result (λ text. string_bytes text ≡ links_answer first_link links.now) }
{
    let mut text = status_lines(alloc, first_link, links)?;
    let count = links.len();
    let line = format!(in alloc; "links {count}\n")?;
    text.push_str(line.as_str())?;
    Ok(text)
}
