//! The texts of troubles: what is wrong, and what to do about it.

use crate::Trouble;
use crate::html::{Html, Piece};
use std::alloc::AllocError;

/// The text of a trouble, after `Link N` if it is a link's.
fn text_of(trouble: Trouble) -> &'static str {
    match trouble {
        Trouble::LogFails => "The log can't be written.",
        Trouble::LogHangs => "The log hangs: its device has taken nothing for ten seconds.",
        Trouble::NoNetwork => "No transfer point is connected for any unit.",
        Trouble::Ending => "The run is about to end: it takes no more links or dialogues.",
        Trouble::LinkDown(_) => " is down.",
        Trouble::LinkHangs(_) => " hangs: its clock hasn't ticked for ten seconds.",
        Trouble::Gap(_) => ": the log has a gap. Lines were lost.",
        Trouble::ManyDialogues(_) => ": more than 3,276 of 4,096 dialogues are open.",
        Trouble::ManyPlaces(_) => ": at least 7,168 of 8,192 places for frames were held.",
        Trouble::Refused(_) => ": messages were refused, as a limit was reached or memory ran out.",
        Trouble::OutOfMemory(_) => ": messages were lost, as memory ran out.",
    }
}

/// The advice for a trouble.
fn advice_of(trouble: Trouble) -> &'static str {
    match trouble {
        Trouble::LogFails =>
            "Make room on its disk, or mend it. Calls are still answered. Lines that find no place are lost, and their calls aren't counted.",
        Trouble::LogHangs =>
            "Check its disk, or the reader of its pipe. Calls are still answered. Lines that find no place are lost, and their calls aren't counted.",
        Trouble::NoNetwork =>
            "Check that the transfer points run, and that they have this node's address and units.",
        Trouble::Ending => "If you didn't ask for that, look at the last events.",
        Trouble::LinkDown(_) =>
            "It never comes up again in this run. Once all links are down the run ends, and the units start the next one. If a link is still awaited, give the run “quit”.",
        Trouble::LinkHangs(_) => "Check the load of this machine. If it lasts, restart the run.",
        Trouble::Gap(_) =>
            "Check the disk and its load. The log can be replayed up to the gap: keep a copy. This stays here until the run ends; below, “lines lost” shows whether it goes on.",
        Trouble::ManyDialogues(_) =>
            "At 4,096 further calls wait, or are refused once no other call goes on. If many calls come, it is an overload. If few do, look for calls that the switch never ends.",
        Trouble::ManyPlaces(_) =>
            "From there on messages are held back. Check that the switch reads its answers, the network to it, and the load of this machine. This stays here until the run ends; below, “messages held back” shows whether it goes on.",
        Trouble::Refused(_) =>
            "Check the number of open dialogues, and the load of this machine. A message with more than 16 components is refused, too: then nothing is wrong here. This stays here until the run ends; below, “refused” shows whether it goes on.",
        Trouble::OutOfMemory(_) =>
            "Give the run more memory, or fewer links. This stays here until the run ends; below, “lost” shows whether it goes on.",
    }
}

/// The document with more about it, and the heading there.
fn section_of(trouble: Trouble) -> &'static str {
    match trouble {
        Trouble::LogFails | Trouble::LogHangs | Trouble::Gap(_) =>
            "serving.md, “A full disk, a device that hangs”",
        Trouble::NoNetwork => "sccp.md, “What comes and goes”",
        Trouble::Ending => "serving.md, “More commands”",
        Trouble::LinkDown(_) => "serving.md, “How each link and each run ends”",
        Trouble::LinkHangs(_) => "metrics.md, “The watchdog”",
        Trouble::ManyDialogues(_) | Trouble::Refused(_) => "serving.md, “Overload”",
        Trouble::ManyPlaces(_) => "profile.md, “Holding back”",
        Trouble::OutOfMemory(_) => "serving.md, “Limits of a run”",
    }
}

/// The link of a trouble, if it is a link's.
fn link_of(trouble: Trouble) -> Option<u8> {
    match trouble {
        Trouble::LogFails | Trouble::LogHangs | Trouble::NoNetwork | Trouble::Ending => None,
        Trouble::LinkDown(link)
        | Trouble::LinkHangs(link)
        | Trouble::Gap(link)
        | Trouble::ManyDialogues(link)
        | Trouble::ManyPlaces(link)
        | Trouble::Refused(link)
        | Trouble::OutOfMemory(link) => Some(link),
    }
}

/// A trouble: its text, the advice, and where to read more.
pub(crate) fn add_trouble(html: &mut Html, trouble: Trouble) -> Result<(), AllocError> {
    html.add(&[Piece::Fixed("<li><b>")])?;
    if let Some(link) = link_of(trouble) {
        html.add(&[Piece::Fixed("Link "), Piece::Number(u64::from(link))])?;
    }
    let text = text_of(trouble);
    let advice = advice_of(trouble);
    let section = section_of(trouble);
    html.add(&[
        Piece::Fixed(text),
        Piece::Fixed("</b> "),
        Piece::Fixed(advice),
        Piece::Fixed(" <span>See "),
        Piece::Fixed(section),
        Piece::Fixed(".</span></li>\n"),
    ])
}
