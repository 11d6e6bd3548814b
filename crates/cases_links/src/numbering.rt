//! How the local transaction identifiers of a run are numbered: by its link and its tag.

use cases::{Answer, number_of};

/// The number of links.
pub(crate) const LINKS: u8 = 8;

/// The last tag.
pub(crate) const LAST_TAG: u16 = 4_094;

/// How far the identifiers of two links that follow each other are apart.
const LINK_STEP: u32 = 0x2000_0000;

/// How far those of two tags that follow each other are apart.
const TAG_STEP: u32 = 0x2_0000;

/// A link, and the tag of the run, which is 0 if it has none.
#[derive(Clone, Copy)]
pub(crate) struct Numbering {
    pub(crate) link: u8,
    pub(crate) tag: u16,
}

/// The link and the tag of a text `LINK/TAG`, or of `LINK`, which has no tag. Words that aren't numbers are a fault
/// of the answer.
pub(crate) fn numbering_of(text: &str, out: &mut Answer) -> Numbering {
    let (link, tag) = match text.split_once('/') {
        Some(parts) => parts,
        None => (text, "0"),
    };
    Numbering {
        link: number_of(link, out),
        tag: number_of(tag, out),
    }
}

impl Numbering {
    /// The number that serials are added to.
    pub(crate) fn base(self) -> u32 {
        let of_link = u32::from(self.link).saturating_mul(LINK_STEP);
        of_link.saturating_add(u32::from(self.tag).saturating_mul(TAG_STEP))
    }
}
