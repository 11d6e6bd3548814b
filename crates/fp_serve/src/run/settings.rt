//! The settings of a run: its links and their numbers, its tag, the workers and entries of each link, and the reaction
//! to a log that can't be written.

ghost use Rattle.std.specs.Prelude.{◌≡◌, ◌≤◌, ◌+◌, IfSome, IsSome, ◌↔◌, ◌&&◌, ◌==◌, false, not, true, if◌then◌else◌};
ghost use Rattle.fp_runlog.specs.declared.when_log_fails.WhenLogFails.TheVariants.{EndRun, LeaveGap};

use fp_records::Table;
use fp_runlog::WhenLogFails;
use fp_tids::LocalIds;

/// The settings of a run: how many links it has, 1 to 8, the number of the first, the tag, how many workers each link
/// has, 1 to 8, how many entries its dialogues may keep, how many turns its receiving thread serves, the reaction to a
/// log that can't be written, and which commands are known.
#[derive(Clone, Copy, Debug, PartialEq, Eq)]
pub struct Settings {
    /// How many links there are.
    pub links: u8,
    /// The number of the first link. The others have the next ones, up to 7.
    pub first_link: u8,
    /// The tag of the run, 0 to 4,094: a part of the local identifiers of its dialogues; 0 for a run without one.
    pub tag: u16,
    /// Whether the run has the tag of the second when it begins, in place of `tag`.
    pub has_tag_of_start: bool,
    /// How many workers each link has.
    pub workers: u8,
    /// The most entries that the dialogues of a link may keep: a link whose dialogues keep more goes down.
    pub most_entries: u64,
    /// The most turns that the receiving thread of a link serves at once, before workers must.
    pub most_helped: usize,
    /// The reaction to a log that can't be written.
    pub when_log_fails: WhenLogFails,
    /// Whether the commands `links`, `counters`, `drain` and `quit` are known, and the run ends with its links.
    pub has_commands: bool,
    ghost some_link: { 1 ≤ links },
    ghost few_links: { first_link + links ≤ 8 },
    ghost known_tag: { tag ≤ 4094 },
    ghost some_worker: { 1 ≤ workers },
    ghost few_workers: { workers ≤ 8 },
}

impl Settings {
    /// The most links, and the most workers of a link.
    pub const MOST: u8 = 8;

    /// The most entries that the dialogues of a link may keep, unless [`Settings::with_most_entries`] says otherwise. A
    /// dialogue keeps all that it accepted until it is no longer held, so without this bound one dialogue that never
    /// ends could take all memory. It is four times the entries of 4,096 dialogues with 64 each.
    pub const MOST_ENTRIES: u64 = 1_048_576;

    /// The most turns that the receiving thread of a link serves at once, unless [`Settings::with_most_helped`] says
    /// otherwise: one for each of the 64 messages that it posts at once.
    pub const MOST_HELPED: usize = 64;

    /// Settings with this number of links, from 0 on, and of workers each, for a run that has no tag and ends when its
    /// log can't be written. `None` if one of the two isn't 1 to 8.
    pub fn new(links: u8, workers: u8) -> Option<Settings>
        ensures some { IsSome result ↔ (((1 ≤ links) × (links ≤ 8)) × ((1 ≤ workers) × (workers ≤ 8))) }
        ensures value { IfSome result (λ settings. (settings.links ≡ links) × (settings.workers ≡ workers)) }
        ensures first { IfSome result (λ settings. settings.first_link ≡ 0) }
        ensures tag { IfSome result (λ settings. (settings.tag ≡ 0) × (settings.has_tag_of_start ≡ false)) }
        ensures entries { IfSome result (λ settings. settings.most_entries ≡ 1048576) }
        ensures helped { IfSome result (λ settings. settings.most_helped ≡ 64) }
        ensures fails { IfSome result (λ settings. settings.when_log_fails ≡ EndRun) }
        ensures commands { IfSome result (λ settings. settings.has_commands ≡ false) }
    {
        if links == 0 || links > Self::MOST || workers == 0 || workers > Self::MOST {
            return None;
        }
        Some(Settings {
            links,
            first_link: 0,
            tag: 0,
            has_tag_of_start: false,
            workers,
            most_entries: Self::MOST_ENTRIES,
            most_helped: Self::MOST_HELPED,
            when_log_fails: WhenLogFails::EndRun,
            has_commands: false,
        })
    }

    /// The same settings, with links numbered from this one on; `None` if the last one would be above 7.
    pub fn with_first_link(self, first_link: u8) -> Option<Settings>
        ensures some { IsSome result ↔ (first_link + self.links ≤ 8) }
        ensures first { IfSome result (λ settings. settings.first_link ≡ first_link) }
        ensures tag { IfSome result (λ settings. settings.tag ≡ self.tag) }
        ensures of_start { IfSome result (λ settings. settings.has_tag_of_start ≡ self.has_tag_of_start) }
        ensures links { IfSome result (λ settings. settings.links ≡ self.links) }
        ensures workers { IfSome result (λ settings. settings.workers ≡ self.workers) }
        ensures most_entries { IfSome result (λ settings. settings.most_entries ≡ self.most_entries) }
        ensures most_helped { IfSome result (λ settings. settings.most_helped ≡ self.most_helped) }
        ensures when_log_fails { IfSome result (λ settings. settings.when_log_fails ≡ self.when_log_fails) }
        ensures has_commands { IfSome result (λ settings. settings.has_commands ≡ self.has_commands) }
    {
        if first_link > Self::MOST - self.links {
            return None;
        }
        let mut settings = self;
        settings.first_link = first_link;
        Some(settings)
    }

    /// The same settings, for a run with this tag, 0 to 4,094.
    pub fn with_tag(self, tag: u16) -> Settings
        requires { tag ≤ LocalIds.LAST_TAG }
        ensures tag { result.tag ≡ tag }
        ensures of_start { result.has_tag_of_start ≡ false }
        ensures first { result.first_link ≡ self.first_link }
        ensures links { result.links ≡ self.links }
        ensures workers { result.workers ≡ self.workers }
        ensures most_entries { result.most_entries ≡ self.most_entries }
        ensures most_helped { result.most_helped ≡ self.most_helped }
        ensures when_log_fails { result.when_log_fails ≡ self.when_log_fails }
        ensures has_commands { result.has_commands ≡ self.has_commands }
    {
        let mut settings = self;
        settings.tag = tag;
        settings.has_tag_of_start = false;
        settings
    }

    /// The same settings, for a run that has the tag of the second when it begins: the seconds since
    /// 1970-01-01T00:00:00Z modulo 4,094, plus one. For example, a run that begins in the second 1,700,000,000 has the
    /// tag 3,347. It accepts its first connection in a later second, so that two consecutive runs have different tags.
    pub fn with_tag_of_start(self) -> Settings
        ensures { result ≡ record self { has_tag_of_start = true } }
    {
        let mut settings = self;
        settings.has_tag_of_start = true;
        settings
    }

    /// The last index among the tables of a run with these settings: 65,535 with a tag, 999 without one.
    pub fn last_index(self) -> u16
        ensures { result ≡ (if (self.tag == 0) && not self.has_tag_of_start then 999 else 65535) }
    {
        if self.tag == 0 && !self.has_tag_of_start {
            Table::LAST_INDEX_WITHOUT_TAG
        } else {
            Table::LAST_INDEX
        }
    }

    /// The same settings, for a run that goes on when its log can't be written.
    pub fn with_log_gaps(self) -> Settings
        ensures { result ≡ record self { when_log_fails = LeaveGap } }
    {
        let mut settings = self;
        settings.when_log_fails = WhenLogFails::LeaveGap;
        settings
    }

    /// The same settings, for a run that knows the commands `links`, `counters`, `drain` and `quit` too, and ends with
    /// its links.
    pub fn with_commands(self) -> Settings
        ensures { result ≡ record self { has_commands = true } }
    {
        let mut settings = self;
        settings.has_commands = true;
        settings
    }

    /// The same settings, with this number of entries that the dialogues of a link may keep.
    pub fn with_most_entries(self, most_entries: u64) -> Settings
        ensures { result ≡ record self { most_entries = most_entries } }
    {
        let mut settings = self;
        settings.most_entries = most_entries;
        settings
    }

    /// The same settings, with this number of turns that the receiving thread of a link serves at once at most. With 0,
    /// workers serve all turns.
    pub fn with_most_helped(self, most_helped: usize) -> Settings
        ensures { result ≡ record self { most_helped = most_helped } }
    {
        let mut settings = self;
        settings.most_helped = most_helped;
        settings
    }
}
