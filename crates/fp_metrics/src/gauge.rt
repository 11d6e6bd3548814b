//! The current values of a link, and its maxima.

ghost use Rattle.std.specs.Prelude.{◌≡◌, if◌then◌else◌};
ghost use Rattle.fp_metrics.specs.Gauge.{all_gauges, gauge_front, gauge_heading, gauge_value};

/// The current values of a link, and its maxima.
#[derive(Clone, Copy, Debug, PartialEq, Eq)]
pub struct Gauges {
    /// Whether the link is up.
    pub is_up: bool,
    /// When the link went up, in seconds since 1970-01-01T00:00:00Z, 0 if it never did.
    pub up_since: u64,
    /// How many dialogues the link holds.
    pub dialogues: u64,
    /// The most dialogues that the link held.
    pub most_dialogues: u64,
    /// The most places for frames of the link that were seen to be held.
    pub most_places: u64,
    /// How many log lines of the link aren't written yet.
    pub lines: u64,
    /// The most log lines of the link that weren't written yet.
    pub most_lines: u64,
}

/// The name of one of the values.
#[derive(Clone, Copy, Debug, PartialEq, Eq)]
pub(crate) enum Gauge {
    /// Whether the link is up.
    Up,
    /// The moment since which the link is up.
    UpSince,
    /// The dialogues that the link holds.
    Dialogues,
    /// The most dialogues that the link held.
    MostDialogues,
    /// The most places for frames that were seen to be held.
    MostPlaces,
    /// The log lines that wait to be written.
    Lines,
    /// The most log lines that waited.
    MostLines,
}

impl Gauge {
    /// Each value once.
    pub(crate) fn all() -> [Gauge; 7]
        ensures { result ≡ all_gauges }
    {
        [
            Gauge::Up,
            Gauge::UpSince,
            Gauge::Dialogues,
            Gauge::MostDialogues,
            Gauge::MostPlaces,
            Gauge::Lines,
            Gauge::MostLines,
        ]
    }

    /// The front of a value's lines: its name, up to the number of the link.
    pub(crate) fn front(self) -> &'static str
        ensures { result.now ≡ gauge_front self }
    {
        match self {
            Gauge::Up => "freephone_scp_link_up{link=\"",
            Gauge::UpSince => "freephone_scp_link_start_time_seconds{link=\"",
            Gauge::Dialogues => "freephone_scp_dialogues{link=\"",
            Gauge::MostDialogues => "freephone_scp_dialogues_most{link=\"",
            Gauge::MostPlaces => "freephone_scp_frame_places_most{link=\"",
            Gauge::Lines => "freephone_scp_log_lines_waiting{link=\"",
            Gauge::MostLines => "freephone_scp_log_lines_waiting_most{link=\"",
        }
    }

    /// The comments before the lines of a value.
    pub(crate) fn heading(self) -> &'static str
        ensures { result.now ≡ gauge_heading self }
    {
        match self {
            Gauge::Up => {
                "# HELP freephone_scp_link_up Whether the link is up.\n# TYPE freephone_scp_link_up gauge\n"
            }
            Gauge::UpSince => {
                "# HELP freephone_scp_link_start_time_seconds When the link came up, in seconds since 1970, 0 if it never did.\n# TYPE freephone_scp_link_start_time_seconds gauge\n"
            }
            Gauge::Dialogues => {
                "# HELP freephone_scp_dialogues Dialogues that the link holds.\n# TYPE freephone_scp_dialogues gauge\n"
            }
            Gauge::MostDialogues => {
                "# HELP freephone_scp_dialogues_most The most dialogues that the link was seen to hold.\n# TYPE freephone_scp_dialogues_most gauge\n"
            }
            Gauge::MostPlaces => {
                "# HELP freephone_scp_frame_places_most The most places for frames of the link that were seen to be held.\n# TYPE freephone_scp_frame_places_most gauge\n"
            }
            Gauge::Lines => {
                "# HELP freephone_scp_log_lines_waiting Log lines that left the book of the link and aren't written yet.\n# TYPE freephone_scp_log_lines_waiting gauge\n"
            }
            Gauge::MostLines => {
                "# HELP freephone_scp_log_lines_waiting_most The most of them that were seen.\n# TYPE freephone_scp_log_lines_waiting_most gauge\n"
            }
        }
    }
}

/// 1 if `is`, else 0.
fn one_if(is: bool) -> u64
    ensures { result ≡ (if is then 1 else 0) }
{
    if is { 1 } else { 0 }
}

impl Gauges {
    /// The number of one of the values.
    pub(crate) fn value(&self, gauge: Gauge) -> u64
        ensures { result ≡ gauge_value self.now gauge }
    {
        match gauge {
            Gauge::Up => one_if(self.is_up),
            Gauge::UpSince => self.up_since,
            Gauge::Dialogues => self.dialogues,
            Gauge::MostDialogues => self.most_dialogues,
            Gauge::MostPlaces => self.most_places,
            Gauge::Lines => self.lines,
            Gauge::MostLines => self.most_lines,
        }
    }
}
