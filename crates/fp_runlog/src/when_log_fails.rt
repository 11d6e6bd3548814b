//! The reaction of a run to a log that can't be written.

/// The reaction of a run to a log that can't be written.
#[derive(Clone, Copy, Debug, PartialEq, Eq)]
pub enum WhenLogFails {
    /// All links go down, and the run ends.
    EndRun,
    /// Calls go on, and writing is tried again each second. Lines that find no place meanwhile are counted in a gap.
    LeaveGap,
}
