//! Endings from outside: not by the service logic.

ghost use Rattle.std.specs.Prelude.{◌≡◌, Some};
ghost use Rattle.fp_row.specs.Calls.{ended_by};

/// How a dialogue was ended from outside: other than by its own service logic.
#[derive(Clone, Copy, Debug, PartialEq, Eq)]
pub enum Ending {
    /// The peer's End or Abort was accepted. The dialogue's entries stay to be served; its waiting frames are dropped.
    ByPeer,
    /// A message of the dialogue was refused, or its link went down. Its waiting entries and frames are dropped. A turn
    /// that is out may still be given back.
    Closed,
}

impl Ending {
    /// The ending of a dialogue that had the ending `before`: a closed one stays closed.
    pub(crate) fn after(self, before: Option<Ending>) -> Ending
        ensures { ended_by self before ≡ Some result }
    {
        match before {
            Some(Ending::Closed) => Ending::Closed,
            _ => self,
        }
    }
}
