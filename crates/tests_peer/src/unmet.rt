//! Why a client isn't content.

use std::alloc::{AllocError, AllocFailed, Global};
use std::fmt::Display;
use std::{fmt, io};

/// What kept a client from its act.
#[derive(Drop)]
pub enum Unmet {
    /// What failed, or what didn't come in time.
    Failed(&'static str),
    /// The client, what it wanted, and what came.
    Told(String),
}

impl Unmet {
    /// Another text than the wanted one came to this client.
    pub(crate) fn differs(alloc: Global, client: usize, wanted: &str, came: &str) -> Unmet {
        match format!(in alloc; "client {client}: wanted {wanted}, came {came}") {
            Ok(text) => Unmet::Told(text),
            Err(_) => Unmet::Failed("out of memory, and another answer than the wanted one"),
        }
    }

    /// It is an error if another text than the wanted one came to this client.
    pub(crate) fn unless_same(
        alloc: Global,
        client: usize,
        wanted: &str,
        came: &str,
    ) -> Result<(), Unmet> {
        if came == wanted {
            return Ok(());
        }
        Err(Unmet::differs(alloc, client, wanted, came))
    }

    /// This text didn't come in time, of this many octets that came.
    pub(crate) fn missing(alloc: Global, place: &str, wanted: &str, came: usize) -> Unmet {
        match format!(in alloc; "{place}: wanted {wanted:?}, not there in {came} octets") {
            Ok(text) => Unmet::Told(text),
            Err(_) => Unmet::Failed("out of memory, and a text that didn't come"),
        }
    }
}

impl Display for Unmet {
    fn fmt<W: fmt::Write>(&self, f: &mut fmt::Formatter<W>) -> fmt::Result {
        match self {
            Unmet::Failed(what) => f.write_str(what),
            Unmet::Told(text) => f.write_str(text.as_str()),
        }
    }
}

impl From<&'static str> for Unmet {
    fn from(what: &'static str) -> Unmet {
        Unmet::Failed(what)
    }
}

impl From<AllocError> for Unmet {
    fn from(_error: AllocError) -> Unmet {
        Unmet::Failed("out of memory")
    }
}

impl<T: Drop> From<AllocFailed<T>> for Unmet {
    fn from(_refused: AllocFailed<T>) -> Unmet {
        Unmet::Failed("out of memory")
    }
}

impl From<io::Error> for Unmet {
    fn from(_error: io::Error) -> Unmet {
        Unmet::Failed("a call of the system failed")
    }
}
