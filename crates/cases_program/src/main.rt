//! Worked cases of whole runs of the program: a command line and the lines of standard input, against the exit status,
//! standard output and standard error.
//!
//! | Case | Result |
//! |---|---|
//! | `scp WORD .. \| LINE \| ..` | the run with these words and this input: `STATUS, OUTPUT, ERRORS` |
//! | `torn scp ..` | the same, with an interruption before each octet of the input, and a failure after the last one |
//! | `full ROOM scp ..` | the same if standard output has room for ROOM octets, and takes one at a time |
//! | `unflushed ROOM scp ..` | the same, and it can't be flushed |
//! | `as FILE scp ..` | the run; if its output or its errors equal a file of data/ octet by octet, the name of that file instead |
//! | `mute CASE` | the same as CASE, one of the others, if standard error takes nothing |
//! | `paced scp ..` | the run, and how many lines were written and flushed before each line, and before the end, was read, and at the run's end |
//! | `pieces SIZE scp ..` | the run if SIZE octets are read at a time, and how many lines were written and flushed before each read, and at the run's end |
//! | `failing reads scp ..` | runs whose first, second, .. read of an octet fails: how many end early, and the first that doesn't |
//! | `failing writes scp ..` | the same with the writes of an octet each |
//! | `fronts FIRST LAST scp ..` | runs with the first FIRST, .., LAST octets of the message: how many have the same outcome as the first of them, before one that doesn't, and that outcome |
//!
//! A run of `failing` ends early if its status is 1, its output is a prefix of the output of a whole run, and its line
//! on standard error names the device that failed.
//!
//! | Module | Contents |
//! |---|---|
//! | `asked` | the kind and the limits of a case's runs |
//! | `command_line` | the words and the input of a run |
//! | `devices` | readers and writers that fail, or note how they are used |
//! | `outcome` | the outcome of a run, as text |
//! | `runs` | the runs |
#![tactic(auto)]

mod asked;
mod command_line;
mod devices;
mod outcome;
mod runs;

use crate::runs::Runs;

fn main(rt: HostRuntime) -> anyhow::Result<()> {
    cases::run(&rt, &mut Runs { rt: &rt })
}
