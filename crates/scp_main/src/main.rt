//! `scp`, a service control point for freephone numbers, as a program: the words of its command line, standard input,
//! standard output and standard error are handed to the library `scp`, whose answer is the exit status.
//!
//! This is the outermost layer. It alone asks the system for the words and for the standard streams. The layers below
//! are handed the means to open files, await connections, start threads and read the clock, and ask the system for
//! those.
#![tactic(auto)]

use scp::{program_with_links, refuse_words};
use std::fs::{File, OpenFile, OpenOptions};
use std::os::fd::AsRawFd;
use std::process::ExitCode;
use std::rt::{Env, Files};
use std::{env, io};

/// The descriptor of standard input.
const STANDARD_INPUT: i32 = 0;

/// The number of standard streams: descriptors 0, 1 and 2.
const STANDARD_STREAMS: i32 = 3;

fn main(rt: HostRuntime) -> ExitCode {
    // Kept until the program ends.
    let _streams = [
        missing_stream(&rt),
        missing_stream(&rt),
        missing_stream(&rt),
    ];
    let mut errors = rt.stderr();
    let status = match words_of(&rt) {
        Ok(words) => {
            let mut output = io::writer(&rt);
            program_with_links(
                &rt,
                words.as_slice(),
                rt.reader(),
                &mut output,
                &mut errors,
                rt.stderr(),
            )
        }
        Err(error) => refuse_words(&error, &mut errors),
    };
    ExitCode::from(status)
}

// Opens `/dev/null` in place of the first standard stream that is closed, so that no file of the run gets its
// descriptor, and text for standard output doesn't end up in the log. `None` if no stream is closed, or there is no
// `/dev/null`. Reading and writing a stream that was closed fail as before, since it is opened for the other of the
// two. For example, a closed standard input becomes `/dev/null`, opened for writing.
fn missing_stream<H: Files<File = File>>(rt: &H) -> Option<File> {
    let file = OpenOptions::new().read(true).open(rt, "/dev/null").ok()?;
    let descriptor = file.as_raw_fd();
    if descriptor == STANDARD_INPUT {
        // The next file that is opened gets this descriptor again.
        drop(file);
        OpenOptions::new().write(true).open(rt, "/dev/null").ok()
    } else if descriptor < STANDARD_STREAMS {
        Some(file)
    } else {
        None
    }
}

// The words of the command line. The first names the program.
fn words_of<H: Env + AllocGlobal>(rt: &H) -> io::Result<Vec<String>> {
    Ok(env::args(rt)?.collect(rt.alloc())?)
}
