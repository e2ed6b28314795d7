//! The program: its command line, files by path, standard output.
#![tactic(auto)]

use ca_register::{DirShelf, OutSink, run, status_without_words};
use std::process::ExitCode;
use std::{env, io};

fn main(rt: HostRuntime) -> ExitCode {
    let status = match words(&rt) {
        Ok(words) => run(
            rt.alloc(),
            &words,
            &mut DirShelf::new(&rt),
            &mut OutSink::new(&rt),
        ),
        Err(error) => status_without_words(&error),
    };
    ExitCode::from(status)
}

/// The words after the program's own name.
fn words(rt: &HostRuntime) -> io::Result<Vec<String>> {
    Ok(env::args(rt)?.skip(1).collect(rt.alloc())?)
}
