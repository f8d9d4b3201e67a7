//! The program `bridge`: one run over the words of the command line, the files that they name, and the standard output
//! and error.
#![tactic(auto)]

#[cfg(test)]
mod tests;

use bridge_io::{FileShelf, StdSink};
use model_command::run;
use std::process::ExitCode;
use std::{env, io};

// The status where the words can't be collected.
const NO_WORDS: u8 = 6;

fn main(rt: HostRuntime) -> ExitCode {
    match status(&rt) {
        Ok(status) => ExitCode::from(status),
        Err(_) => ExitCode::from(NO_WORDS),
    }
}

// The status of a run over the words after the program's name.
fn status(rt: &HostRuntime) -> io::Result<u8> {
    let mut words = Vec::new(rt.alloc());
    for word in env::args(rt)?.skip(1) {
        words.push(word)?;
    }
    let mut shelf = FileShelf::new(rt, &words);
    let mut out = StdSink::new(rt.stdout());
    let mut err = StdSink::new(rt.stderr());
    Ok(run(rt.alloc(), &words, &mut shelf, &mut out, &mut err))
}
