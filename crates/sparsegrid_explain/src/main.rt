//! Explains why a file is refused, or a run of it: where, by which rule, and what to write in its place.
#![tactic(auto)]

mod editors;
mod help;
mod input;
mod output;
mod run;
#[cfg(test)]
mod tests;
mod words;

pub use run::run;
use sg_outside::{RealFiles, RealOut};
use std::io::{BufReader, ErrorKind};
use std::process::ExitCode;
use std::rt::Env;
use std::thread::Builder;
use std::{env, io, rt};
pub use words::{Words, read_words};

/// How many bytes of stack the thread of the program has, whatever `main` is given. The deepest file takes a tenth of them.
const STACK: usize = 1 << 20;

/// Runs the program on a thread with a stack of its own. If there can't be one, it runs here.
fn main(rt: HostRuntime) -> ExitCode {
    let apart = move || -> u8 { run_words(&rt) };
    match Builder::new().stack_size(STACK).spawn(&rt, apart) {
        Ok(thread) => ExitCode::from(thread.join(&rt)),
        Err(_) => ExitCode::from(run_words(&rt)),
    }
}

/// Runs the program with the words of the command line, over the files, the input and the output of the system, and gives its status. A command
/// line that is not UTF-8 has bad words.
fn run_words<R: Env + AllocGlobal + Input + Print + rt::Files>(rt: &R) -> u8 {
    let words = match command_line(rt) {
        Ok(words) => words,
        Err(error) if error.kind() == ErrorKind::OutOfMemory => return 9,
        Err(_) => Vec::new(rt.alloc()),
    };
    let mut files = RealFiles::new(rt);
    let mut out = RealOut::new(rt);
    let Ok(input) = BufReader::new(rt.alloc(), rt.reader()) else {
        return 9;
    };
    run(rt.alloc(), words.as_slice(), &mut files, input, &mut out)
}

/// The words after the program's name.
fn command_line<R: Env + AllocGlobal>(rt: &R) -> io::Result<Vec<String>> {
    let mut words = Vec::new(rt.alloc());
    for word in env::args(rt)?.skip(1) {
        words.push(word)?;
    }
    Ok(words)
}
