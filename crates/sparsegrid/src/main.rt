//! Sparse grids: a file of layouts, kernels and commands is read and run, and its grids are written.
#![tactic(auto)]

mod advice;
mod auditing;
mod drive;
#[cfg(test)]
mod examples;
#[cfg(test)]
mod gallery;
mod generated;
mod group;
mod journaling;
#[cfg(test)]
mod larger_examples;
mod last_line;
pub mod laws;
#[cfg(test)]
mod loading_examples;
mod number;
mod output;
mod perform;
#[cfg(test)]
mod picture_examples;
mod refuse;
mod run_line;
mod session;
mod showing;
mod snapshot;
mod splitting;
#[cfg(test)]
mod tests;
mod unbound;
pub mod words;

pub use session::{Done, run};
use sg_outside::{FreeGate, RealFiles, RealOut};
use std::alloc::{AllocError, Global};
use std::io::ErrorKind;
use std::process::ExitCode;
use std::rt::Env;
use std::thread::{Builder, Threads};
use std::{env, io, rt};
pub use words::{BadWords, Mode, Words, read_words};

/// The greatest block that the C library's allocator may learn to keep, except for its own words.
const KEPT: usize = 33_000_000;

/// Takes a large block and gives it back untouched. From this the C library's allocator learns to keep freed blocks up to that size for
/// later ones. Else each row of a field and each table of a race would be memory that is new from the system, page by page.
fn keep_freed_blocks(alloc: Global) {
    let _block: Result<Vec<u8>, AllocError> = Vec::with_capacity(alloc, KEPT);
}

/// How many bytes of stack the thread of a run has, whatever `main` is given. The deepest file takes a tenth of them.
const STACK: usize = 1 << 20;

/// Runs the program on a thread with a stack of its own. If there can't be one, it runs here.
fn main(rt: HostRuntime) -> ExitCode {
    keep_freed_blocks(rt.alloc());
    let apart = move || -> u8 { run_words(&rt) };
    match Builder::new().stack_size(STACK).spawn(&rt, apart) {
        Ok(thread) => ExitCode::from(thread.join(&rt)),
        Err(_) => ExitCode::from(run_words(&rt)),
    }
}

/// Runs the program with the words of the command line, over the files and the output of the system, and gives its status. A command line that is
/// not UTF-8 has bad words.
fn run_words<R: Threads + Sync + Env + AllocGlobal + Print + rt::Files>(rt: &R) -> u8 {
    let words = match command_line(rt) {
        Ok(words) => words,
        Err(error) if error.kind() == ErrorKind::OutOfMemory => return 9,
        Err(_) => Vec::new(rt.alloc()),
    };
    let mut files = RealFiles::new(rt);
    let mut out = RealOut::new(rt);
    let done = run(
        rt,
        rt.alloc(),
        words.as_slice(),
        &mut files,
        &mut out,
        &FreeGate,
    );
    done.status
}

/// The words after the program's name.
fn command_line<R: Env + AllocGlobal>(rt: &R) -> io::Result<Vec<String>> {
    let mut words = Vec::new(rt.alloc());
    for word in env::args(rt)?.skip(1) {
        words.push(word)?;
    }
    Ok(words)
}
