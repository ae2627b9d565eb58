//! Standard input: what a run wrote, which is passed on, and its last refusal.

use crate::output::{Failed, put_all};
use sg_outside::Sink;
use sg_words::Memory;
use std::io::BufRead;

/// How many bytes of a line are kept.
const MOST_KEPT: usize = 4096;

/// The bytes of the line that is being read, as many as are kept, and of the last one that was a refusal.
#[derive(Drop)]
pub(crate) struct Lines {
    pub current: Vec<u8>,
    pub last: Vec<u8>,
}

impl Lines {
    /// Takes bytes.
    fn take(&mut self, bytes: &[u8]) -> Result<(), Memory> {
        for byte in bytes {
            if *byte == b'\n' {
                self.end_line()?;
            } else if self.current.len() < MOST_KEPT {
                self.current.push(*byte)?;
            }
        }
        Ok(())
    }

    /// Ends a line.
    fn end_line(&mut self) -> Result<(), Memory> {
        if self.current.as_slice().starts_with(b"refused: ") {
            self.last.clear();
            self.last.extend_from_slice(self.current.as_slice())?;
        }
        self.current.clear();
        Ok(())
    }
}

/// Passes all of an input on to an output, and keeps its last line that is a refusal.
pub(crate) fn pass_on<B: BufRead, S: Sink>(
    input: &mut B,
    out: &mut S,
    lines: &mut Lines,
) -> Result<(), Failed> {
    for _turn in 0..u64::MAX {
        let len = pass_chunk(input, out, lines)?;
        if len == 0 {
            break;
        }
        input.consume(len);
    }
    if lines.current.is_empty() {
        return Ok(());
    }
    match lines.end_line() {
        Ok(()) => put_all(out, b"\n"),
        Err(Memory) => Err(Failed::Memory),
    }
}

/// Passes on what an input has, and answers how many bytes.
fn pass_chunk<B: BufRead, S: Sink>(
    input: &mut B,
    out: &mut S,
    lines: &mut Lines,
) -> Result<usize, Failed> {
    let Ok(chunk) = input.fill_buf() else {
        return Err(Failed::Input);
    };
    put_all(out, chunk)?;
    match lines.take(chunk) {
        Ok(()) => Ok(chunk.len()),
        Err(Memory) => Err(Failed::Memory),
    }
}
