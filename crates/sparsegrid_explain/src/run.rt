//! A run of the program.

ghost use Rattle.std.specs.Prelude.{◌≤◌, length};
ghost use Rattle.sg_lexer.specs.Limits.{most_file_bytes};

use crate::editors::{TEXTMATE, VIM};
use crate::help::{BAD_WORDS, HELP, VERSION};
use crate::input::{Lines, pass_on};
use crate::output::{Failed, put_all};
use crate::words::{Words, bound_fields, read_words};
use sg_explain::{Asked, push_long, push_rules, tell};
use sg_outside::{Files, Got, Sink};
use sg_words::Memory;
use std::alloc::Global;
use std::io::BufRead;

/// The most bytes of a file.
const MOST_BYTES: u64 = 65536;

/// Does what words ask for, and answers the status of the program: 0 where all is told, 1 for bad words, 2 where the file or the input can't
/// be read, 3 where the output can't be written, and 9 where memory runs out.
pub fn run<F: Files, B: BufRead + Drop, S: Sink>(
    alloc: Global,
    words: &[String],
    files: &mut F,
    input: B,
    out: &mut S,
) -> u8 {
    match told(alloc, words, files, input, out) {
        Ok(status) => status,
        Err(failed) => failed.status(),
    }
}

/// Does what words ask for, and answers the status where nothing failed.
fn told<F: Files, B: BufRead + Drop, S: Sink>(
    alloc: Global,
    words: &[String],
    files: &mut F,
    input: B,
    out: &mut S,
) -> Result<u8, Failed> {
    match read_words(words) {
        Words::Help => put_text(out, HELP, 0),
        Words::Version => put_text(out, VERSION, 0),
        Words::Vim => put_text(out, VIM, 0),
        Words::TextMate => put_text(out, TEXTMATE, 0),
        Words::Bad => put_text(out, BAD_WORDS, 1),
        Words::Rules => put_rules(alloc, out),
        Words::File { input: wanted } => {
            let mut lines = Lines {
                current: Vec::new(alloc),
                last: Vec::new(alloc),
            };
            let mut input = input;
            if wanted {
                match pass_on(&mut input, out, &mut lines) {
                    Ok(()) => {}
                    Err(Failed::Input) => return put_text(out, "standard input can't be read\n", 2),
                    Err(failed) => return Err(failed),
                }
            }
            explain_file(alloc, words, files, out, wanted, lines.last.as_slice())
        }
    }
}

/// Writes a text.
fn put_text<S: Sink>(out: &mut S, text: &str, status: u8) -> Result<u8, Failed> {
    put_all(out, text.as_bytes())?;
    Ok(status)
}

/// Writes all rules.
fn put_rules<S: Sink>(alloc: Global, out: &mut S) -> Result<u8, Failed> {
    let mut text = Vec::new(alloc);
    match push_rules(&mut text) {
        Ok(()) => {}
        Err(Memory) => return Err(Failed::Memory),
    }
    put_all(out, text.as_slice())?;
    Ok(0)
}

/// Explains the file that the first word names, by the last line of a run of it, empty where there is none.
fn explain_file<F: Files, S: Sink>(
    alloc: Global,
    words: &[String],
    files: &mut F,
    out: &mut S,
    wanted: bool,
    line: &[u8],
) -> Result<u8, Failed> {
    let [name, ..] = words else {
        return put_text(out, BAD_WORDS, 1);
    };
    if wanted && line.is_empty() {
        put_all(out, b"standard input: no line begins with `refused: `\n")?;
    }
    let mut bytes = Vec::new(alloc);
    match files.read(name.as_str(), MOST_BYTES, &mut bytes) {
        Got::All => {}
        Got::TooLong => return put_long(alloc, out, name.as_bytes()),
        Got::Failed => {
            put_all(out, name.as_bytes())?;
            return put_text(out, ": this file can't be read\n", 2);
        }
        Got::Memory => return Err(Failed::Memory),
    }
    let bound = match bound_fields(alloc, words) {
        Ok(bound) => bound,
        Err(Memory) => return Err(Failed::Memory),
    };
    let asked = Asked {
        name: name.as_bytes(),
        bytes: bytes.as_slice(),
        line,
        bound: bound.as_slice(),
    };
    put_told(alloc, out, &asked)
}

/// Writes all that is said of a file.
fn put_told<S: Sink>(alloc: Global, out: &mut S, asked: &Asked) -> Result<u8, Failed>
    requires { length asked.now.bytes.now ≤ most_file_bytes }
{
    match tell(alloc, asked) {
        Ok(told) => {
            put_all(out, told.text.as_slice())?;
            Ok(0)
        }
        Err(Memory) => Err(Failed::Memory),
    }
}

/// Writes that a file has too many bytes.
fn put_long<S: Sink>(alloc: Global, out: &mut S, name: &[u8]) -> Result<u8, Failed> {
    let mut text = Vec::new(alloc);
    match push_long(&mut text, name) {
        Ok(()) => {}
        Err(Memory) => return Err(Failed::Memory),
    }
    put_all(out, text.as_slice())?;
    Ok(0)
}
