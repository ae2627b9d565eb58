//! The words of the command line, and what they ask for.

use sg_words::Memory;
use std::alloc::Global;

/// What the words ask for.
#[derive(Clone, Copy, Debug, PartialEq, Eq)]
pub enum Words {
    Help,
    Version,
    Rules,
    Vim,
    TextMate,
    /// That the file named by the first word is explained; whether standard input has a run of it.
    File { input: bool },
    /// Nothing: they are bad.
    Bad,
}

/// What words ask for.
pub fn read_words(words: &[String]) -> Words {
    match words {
        [] => Words::Bad,
        [only] => read_only(only.as_str()),
        [first, more @ ..] => read_file(first.as_str(), more),
    }
}

/// What a single word asks for.
fn read_only(word: &str) -> Words {
    match word {
        "--help" => Words::Help,
        "--version" => Words::Version,
        "--rules" => Words::Rules,
        "--vim" => Words::Vim,
        "--textmate" => Words::TextMate,
        _ if is_file(word) => Words::File { input: false },
        _ => Words::Bad,
    }
}

/// What a file's name and the words behind it ask for: `-` is standard input, and all others bind fields to files.
fn read_file(name: &str, more: &[String]) -> Words {
    if !is_file(name) {
        return Words::Bad;
    }
    let mut input = false;
    for word in more {
        if word.as_str() == "-" {
            input = true;
        } else if !is_binding(word.as_bytes()) {
            return Words::Bad;
        }
    }
    Words::File { input }
}

/// Whether a word may be a file's name.
fn is_file(word: &str) -> bool {
    !word.is_empty() && !word.starts_with('-')
}

/// How many bytes stand before the first `=`.
fn name_len(word: &[u8]) -> usize {
    word.iter().take_while(|byte| **byte != b'=').count()
}

/// The bytes before the first `=`.
fn name_of(word: &[u8]) -> &[u8] {
    let len = name_len(word);
    if len < word.len() { &word[..len] } else { word }
}

/// Whether a word is NAME=FILE.
fn is_binding(word: &[u8]) -> bool {
    let len = name_len(word);
    len > 0 && len < word.len()
}

/// The fields to which the words behind a file's name bind files, each with a blank behind it.
pub fn bound_fields(alloc: Global, words: &[String]) -> Result<Vec<u8>, Memory> {
    let mut bound = Vec::new(alloc);
    for word in words.iter().skip(1) {
        let bytes = word.as_bytes();
        if is_binding(bytes) {
            bound.extend_from_slice(name_of(bytes))?;
            bound.push(b' ')?;
        }
    }
    Ok(bound)
}
