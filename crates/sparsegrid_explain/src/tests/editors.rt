//! That the editor files have every reserved word.

use crate::editors::{TEXTMATE, VIM};
use sg_ast::{Token, Word};
use sg_lexer::lex;
use std::alloc::Global;
use std::test::Fail;

/// The reserved words. Each of them is read as one, and there are as many as there are words.
static WORDS: &[&str] = &[
    "const",
    "layout",
    "field",
    "kernel",
    "for",
    "in",
    "if",
    "else",
    "let",
    "true",
    "false",
    "i32",
    "u32",
    "bool",
    "min",
    "max",
    "mulq",
    "active",
    "dense",
    "hash",
    "pointer",
    "bitmasked",
    "dynamic",
    "cap",
    "chunk",
    "load",
    "run",
    "times",
    "dump",
    "image",
    "stats",
    "prune",
    "clear",
];

/// The place of a word in the list above. A new word has no place in it.
fn place_of(word: Word) -> usize {
    match word {
        Word::Const => 0,
        Word::Layout => 1,
        Word::Field => 2,
        Word::Kernel => 3,
        Word::For => 4,
        Word::In => 5,
        Word::If => 6,
        Word::Else => 7,
        Word::Let => 8,
        Word::True => 9,
        Word::False => 10,
        Word::I32 => 11,
        Word::U32 => 12,
        Word::Bool => 13,
        Word::Min => 14,
        Word::Max => 15,
        Word::Mulq => 16,
        Word::Active => 17,
        Word::Dense => 18,
        Word::Hash => 19,
        Word::Pointer => 20,
        Word::Bitmasked => 21,
        Word::Dynamic => 22,
        Word::Cap => 23,
        Word::Chunk => 24,
        Word::Load => 25,
        Word::Run => 26,
        Word::Times => 27,
        Word::Dump => 28,
        Word::Image => 29,
        Word::Stats => 30,
        Word::Prune => 31,
        Word::Clear => 32,
    }
}

/// The place of a text that is a reserved word.
fn place_in_list(alloc: Global, text: &str) -> Option<usize> {
    if text.len() > 32 {
        return None;
    }
    match lex(alloc, text.as_bytes()) {
        Ok(tokens) => match tokens.list.as_slice() {
            [only] => match only.token {
                Token::Word(word) => Some(place_of(word)),
                _ => None,
            },
            _ => None,
        },
        Err(_) => None,
    }
}

/// Whether a word stands in bytes, between others that are no letters and no digits.
fn has_word(bytes: &[u8], word: &[u8]) -> bool {
    for found in bytes.split(|byte| !byte.is_ascii_alphanumeric()) {
        if found == word {
            return true;
        }
    }
    false
}

#[test]
fn editor_files_have_every_reserved_word(rt: HostRuntime) -> Result<(), Fail> {
    let alloc = rt.alloc();
    for (at, text) in WORDS.iter().enumerate() {
        assert_eq!(rt; place_in_list(alloc, *text), Some(at), "{text}");
        assert!(rt; has_word(VIM.as_bytes(), text.as_bytes()), "{text}");
        assert!(rt; has_word(TEXTMATE.as_bytes(), text.as_bytes()), "{text}");
    }
    Ok(())
}
