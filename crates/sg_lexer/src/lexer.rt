//! The tokens of a whole file.

ghost use Rattle.std.specs.Prelude.{◌≡◌, ◌≤◌, length};
ghost use Rattle.sg_words.specs.Answers.{Answers};
ghost use Rattle.sg_lexer.specs.Limits.{most_file_bytes};
ghost use Rattle.sg_lexer.specs.Lexing.{tokens};

use crate::fault::LexFault;
use crate::pieces::{newlines, piece};
use sg_ast::{Spanned, Tokens};
use sg_words::{Items, Stop};
use std::alloc::Global;

/// The tokens of a file's bytes, each with its span and line; or the first fault.
pub fn lex(alloc: Global, bytes: &[u8]) -> Result<Tokens, Stop<LexFault>>
    requires { length bytes.now ≤ most_file_bytes }
    ensures { Answers result (tokens bytes.now) }
{
    let mut list = Items::new(alloc);
    let mut at = 0;
    let mut line = 1u32;
    while at < bytes.len() {
        let (len, token) = piece(alloc, line, list.len(), &bytes[at..])?;
        let end = at + len;
        if let Some(token) = token {
            list.push(Spanned {
                token,
                start: at as u32,
                end: end as u32,
                line,
            })?;
        }
        line += newlines(&bytes[at..end]) as u32;
        at = end;
    }
    Ok(Tokens { list })
}
