//! What is said of what may be a mistake: a line each.

ghost use Rattle.std.specs.Prelude.{◌≤◌, length};
ghost use Rattle.sg_lexer.specs.Limits.{most_file_bytes};

use crate::cuts::front_tokens;
use crate::items::next_item;
use crate::kinds::is_word;
use crate::lines::{bytes_of, push_number, push_quoted, push_text};
use crate::names::place_of;
use crate::place::Place;
use crate::runs::found;
use crate::sizes::{WideCap, next_wide_cap};
use crate::telling::{Asked, push_begin};
use crate::warnings::{Warning, What, next_warning};
use sg_ast::{Spanned, Token, Word};
use sg_lexer::lex;
use sg_words::{Memory, Stop};
use std::alloc::Global;

/// Adds what may be a mistake in a file, a line each.
pub(crate) fn push_warnings(alloc: Global, text: &mut Vec<u8>, asked: &Asked) -> Result<(), Memory>
    requires { length asked.now.bytes.now ≤ most_file_bytes }
{
    match lex(alloc, asked.bytes) {
        Ok(tokens) => push_all(alloc, text, asked, tokens.list.as_slice()),
        Err(Stop::Refused(_)) => Ok(()),
        Err(Stop::Memory) => Err(Memory),
    }
}

/// Adds all of them.
fn push_all(
    alloc: Global,
    text: &mut Vec<u8>,
    asked: &Asked,
    tokens: &[Spanned],
) -> Result<(), Memory> {
    push_names(alloc, text, asked, tokens)?;
    push_caps(alloc, text, asked, tokens)?;
    push_loads(alloc, text, asked, tokens)
}

/// Adds the kernels and the fields that serve nothing.
fn push_names(
    alloc: Global,
    text: &mut Vec<u8>,
    asked: &Asked,
    tokens: &[Spanned],
) -> Result<(), Memory> {
    let mut from: usize = 0;
    for _turn in 0..tokens.len() {
        let Some((warning, behind)) = next_warning(tokens, from) else {
            break;
        };
        push_name(alloc, text, asked, warning)?;
        from = behind;
    }
    Ok(())
}

/// Adds a kernel or a field that serves nothing.
fn push_name(
    alloc: Global,
    text: &mut Vec<u8>,
    asked: &Asked,
    warning: Warning,
) -> Result<(), Memory> {
    push_begin(alloc, text, asked, Some(warning.place))?;
    let (what, behind) = match warning.what {
        What::NeverRun => ("warning: kernel ", " is never run\n"),
        What::NeverWritten => (
            "warning: field ",
            " is never written, neither by a kernel nor by a `load`\n",
        ),
        What::NeverShown => ("warning: field ", " is never read and never shown\n"),
    };
    push_text(text, what)?;
    push_quoted(text, bytes_of(asked.bytes, warning.place))?;
    push_text(text, behind)
}

/// Adds the caps that can't be reached.
fn push_caps(
    alloc: Global,
    text: &mut Vec<u8>,
    asked: &Asked,
    tokens: &[Spanned],
) -> Result<(), Memory> {
    let mut rest = tokens;
    while !rest.is_empty() {
        let (item, behind) = next_item(rest);
        if let [first, ..] = item {
            if is_word(&first.token, Word::Layout) {
                push_layout(alloc, text, asked, tokens, item)?;
            }
        }
        rest = behind;
    }
    Ok(())
}

/// Adds the caps of a layout that can't be reached.
fn push_layout(
    alloc: Global,
    text: &mut Vec<u8>,
    asked: &Asked,
    tokens: &[Spanned],
    item: &[Spanned],
) -> Result<(), Memory> {
    let mut from: usize = 0;
    for _turn in 0..8 {
        let Some((cap, behind)) = next_wide_cap(tokens, item, from) else {
            break;
        };
        push_cap(alloc, text, asked, cap)?;
        from = behind;
    }
    Ok(())
}

/// Adds a cap that can't be reached.
fn push_cap(alloc: Global, text: &mut Vec<u8>, asked: &Asked, cap: WideCap) -> Result<(), Memory> {
    push_begin(alloc, text, asked, Some(cap.place))?;
    push_text(
        text,
        "warning: this cap can't be reached, and counts in full: at most ",
    )?;
    push_number(alloc, text, cap.most)?;
    push_text(text, " are ever needed\n")
}

/// Adds the fields that are loaded and have no file.
fn push_loads(
    alloc: Global,
    text: &mut Vec<u8>,
    asked: &Asked,
    tokens: &[Spanned],
) -> Result<(), Memory> {
    let mut at: usize = 0;
    let mut rest = tokens;
    while let [first, more @ ..] = rest {
        if let [named, ..] = more {
            let front = front_tokens(tokens, at);
            if is_word(&first.token, Word::Load) && is_first_unbound(front, named, asked.bound) {
                push_load(alloc, text, asked, first, named)?;
            }
        }
        at = at.saturating_add(1);
        rest = more;
    }
    Ok(())
}

/// Whether a field has no file, and none of the tokens before loads it.
fn is_first_unbound(front: &[Spanned], named: &Spanned, bound: &[u8]) -> bool {
    let Token::Name(name) = &named.token else {
        return false;
    };
    let text = name.text.as_slice();
    found(front, Word::Load, text).is_none() && !is_bound(bound, text)
}

/// Whether a name is one of some, each with a blank behind it.
fn is_bound(bound: &[u8], name: &[u8]) -> bool {
    for word in bound.split(|byte| *byte == b' ') {
        if word == name {
            return true;
        }
    }
    false
}

/// Adds a field that has no file.
fn push_load(
    alloc: Global,
    text: &mut Vec<u8>,
    asked: &Asked,
    word: &Spanned,
    named: &Spanned,
) -> Result<(), Memory> {
    let name = bytes_of(asked.bytes, place_of(named));
    let place = Place {
        from: word.start,
        to: named.end,
    };
    push_begin(alloc, text, asked, Some(place))?;
    push_text(text, "warning: no word binds a file to ")?;
    push_quoted(text, name)?;
    push_text(text, ": ")?;
    text.extend_from_slice(name)?;
    push_text(text, "=NAME\n")
}
