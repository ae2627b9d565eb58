//! What is said of the last line of a run.

ghost use Rattle.std.specs.Prelude.{◌≤◌, length};
ghost use Rattle.sg_lexer.specs.Limits.{most_file_bytes};

use crate::items::{kernel_item, next_item};
use crate::kinds::is_word;
use crate::lines::{bytes_of, push_number, push_quoted, push_text};
use crate::names::place_of;
use crate::parts::part;
use crate::place::Place;
use crate::rule_texts as texts;
use crate::rules::rule_of_line;
use crate::runs::{found, kernel_number, line_place, node_part, value_of, word_at};
use crate::sizes::{most_needed, slots_up_to};
use crate::telling::{Asked, push_begin, push_end, push_middle, push_rule};
use sg_ast::{Spanned, Token, Word};
use sg_lexer::lex;
use sg_words::{Memory, Stop};
use std::alloc::Global;

/// Adds what is said of a file that keeps all rules, by the last line of a run of it.
pub(crate) fn push_run(alloc: Global, text: &mut Vec<u8>, asked: &Asked) -> Result<(), Memory>
    requires { length asked.now.bytes.now ≤ most_file_bytes }
{
    if asked.line.is_empty() {
        push_begin(alloc, text, asked, None)?;
        return push_text(text, "nothing is refused before the first command\n");
    }
    match lex(alloc, asked.bytes) {
        Ok(tokens) => push_line(alloc, text, asked, tokens.list.as_slice()),
        Err(Stop::Refused(_)) => Ok(()),
        Err(Stop::Memory) => Err(Memory),
    }
}

/// Adds what is said of the last line of a run of a file of these tokens.
fn push_line(
    alloc: Global,
    text: &mut Vec<u8>,
    asked: &Asked,
    tokens: &[Spanned],
) -> Result<(), Memory> {
    let place = line_place(tokens, asked.line);
    match (word_at(asked.line, 1), word_at(asked.line, 2), place) {
        (b"write", b"outside:", Some(found)) => push_outside(alloc, text, asked, tokens, found),
        (b"pool", b"full:", Some(found)) => push_full(alloc, text, asked, tokens, found),
        (b"no", b"file", Some(found)) => push_unbound(alloc, text, asked, found),
        (b"grid:", _, Some(found)) => push_grid(alloc, text, asked, found),
        (b"limit:", b"grid", Some(found)) => push_ruled(alloc, text, asked, Some(found)),
        (b"words", _, None) => push_ruled(alloc, text, asked, None),
        (b"read", _, None) => push_ruled(alloc, text, asked, None),
        (b"snapshot", _, None) => push_ruled(alloc, text, asked, None),
        (b"limit:", b"snapshot", None) => push_ruled(alloc, text, asked, None),
        (b"limit:", b"journal", None) => push_ruled(alloc, text, asked, None),
        _ => push_other(alloc, text, asked),
    }
}

/// Adds that a line isn't one of a run of this file.
fn push_other(alloc: Global, text: &mut Vec<u8>, asked: &Asked) -> Result<(), Memory> {
    push_begin(alloc, text, asked, None)?;
    push_text(
        text,
        "nothing is refused before the first command, and this line is of another file or of none: ",
    )?;
    push_quoted(text, asked.line)?;
    push_text(text, "\n")
}

/// Adds the rule of a line.
fn push_ruled(
    alloc: Global,
    text: &mut Vec<u8>,
    asked: &Asked,
    place: Option<Place>,
) -> Result<(), Memory> {
    match rule_of_line(asked.line) {
        Some(rule) => push_rule(alloc, text, asked, place, &rule),
        None => push_other(alloc, text, asked),
    }
}

/// Adds that a statement writes outside, and in which iteration.
fn push_outside(
    alloc: Global,
    text: &mut Vec<u8>,
    asked: &Asked,
    tokens: &[Spanned],
    place: Place,
) -> Result<(), Memory> {
    let rule = texts::OUTSIDE;
    push_begin(alloc, text, asked, Some(place))?;
    push_text(text, "this writes outside the extents in the iteration")?;
    push_iteration(text, asked, tokens)?;
    push_middle(alloc, text, asked, Some(place))?;
    push_text(text, rule.instead)?;
    push_end(text, &rule)
}

/// Adds the variables of a kernel with their values in a line.
fn push_iteration(text: &mut Vec<u8>, asked: &Asked, tokens: &[Spanned]) -> Result<(), Memory> {
    let mut number: usize = 8;
    let mut rest = loop_of(tokens, word_at(asked.line, 4));
    while let [first, more @ ..] = rest {
        if is_word(&first.token, Word::In) {
            break;
        }
        if let Token::Name(_) = first.token {
            push_value(
                text,
                bytes_of(asked.bytes, place_of(first)),
                word_at(asked.line, number),
            )?;
            number = number.saturating_add(1);
        }
        rest = more;
    }
    Ok(())
}

/// Adds a variable and its value.
fn push_value(text: &mut Vec<u8>, name: &[u8], value: &[u8]) -> Result<(), Memory> {
    push_text(text, " ")?;
    text.extend_from_slice(name)?;
    push_text(text, " = ")?;
    text.extend_from_slice(value)?;
    Ok(())
}

/// The tokens of a kernel of this name from its loop on, none where there is no such kernel.
fn loop_of<'a>(tokens: &'a [Spanned], name: &[u8]) -> &'a [Spanned] {
    let Some(number) = kernel_number(tokens, name) else {
        return &[];
    };
    let Some(item) = kernel_item(tokens, number as usize) else {
        return &[];
    };
    match part(item, 0) {
        Some(found) => found,
        None => &[],
    }
}

/// Adds that a node is full, and how many are ever needed.
fn push_full(
    alloc: Global,
    text: &mut Vec<u8>,
    asked: &Asked,
    tokens: &[Spanned],
    place: Place,
) -> Result<(), Memory> {
    let rule = texts::POOL;
    let most = most_of_line(tokens, asked.line);
    push_begin(alloc, text, asked, Some(place))?;
    push_text(text, "more are needed than this cap allows: at most ")?;
    push_number(alloc, text, most)?;
    push_text(text, " are ever needed here")?;
    push_middle(alloc, text, asked, Some(place))?;
    push_text(text, rule.instead)?;
    push_end(text, &rule)
}

/// The most containers or chunks of the node of a line that can be needed.
fn most_of_line(tokens: &[Spanned], line: &[u8]) -> u64 {
    let Some(number) = value_of(word_at(line, 5)) else {
        return 0;
    };
    let above = match found(tokens, Word::Layout, word_at(line, 3)) {
        Some(rest) if !rest.is_empty() => {
            let (item, _) = next_item(rest);
            slots_up_to(tokens, item, (number as usize).saturating_sub(1))
        }
        _ => 0,
    };
    match node_part(tokens, word_at(line, 3), number) {
        Some(node) => most_needed(tokens, node, above),
        None => 0,
    }
}

/// Adds that a field has no file.
fn push_unbound(
    alloc: Global,
    text: &mut Vec<u8>,
    asked: &Asked,
    place: Place,
) -> Result<(), Memory> {
    let rule = texts::NO_FILE;
    let field = word_at(asked.line, 4);
    push_begin(alloc, text, asked, Some(place))?;
    push_text(text, "no word binds a file to ")?;
    push_quoted(text, field)?;
    push_middle(alloc, text, asked, Some(place))?;
    text.extend_from_slice(field)?;
    push_text(text, "=NAME behind the name of the file")?;
    push_end(text, &rule)
}

/// Adds that a line of a grid text is bad.
fn push_grid(alloc: Global, text: &mut Vec<u8>, asked: &Asked, place: Place) -> Result<(), Memory> {
    let rule = texts::GRID;
    push_begin(alloc, text, asked, Some(place))?;
    push_text(text, "line ")?;
    text.extend_from_slice(word_at(asked.line, 4))?;
    push_text(text, " of the file that is bound to ")?;
    push_quoted(text, word_at(asked.line, 2))?;
    push_text(text, " is no line of its grid text")?;
    push_middle(alloc, text, asked, Some(place))?;
    push_text(text, rule.instead)?;
    push_end(text, &rule)
}
