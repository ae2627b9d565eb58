//! What is said of the refusal of a file.

ghost use Rattle.std.specs.Prelude.{◌≤◌, length};
ghost use Rattle.sg_lexer.specs.Limits.{most_file_bytes};

use crate::finer::closest;
use crate::indices::{Access, wrong_access};
use crate::items::kernel_item;
use crate::kinds::is_word;
use crate::lines::{bytes_of, position_of, push_number, push_quoted, push_text};
use crate::others::{first_of_twice, unknown_of};
use crate::parts::part;
use crate::place::Place;
use crate::reading::Reading;
use crate::refused::Explained;
use crate::rule_texts as texts;
use crate::rules::rule_of;
use crate::scope::unknown_local;
use crate::stop_forms::{Advice, BLOCKS, Stop as Stopped, missing};
use crate::stops::advice;
use crate::storage::largest_layout;
use crate::telling::{Asked, push_begin, push_end, push_middle, push_rule, push_said};
use crate::unknowns::push_unknown;
use crate::want::Want;
use sg_ast::{Spanned, Token, Word};
use sg_lexer::{LexFault, lex};
use sg_names::NameFault;
use sg_session::Refusal;
use sg_types::TypeFault;
use sg_words::{Memory, Stop};
use std::alloc::Global;

/// Adds what is said of the refusal of a file.
pub(crate) fn push_refusal(
    alloc: Global,
    text: &mut Vec<u8>,
    asked: &Asked,
    told: Explained,
) -> Result<(), Memory>
    requires { length asked.now.bytes.now ≤ most_file_bytes }
{
    let place = closest(alloc, asked.bytes, told)?;
    match lex(alloc, asked.bytes) {
        Ok(tokens) => push_spelled(alloc, text, asked, told, place, tokens.list.as_slice()),
        Err(Stop::Refused(fault)) => push_bytes(alloc, text, asked, place, fault),
        Err(Stop::Memory) => Err(Memory),
    }
}

/// Adds what is said of bytes that are no tokens.
fn push_bytes(
    alloc: Global,
    text: &mut Vec<u8>,
    asked: &Asked,
    place: Option<Place>,
    fault: LexFault,
) -> Result<(), Memory> {
    let rule = rule_of(Refusal::Lex(fault));
    let found = match place {
        Some(place) => bytes_of(asked.bytes, place),
        None => b"",
    };
    match found {
        [first, ..] if *first == b'.' => push_said(alloc, text, asked, place, &rule, FRACTION),
        [first, ..] if *first == b'#' => push_said(alloc, text, asked, place, &rule, COMMENT),
        _ => push_rule(alloc, text, asked, place, &rule),
    }
}

/// What is said of a `.` in a number.
const FRACTION: Advice = Advice {
    sentence: "there are no fractions",
    instead: "fixed point, as in `x[i] = mulq(a[i], 32768, 16);` for a half of a[i]",
};

/// What is said of a `#`.
const COMMENT: Advice = Advice {
    sentence: "a comment is `//` up to the end of its line, and there is no other",
    instead: "// ..",
};

/// Adds what is said of a refusal of a file of these tokens.
fn push_spelled(
    alloc: Global,
    text: &mut Vec<u8>,
    asked: &Asked,
    told: Explained,
    place: Option<Place>,
    tokens: &[Spanned],
) -> Result<(), Memory>
    requires { length asked.now.bytes.now ≤ most_file_bytes }
{
    let rule = rule_of(told.refusal);
    match told.refusal {
        Refusal::Parse(_) => push_syntax(alloc, text, asked, place, tokens),
        Refusal::Name(NameFault::Unknown { item }) => match unknown_of(tokens, item) {
            Some(unknown) => push_unknown(alloc, text, asked, &rule, &unknown),
            None => push_rule(alloc, text, asked, place, &rule),
        },
        Refusal::Name(NameFault::Twice { item }) => push_twice(
            alloc, text, asked, place, tokens, item,
        ),
        Refusal::Types(fault) => push_types(alloc, text, asked, place, tokens, fault),
        Refusal::Words => push_words(alloc, text, asked, place),
        _ => push_rule(alloc, text, asked, place, &rule),
    }
}

/// Adds what is said of a fault of types.
fn push_types(
    alloc: Global,
    text: &mut Vec<u8>,
    asked: &Asked,
    place: Option<Place>,
    tokens: &[Spanned],
    fault: TypeFault,
) -> Result<(), Memory> {
    let rule = rule_of(Refusal::Types(fault));
    match (fault.code, statement_of(tokens, fault)) {
        (4, _) => match unknown_local(tokens, fault.kernel, fault.stmt) {
            Some(unknown) => push_unknown(alloc, text, asked, &rule, &unknown),
            None => push_rule(alloc, text, asked, place, &rule),
        },
        (2, Some(statement)) => match wrong_access(tokens, statement) {
            Some(found) => push_access(alloc, text, asked, place, found),
            None => push_rule(alloc, text, asked, place, &rule),
        },
        (1, Some([first, ..])) if is_word(&first.token, Word::If) => {
            push_said(alloc, text, asked, place, &rule, CONDITION)
        }
        _ => push_rule(alloc, text, asked, place, &rule),
    }
}

/// What is said of the condition of an `if`.
const CONDITION: Advice = Advice {
    sentence: "a condition is a truth value, and both sides of an operator in it have one type",
    instead: "if x[i] != 0 { .. }",
};

/// The tokens of the statement of a fault, to the end of its kernel.
fn statement_of(tokens: &[Spanned], fault: TypeFault) -> Option<&[Spanned]> {
    part(
        kernel_item(tokens, fault.kernel as usize)?,
        fault.stmt as usize,
    )
}

/// Adds that a field has a wrong number of indices.
fn push_access(
    alloc: Global,
    text: &mut Vec<u8>,
    asked: &Asked,
    place: Option<Place>,
    access: Access,
) -> Result<(), Memory> {
    let rule = texts::INDICES;
    push_begin(alloc, text, asked, place)?;
    push_quoted(text, bytes_of(asked.bytes, access.place))?;
    push_text(text, " is a field of ")?;
    push_number(alloc, text, access.axes as u64)?;
    push_text(text, if access.axes == 1 { " axis" } else { " axes" })?;
    push_text(text, ", and is indexed by ")?;
    push_number(alloc, text, access.indices as u64)?;
    push_text(text, " here")?;
    push_middle(alloc, text, asked, place)?;
    push_text(text, rule.instead)?;
    push_end(text, &rule)
}

/// Adds what is said where no form goes on.
fn push_syntax(
    alloc: Global,
    text: &mut Vec<u8>,
    asked: &Asked,
    place: Option<Place>,
    tokens: &[Spanned],
) -> Result<(), Memory> {
    let rule = texts::SYNTAX;
    let reading = Reading::of(alloc, tokens)?;
    let wants = reading.wants.list.as_slice();
    let [.., want] = wants else {
        return push_rule(alloc, text, asked, place, &rule);
    };
    if stops_before(tokens, reading.taken, place) {
        return push_said(alloc, text, asked, place, &rule, too_deep(tokens, place));
    }
    let Some(here) = tokens.get(reading.taken) else {
        return push_ended(alloc, text, asked, place, wants);
    };
    let stop = Stopped {
        before: token_at(tokens, reading.taken.wrapping_sub(1)),
        at: &here.token,
        behind: token_at(tokens, reading.taken.wrapping_add(1)),
        want: *want,
    };
    match advice(&stop) {
        Some(said) => push_said(alloc, text, asked, place, &rule, said),
        None => push_missing(alloc, text, asked, place, missing(*want)),
    }
}

/// What is said of the place where the reader goes on, and no file of the grammar does.
fn too_deep(tokens: &[Spanned], place: Option<Place>) -> Advice {
    let Some(found) = place else {
        return DEEP;
    };
    for here in tokens {
        if here.start == found.from && has_block(&here.token) {
            return BLOCKS;
        }
    }
    DEEP
}

/// Whether a statement with a block begins with this token.
fn has_block(token: &Token) -> bool {
    is_word(token, Word::If) || is_word(token, Word::For)
}

/// What is said of an expression that is too deep.
const DEEP: Advice = Advice {
    sentence: "an expression is at most 64 levels deep",
    instead: "a local for a part of it: let part = ..;",
};

/// Whether a place stands before the token of this number, or before the last one where there is no such token.
fn stops_before(tokens: &[Spanned], taken: usize, place: Option<Place>) -> bool {
    let Some(found) = place else {
        return false;
    };
    match (tokens.get(taken), tokens) {
        (Some(here), _) => found.from < here.start,
        (None, [.., last]) => found.from < last.end,
        _ => false,
    }
}

/// A token, where there is one.
fn token_at(tokens: &[Spanned], at: usize) -> Option<&Token> {
    match tokens.get(at) {
        Some(found) => Some(&found.token),
        None => None,
    }
}

/// Adds that something is missing before a place.
fn push_missing(
    alloc: Global,
    text: &mut Vec<u8>,
    asked: &Asked,
    place: Option<Place>,
    what: Option<&'static str>,
) -> Result<(), Memory> {
    let rule = texts::SYNTAX;
    let Some(found) = what else {
        return push_rule(alloc, text, asked, place, &rule);
    };
    push_begin(alloc, text, asked, place)?;
    push_text(text, found)?;
    push_text(text, " is missing before this")?;
    push_middle(alloc, text, asked, place)?;
    push_text(text, found)?;
    push_end(text, &rule)
}

/// Adds that a file ends too early: the last of what is wanted that can't be left out is missing.
fn push_ended(
    alloc: Global,
    text: &mut Vec<u8>,
    asked: &Asked,
    place: Option<Place>,
    wants: &[Want],
) -> Result<(), Memory> {
    let rule = texts::SYNTAX;
    let found = first_missing(wants);
    push_begin(alloc, text, asked, place)?;
    push_text(text, "the file ends here, and ")?;
    push_text(text, found)?;
    push_text(text, " is missing")?;
    push_middle(alloc, text, asked, place)?;
    push_text(text, found)?;
    push_end(text, &rule)
}

/// What is missing first, where these are wanted, the last of them first.
fn first_missing(wants: &[Want]) -> &'static str {
    let mut rest = wants;
    while let [front @ .., want] = rest {
        if let Some(found) = missing(*want) {
            return found;
        }
        rest = front;
    }
    "something"
}

/// Adds that a name is declared twice.
fn push_twice(
    alloc: Global,
    text: &mut Vec<u8>,
    asked: &Asked,
    place: Option<Place>,
    tokens: &[Spanned],
    item: u32,
) -> Result<(), Memory> {
    let rule = texts::TWICE;
    let Some(first) = first_of_twice(tokens, item) else {
        return push_rule(alloc, text, asked, place, &rule);
    };
    push_begin(alloc, text, asked, place)?;
    push_quoted(text, bytes_of(asked.bytes, first))?;
    push_text(text, " is declared in line ")?;
    push_number(alloc, text, position_of(asked.bytes, first).line as u64)?;
    push_text(text, " already")?;
    push_middle(alloc, text, asked, place)?;
    push_text(text, rule.instead)?;
    push_end(text, &rule)
}

/// Adds that the layouts take too many words.
fn push_words(
    alloc: Global,
    text: &mut Vec<u8>,
    asked: &Asked,
    place: Option<Place>,
) -> Result<(), Memory>
    requires { length asked.now.bytes.now ≤ most_file_bytes }
{
    let rule = texts::WORDS;
    let Some(largest) = largest_layout(alloc, asked.bytes)? else {
        return push_rule(alloc, text, asked, place, &rule);
    };
    push_begin(alloc, text, asked, place)?;
    push_text(text, "of all layouts this one takes most words: ")?;
    push_number(alloc, text, largest.words)?;
    push_text(text, " of the 4194304 that there are for all")?;
    push_middle(alloc, text, asked, place)?;
    push_text(text, rule.instead)?;
    push_end(text, &rule)
}
