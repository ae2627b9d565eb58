//! What the last line of a run is about: a refusal that comes while commands run.

use crate::items::{next_item, statement_place};
use crate::kinds::is_word;
use crate::names::place_of;
use crate::parts::{head_place, part};
use crate::place::Place;
use sg_ast::{Spanned, Token, Word};

/// The word of this number, from 0, of words with a blank between each two.
pub(crate) fn word_at(line: &[u8], number: usize) -> &[u8] {
    for (at, word) in line.split(|byte| *byte == b' ').enumerate() {
        if at == number {
            return word;
        }
    }
    b""
}

/// The value of digits.
pub(crate) fn value_of(digits: &[u8]) -> Option<u32> {
    if digits.is_empty() || digits.len() > 9 {
        return None;
    }
    let mut value: u32 = 0;
    for digit in digits {
        if !digit.is_ascii_digit() {
            return None;
        }
        value = value
            .checked_mul(10)?
            .checked_add(digit.wrapping_sub(b'0') as u32)?;
    }
    Some(value)
}

/// Whether tokens begin with this word and this name.
fn begins_with(tokens: &[Spanned], word: Word, name: &[u8]) -> bool {
    let [first, second, ..] = tokens else {
        return false;
    };
    let Token::Name(named) = &second.token else {
        return false;
    };
    is_word(&first.token, word) && named.text.as_slice() == name
}

/// The number, from 0, of the kernel of this name among the kernels of a file.
pub(crate) fn kernel_number(tokens: &[Spanned], name: &[u8]) -> Option<u32> {
    let mut number: u32 = 0;
    let mut rest = tokens;
    while let [first, more @ ..] = rest {
        if begins_with(rest, Word::Kernel, name) {
            return Some(number);
        }
        if is_word(&first.token, Word::Kernel) {
            number = number.saturating_add(1);
        }
        rest = more;
    }
    None
}

/// The tokens from the first on that begin with this word and this name.
pub(crate) fn found<'a>(tokens: &'a [Spanned], word: Word, name: &[u8]) -> Option<&'a [Spanned]> {
    let mut rest = tokens;
    while let [_, more @ ..] = rest {
        if begins_with(rest, word, name) {
            return Some(rest);
        }
        rest = more;
    }
    None
}

/// The first `load` of the field of this name, with the name.
fn load_place(tokens: &[Spanned], name: &[u8]) -> Option<Place> {
    let [word, named, ..] = found(tokens, Word::Load, name)? else {
        return None;
    };
    Some(Place {
        from: word.start,
        to: named.end,
    })
}

/// The word `cap` and its size in a part.
fn cap_place(part: &[Spanned]) -> Option<Place> {
    let mut rest = part;
    while let [first, more @ ..] = rest {
        if is_word(&first.token, Word::Cap) {
            let [size, ..] = more else {
                return None;
            };
            return Some(Place {
                from: first.start,
                to: place_of(size).to,
            });
        }
        rest = more;
    }
    None
}

/// The tokens of the layout of this name from the begin of its node of this number, from 1, on.
pub(crate) fn node_part<'a>(
    tokens: &'a [Spanned],
    name: &[u8],
    number: u32,
) -> Option<&'a [Spanned]> {
    let rest = found(tokens, Word::Layout, name)?;
    if rest.is_empty() {
        return None;
    }
    let (item, _) = next_item(rest);
    part(item, (number as usize).checked_sub(1)?)
}

/// The statement that a line names from its word of this number on, as `kernel K statement S`.
fn named_statement(tokens: &[Spanned], line: &[u8], from: usize) -> Option<Place> {
    let kernel = kernel_number(tokens, word_at(line, from.saturating_add(1)))?;
    let number = value_of(word_at(line, from.saturating_add(3)))?;
    statement_place(tokens, kernel, number)
}

/// The bytes of a file that the last line of a run of it names, where it names some: the statement that wrote outside, the cap that is full,
/// the node of a layout, or the first load of a field.
pub fn line_place(tokens: &[Spanned], line: &[u8]) -> Option<Place> {
    match (word_at(line, 1), word_at(line, 2)) {
        (b"write", b"outside:") => named_statement(tokens, line, 3),
        (b"type:", b"kernel") => named_statement(tokens, line, 2),
        (b"admission:", b"kernel") => named_statement(tokens, line, 2),
        (b"pool", b"full:") => {
            cap_place(node_part(tokens, word_at(line, 3), value_of(word_at(line, 5))?)?)
        }
        (b"no", b"file") => load_place(tokens, word_at(line, 4)),
        (b"grid:", field) => load_place(tokens, field),
        (b"limit:", b"grid") => load_place(tokens, word_at(line, 4)),
        (b"layout:", layout) => {
            head_place(node_part(tokens, layout, value_of(word_at(line, 4))?)?)
        }
        _ => None,
    }
}
