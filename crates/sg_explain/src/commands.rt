//! Which command of a `times` breaks a rule.

use crate::kinds::{is_sign, is_word};
use crate::parts::{head_place, part};
use crate::place::Place;
use crate::sizes::{axes_of, layout_of_field};
use sg_ast::{Sign, Spanned, Token, Word};

/// How many commands a file has at most, those in a `times` counted once.
const MOST_COMMANDS: usize = 64;

/// The value of a number.
fn value_of(token: &Token) -> Option<i64> {
    match token {
        Token::Number { value, unsigned: _ } => Some(*value as i64),
        _ => None,
    }
}

/// The bound of an image at the front, and the tokens behind it.
fn bound(tokens: &[Spanned]) -> Option<(i64, &[Spanned])> {
    let [first, more @ ..] = tokens else {
        return None;
    };
    if !is_sign(&first.token, Sign::Minus) {
        return Some((value_of(&first.token)?, more));
    }
    let [number, behind @ ..] = more else {
        return None;
    };
    Some((value_of(&number.token)?.wrapping_neg(), behind))
}

/// Whether the bounds of an image don't rise.
fn falls(bounds: &[Spanned]) -> bool {
    let Some((low, behind)) = bound(bounds) else {
        return false;
    };
    match bound(behind) {
        Some((high, _)) => high <= low,
        None => false,
    }
}

/// Whether a command is an image of a layout that hasn't two axes, or one whose bounds don't rise.
fn breaks_rule(tokens: &[Spanned], command: &[Spanned]) -> bool {
    let [word, named, bounds @ ..] = command else {
        return false;
    };
    let Token::Name(field) = &named.token else {
        return false;
    };
    if !is_word(&word.token, Word::Image) {
        return false;
    }
    match layout_of_field(tokens, field) {
        Some(layout) => axes_of(layout) != 2 || falls(bounds),
        None => false,
    }
}

/// The first command in a `times` that breaks a rule, where one does.
pub(crate) fn broken_command(tokens: &[Spanned], item: &[Spanned]) -> Option<Place> {
    for number in 0..MOST_COMMANDS {
        let command = part(item, number)?;
        if breaks_rule(tokens, command) {
            return head_place(command);
        }
    }
    None
}
