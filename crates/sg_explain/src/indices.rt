//! Accesses with a wrong number of indices.

use crate::kinds::is_sign;
use crate::names::place_of;
use crate::parts::ends_part;
use crate::place::Place;
use crate::sizes::{axes_of, layout_of_field};
use sg_ast::{Sign, Spanned, Token};

/// A field that is indexed by a wrong number of indices: its name, its axes, and the indices.
#[derive(Clone, Copy)]
pub(crate) struct Access {
    pub place: Place,
    pub axes: usize,
    pub indices: usize,
}

/// How many indices stand behind a `[`: one more than the commas up to its `]`.
fn indices_in(tokens: &[Spanned]) -> usize {
    let mut open: usize = 0;
    let mut count: usize = 1;
    let mut rest = tokens;
    while let [first, more @ ..] = rest {
        match first.token {
            Token::Sign(Sign::OpenBracket | Sign::OpenParen) => open = open.saturating_add(1),
            Token::Sign(Sign::CloseBracket | Sign::CloseParen) => {
                if open == 0 {
                    break;
                }
                open -= 1;
            }
            Token::Sign(Sign::Comma) if open == 0 => count = count.saturating_add(1),
            _ => {}
        }
        rest = more;
    }
    count
}

/// The access of a field whose indices these are, where their number is wrong.
fn access_of(tokens: &[Spanned], named: &Spanned, indices: &[Spanned]) -> Option<Access> {
    let Token::Name(name) = &named.token else {
        return None;
    };
    let axes = axes_of(layout_of_field(tokens, name)?);
    let count = indices_in(indices);
    if count == axes {
        return None;
    }
    Some(Access {
        place: place_of(named),
        axes,
        indices: count,
    })
}

/// The first access in the head of a statement whose number of indices is wrong.
pub(crate) fn wrong_access(tokens: &[Spanned], statement: &[Spanned]) -> Option<Access> {
    let mut rest = statement;
    while let [named, more @ ..] = rest {
        if ends_part(&named.token) {
            break;
        }
        if let [bracket, indices @ ..] = more {
            if is_sign(&bracket.token, Sign::OpenBracket) {
                if let Some(found) = access_of(tokens, named, indices) {
                    return Some(found);
                }
            }
        }
        rest = more;
    }
    None
}
