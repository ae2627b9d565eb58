//! Where the parts of an item begin.

ghost use Rattle.std.specs.Prelude.{◌≡◌, option_map, slice_get};
ghost use Rattle.sg_explain.specs.Parts as spec;
ghost use Rattle.sg_explain.specs.Places.{head_place};

use crate::place::Place;
use sg_ast::{Sign, Spanned, Token, Word};

/// Whether a part may begin behind a token.
pub(crate) fn ends_part(token: &Token) -> bool
    ensures { result ≡ spec.ends_part token.now }
{
    match token {
        Token::Sign(Sign::OpenBrace) => true,
        Token::Sign(Sign::CloseBrace) => true,
        Token::Sign(Sign::Semicolon) => true,
        _ => false,
    }
}

/// Whether a part begins with a token, where one may begin.
fn begins_part(token: &Token) -> bool
    ensures { result ≡ spec.begins_part token.now }
{
    match token {
        Token::Sign(Sign::CloseBrace) => false,
        Token::Word(Word::Else) => false,
        _ => true,
    }
}

/// The tokens of an item from the begin of its part with this number on, from 0.
pub fn part(tokens: &[Spanned], number: usize) -> Option<&[Spanned]>
    ensures { option_map (λ rest. rest.now) result ≡ slice_get (spec.item_parts tokens.now) number }
{
    let mut fresh = false;
    let mut left = number;
    let mut rest = tokens;
    while let [first, more @ ..] = rest {
        if fresh && begins_part(&first.token) {
            if left == 0 {
                return Some(rest);
            }
            left -= 1;
        }
        fresh = ends_part(&first.token);
        rest = more;
    }
    None
}

/// The bytes of the head of a part: from its first token up to before the next `{`, `;` or `}` behind it.
pub fn head_place(part: &[Spanned]) -> Option<Place>
    ensures { result ≡ head_place part.now }
{
    let [first, more @ ..] = part else {
        return None;
    };
    let mut to = first.end;
    let mut rest = more;
    while let [next, behind @ ..] = rest {
        if ends_part(&next.token) {
            break;
        }
        to = next.end;
        rest = behind;
    }
    Some(Place {
        from: first.start,
        to,
    })
}
