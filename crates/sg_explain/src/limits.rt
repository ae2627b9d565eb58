//! Where a limit is passed.

use crate::kinds::is_word;
use crate::names::place_of;
use crate::place::Place;
use crate::sizes::{layout_of_field, slots_up_to};
use sg_ast::{Spanned, Token, Word};
use sg_names::Which;

/// The most turns of a `times`, and the most points of an image.
const MOST_TURNS: u32 = 1000;

const MOST_IMAGE_POINTS: u64 = 1048576;

/// Whether a token begins something that is counted.
fn is_counted(which: Which, token: &Token) -> bool {
    match (which, token) {
        (Which::Layouts, Token::Word(Word::Layout)) => true,
        (Which::Fields, Token::Word(Word::Field)) => true,
        (Which::Kernels, Token::Word(Word::Kernel)) => true,
        (Which::Commands, Token::Word(Word::Times | Word::Load | Word::Run | Word::Dump)) => true,
        (Which::Commands, Token::Word(Word::Image | Word::Stats | Word::Prune | Word::Clear)) =>
            true,
        _ => false,
    }
}

/// How many there may be.
fn most_of(which: Which) -> u32 {
    match which {
        Which::Layouts => 8,
        Which::Fields => 16,
        Which::Kernels => 16,
        Which::Commands => 64,
    }
}

/// The first word that is one too many.
pub(crate) fn count_place(tokens: &[Spanned], which: Which) -> Option<Place> {
    let mut left = most_of(which);
    let mut rest = tokens;
    while let [first, more @ ..] = rest {
        if is_counted(which, &first.token) {
            if left == 0 {
                return Some(place_of(first));
            }
            left -= 1;
        }
        rest = more;
    }
    None
}

/// The first number of turns that is too great.
pub(crate) fn times_place(tokens: &[Spanned]) -> Option<Place> {
    let mut rest = tokens;
    while let [first, more @ ..] = rest {
        if let [number, ..] = more {
            if is_word(&first.token, Word::Times) && is_long(&number.token) {
                return Some(place_of(number));
            }
        }
        rest = more;
    }
    None
}

/// Whether a token is a number of more turns than there may be.
fn is_long(token: &Token) -> bool {
    match token {
        Token::Number { value, unsigned: _ } => *value > MOST_TURNS,
        _ => false,
    }
}

/// The first `image` with too many points, with its field.
pub(crate) fn image_place(tokens: &[Spanned]) -> Option<Place> {
    let mut rest = tokens;
    while let [first, more @ ..] = rest {
        if let [named, ..] = more {
            if is_word(&first.token, Word::Image)
                && points_of(tokens, &named.token) > MOST_IMAGE_POINTS
            {
                return Some(Place {
                    from: first.start,
                    to: named.end,
                });
            }
        }
        rest = more;
    }
    None
}

/// How many points the layout of a field has.
fn points_of(tokens: &[Spanned], field: &Token) -> u64 {
    let Token::Name(name) = field else {
        return 0;
    };
    match layout_of_field(tokens, name) {
        Some(item) => slots_up_to(tokens, item, 6),
        None => 0,
    }
}
