//! How large nodes are, and how far their caps can be used.

use crate::items::next_item;
use crate::kinds::{is_name, is_sign, is_word};
use crate::parts::{ends_part, head_place, part};
use crate::place::Place;
use sg_ast::{Name, Sign, Spanned, Token, Word};

/// The value of the constant of this name that tokens declare, 0 where they declare none.
fn constant_value(tokens: &[Spanned], name: &Name) -> u64 {
    let mut rest = tokens;
    while let [word, more @ ..] = rest {
        if let [named, _, number, ..] = more {
            if is_word(&word.token, Word::Const) && is_name(&named.token, name) {
                return number_value(&number.token);
            }
        }
        rest = more;
    }
    0
}

/// The value of a number, 0 of any other token.
fn number_value(token: &Token) -> u64 {
    match token {
        Token::Number { value, unsigned: _ } => *value as u64,
        _ => 0,
    }
}

/// The value of a size: a number, or the name of a constant.
fn size_value(tokens: &[Spanned], token: &Token) -> u64 {
    match token {
        Token::Name(name) => constant_value(tokens, name),
        _ => number_value(token),
    }
}

/// The product of the extents of the node at whose word tokens begin.
pub(crate) fn node_slots(tokens: &[Spanned], node: &[Spanned]) -> u64 {
    let mut slots: u64 = 1;
    let mut rest = node;
    while let [colon, more @ ..] = rest {
        if ends_part(&colon.token) {
            break;
        }
        if let [size, ..] = more {
            if is_sign(&colon.token, Sign::Colon) {
                slots = slots.saturating_mul(size_value(tokens, &size.token));
            }
        }
        rest = more;
    }
    slots
}

/// Whether a part of a layout is a node.
fn is_node(part: &[Spanned]) -> bool {
    let [first, ..] = part else {
        return false;
    };
    matches!(
        first.token,
        Token::Word(Word::Dense | Word::Bitmasked | Word::Pointer | Word::Hash | Word::Dynamic)
    )
}

/// How many nodes a layout has at most.
const MOST_NODES: usize = 6;

/// The product of the extents of the first nodes of a layout, so many of them.
pub(crate) fn slots_up_to(tokens: &[Spanned], item: &[Spanned], nodes: usize) -> u64 {
    let mut slots: u64 = 1;
    for number in 0..nodes {
        if number >= MOST_NODES {
            break;
        }
        if let Some(node) = part(item, number) {
            if is_node(node) {
                slots = slots.saturating_mul(node_slots(tokens, node));
            }
        }
    }
    slots
}

/// The number behind a word in a node, and the place of both.
pub(crate) fn sized(tokens: &[Spanned], node: &[Spanned], word: Word) -> Option<(u64, Place)> {
    let mut rest = node;
    while let [first, more @ ..] = rest {
        if ends_part(&first.token) {
            return None;
        }
        if let [size, ..] = more {
            if is_word(&first.token, word) {
                let place = Place {
                    from: first.start,
                    to: size.end,
                };
                return Some((size_value(tokens, &size.token), place));
            }
        }
        rest = more;
    }
    None
}

/// The most containers or chunks of a node that can be needed, where the nodes up to it have so many slots, and those above it so many.
pub(crate) fn most_needed(tokens: &[Spanned], node: &[Spanned], above: u64) -> u64 {
    let own = node_slots(tokens, node);
    match sized(tokens, node, Word::Chunk) {
        Some((chunk, _)) if chunk > 0 => {
            above.saturating_mul((own / chunk).saturating_add(u64::from(own % chunk != 0)))
        }
        _ => above.saturating_mul(own),
    }
}

/// A cap that can't be reached: its place, and the most that can be needed.
#[derive(Clone, Copy)]
pub struct WideCap {
    pub place: Place,
    pub most: u64,
}

/// The cap of a node of a layout, from 0, where it can't be reached.
fn wide_cap(tokens: &[Spanned], item: &[Spanned], number: usize) -> Option<WideCap> {
    let node = part(item, number)?;
    if !is_node(node) {
        return None;
    }
    let most = most_needed(tokens, node, slots_up_to(tokens, item, number));
    match sized(tokens, node, Word::Cap) {
        Some((cap, place)) if cap > most => Some(WideCap { place, most }),
        _ => None,
    }
}

/// The first cap of a layout's nodes from a number on that can't be reached, and the number behind its node.
pub(crate) fn next_wide_cap(
    tokens: &[Spanned],
    item: &[Spanned],
    from: usize,
) -> Option<(WideCap, usize)> {
    for number in from..MOST_NODES {
        if let Some(found) = wide_cap(tokens, item, number) {
            return Some((found, number.saturating_add(1)));
        }
    }
    None
}

/// The item of the layout that declares the field of this name.
pub(crate) fn layout_of_field<'a>(tokens: &'a [Spanned], field: &Name) -> Option<&'a [Spanned]> {
    let mut rest = tokens;
    while !rest.is_empty() {
        let (item, behind) = next_item(rest);
        if declares_field(item, field) {
            return Some(item);
        }
        rest = behind;
    }
    None
}

/// Whether an item declares a field of this name.
fn declares_field(item: &[Spanned], field: &Name) -> bool {
    let mut rest = item;
    while let [word, more @ ..] = rest {
        if let [named, ..] = more {
            if is_word(&word.token, Word::Field) && is_name(&named.token, field) {
                return true;
            }
        }
        rest = more;
    }
    false
}

/// How many axes a layout has: its names up to the first `{`.
pub(crate) fn axes_of(item: &[Spanned]) -> usize {
    let mut names: usize = 0;
    let mut rest = item;
    while let [first, more @ ..] = rest {
        match first.token {
            Token::Sign(Sign::OpenBrace) => break,
            Token::Name(_) => names = names.saturating_add(1),
            _ => {}
        }
        rest = more;
    }
    names.saturating_sub(1)
}

/// The bytes of the head of a layout's node, from 1.
pub(crate) fn node_place(item: &[Spanned], node: u32) -> Option<Place> {
    head_place(part(item, (node as usize).checked_sub(1)?)?)
}
