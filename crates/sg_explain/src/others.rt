//! Where refusals are that are neither of syntax nor of a kernel.

use crate::commands::broken_command;
use crate::cuts::{front_tokens, tokens_behind};
use crate::items::next_item;
use crate::kinds::{is_name, is_sign, is_word};
use crate::limits::{count_place, image_place, times_place};
use crate::names::{Unknown, place_of, unknown_name};
use crate::place::Place;
use crate::sizes::node_place;
use sg_ast::{Name, Sign, Spanned, Token, Word};
use sg_layout::LayoutFault;
use sg_names::NameFault;
use sg_session::Refusal;

/// The item of a number, from 1, and the tokens above it.
pub(crate) fn item_at(tokens: &[Spanned], number: u32) -> Option<(&[Spanned], &[Spanned])> {
    let mut left = number;
    let mut above: usize = 0;
    let mut rest = tokens;
    while !rest.is_empty() {
        let (item, behind) = next_item(rest);
        if left <= 1 {
            return Some((front_tokens(tokens, above), item));
        }
        left -= 1;
        above = above.saturating_add(item.len());
        rest = behind;
    }
    None
}

/// The item of the layout of a number, from 0.
fn layout_item(tokens: &[Spanned], layout: u32) -> Option<&[Spanned]> {
    let mut left = layout;
    let mut rest = tokens;
    while !rest.is_empty() {
        let (item, behind) = next_item(rest);
        if let [first, ..] = item {
            if is_word(&first.token, Word::Layout) {
                if left == 0 {
                    return Some(item);
                }
                left -= 1;
            }
        }
        rest = behind;
    }
    None
}

/// The first two tokens of an item, so a layout's word and name.
fn front_place(item: &[Spanned]) -> Option<Place> {
    let [first, second, ..] = item else {
        return None;
    };
    Some(Place {
        from: first.start,
        to: second.end,
    })
}

/// The word and the name of the layout of a number, from 0.
pub(crate) fn layout_front(tokens: &[Spanned], layout: u32) -> Option<Place> {
    front_place(layout_item(tokens, layout)?)
}

/// Where a fault of a layout is.
fn layout_place(item: &[Spanned], fault: LayoutFault) -> Option<Place> {
    match fault {
        LayoutFault::BadExtent { node } => node_place(item, node),
        LayoutFault::BadOrder { node } => node_place(item, node),
        LayoutFault::BadAxis { node } => node_place(item, node),
        LayoutFault::TooLarge => front_place(item),
        LayoutFault::BadCap { node } => node_place(item, node),
    }
}

/// A name that is declared a second time, and where it is declared first.
#[derive(Clone, Copy)]
pub(crate) struct Twice {
    pub first: Place,
    pub second: Place,
}

/// The first name of an item that is declared above it, or a second time in it.
fn twice_of(above: &[Spanned], item: &[Spanned]) -> Option<Twice> {
    let mut at: usize = 0;
    let mut rest = item;
    while let [word, more @ ..] = rest {
        at = at.saturating_add(1);
        if let [named, ..] = more {
            if declares(&word.token) {
                if let Some(found) = twice_named(above, front_tokens(item, at), named) {
                    return Some(found);
                }
            }
        }
        rest = more;
    }
    twice_axis(item)
}

/// Whether a token that is declared is a name that tokens above its item or before it declare.
fn twice_named(above: &[Spanned], front: &[Spanned], named: &Spanned) -> Option<Twice> {
    let Token::Name(name) = &named.token else {
        return None;
    };
    let first = match named_before(above, name) {
        Some(place) => Some(place),
        None => named_before(front, name),
    };
    Some(Twice {
        first: first?,
        second: place_of(named),
    })
}

/// Where tokens declare a name, whatever it is there.
fn named_before(tokens: &[Spanned], name: &Name) -> Option<Place> {
    let mut rest = tokens;
    while let [word, more @ ..] = rest {
        if let [named, ..] = more {
            if declares(&word.token) && is_name(&named.token, name) {
                return Some(place_of(named));
            }
        }
        rest = more;
    }
    None
}

/// The first axis of a layout that is named twice in its list.
fn twice_axis(item: &[Spanned]) -> Option<Twice> {
    let [_, _, list @ ..] = item else {
        return None;
    };
    let mut at: usize = 0;
    let mut rest = list;
    while let [named, more @ ..] = rest {
        if is_sign(&named.token, Sign::CloseParen) {
            return None;
        }
        if let Some(first) = same_name(front_tokens(list, at), named) {
            return Some(Twice {
                first,
                second: place_of(named),
            });
        }
        at = at.saturating_add(1);
        rest = more;
    }
    None
}

/// The first of tokens that is the same name as this one.
fn same_name(tokens: &[Spanned], named: &Spanned) -> Option<Place> {
    let Token::Name(name) = &named.token else {
        return None;
    };
    for found in tokens {
        if is_name(&found.token, name) {
            return Some(place_of(found));
        }
    }
    None
}

/// Whether the token behind this one is declared by it.
fn declares(token: &Token) -> bool {
    matches!(
        token,
        Token::Word(Word::Const | Word::Layout | Word::Field | Word::Kernel)
    )
}

/// What is unknown in the item of a number, from 1.
pub(crate) fn unknown_of(tokens: &[Spanned], item: u32) -> Option<Unknown> {
    let (above, here) = item_at(tokens, item)?;
    unknown_name(above, here, tokens_behind(tokens, above.len()))
}

/// Where the name is declared first that the item of a number, from 1, declares a second time.
pub(crate) fn first_of_twice(tokens: &[Spanned], item: u32) -> Option<Place> {
    let (above, here) = item_at(tokens, item)?;
    Some(twice_of(above, here)?.first)
}

/// Where a fault of names is.
fn name_place(tokens: &[Spanned], fault: NameFault) -> Option<Place> {
    match fault {
        NameFault::Unknown { item } => Some(unknown_of(tokens, item)?.place),
        NameFault::Twice { item } => {
            let (above, here) = item_at(tokens, item)?;
            Some(twice_of(above, here)?.second)
        }
        NameFault::TooMany { which } => count_place(tokens, which),
    }
}

/// The bytes of an item.
fn item_place(item: &[Spanned]) -> Option<Place> {
    let [first, ..] = item else {
        return None;
    };
    let [.., last] = item else {
        return None;
    };
    Some(Place {
        from: first.start,
        to: last.end,
    })
}

/// Where a refusal of names, of a layout or of a command is.
pub(crate) fn other_place(tokens: &[Spanned], refusal: Refusal) -> Option<Place> {
    match refusal {
        Refusal::Name(fault) => name_place(tokens, fault),
        Refusal::Layout { layout, fault } => layout_place(layout_item(tokens, layout)?, fault),
        Refusal::Command { item } => {
            let (_, here) = item_at(tokens, item)?;
            match broken_command(tokens, here) {
                Some(place) => Some(place),
                None => item_place(here),
            }
        }
        Refusal::Times => times_place(tokens),
        Refusal::Image => image_place(tokens),
        _ => None,
    }
}
