//! Names in the tokens of a file: what each use wants, and what is declared above.

use crate::kinds::is_name;
use crate::nearest::Nearest;
use crate::place::Place;
use sg_ast::{Name, Sign, Spanned, Token, Word};

/// What a name stands for where it is used.
#[derive(Clone, Copy, Debug, PartialEq, Eq)]
pub enum Kind {
    /// An i32 constant.
    Size,
    /// A u32 constant.
    Unsigned,
    Layout,
    Field,
    Kernel,
    /// A local, a variable of a loop, or a constant.
    Local,
}

/// The bytes of a token.
pub(crate) fn place_of(spanned: &Spanned) -> Place {
    Place {
        from: spanned.start,
        to: spanned.end,
    }
}

/// What a name wants to be in an item that begins with a word, by the tokens beside it; none where it declares something, or is one of
/// the item's own names.
fn wanted(item: Word, before: &Token, behind: &Token) -> Option<Kind> {
    match (item, before, behind) {
        (Word::Layout, Token::Sign(Sign::Colon), _) => Some(Kind::Size),
        (Word::Layout, Token::Word(Word::Cap), _) => Some(Kind::Size),
        (Word::Layout, Token::Word(Word::Chunk), _) => Some(Kind::Size),
        (Word::Kernel, _, Token::Sign(Sign::OpenBracket)) => Some(Kind::Field),
        (Word::Kernel, Token::Word(Word::In), Token::Sign(Sign::OpenBrace)) => Some(Kind::Layout),
        (_, Token::Word(Word::Load), _) => Some(Kind::Field),
        (_, Token::Word(Word::Dump), _) => Some(Kind::Field),
        (_, Token::Word(Word::Image), _) => Some(Kind::Field),
        (_, Token::Word(Word::Run), _) => Some(Kind::Kernel),
        (_, Token::Word(Word::Stats), _) => Some(Kind::Layout),
        (_, Token::Word(Word::Prune), _) => Some(Kind::Layout),
        (_, Token::Word(Word::Clear), _) => Some(Kind::Layout),
        _ => None,
    }
}

/// Whether a token is a number with a `u`.
fn is_unsigned(token: &Token) -> bool {
    match token {
        Token::Number { value: _, unsigned } => *unsigned,
        _ => false,
    }
}

/// Whether the constant whose tokens behind its name these are is a u32: `= NUMBER`, or `= - NUMBER`, with a `u` behind it.
fn has_unsigned(tokens: &[Spanned]) -> bool {
    match tokens {
        [_, first, second, ..] => is_unsigned(&first.token) || is_unsigned(&second.token),
        _ => false,
    }
}

/// What a name is declared as by the word before it, where the tokens behind it are given.
fn declared_by(before: &Token, behind: &[Spanned]) -> Option<Kind> {
    match before {
        Token::Word(Word::Const) if has_unsigned(behind) => Some(Kind::Unsigned),
        Token::Word(Word::Const) => Some(Kind::Size),
        Token::Word(Word::Layout) => Some(Kind::Layout),
        Token::Word(Word::Field) => Some(Kind::Field),
        Token::Word(Word::Kernel) => Some(Kind::Kernel),
        _ => None,
    }
}

/// A name that is declared in tokens, what it is, and its place.
#[derive(Clone, Copy)]
pub struct Declared {
    pub kind: Kind,
    pub place: Place,
}

/// What a name is declared as in tokens, where it is.
pub fn declaration(tokens: &[Spanned], name: &Name) -> Option<Declared> {
    let mut rest = tokens;
    while let [word, more @ ..] = rest {
        if let [named, behind @ ..] = more {
            if is_name(&named.token, name) {
                if let Some(kind) = declared_by(&word.token, behind) {
                    return Some(Declared {
                        kind,
                        place: place_of(named),
                    });
                }
            }
        }
        rest = more;
    }
    None
}

/// A name that stands for nothing, or for something else, where it is used.
#[derive(Clone, Copy)]
pub struct Unknown {
    pub kind: Kind,
    pub place: Place,
    /// What the name is declared as above, where it is.
    pub other: Option<Kind>,
    /// Where it is declared below as what is wanted.
    pub below: Option<Place>,
    /// The nearest name that is declared above as what is wanted.
    pub nearest: Option<Place>,
}

/// The nearest name of a kind that is declared in tokens.
fn nearest_of(tokens: &[Spanned], name: &Name, kind: Kind) -> Option<Place> {
    let text = name.text.as_slice();
    let mut nearest = Nearest::new(text);
    let mut place = None;
    let mut rest = tokens;
    while let [word, more @ ..] = rest {
        if let [named, behind @ ..] = more {
            let declared = declared_by(&word.token, behind);
            if declared == Some(kind) && nearest.takes(text, &named.token) {
                place = Some(place_of(named));
            }
        }
        rest = more;
    }
    place
}

/// The first name in an item that isn't declared above it as what the item wants. The tokens above the item are given, and all from its
/// first token on.
pub fn unknown_name(above: &[Spanned], item: &[Spanned], from_item: &[Spanned]) -> Option<Unknown> {
    let [first, ..] = item else {
        return None;
    };
    let Token::Word(word) = first.token else {
        return None;
    };
    let mut rest = item;
    while let [before, more @ ..] = rest {
        if let [named, behind, ..] = more {
            if let Some(kind) = wanted(word, &before.token, &behind.token) {
                if let Some(unknown) = unknown_at(above, kind, named) {
                    return Some(with_below(unknown, from_item, named));
                }
            }
        }
        rest = more;
    }
    None
}

/// What is unknown of a token that is to stand for something of a kind, where something is.
fn unknown_at(above: &[Spanned], kind: Kind, named: &Spanned) -> Option<Unknown> {
    let Token::Name(name) = &named.token else {
        return None;
    };
    let other = match declaration(above, name) {
        Some(declared) if declared.kind == kind => return None,
        Some(declared) => Some(declared.kind),
        None => None,
    };
    Some(Unknown {
        kind,
        place: place_of(named),
        other,
        below: None,
        nearest: nearest_of(above, name, kind),
    })
}

/// The same, with where the name is declared in tokens from its item on.
fn with_below(unknown: Unknown, from_item: &[Spanned], named: &Spanned) -> Unknown {
    let Token::Name(name) = &named.token else {
        return unknown;
    };
    match declaration(from_item, name) {
        Some(declared) if declared.kind == unknown.kind => Unknown {
            below: Some(declared.place),
            ..unknown
        },
        _ => unknown,
    }
}
