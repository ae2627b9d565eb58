//! The names that a statement may use, and the first in it that stands for nothing.

use crate::cuts::{front_tokens, tokens_behind};
use crate::items::{kernel_item, next_item};
use crate::kinds::{is_name, is_sign, is_word};
use crate::names::{Kind, Unknown, declaration, place_of};
use crate::nearest::Nearest;
use crate::parts::{ends_part, part};
use crate::place::Place;
use sg_ast::{Name, Sign, Spanned, Token, Word};

/// What is known on the way back from a statement over the tokens of its kernel: `closed` blocks are closed between, and where `opens` is
/// set the tokens are the head of a block round the statement, `listed` as long as they are the variables of its loop.
#[derive(Clone, Copy)]
struct Scope {
    closed: usize,
    opens: bool,
    listed: bool,
}

impl Scope {
    /// At the statement.
    fn new() -> Scope {
        Scope {
            closed: 0,
            opens: false,
            listed: false,
        }
    }

    /// Goes back over a token, and answers whether it is a name that is in scope at the statement. The tokens before it are given.
    fn declares(&mut self, before: &[Spanned], token: &Token) -> bool {
        match token {
            Token::Name(_) => {
                return self.listed || (self.closed == 0 && ends_with(before, Word::Let));
            }
            Token::Sign(Sign::CloseBrace) => {
                self.closed = self.closed.saturating_add(1);
                self.opens = false;
            }
            Token::Sign(Sign::OpenBrace) => {
                self.opens = self.closed == 0;
                self.closed = self.closed.saturating_sub(1);
            }
            Token::Sign(Sign::Semicolon) => self.opens = false,
            Token::Word(Word::In) => self.listed = self.opens,
            Token::Word(Word::For) => {
                self.listed = false;
                self.opens = false;
            }
            _ => {}
        }
        false
    }
}

/// Whether tokens end with a word.
fn ends_with(tokens: &[Spanned], word: Word) -> bool {
    match tokens {
        [.., last] => is_word(&last.token, word),
        _ => false,
    }
}

/// Whether a name is in scope behind tokens of a kernel.
fn is_local(front: &[Spanned], name: &Name) -> bool {
    let mut scope = Scope::new();
    let mut rest = front;
    while let [before @ .., last] = rest {
        if scope.declares(before, &last.token) && is_name(&last.token, name) {
            return true;
        }
        rest = before;
    }
    false
}

/// The nearest of the names in scope behind tokens of a kernel, where one is nearer than what was offered.
fn nearest_local(nearest: &mut Nearest, front: &[Spanned], text: &[u8]) -> Option<Place> {
    let mut place = None;
    let mut scope = Scope::new();
    let mut rest = front;
    while let [before @ .., last] = rest {
        if scope.declares(before, &last.token) && nearest.takes(text, &last.token) {
            place = Some(place_of(last));
        }
        rest = before;
    }
    place
}

/// Whether two tokens declare a constant of a name.
fn declares_constant(word: &Spanned, named: &Spanned) -> bool {
    is_word(&word.token, Word::Const) && matches!(named.token, Token::Name(_))
}

/// Whether tokens declare a constant of this name.
fn is_constant(tokens: &[Spanned], name: &Name) -> bool {
    let mut rest = tokens;
    while let [word, more @ ..] = rest {
        if let [named, ..] = more {
            if declares_constant(word, named) && is_name(&named.token, name) {
                return true;
            }
        }
        rest = more;
    }
    false
}

/// The nearest of the constants that tokens declare, where one is nearer than what was offered.
fn nearest_constant(nearest: &mut Nearest, tokens: &[Spanned], text: &[u8]) -> Option<Place> {
    let mut place = None;
    let mut rest = tokens;
    while let [word, more @ ..] = rest {
        if let [named, ..] = more {
            if declares_constant(word, named) && nearest.takes(text, &named.token) {
                place = Some(place_of(named));
            }
        }
        rest = more;
    }
    place
}

/// How many tokens of a statement's head declare: a variable and its word, a local and its word, or all of a loop up to `in`.
fn declared_len(head: &[Spanned], number: u32) -> usize {
    match head {
        [first, ..] if is_word(&first.token, Word::Let) => 2,
        [first, ..] if is_word(&first.token, Word::For) && number > 0 => 2,
        [first, ..] if is_word(&first.token, Word::For) => head
            .iter()
            .take_while(|spanned| !is_word(&spanned.token, Word::In))
            .count(),
        _ => 0,
    }
}

/// The tokens above a kernel, and its tokens up to a statement.
#[derive(Clone, Copy)]
struct Setting<'a> {
    above: &'a [Spanned],
    front: &'a [Spanned],
}

impl<'a> Setting<'a> {
    /// What is to be said of a plain name, where it stands for nothing.
    fn unknown(&self, spanned: &Spanned) -> Option<Unknown> {
        let Token::Name(name) = &spanned.token else {
            return None;
        };
        if is_local(self.front, name) || is_constant(self.above, name) {
            return None;
        }
        let other = match declaration(self.above, name) {
            Some(declared) => Some(declared.kind),
            None => None,
        };
        Some(Unknown {
            kind: Kind::Local,
            place: place_of(spanned),
            other,
            below: None,
            nearest: self.nearest(name.text.as_slice()),
        })
    }

    /// The nearest name that is in scope, or is a constant.
    fn nearest(&self, text: &[u8]) -> Option<Place> {
        let mut nearest = Nearest::new(text);
        let local = nearest_local(&mut nearest, self.front, text);
        match nearest_constant(&mut nearest, self.above, text) {
            Some(place) => Some(place),
            None => local,
        }
    }
}

/// The tokens up to the item that declares the kernel of this number, from 0.
fn above_kernel(tokens: &[Spanned], kernel: u32) -> &[Spanned] {
    let mut left = kernel;
    let mut above: usize = 0;
    let mut rest = tokens;
    while !rest.is_empty() {
        let (item, behind) = next_item(rest);
        if let [first, ..] = item {
            if is_word(&first.token, Word::Kernel) {
                if left == 0 {
                    break;
                }
                left -= 1;
            }
        }
        above = above.saturating_add(item.len());
        rest = behind;
    }
    front_tokens(tokens, above)
}

/// The first plain name in the head of a statement that is no local in scope, no variable of a loop round it and no constant.
pub fn unknown_local(tokens: &[Spanned], kernel: u32, number: u32) -> Option<Unknown> {
    let item = kernel_item(tokens, kernel as usize)?;
    let statement = part(item, number as usize)?;
    let setting = Setting {
        above: above_kernel(tokens, kernel),
        front: front_tokens(item, item.len().saturating_sub(statement.len())),
    };
    let mut rest = tokens_behind(statement, declared_len(statement, number));
    while let [first, more @ ..] = rest {
        if ends_part(&first.token) {
            break;
        }
        if !begins_index(more) {
            if let Some(unknown) = setting.unknown(first) {
                return Some(unknown);
            }
        }
        rest = more;
    }
    None
}

/// Whether tokens begin with the indices of an access.
fn begins_index(tokens: &[Spanned]) -> bool {
    match tokens {
        [first, ..] => is_sign(&first.token, Sign::OpenBracket),
        _ => false,
    }
}
