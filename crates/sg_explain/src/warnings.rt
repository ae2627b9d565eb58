//! What a file that keeps all rules may lack: each a mistake of most who write it.

use crate::cuts::tokens_behind;
use crate::kinds::{is_name, is_sign, is_word};
use crate::names::place_of;
use crate::place::Place;
use sg_ast::{Name, Sign, Spanned, Token, Word};

/// A warning, and the name that it is about.
#[derive(Clone, Copy, Debug, PartialEq, Eq)]
pub struct Warning {
    pub what: What,
    pub place: Place,
}

/// What may be a mistake: a kernel that no command runs, a field that no kernel writes and no command loads, or one that nothing reads and
/// no command shows.
#[derive(Clone, Copy, Debug, PartialEq, Eq)]
pub enum What {
    NeverRun,
    NeverWritten,
    NeverShown,
}

/// Whether a command of this word names it.
fn is_commanded(tokens: &[Spanned], word: Word, name: &Name) -> bool {
    let mut rest = tokens;
    while let [first, more @ ..] = rest {
        if let [second, ..] = more {
            if is_word(&first.token, word) && is_name(&second.token, name) {
                return true;
            }
        }
        rest = more;
    }
    false
}

/// Whether a statement begins with an access of the field: its name behind a `{`, `;` or `}`.
fn is_written(tokens: &[Spanned], name: &Name) -> bool {
    let mut rest = tokens;
    while let [first, more @ ..] = rest {
        let begins = matches!(
            first.token,
            Token::Sign(Sign::OpenBrace | Sign::CloseBrace | Sign::Semicolon)
        );
        if let [second, third, ..] = more {
            if begins && is_name(&second.token, name) && is_sign(&third.token, Sign::OpenBracket) {
                return true;
            }
        }
        rest = more;
    }
    false
}

/// Whether the field is read in some statement: its name before a `[`, and not at the front of a statement.
fn is_read(tokens: &[Spanned], name: &Name) -> bool {
    let mut rest = tokens;
    while let [first, more @ ..] = rest {
        let begins = matches!(
            first.token,
            Token::Sign(Sign::OpenBrace | Sign::CloseBrace | Sign::Semicolon)
        );
        if let [second, third, ..] = more {
            if !begins && is_name(&second.token, name) && is_sign(&third.token, Sign::OpenBracket) {
                return true;
            }
        }
        rest = more;
    }
    false
}

/// What is to be said of the name that a word declares.
fn warning_of(tokens: &[Spanned], word: Word, name: &Name) -> Option<What> {
    match word {
        Word::Kernel if !is_commanded(tokens, Word::Run, name) => Some(What::NeverRun),
        Word::Field if !is_written(tokens, name) && !is_commanded(tokens, Word::Load, name) => {
            Some(What::NeverWritten)
        }
        Word::Field
            if !is_read(tokens, name)
                && !is_commanded(tokens, Word::Dump, name)
                && !is_commanded(tokens, Word::Image, name) => { Some(What::NeverShown) }
        _ => None,
    }
}

/// The first warning of a file at a declaration from a token on, and how many tokens stand up to it, it counted.
pub fn next_warning(tokens: &[Spanned], from: usize) -> Option<(Warning, usize)> {
    let mut at = from;
    let mut rest = tokens_behind(tokens, from);
    while let [first, more @ ..] = rest {
        at = at.saturating_add(1);
        if let [second, ..] = more {
            if let (Token::Word(word), Token::Name(name)) = (&first.token, &second.token) {
                if let Some(what) = warning_of(tokens, *word, name) {
                    let warning = Warning {
                        what,
                        place: place_of(second),
                    };
                    return Some((warning, at));
                }
            }
        }
        rest = more;
    }
    None
}
