//! Tests of single tokens.

use sg_ast::{Name, Sign, Token, Word};

/// Whether a token is this reserved word.
pub(crate) fn is_word(token: &Token, word: Word) -> bool {
    match token {
        Token::Word(found) => *found == word,
        _ => false,
    }
}

/// Whether a token is this sign.
pub(crate) fn is_sign(token: &Token, sign: Sign) -> bool {
    match token {
        Token::Sign(found) => *found == sign,
        _ => false,
    }
}

/// Whether a token is this name.
pub(crate) fn is_name(token: &Token, name: &Name) -> bool {
    match token {
        Token::Name(found) => found.is(name),
        _ => false,
    }
}

/// Whether a token is a word with which an item begins that isn't a command.
pub(crate) fn begins_item(token: &Token) -> bool {
    matches!(
        token,
        Token::Word(Word::Const | Word::Layout | Word::Kernel)
    )
}

/// Whether a token is a word with which a command begins.
pub(crate) fn begins_command(token: &Token) -> bool {
    matches!(
        token,
        Token::Word(
            Word::Load
                | Word::Run
                | Word::Times
                | Word::Dump
                | Word::Image
                | Word::Stats
                | Word::Prune
                | Word::Clear
        )
    )
}

/// Whether a token is a node's word.
pub(crate) fn begins_node(token: &Token) -> bool {
    matches!(
        token,
        Token::Word(Word::Dense | Word::Bitmasked | Word::Pointer | Word::Hash | Word::Dynamic)
    )
}

/// Whether a token compares.
pub(crate) fn compares(token: &Token) -> bool {
    matches!(
        token,
        Token::Sign(
            Sign::EqualEqual
                | Sign::NotEqual
                | Sign::Less
                | Sign::LessEqual
                | Sign::Greater
                | Sign::GreaterEqual
        )
    )
}

/// Whether a token is an operator between two numbers.
pub(crate) fn computes(token: &Token) -> bool {
    matches!(
        token,
        Token::Sign(
            Sign::Plus
                | Sign::Minus
                | Sign::Star
                | Sign::Slash
                | Sign::Percent
                | Sign::And
                | Sign::Or
                | Sign::Caret
                | Sign::ShiftLeft
                | Sign::ShiftRight
        )
    )
}

/// Whether a token is the sign of a contribution.
pub(crate) fn contributes(token: &Token) -> bool {
    matches!(
        token,
        Token::Sign(Sign::PlusEqual | Sign::OrEqual | Sign::AndEqual | Sign::CaretEqual)
    )
}

/// Whether there is a token, and it is this sign.
pub(crate) fn is_some_sign(token: Option<&Token>, sign: Sign) -> bool {
    match token {
        Some(found) => is_sign(found, sign),
        None => false,
    }
}
