//! Tokens with which a file may end where reading it stops.

use crate::want::Want;
use sg_ast::{Name, Sign, Spanned, Token, Word};
use sg_words::{Items, Memory};
use std::alloc::Global;

/// Adds a token without a place.
fn push_token(list: &mut Items<Spanned>, token: Token) -> Result<(), Memory> {
    list.push(Spanned {
        token,
        start: 0,
        end: 0,
        line: 1,
    })?;
    Ok(())
}

/// Adds the name `x`.
fn push_name(alloc: Global, list: &mut Items<Spanned>) -> Result<(), Memory> {
    let text = Items::from_slice(alloc, b"x")?;
    push_token(list, Token::Name(Name { text }))
}

/// Adds a sign, a word, or the number 1.
fn push_sign(list: &mut Items<Spanned>, sign: Sign) -> Result<(), Memory> {
    push_token(list, Token::Sign(sign))
}

fn push_word(list: &mut Items<Spanned>, word: Word) -> Result<(), Memory> {
    push_token(list, Token::Word(word))
}

fn push_one(list: &mut Items<Spanned>) -> Result<(), Memory> {
    push_token(
        list,
        Token::Number {
            value: 1,
            unsigned: false,
        },
    )
}

/// Adds `( x : 1 )`.
fn push_sizes(alloc: Global, list: &mut Items<Spanned>) -> Result<(), Memory> {
    push_sign(list, Sign::OpenParen)?;
    push_name(alloc, list)?;
    push_sign(list, Sign::Colon)?;
    push_one(list)?;
    push_sign(list, Sign::CloseParen)
}

/// Adds `, 1` so many times.
fn push_arguments(list: &mut Items<Spanned>, left: u8) -> Result<(), Memory> {
    for _turn in 0..left {
        push_sign(list, Sign::Comma)?;
        push_one(list)?;
    }
    Ok(())
}

/// Adds tokens of a layout or of a `times` with which what is wanted ends.
fn push_parts(alloc: Global, list: &mut Items<Spanned>, want: Want) -> Result<(), Memory> {
    match want {
        Want::Commands { one: true } => {
            push_word(list, Word::Run)?;
            push_name(alloc, list)?;
            push_sign(list, Sign::Semicolon)?;
            push_sign(list, Sign::CloseBrace)
        }
        Want::Nodes { most: 6 } => {
            push_word(list, Word::Dense)?;
            push_sizes(alloc, list)?;
            push_sign(list, Sign::Semicolon)
        }
        Want::Fields { one: true } => {
            push_word(list, Word::Field)?;
            push_name(alloc, list)?;
            push_sign(list, Sign::Colon)?;
            push_word(list, Word::I32)?;
            push_sign(list, Sign::Semicolon)?;
            push_sign(list, Sign::CloseBrace)
        }
        Want::Range => {
            push_one(list)?;
            push_sign(list, Sign::DotDot)?;
            push_one(list)
        }
        Want::Block => {
            push_sign(list, Sign::OpenBrace)?;
            push_sign(list, Sign::CloseBrace)
        }
        _ => Ok(()),
    }
}

/// Adds tokens with which what is wanted ends.
fn push_ending(alloc: Global, list: &mut Items<Spanned>, want: Want) -> Result<(), Memory> {
    match want {
        Want::Sign(sign) => push_sign(list, sign),
        Want::Word(word) => push_word(list, word),
        Want::Name | Want::Domain => push_name(alloc, list),
        Want::Number | Want::Bound { negative: _ } => push_one(list),
        Want::Plain | Want::Size | Want::Expr | Want::Operand => push_one(list),
        Want::FieldType => push_word(list, Word::I32),
        Want::Commands { one: false } | Want::Fields { one: false } | Want::Statements => {
            push_sign(list, Sign::CloseBrace)
        }
        Want::Written | Want::Way => push_sign(list, Sign::Equal),
        Want::MoreIndices => push_sign(list, Sign::CloseBracket),
        Want::MoreArguments { left } => push_arguments(list, left),
        Want::Sizes => push_sizes(alloc, list),
        _ => push_parts(alloc, list, want),
    }
}

/// Tokens without places with which all that is wanted ends, the last first.
pub(crate) fn endings(alloc: Global, wants: &[Want]) -> Result<Items<Spanned>, Memory> {
    let mut list = Items::new(alloc);
    for want in wants.iter().rev() {
        push_ending(alloc, &mut list, *want)?;
    }
    Ok(list)
}
