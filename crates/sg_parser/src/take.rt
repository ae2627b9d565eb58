//! What stands at the front of some tokens, and what follows it.

ghost use Rattle.std.specs.Prelude.{◌≡◌, option_map};
ghost use Rattle.sg_ast.specs.Token as spec;
ghost use Rattle.sg_parser.specs.Front as read;
ghost use Rattle.sg_ast.specs.Items.{kinds};
ghost use Rattle.sg_parser.specs.Front.{Gives};
ghost use Rattle.sg_parser.specs.ReadItem as numbers;

use crate::lists::Front;
use crate::names;
use sg_ast::{Name, Sign, Spanned, Token, Word};
use sg_words::{BinOp, Stop};
use std::alloc::Global;

/// The tokens at the front spell nothing of what was asked for.
#[derive(Clone, Copy)]
pub(crate) struct Unread;

/// What follows a sign.
pub(crate) fn after_sign(tokens: &[Spanned], sign: Sign) -> Option<&[Spanned]>
    ensures { option_map (λ rest. kinds rest.now) result ≡ read.after_sign sign (kinds tokens.now) }
{
    let [first, rest @ ..] = tokens else {
        return None;
    };
    match &first.token {
        Token::Sign(found) if *found == sign => Some(rest),
        _ => None,
    }
}

/// What follows a word.
pub(crate) fn after_word(tokens: &[Spanned], word: Word) -> Option<&[Spanned]>
    ensures { option_map (λ rest. kinds rest.now) result ≡ read.after_word word (kinds tokens.now) }
{
    let [first, rest @ ..] = tokens else {
        return None;
    };
    match &first.token {
        Token::Word(found) if *found == word => Some(rest),
        _ => None,
    }
}

/// A name, and what follows it.
pub(crate) fn next_name(
    alloc: Global,
    tokens: &[Spanned],
) -> Result<(Name, &[Spanned]), Stop<Unread>>
    ensures { Gives (λ next. (next.0, kinds next.1.now)) result (read.next_name (kinds tokens.now)) }
{
    let [first, rest @ ..] = tokens else {
        return Err(Stop::Refused(Unread));
    };
    match &first.token {
        Token::Name(name) if names::is_name(name) => Ok((name.copy(alloc)?, rest)),
        _ => Err(Stop::Refused(Unread)),
    }
}

/// The operator that a sign is between two operands.
fn infix_of(sign: Sign) -> Option<BinOp>
    ensures { result ≡ read.infix_of sign }
{
    match sign {
        Sign::Plus => Some(BinOp::Add),
        Sign::Minus => Some(BinOp::Sub),
        Sign::Star => Some(BinOp::Mul),
        Sign::Slash => Some(BinOp::Div),
        Sign::Percent => Some(BinOp::Rem),
        Sign::And => Some(BinOp::And),
        Sign::Or => Some(BinOp::Or),
        Sign::Caret => Some(BinOp::Xor),
        Sign::AndAnd => Some(BinOp::LAnd),
        Sign::OrOr => Some(BinOp::LOr),
        Sign::ShiftLeft => Some(BinOp::Shl),
        Sign::ShiftRight => Some(BinOp::Shr),
        Sign::EqualEqual => Some(BinOp::Eq),
        Sign::NotEqual => Some(BinOp::Ne),
        Sign::Less => Some(BinOp::Lt),
        Sign::LessEqual => Some(BinOp::Le),
        Sign::Greater => Some(BinOp::Gt),
        Sign::GreaterEqual => Some(BinOp::Ge),
        _ => None,
    }
}

/// An operator between two operands, and what follows it.
pub(crate) fn next_op(tokens: &[Spanned]) -> Option<(BinOp, &[Spanned])>
    ensures { option_map (λ next. (next.0, kinds next.1.now)) result ≡ read.next_op (kinds tokens.now) }
{
    let [first, rest @ ..] = tokens else {
        return None;
    };
    match &first.token {
        Token::Sign(sign) => match infix_of(*sign) {
            Some(op) => Some((op, rest)),
            None => None,
        },
        _ => None,
    }
}

/// The greatest number without `u`.
pub(crate) const MAX_SIGNED: u32 = 2_147_483_648;

/// The most axes of a layout or node, variables of a kernel, and ranges of its box.
pub(crate) const MOST_AXES: usize = 3;

/// Whether a number is within its limit, which is greater where a `u` stands after it.
pub(crate) fn is_number(value: u32, unsigned: bool) -> bool
    ensures { result ≡ spec.is_number value unsigned }
{
    unsigned || value <= MAX_SIGNED
}

/// A number, whether a `u` stands after it, and what follows.
pub(crate) fn next_number(tokens: &[Spanned]) -> Option<((u32, bool), &[Spanned])>
    ensures { option_map (λ x. (x.0, kinds x.1.now)) result ≡ numbers.next_number (kinds tokens.now) }
{
    let [first, rest @ ..] = tokens else {
        return None;
    };
    match &first.token {
        Token::Number { value, unsigned } if is_number(*value, *unsigned) => Some((
            (*value, *unsigned),
            rest,
        )),
        _ => None,
    }
}

/// A number without `u`, and what follows it.
pub(crate) fn next_plain(tokens: &[Spanned]) -> Option<(u32, &[Spanned])>
    ensures { option_map (λ x. (x.0, kinds x.1.now)) result ≡ numbers.next_plain (kinds tokens.now) }
{
    let [first, rest @ ..] = tokens else {
        return None;
    };
    match &first.token {
        Token::Number { value, unsigned } if !*unsigned && is_number(*value, false) => Some((
            *value, rest,
        )),
        _ => None,
    }
}

impl Front for Name {
    ghost reader = { read.next_name };

    fn read(alloc: Global, tokens: &[Spanned]) -> Result<(Name, &[Spanned]), Stop<Unread>> {
        next_name(alloc, tokens)
    }
}
