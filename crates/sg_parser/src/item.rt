//! Items: constants, layouts, kernels and commands.

ghost use Rattle.std.specs.Prelude.{◌≡◌, option_map};
ghost use Rattle.sg_ast.specs.Items.{kinds};
ghost use Rattle.sg_parser.specs.Front.{Gives};
ghost use Rattle.sg_parser.specs.ReadItem as read;

use crate::command::{read_times, word_simple};
use crate::kernel::read_kernel;
use crate::layout::read_layout;
use crate::take::{Unread, after_sign, next_name, next_number};
use sg_ast::{ConstDecl, Item, Name, Sign, Spanned, Token, Word};
use sg_words::Stop;
use std::alloc::Global;

/// The value of a constant, after its `-` if it has one.
fn read_const_value(name: Name, minus: bool, tokens: &[Spanned]) -> Option<(Item, &[Spanned])>
    ensures { option_map (λ x. (x.0, kinds x.1.now)) result ≡ read.read_const_value name minus (kinds tokens.now) }
{
    let Some(((value, unsigned), behind)) = next_number(tokens) else {
        return None;
    };
    let Some(rest) = after_sign(behind, Sign::Semicolon) else {
        return None;
    };
    let decl = ConstDecl {
        name,
        minus,
        value,
        unsigned,
    };
    Some((Item::Const(decl), rest))
}

/// `const NAME = -NUMBER;`, after its word.
#[tactic(auto, unfolding(crate::specs::ReadItem::read_const))]
fn read_const(alloc: Global, tokens: &[Spanned]) -> Result<(Item, &[Spanned]), Stop<Unread>>
    ensures { Gives (λ x. (x.0, kinds x.1.now)) result (read.read_const (kinds tokens.now)) }
{
    let (name, behind) = next_name(alloc, tokens)?;
    let Some(equal) = after_sign(behind, Sign::Equal) else {
        return Err(Stop::Refused(Unread));
    };
    match after_sign(equal, Sign::Minus) {
        Some(minus) => match read_const_value(name, true, minus) {
            Some(read) => Ok(read),
            None => Err(Stop::Refused(Unread)),
        },
        None => match read_const_value(name, false, equal) {
            Some(read) => Ok(read),
            None => Err(Stop::Refused(Unread)),
        },
    }
}

/// An item, after its first word.
fn word_item(
    alloc: Global,
    word: Word,
    tokens: &[Spanned],
) -> Result<(Item, &[Spanned]), Stop<Unread>>
    ensures { Gives (λ x. (x.0, kinds x.1.now)) result (read.word_item word (kinds tokens.now)) }
{
    match word {
        Word::Const => read_const(alloc, tokens),
        Word::Layout => read_layout(alloc, tokens),
        Word::Kernel => read_kernel(alloc, tokens),
        Word::Times => {
            let (command, rest) = read_times(alloc, tokens)?;
            Ok((Item::Command(command), rest))
        }
        _ => {
            let (command, rest) = word_simple(alloc, word, tokens)?;
            Ok((Item::Command(command), rest))
        }
    }
}

/// An item at the front.
#[tactic(auto, unfolding(crate::specs::ReadItem::read_item))]
pub(crate) fn read_item(
    alloc: Global,
    tokens: &[Spanned],
) -> Result<(Item, &[Spanned]), Stop<Unread>>
    ensures { Gives (λ x. (x.0, kinds x.1.now)) result (read.read_item (kinds tokens.now)) }
{
    let [first, rest @ ..] = tokens else {
        return Err(Stop::Refused(Unread));
    };
    match &first.token {
        Token::Word(word) => word_item(alloc, *word, rest),
        _ => Err(Stop::Refused(Unread)),
    }
}
