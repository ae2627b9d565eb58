//! Commands, and the bounds of an image.

ghost use Rattle.std.specs.Prelude.{◌≡◌, option_map};
ghost use Rattle.sg_ast.specs.declared.token.Sign.TheVariants as s;
ghost use Rattle.sg_ast.specs.Items.{kinds};
ghost use Rattle.sg_parser.specs.Front.{Gives};
ghost use Rattle.sg_parser.specs.Front as steps;
ghost use Rattle.sg_parser.specs.ReadItem as read;

use crate::lists::{Front, Listed, list_to_end};
use crate::take::{MAX_SIGNED, Unread, after_sign, is_number, next_name, next_plain};
use sg_ast::{Command, Name, Sign, Spanned, Token, Word};
use sg_words::Stop;
use std::alloc::Global;

/// Whether a number of a bound has a `u` exactly when it is past the limit without one.
fn is_marked(unsigned: bool, value: u32) -> bool
    ensures { result ≡ read.has_right_suffix unsigned value }
{
    let is_large = MAX_SIGNED < value;
    if unsigned { is_large } else { !is_large }
}

/// The number of a bound, and what follows it.
fn next_magnitude(tokens: &[Spanned]) -> Option<(u32, &[Spanned])>
    ensures { option_map (λ x. (x.0, kinds x.1.now)) result ≡ read.next_magnitude (kinds tokens.now) }
{
    let [first, rest @ ..] = tokens else {
        return None;
    };
    match &first.token {
        Token::Number { value, unsigned }
            if is_marked(*unsigned, *value) && is_number(*value, true) => Some((*value, rest)),
        _ => None,
    }
}

/// A bound, and what follows it.
#[tactic(auto, unfolding(crate::specs::ReadItem::next_whole))]
fn next_whole(tokens: &[Spanned]) -> Option<(i64, &[Spanned])>
    ensures { option_map (λ x. (x.0, kinds x.1.now)) result ≡ read.next_whole (kinds tokens.now) }
{
    let Some(behind) = after_sign(tokens, Sign::Minus) else {
        let Some((number, rest)) = next_magnitude(tokens) else {
            return None;
        };
        return Some((i64::from(number), rest));
    };
    let Some((number, rest)) = next_magnitude(behind) else {
        return None;
    };
    if number == 0 {
        return None;
    }
    Some((-i64::from(number), rest))
}

/// A name and `;`.
#[tactic(auto, unfolding(crate::specs::ReadItem::read_named))]
fn read_named(alloc: Global, tokens: &[Spanned]) -> Result<(Name, &[Spanned]), Stop<Unread>>
    ensures { Gives (λ x. (x.0, kinds x.1.now)) result (read.read_named (kinds tokens.now)) }
{
    let (name, behind) = next_name(alloc, tokens)?;
    let Some(rest) = after_sign(behind, Sign::Semicolon) else {
        return Err(Stop::Refused(Unread));
    };
    Ok((name, rest))
}

/// `image NAME LO HI;`, after its word.
#[tactic(auto, unfolding(crate::specs::ReadItem::read_image))]
fn read_image(alloc: Global, tokens: &[Spanned]) -> Result<(Command, &[Spanned]), Stop<Unread>>
    ensures { Gives (λ x. (x.0, kinds x.1.now)) result (read.read_image (kinds tokens.now)) }
{
    let (field, start) = next_name(alloc, tokens)?;
    let Some((lo, behind)) = next_whole(start) else {
        return Err(Stop::Refused(Unread));
    };
    let Some((hi, end)) = next_whole(behind) else {
        return Err(Stop::Refused(Unread));
    };
    let Some(rest) = after_sign(end, Sign::Semicolon) else {
        return Err(Stop::Refused(Unread));
    };
    Ok((Command::Image { field, lo, hi }, rest))
}

/// A command that is no `times`, after its word.
pub(crate) fn word_simple(
    alloc: Global,
    word: Word,
    tokens: &[Spanned],
) -> Result<(Command, &[Spanned]), Stop<Unread>>
    ensures { Gives (λ x. (x.0, kinds x.1.now)) result (read.word_simple word (kinds tokens.now)) }
{
    match word {
        Word::Load => {
            let (name, rest) = read_named(alloc, tokens)?;
            Ok((Command::Load(name), rest))
        }
        Word::Run => {
            let (name, rest) = read_named(alloc, tokens)?;
            Ok((Command::Run(name), rest))
        }
        Word::Dump => {
            let (name, rest) = read_named(alloc, tokens)?;
            Ok((Command::Dump(name), rest))
        }
        Word::Image => read_image(alloc, tokens),
        Word::Stats => {
            let (name, rest) = read_named(alloc, tokens)?;
            Ok((Command::Stats(name), rest))
        }
        Word::Prune => {
            let (name, rest) = read_named(alloc, tokens)?;
            Ok((Command::Prune(name), rest))
        }
        Word::Clear => {
            let (name, rest) = read_named(alloc, tokens)?;
            Ok((Command::Clear(name), rest))
        }
        _ => Err(Stop::Refused(Unread)),
    }
}

/// A command that is no `times`.
#[tactic(auto, unfolding(crate::specs::ReadItem::read_simple))]
fn read_simple(alloc: Global, tokens: &[Spanned]) -> Result<(Command, &[Spanned]), Stop<Unread>>
    ensures { Gives (λ x. (x.0, kinds x.1.now)) result (read.read_simple (kinds tokens.now)) }
{
    let [first, rest @ ..] = tokens else {
        return Err(Stop::Refused(Unread));
    };
    match &first.token {
        Token::Word(word) => word_simple(alloc, *word, rest),
        _ => Err(Stop::Refused(Unread)),
    }
}

impl Front for Command {
    ghost reader = { read.read_simple };

    fn read(alloc: Global, tokens: &[Spanned]) -> Result<(Command, &[Spanned]), Stop<Unread>> {
        read_simple(alloc, tokens)
    }
}

/// Commands in a `times` stand up to the `}` after them.
impl Listed for Command {
    ghost end = { steps.after_sign s.CloseBrace };

    fn end(tokens: &[Spanned]) -> Option<&[Spanned]> {
        after_sign(tokens, Sign::CloseBrace)
    }
}

/// `times NUMBER { COMMANDS }`, after its word.
#[tactic(auto, unfolding(crate::specs::ReadItem::read_times))]
pub(crate) fn read_times(
    alloc: Global,
    tokens: &[Spanned],
) -> Result<(Command, &[Spanned]), Stop<Unread>>
    ensures { Gives (λ x. (x.0, kinds x.1.now)) result (read.read_times (kinds tokens.now)) }
{
    let Some((number, behind)) = next_plain(tokens) else {
        return Err(Stop::Refused(Unread));
    };
    let Some(brace) = after_sign(behind, Sign::OpenBrace) else {
        return Err(Stop::Refused(Unread));
    };
    let (body, rest) = list_to_end(alloc, brace)?;
    if body.len() < 1 {
        return Err(Stop::Refused(Unread));
    }
    Ok((Command::Times { number, body }, rest))
}
