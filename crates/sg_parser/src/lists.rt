//! Lists of what is read from the front of tokens.

ghost use Rattle.std.specs.Prelude.{◌≡◌, List, Option, option_map};
ghost use Rattle.sg_ast.specs.declared.token.Token.{Token};
ghost use Rattle.sg_ast.specs.Items.{kinds};
ghost use Rattle.sg_parser.specs.Front.{Gives, comma_list, list_to_end};

use crate::take::{Unread, after_sign};
use sg_ast::{Sign, Spanned};
use sg_words::{Items, Stop};
use std::alloc::Global;

/// What is read from the front of tokens.
pub(crate) trait Front: Sized {
    ghost reader: { List Token → Option (Self × List Token) };

    /// What stands at the front, and what follows it.
    fn read(alloc: Global, tokens: &[Spanned]) -> Result<(Self, &[Spanned]), Stop<Unread>>
        ensures { Gives (λ x. (x.0, kinds x.1.now)) result (reader (kinds tokens.now)) };
}

/// What stands in lists up to an end.
pub(crate) trait Listed: Front {
    ghost end: { List Token → Option (List Token) };

    /// What follows the end, where it stands at the front.
    fn end(tokens: &[Spanned]) -> Option<&[Spanned]>
        ensures { option_map (λ rest. kinds rest.now) result ≡ end (kinds tokens.now) };
}

/// One or more, with a comma between each two.
#[tactic(auto, unfolding(crate::specs::Front::comma_list_from))]
pub(crate) fn comma_list<T: Front + Drop>(
    alloc: Global,
    tokens: &[Spanned],
) -> Result<(Items<T>, &[Spanned]), Stop<Unread>>
    ensures { Gives (λ x. (x.0, kinds x.1.now)) result (comma_list T.reader (kinds tokens.now)) }
{
    let mut found = Items::new(alloc);
    let mut rest = tokens;
    for _turn in 0..tokens.len() {
        let (next, end) = T::read(alloc, rest)?;
        found.push(next)?;
        rest = end;
        let Some(behind) = after_sign(rest, Sign::Comma) else {
            return Ok((found, rest));
        };
        rest = behind;
    }
    Err(Stop::Refused(Unread))
}

/// Any number, up to their end.
#[tactic(auto, unfolding(crate::specs::Front::list_to_end_from))]
pub(crate) fn list_to_end<T: Listed + Drop>(
    alloc: Global,
    tokens: &[Spanned],
) -> Result<(Items<T>, &[Spanned]), Stop<Unread>>
    ensures { Gives (λ x. (x.0, kinds x.1.now)) result (list_to_end T.end T.reader (kinds tokens.now)) }
{
    let mut found = Items::new(alloc);
    let mut rest = tokens;
    for _turn in 0..tokens.len() {
        if let Some(end) = T::end(rest) {
            return Ok((found, end));
        }
        let (next, behind) = T::read(alloc, rest)?;
        found.push(next)?;
        rest = behind;
    }
    Err(Stop::Refused(Unread))
}
