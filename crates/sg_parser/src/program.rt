//! Programs: the items of a file in turn.

ghost use Rattle.std.specs.Prelude.{◌≡◌, ◌≤◌, ◌<◌, length, drop, IfOk};
ghost use Rattle.sg_words.specs.Answers.{Answers};
ghost use Rattle.sg_ast.specs.Items.{kinds};
ghost use Rattle.sg_ast.specs.Limits.{most_tokens};
ghost use Rattle.sg_parser.specs.Front.{Gives};
ghost use Rattle.sg_parser.specs.Parsed.{program_of};
ghost use Rattle.sg_parser.specs.steps.Counted.{counted_item};

use crate::item::read_item;
use crate::take::Unread;
use sg_ast::{Item, Program, Spanned, Tokens};
use sg_words::{Items, Stop};
use std::alloc::Global;

/// Why tokens are no program: the first item, from 1, that spells none, and the line of its first token.
#[derive(Clone, Copy, Debug, PartialEq, Eq)]
pub enum ParseFault {
    Syntax { item: u32, line: u32 },
}

/// The item at the front, and how many tokens it has.
fn front_item(alloc: Global, tokens: &[Spanned]) -> Result<(Item, usize), Stop<Unread>>
    ensures value { Gives (λ x. x) result (counted_item (kinds tokens.now)) }
    ensures some { IfOk result (λ x. 0 < x.1) }
    ensures within { IfOk result (λ x. x.1 ≤ length tokens.now) }
{
    let (item, rest) = read_item(alloc, tokens)?;
    Ok((item, tokens.len() - rest.len()))
}

/// What stands after so many tokens.
fn behind(tokens: &[Spanned], taken: usize) -> &[Spanned]
    requires { taken ≤ length tokens.now }
    ensures { result.now ≡ drop taken tokens.now }
{
    &tokens[taken..]
}

/// The program that the tokens of a file spell.
///
/// # Errors
///
/// `Syntax` where an item spells none: the first such item. `Stop::Memory` where memory runs out.
pub fn parse(alloc: Global, tokens: &Tokens) -> Result<Program, Stop<ParseFault>>
    requires { length tokens.now.list ≤ most_tokens }
    ensures { Answers result (program_of tokens.now.list) }
{
    let mut items = Items::new(alloc);
    let mut lines = Items::new(alloc);
    let mut number: u32 = 1;
    let mut rest = tokens.list.as_slice();
    while let [first, ..] = rest {
        let line = first.line;
        match front_item(alloc, rest) {
            Ok((item, taken)) => {
                items.push(item)?;
                lines.push(line)?;
                number += 1;
                rest = behind(rest, taken);
            }
            Err(Stop::Memory) => return Err(Stop::Memory),
            Err(Stop::Refused(_)) => return Err(Stop::Refused(ParseFault::Syntax {
                item: number,
                line,
            })),
        }
    }
    Ok(Program { items, lines })
}
