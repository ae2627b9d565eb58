//! Kernels: their variables and what they go over.

ghost use Rattle.std.specs.Prelude.{◌≡◌};
ghost use Rattle.sg_ast.specs.Items.{kinds};
ghost use Rattle.sg_parser.specs.Front.{Gives};
ghost use Rattle.sg_parser.specs.ReadStmt as statements;
ghost use Rattle.sg_parser.specs.ReadItem as read;

use crate::lists::{Front, comma_list};
use crate::statement::{MAX_NESTING, block, read_range};
use crate::take::{MOST_AXES, Unread, after_sign, after_word, next_name};
use sg_ast::{DomainDecl, Item, KernelDecl, Name, RangeDecl, Sign, Spanned, Stmt, Word};
use sg_words::{Items, Stop};
use std::alloc::Global;

/// A name after which a block begins, and what follows it.
fn lone_name(alloc: Global, tokens: &[Spanned]) -> Result<(Name, &[Spanned]), Stop<Unread>>
    ensures { Gives (λ x. (x.0, kinds x.1.now)) result (read.lone_name (kinds tokens.now)) }
{
    let (name, rest) = next_name(alloc, tokens)?;
    match after_sign(rest, Sign::OpenBrace) {
        Some(_brace) => Ok((name, rest)),
        None => Err(Stop::Refused(Unread)),
    }
}

impl Front for RangeDecl {
    ghost reader = { statements.read_range };

    fn read(alloc: Global, tokens: &[Spanned]) -> Result<(RangeDecl, &[Spanned]), Stop<Unread>> {
        read_range(alloc, tokens)
    }
}

/// What a kernel goes over.
#[tactic(auto, unfolding(crate::specs::ReadItem::read_domain))]
fn read_domain(alloc: Global, tokens: &[Spanned]) -> Result<(DomainDecl, &[Spanned]), Stop<Unread>>
    ensures { Gives (λ x. (x.0, kinds x.1.now)) result (read.read_domain (kinds tokens.now)) }
{
    match lone_name(alloc, tokens) {
        Ok((name, rest)) => Ok((DomainDecl::Layout(name), rest)),
        Err(Stop::Memory) => Err(Stop::Memory),
        Err(Stop::Refused(_)) => {
            let (ranges, rest) = comma_list(alloc, tokens)?;
            if ranges.len() > MOST_AXES {
                return Err(Stop::Refused(Unread));
            }
            Ok((DomainDecl::Ranges(ranges), rest))
        }
    }
}

/// `NAME { for VARIABLES in`, after the word `kernel`.
#[tactic(auto, unfolding(crate::specs::ReadItem::kernel_head))]
fn kernel_head(
    alloc: Global,
    tokens: &[Spanned],
) -> Result<(Name, Items<Name>, &[Spanned]), Stop<Unread>>
    ensures { Gives (λ x. (x.0, x.1, kinds x.2.now)) result (read.kernel_head (kinds tokens.now)) }
{
    let (name, start) = next_name(alloc, tokens)?;
    let Some(brace) = after_sign(start, Sign::OpenBrace) else {
        return Err(Stop::Refused(Unread));
    };
    let Some(behind) = after_word(brace, Word::For) else {
        return Err(Stop::Refused(Unread));
    };
    let (vars, end) = comma_list(alloc, behind)?;
    let Some(rest) = after_word(end, Word::In) else {
        return Err(Stop::Refused(Unread));
    };
    Ok((name, vars, rest))
}

/// `DOMAIN BLOCK }`.
#[tactic(auto, unfolding(crate::specs::ReadItem::kernel_loop))]
fn kernel_loop(
    alloc: Global,
    tokens: &[Spanned],
) -> Result<(DomainDecl, Items<Stmt>, &[Spanned]), Stop<Unread>>
    ensures { Gives (λ x. (x.0, x.1, kinds x.2.now)) result (read.kernel_loop (kinds tokens.now)) }
{
    let (domain, behind) = read_domain(alloc, tokens)?;
    let (body, end) = block(alloc, MAX_NESTING, behind)?;
    let Some(rest) = after_sign(end, Sign::CloseBrace) else {
        return Err(Stop::Refused(Unread));
    };
    Ok((domain, body, rest))
}

/// `kernel NAME { for VARIABLES in DOMAIN BLOCK }`, after its word.
#[tactic(auto, unfolding(crate::specs::ReadItem::read_kernel))]
pub(crate) fn read_kernel(
    alloc: Global,
    tokens: &[Spanned],
) -> Result<(Item, &[Spanned]), Stop<Unread>>
    ensures { Gives (λ x. (x.0, kinds x.1.now)) result (read.read_kernel (kinds tokens.now)) }
{
    let (name, vars, behind) = kernel_head(alloc, tokens)?;
    let (domain, body, rest) = kernel_loop(alloc, behind)?;
    if vars.len() > MOST_AXES {
        return Err(Stop::Refused(Unread));
    }
    let kernel = KernelDecl {
        name,
        vars,
        domain,
        body,
    };
    Ok((Item::Kernel(kernel), rest))
}
