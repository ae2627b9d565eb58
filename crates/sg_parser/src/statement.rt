//! Statements and blocks.

ghost use Rattle.std.specs.Prelude.{◌≡◌, option_map};
ghost use Rattle.sg_ast.specs.declared.token.Sign.TheVariants as s;
ghost use Rattle.sg_ast.specs.Items.{kinds};
ghost use Rattle.sg_parser.specs.Front.{Gives, list_to_end};
ghost use Rattle.sg_parser.specs.Front as steps;
ghost use Rattle.sg_parser.specs.ReadExpr as expressions;
ghost use Rattle.sg_parser.specs.ReadStmt as read;

use crate::expression::{expr, read_indices};
use crate::names;
use crate::take::{Unread, after_sign, after_word, next_name};
use sg_ast::{Expr, Name, RangeDecl, Sign, Spanned, Stmt, Token, WayDecl, Word};
use sg_words::{AccOp, Items, Stop};
use std::alloc::Global;

/// How deep an expression may be.
const MAX_DEPTH: usize = 64;

/// How deep blocks may nest, that of a kernel's loop counted.
pub(crate) const MAX_NESTING: usize = 16;

/// An expression of the grammar.
fn read_expr(alloc: Global, tokens: &[Spanned]) -> Result<(Expr, &[Spanned]), Stop<Unread>>
    ensures { Gives (λ x. (x.0, kinds x.1.now)) result (expressions.read_expr (kinds tokens.now)) }
{
    let read = expr(alloc, MAX_DEPTH, 1, tokens)?;
    Ok((read.tree, read.rest))
}

/// `LO..HI`.
#[tactic(auto, unfolding(crate::specs::ReadStmt::read_range))]
pub(crate) fn read_range(
    alloc: Global,
    tokens: &[Spanned],
) -> Result<(RangeDecl, &[Spanned]), Stop<Unread>>
    ensures { Gives (λ x. (x.0, kinds x.1.now)) result (read.read_range (kinds tokens.now)) }
{
    let (lo, behind) = read_expr(alloc, tokens)?;
    let Some(dots) = after_sign(behind, Sign::DotDot) else {
        return Err(Stop::Refused(Unread));
    };
    let (hi, rest) = read_expr(alloc, dots)?;
    Ok((RangeDecl { lo, hi }, rest))
}

/// An expression and `;`.
#[tactic(auto, unfolding(crate::specs::ReadStmt::value_to_end))]
fn value_to_end(alloc: Global, tokens: &[Spanned]) -> Result<(Expr, &[Spanned]), Stop<Unread>>
    ensures { Gives (λ x. (x.0, kinds x.1.now)) result (read.value_to_end (kinds tokens.now)) }
{
    let (value, behind) = read_expr(alloc, tokens)?;
    let Some(rest) = after_sign(behind, Sign::Semicolon) else {
        return Err(Stop::Refused(Unread));
    };
    Ok((value, rest))
}

/// `= VALUE ;`.
#[tactic(auto, unfolding(crate::specs::ReadStmt::assigned_value))]
fn assigned_value(alloc: Global, tokens: &[Spanned]) -> Result<(Expr, &[Spanned]), Stop<Unread>>
    ensures { Gives (λ x. (x.0, kinds x.1.now)) result (read.assigned_value (kinds tokens.now)) }
{
    let Some(equal) = after_sign(tokens, Sign::Equal) else {
        return Err(Stop::Refused(Unread));
    };
    value_to_end(alloc, equal)
}

/// `=` after the word `min` or `max`, and what follows it.
fn behind_equal(how: WayDecl, tokens: &[Spanned]) -> Option<(WayDecl, &[Spanned])>
    ensures { option_map (λ x. (x.0, kinds x.1.now)) result ≡ read.behind_equal how (kinds tokens.now) }
{
    match after_sign(tokens, Sign::Equal) {
        Some(rest) => Some((how, rest)),
        None => None,
    }
}

/// How a write joins its value, and what follows it.
fn next_way(tokens: &[Spanned]) -> Option<(WayDecl, &[Spanned])>
    ensures { option_map (λ x. (x.0, kinds x.1.now)) result ≡ read.next_way (kinds tokens.now) }
{
    let [first, rest @ ..] = tokens else {
        return None;
    };
    match &first.token {
        Token::Sign(Sign::Equal) => Some((WayDecl::Own, rest)),
        Token::Sign(Sign::PlusEqual) => Some((WayDecl::Acc(AccOp::Add), rest)),
        Token::Word(Word::Min) => behind_equal(WayDecl::Acc(AccOp::Min), rest),
        Token::Word(Word::Max) => behind_equal(WayDecl::Acc(AccOp::Max), rest),
        Token::Sign(Sign::OrEqual) => Some((WayDecl::Acc(AccOp::Or), rest)),
        Token::Sign(Sign::AndEqual) => Some((WayDecl::Acc(AccOp::And), rest)),
        Token::Sign(Sign::CaretEqual) => Some((WayDecl::Acc(AccOp::Xor), rest)),
        _ => None,
    }
}

/// `let NAME = VALUE;`, after its word.
#[tactic(auto, unfolding(crate::specs::ReadStmt::read_let))]
fn read_let(alloc: Global, tokens: &[Spanned]) -> Result<(Stmt, &[Spanned]), Stop<Unread>>
    ensures { Gives (λ x. (x.0, kinds x.1.now)) result (read.read_let (kinds tokens.now)) }
{
    let (name, behind) = next_name(alloc, tokens)?;
    let (value, rest) = assigned_value(alloc, behind)?;
    Ok((Stmt::Let { name, value }, rest))
}

/// A write, after the `[` of its access.
#[tactic(auto, unfolding(crate::specs::ReadStmt::read_write))]
fn read_write(
    alloc: Global,
    field: Name,
    tokens: &[Spanned],
) -> Result<(Stmt, &[Spanned]), Stop<Unread>>
    ensures { Gives (λ x. (x.0, kinds x.1.now)) result (read.read_write field (kinds tokens.now)) }
{
    let index = read_indices(alloc, MAX_DEPTH, tokens)?;
    let Some((way, behind)) = next_way(index.rest) else {
        return Err(Stop::Refused(Unread));
    };
    let (value, rest) = value_to_end(alloc, behind)?;
    Ok((
        Stmt::Write {
            field,
            index: index.trees,
            way,
            value,
        },
        rest,
    ))
}

/// What a name begins: a write, or an assignment.
#[tactic(auto, unfolding(crate::specs::ReadStmt::assign_or_write))]
fn assign_or_write<'a>(
    alloc: Global,
    name: &Name,
    tokens: &'a [Spanned],
) -> Result<(Stmt, &'a [Spanned]), Stop<Unread>>
    ensures { Gives (λ x. (x.0, kinds x.1.now)) result (read.assign_or_write name.now (kinds tokens.now)) }
{
    if !names::is_name(name) {
        return Err(Stop::Refused(Unread));
    }
    let own = name.copy(alloc)?;
    let Some(behind) = after_sign(tokens, Sign::OpenBracket) else {
        let (value, rest) = assigned_value(alloc, tokens)?;
        return Ok((Stmt::Assign { name: own, value }, rest));
    };
    read_write(alloc, own, behind)
}

/// `NAME in LO..HI`, after the word `for`.
#[tactic(auto, unfolding(crate::specs::ReadStmt::for_head))]
fn for_head(
    alloc: Global,
    tokens: &[Spanned],
) -> Result<(Name, RangeDecl, &[Spanned]), Stop<Unread>>
    ensures { Gives (λ x. (x.0, x.1, kinds x.2.now)) result (read.for_head (kinds tokens.now)) }
{
    let (name, behind) = next_name(alloc, tokens)?;
    let Some(bounds) = after_word(behind, Word::In) else {
        return Err(Stop::Refused(Unread));
    };
    let (range, rest) = read_range(alloc, bounds)?;
    Ok((name, range, rest))
}

/// `if CONDITION BLOCK else BLOCK`, after its word.
#[cycle(blocks)]
#[tactic(auto, unfolding(crate::specs::ReadStmt::read_if))]
fn read_if(
    alloc: Global,
    inner: usize,
    tokens: &[Spanned],
) -> Result<(Stmt, &[Spanned]), Stop<Unread>>
    ensures { Gives (λ x. (x.0, kinds x.1.now)) result (read.read_if (read.block_at inner) (kinds tokens.now)) }
{
    let (cond, behind) = read_expr(alloc, tokens)?;
    let (yes, rest) = block(alloc, inner, behind)?;
    let Some(other) = after_word(rest, Word::Else) else {
        return Ok((
            Stmt::If {
                cond,
                yes,
                no: None,
            },
            rest,
        ));
    };
    let (no, end) = block(alloc, inner, other)?;
    Ok((
        Stmt::If {
            cond,
            yes,
            no: Some(no),
        },
        end,
    ))
}

/// `for NAME in LO..HI BLOCK`, after its word.
#[cycle(blocks)]
#[tactic(auto, unfolding(crate::specs::ReadStmt::read_for))]
fn read_for(
    alloc: Global,
    inner: usize,
    tokens: &[Spanned],
) -> Result<(Stmt, &[Spanned]), Stop<Unread>>
    ensures { Gives (λ x. (x.0, kinds x.1.now)) result (read.read_for (read.block_at inner) (kinds tokens.now)) }
{
    let (name, range, behind) = for_head(alloc, tokens)?;
    let (body, rest) = block(alloc, inner, behind)?;
    Ok((Stmt::For { name, range, body }, rest))
}

/// A statement.
#[cycle(blocks)]
#[tactic(auto, unfolding(crate::specs::ReadStmt::statement))]
fn statement(
    alloc: Global,
    inner: usize,
    tokens: &[Spanned],
) -> Result<(Stmt, &[Spanned]), Stop<Unread>>
    ensures { Gives (λ x. (x.0, kinds x.1.now)) result (read.statement (read.block_at inner) (kinds tokens.now)) }
{
    let [first, rest @ ..] = tokens else {
        return Err(Stop::Refused(Unread));
    };
    match &first.token {
        Token::Name(name) => assign_or_write(alloc, name, rest),
        Token::Word(Word::Let) => read_let(alloc, rest),
        Token::Word(Word::If) => read_if(alloc, inner, rest),
        Token::Word(Word::For) => read_for(alloc, inner, rest),
        _ => Err(Stop::Refused(Unread)),
    }
}

/// The statements of a block, after its `{`, up to its `}`.
#[cycle(blocks)]
#[tactic(auto, unfolding(crate::specs::Front::list_to_end_from))]
fn statements(
    alloc: Global,
    inner: usize,
    tokens: &[Spanned],
) -> Result<(Items<Stmt>, &[Spanned]), Stop<Unread>>
    ensures { Gives (λ x. (x.0, kinds x.1.now)) result
        (list_to_end (steps.after_sign s.CloseBrace) (read.statement (read.block_at inner)) (kinds tokens.now)) }
{
    let mut found = Items::new(alloc);
    let mut rest = tokens;
    for _turn in 0..tokens.len() {
        if let Some(end) = after_sign(rest, Sign::CloseBrace) {
            return Ok((found, end));
        }
        let (next, behind) = statement(alloc, inner, rest)?;
        found.push(next)?;
        rest = behind;
    }
    Err(Stop::Refused(Unread))
}

/// A block, where blocks nest at most so deep.
#[cycle(blocks)]
#[tactic(auto, unfolding(crate::specs::ReadStmt::block_at))]
pub(crate) fn block(
    alloc: Global,
    limit: usize,
    tokens: &[Spanned],
) -> Result<(Items<Stmt>, &[Spanned]), Stop<Unread>>
    ensures { Gives (λ x. (x.0, kinds x.1.now)) result (read.block_at limit (kinds tokens.now)) }
{
    if limit == 0 {
        return Err(Stop::Refused(Unread));
    }
    let Some(behind) = after_sign(tokens, Sign::OpenBrace) else {
        return Err(Stop::Refused(Unread));
    };
    statements(alloc, limit - 1, behind)
}
