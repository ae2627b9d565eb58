//! Expressions, read by the levels of their operators.

ghost use Rattle.std.specs.Prelude.{◌≡◌, ◌+◌, ◌<◌, ◌≤◌, map, IfOk};
ghost use Rattle.sg_ast.specs.Expr as spell;
ghost use Rattle.sg_ast.specs.Items.{kinds};
ghost use Rattle.sg_ast.specs.Limits.{max_depth};
ghost use Rattle.sg_parser.specs.Front.{comma_list, Gives};
ghost use Rattle.sg_parser.specs.ReadExpr as read;

use crate::levels::{UN_LEVEL, arity, goes_on, joined, op_level};
use crate::names;
use crate::take::{Unread, after_sign, is_number, next_name, next_op};
use sg_ast::{Callee, Expr, Name, Sign, Spanned, Token, Word};
use sg_words::{Boxed, Items, Stop, UnOp};
use std::alloc::Global;

/// An expression with its depth, and the tokens after it.
#[derive(Drop)]
pub(crate) struct Reading<'a> {
    pub tree: Expr,
    pub depth: usize,
    pub rest: &'a [Spanned],
}

/// Expressions with the depth of the deepest, and the tokens after them.
#[derive(Drop)]
pub(crate) struct Readings<'a> {
    pub trees: Items<Expr>,
    pub depth: usize,
    pub rest: &'a [Spanned],
}

/// One expression or more, with a comma between each two.
#[cycle(reading)]
#[tactic(auto, unfolding(crate::specs::Front::comma_list_from))]
pub(crate) fn items(
    alloc: Global,
    inner: usize,
    tokens: &[Spanned],
) -> Result<Readings<'_>, Stop<Unread>>
    requires { inner ≤ max_depth }
    ensures value { Gives (λ x. (x.trees, kinds x.rest.now)) result
        (comma_list (read.expr_at inner 1) (kinds tokens.now)) }
    ensures depth { IfOk result (λ x. x.depth ≡ spell.largest (map spell.depth x.trees)) }
    ensures within { IfOk result (λ x. x.depth ≤ inner) }
{
    let mut trees = Items::new(alloc);
    let mut depth: usize = 0;
    let mut rest = tokens;
    for _turn in 0..tokens.len() {
        let next = expr(alloc, inner, 1, rest)?;
        trees.push(next.tree)?;
        depth = depth.max(next.depth);
        rest = next.rest;
        let Some(behind) = after_sign(rest, Sign::Comma) else {
            return Ok(Readings { trees, depth, rest });
        };
        rest = behind;
    }
    Err(Stop::Refused(Unread))
}

/// The indices of an access, after its `[`.
#[cycle(reading)]
#[tactic(auto, unfolding(crate::specs::ReadExpr::read_indices))]
pub(crate) fn read_indices(
    alloc: Global,
    inner: usize,
    tokens: &[Spanned],
) -> Result<Readings<'_>, Stop<Unread>>
    requires { inner ≤ max_depth }
    ensures value { Gives (λ x. (x.trees, kinds x.rest.now)) result
        (read.read_indices (read.expr_at inner) (kinds tokens.now)) }
    ensures depth { IfOk result (λ x. x.depth ≡ spell.largest (map spell.depth x.trees)) }
    ensures within { IfOk result (λ x. x.depth ≤ inner) }
{
    let index = items(alloc, inner, tokens)?;
    let Some(rest) = after_sign(index.rest, Sign::CloseBracket) else {
        return Err(Stop::Refused(Unread));
    };
    Ok(Readings {
        trees: index.trees,
        depth: index.depth,
        rest,
    })
}

/// What a name begins: a read, or the name alone.
#[cycle(reading)]
#[tactic(auto, unfolding(crate::specs::ReadExpr::read_name_expr))]
fn read_name_expr<'a>(
    alloc: Global,
    inner: usize,
    name: &Name,
    tokens: &'a [Spanned],
) -> Result<Reading<'a>, Stop<Unread>>
    requires { inner < max_depth }
    ensures value { Gives (λ x. (x.tree, kinds x.rest.now)) result
        (read.read_name_expr (read.expr_at inner) name.now (kinds tokens.now)) }
    ensures depth { IfOk result (λ x. x.depth ≡ spell.depth x.tree) }
    ensures within { IfOk result (λ x. x.depth ≤ inner + 1) }
{
    if !names::is_name(name) {
        return Err(Stop::Refused(Unread));
    }
    let own = name.copy(alloc)?;
    let Some(behind) = after_sign(tokens, Sign::OpenBracket) else {
        return Ok(Reading {
            tree: Expr::Name(own),
            depth: 1,
            rest: tokens,
        });
    };
    let index = read_indices(alloc, inner, behind)?;
    Ok(Reading {
        tree: Expr::Read {
            field: own,
            index: index.trees,
        },
        depth: index.depth + 1,
        rest: index.rest,
    })
}

/// A call, after its word.
#[cycle(reading)]
#[tactic(auto, unfolding(crate::specs::ReadExpr::read_call_expr))]
fn read_call_expr(
    alloc: Global,
    inner: usize,
    callee: Callee,
    tokens: &[Spanned],
) -> Result<Reading<'_>, Stop<Unread>>
    requires { inner < max_depth }
    ensures value { Gives (λ x. (x.tree, kinds x.rest.now)) result
        (read.read_call_expr (read.expr_at inner) callee (kinds tokens.now)) }
    ensures depth { IfOk result (λ x. x.depth ≡ spell.depth x.tree) }
    ensures within { IfOk result (λ x. x.depth ≤ inner + 1) }
{
    let Some(behind) = after_sign(tokens, Sign::OpenParen) else {
        return Err(Stop::Refused(Unread));
    };
    let arguments = items(alloc, inner, behind)?;
    let Some(rest) = after_sign(arguments.rest, Sign::CloseParen) else {
        return Err(Stop::Refused(Unread));
    };
    if arguments.trees.len() != arity(callee) {
        return Err(Stop::Refused(Unread));
    }
    Ok(Reading {
        tree: Expr::Call {
            callee,
            args: arguments.trees,
        },
        depth: arguments.depth + 1,
        rest,
    })
}

/// A question whether a coordinate is active, after its word.
#[cycle(reading)]
#[tactic(auto, unfolding(crate::specs::ReadExpr::active_expr))]
fn active_expr(alloc: Global, inner: usize, tokens: &[Spanned]) -> Result<Reading<'_>, Stop<Unread>>
    requires { inner < max_depth }
    ensures value { Gives (λ x. (x.tree, kinds x.rest.now)) result
        (read.active_expr (read.expr_at inner) (kinds tokens.now)) }
    ensures depth { IfOk result (λ x. x.depth ≡ spell.depth x.tree) }
    ensures within { IfOk result (λ x. x.depth ≤ inner + 1) }
{
    let Some(behind) = after_sign(tokens, Sign::OpenParen) else {
        return Err(Stop::Refused(Unread));
    };
    let (field, bracket) = next_name(alloc, behind)?;
    let Some(inside) = after_sign(bracket, Sign::OpenBracket) else {
        return Err(Stop::Refused(Unread));
    };
    let index = read_indices(alloc, inner, inside)?;
    let Some(rest) = after_sign(index.rest, Sign::CloseParen) else {
        return Err(Stop::Refused(Unread));
    };
    Ok(Reading {
        tree: Expr::Active {
            field,
            index: index.trees,
        },
        depth: index.depth + 1,
        rest,
    })
}

/// An expression in parentheses, after the `(`.
#[cycle(reading)]
#[tactic(auto, unfolding(crate::specs::ReadExpr::paren_expr))]
fn paren_expr(alloc: Global, inner: usize, tokens: &[Spanned]) -> Result<Reading<'_>, Stop<Unread>>
    requires { inner < max_depth }
    ensures value { Gives (λ x. (x.tree, kinds x.rest.now)) result
        (read.paren_expr (read.expr_at inner) (kinds tokens.now)) }
    ensures depth { IfOk result (λ x. x.depth ≡ spell.depth x.tree) }
    ensures within { IfOk result (λ x. x.depth ≤ inner + 1) }
{
    let Reading { tree, depth, rest } = expr(alloc, inner, 1, tokens)?;
    let Some(rest) = after_sign(rest, Sign::CloseParen) else {
        return Err(Stop::Refused(Unread));
    };
    Ok(Reading {
        tree: Expr::Paren(Boxed::new(alloc, tree)?),
        depth: depth + 1,
        rest,
    })
}

/// An operator before its operand, after its sign.
#[cycle(reading)]
#[tactic(auto, unfolding(crate::specs::ReadExpr::unary_expr))]
fn unary_expr(
    alloc: Global,
    inner: usize,
    op: UnOp,
    tokens: &[Spanned],
) -> Result<Reading<'_>, Stop<Unread>>
    requires { inner < max_depth }
    ensures value { Gives (λ x. (x.tree, kinds x.rest.now)) result
        (read.unary_expr (read.expr_at inner) op (kinds tokens.now)) }
    ensures depth { IfOk result (λ x. x.depth ≡ spell.depth x.tree) }
    ensures within { IfOk result (λ x. x.depth ≤ inner + 1) }
{
    let operand = expr(alloc, inner, UN_LEVEL, tokens)?;
    Ok(Reading {
        tree: Expr::Un {
            op,
            of: Boxed::new(alloc, operand.tree)?,
        },
        depth: operand.depth + 1,
        rest: operand.rest,
    })
}

/// What a word begins: a truth value, a call, or a question.
#[cycle(reading)]
fn word_expr(
    alloc: Global,
    inner: usize,
    word: Word,
    tokens: &[Spanned],
) -> Result<Reading<'_>, Stop<Unread>>
    requires { inner < max_depth }
    ensures value { Gives (λ x. (x.tree, kinds x.rest.now)) result
        (read.word_expr (read.expr_at inner) word (kinds tokens.now)) }
    ensures depth { IfOk result (λ x. x.depth ≡ spell.depth x.tree) }
    ensures within { IfOk result (λ x. x.depth ≤ inner + 1) }
{
    match word {
        Word::True => Ok(Reading {
            tree: Expr::Truth(true),
            depth: 1,
            rest: tokens,
        }),
        Word::False => Ok(Reading {
            tree: Expr::Truth(false),
            depth: 1,
            rest: tokens,
        }),
        Word::Min => read_call_expr(alloc, inner, Callee::Min, tokens),
        Word::Max => read_call_expr(alloc, inner, Callee::Max, tokens),
        Word::Mulq => read_call_expr(alloc, inner, Callee::Mulq, tokens),
        Word::I32 => read_call_expr(alloc, inner, Callee::I32, tokens),
        Word::U32 => read_call_expr(alloc, inner, Callee::U32, tokens),
        Word::Active => active_expr(alloc, inner, tokens),
        _ => Err(Stop::Refused(Unread)),
    }
}

/// What a sign begins: parentheses, or an operator before its operand.
#[cycle(reading)]
fn sign_expr(
    alloc: Global,
    inner: usize,
    sign: Sign,
    tokens: &[Spanned],
) -> Result<Reading<'_>, Stop<Unread>>
    requires { inner < max_depth }
    ensures value { Gives (λ x. (x.tree, kinds x.rest.now)) result
        (read.sign_expr (read.expr_at inner) sign (kinds tokens.now)) }
    ensures depth { IfOk result (λ x. x.depth ≡ spell.depth x.tree) }
    ensures within { IfOk result (λ x. x.depth ≤ inner + 1) }
{
    match sign {
        Sign::OpenParen => paren_expr(alloc, inner, tokens),
        Sign::Minus => unary_expr(alloc, inner, UnOp::Neg, tokens),
        Sign::Tilde => unary_expr(alloc, inner, UnOp::Not, tokens),
        Sign::Not => unary_expr(alloc, inner, UnOp::LNot, tokens),
        _ => Err(Stop::Refused(Unread)),
    }
}

/// An expression up to its first operator between two operands.
#[cycle(reading)]
#[tactic(auto, unfolding(crate::specs::ReadExpr::prefix))]
fn prefix(alloc: Global, inner: usize, tokens: &[Spanned]) -> Result<Reading<'_>, Stop<Unread>>
    requires { inner < max_depth }
    ensures value { Gives (λ x. (x.tree, kinds x.rest.now)) result
        (read.prefix (read.expr_at inner) (kinds tokens.now)) }
    ensures depth { IfOk result (λ x. x.depth ≡ spell.depth x.tree) }
    ensures within { IfOk result (λ x. x.depth ≤ inner + 1) }
{
    let [first, rest @ ..] = tokens else {
        return Err(Stop::Refused(Unread));
    };
    match &first.token {
        Token::Number { value, unsigned } => {
            if !is_number(*value, *unsigned) {
                return Err(Stop::Refused(Unread));
            }
            Ok(Reading {
                tree: Expr::Number {
                    value: *value,
                    unsigned: *unsigned,
                },
                depth: 1,
                rest,
            })
        }
        Token::Name(name) => read_name_expr(alloc, inner, name, rest),
        Token::Word(word) => word_expr(alloc, inner, *word, rest),
        Token::Sign(sign) => sign_expr(alloc, inner, *sign, rest),
    }
}

/// What was read so far, with all operators of at least a level after it.
#[cycle(reading)]
#[tactic(auto, unfolding(crate::specs::ReadExpr::climb))]
fn climb(
    alloc: Global,
    inner: usize,
    least: u8,
    first: Reading<'_>,
) -> Result<Reading<'_>, Stop<Unread>>
    requires limit { inner < 64 }
    requires depth { first.depth ≡ spell.depth first.tree }
    requires within { first.depth ≤ inner + 1 }
    ensures value { Gives (λ x. (x.tree, kinds x.rest.now)) result
        (read.climb (read.expr_at inner) (inner + 1) least (inner + 1) first.entry.tree (kinds first.entry.rest.now)) }
    ensures depth { IfOk result (λ x. x.depth ≡ spell.depth x.tree) }
    ensures within { IfOk result (λ x. x.depth ≤ inner + 1) }
{
    let Reading {
        mut tree,
        mut depth,
        mut rest,
    } = first;
    for _turn in 0..inner + 1 {
        let Some((op, behind)) = next_op(rest) else {
            return Ok(Reading { tree, depth, rest });
        };
        if !goes_on(least, &tree, op) {
            return Ok(Reading { tree, depth, rest });
        }
        if depth > inner {
            return Err(Stop::Refused(Unread));
        }
        let right = expr(alloc, inner, op_level(op) + 1, behind)?;
        depth = depth.max(right.depth) + 1;
        tree = joined(alloc, op, tree, right.tree)?;
        rest = right.rest;
    }
    Err(Stop::Refused(Unread))
}

/// An expression of at least a level and at most a depth.
#[cycle(reading)]
#[tactic(auto, unfolding(crate::specs::ReadExpr::expr_at))]
pub(crate) fn expr(
    alloc: Global,
    limit: usize,
    least: u8,
    tokens: &[Spanned],
) -> Result<Reading<'_>, Stop<Unread>>
    requires { limit ≤ 64 }
    ensures value { Gives (λ x. (x.tree, kinds x.rest.now)) result (read.expr_at limit least (kinds tokens.now)) }
    ensures depth { IfOk result (λ x. x.depth ≡ spell.depth x.tree) }
    ensures within { IfOk result (λ x. x.depth ≤ limit) }
{
    if limit == 0 {
        return Err(Stop::Refused(Unread));
    }
    let inner = limit - 1;
    let first = prefix(alloc, inner, tokens)?;
    climb(alloc, inner, least, first)
}
