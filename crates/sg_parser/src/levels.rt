//! How tightly operators hold their operands.

ghost use Rattle.std.specs.Prelude.{◌≡◌, ◌≤◌, IfOk};
ghost use Rattle.sg_ast.specs.declared.expr.Expr.TheVariants as e;
ghost use Rattle.sg_ast.specs.Expr as spell;
ghost use Rattle.sg_ast.specs.Grammar as grammar;
ghost use Rattle.sg_parser.specs.ReadExpr as read;

use sg_ast::{Callee, Expr};
use sg_words::{BinOp, Boxed};
use std::alloc::{AllocError, Global};

/// How tightly an operator between two operands holds them, the loosest at 1.
pub(crate) fn op_level(op: BinOp) -> u8
    ensures value { result ≡ spell.op_level op }
    ensures within { result ≤ 9 }
{
    match op {
        BinOp::LOr => 1,
        BinOp::LAnd => 2,
        BinOp::Eq | BinOp::Ne | BinOp::Lt | BinOp::Le | BinOp::Gt | BinOp::Ge => 3,
        BinOp::Or => 4,
        BinOp::Xor => 5,
        BinOp::And => 6,
        BinOp::Shl | BinOp::Shr => 7,
        BinOp::Add | BinOp::Sub => 8,
        BinOp::Mul | BinOp::Div | BinOp::Rem => 9,
        BinOp::Min | BinOp::Max => 0,
    }
}

/// The level of an operator before its operand.
pub(crate) const UN_LEVEL: u8 = 10;

/// The level of an expression that no operator can take apart.
const PRIMARY_LEVEL: u8 = 11;

/// The least level of a left operand: comparisons do not chain.
fn left_needs(op: BinOp) -> u8
    ensures { result ≡ spell.left_needs op }
{
    let level = op_level(op);
    if level == 3 { 4 } else { level }
}

fn level(tree: &Expr) -> u8
    ensures { result ≡ spell.level tree.now }
{
    match tree {
        Expr::Un { .. } => UN_LEVEL,
        Expr::Bin { op, .. } => op_level(*op),
        _ => PRIMARY_LEVEL,
    }
}

/// Whether an operator joins what was read so far to what follows.
pub(crate) fn goes_on(least: u8, left: &Expr, op: BinOp) -> bool
    ensures { result ≡ read.operator_goes_on least left.now op }
{
    least <= op_level(op) && left_needs(op) <= level(left)
}

/// Two expressions with an operator between them. Fails if memory runs out.
pub(crate) fn joined(alloc: Global, op: BinOp, left: Expr, right: Expr) -> Result<Expr, AllocError>
    ensures { IfOk result (λ tree. tree ≡ e.Bin op left right) }
{
    Ok(Expr::Bin {
        op,
        left: Boxed::new(alloc, left)?,
        right: Boxed::new(alloc, right)?,
    })
}

pub(crate) fn arity(callee: Callee) -> usize
    ensures { result ≡ grammar.arity callee }
{
    match callee {
        Callee::Min | Callee::Max => 2,
        Callee::Mulq => 3,
        Callee::I32 | Callee::U32 => 1,
    }
}
