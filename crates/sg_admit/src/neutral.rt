ghost use Rattle.std.specs.Prelude.{◌≡◌, ℕ, map};
ghost use Rattle.sg_types.specs.declared.typed.TypedKind.{out-TypedKind};
ghost use Rattle.sg_admit.specs.Rules as rules;
ghost use Rattle.sg_admit.specs.Neutral as spec;

use crate::admitted::Admitted;
use crate::asks::asks_nothing;
use sg_types::{Form, TypedDomain, TypedExpr, TypedKernel, TypedKind, TypedStmt};
use sg_words::BinOp;

/// Whether an admitted kernel is neutral: no `active` stands in it, and its loop goes over a box, or its body is one `if` without
/// `else` that is guarded by the own cell of a field of the walked layout. Every other kernel is layout-bound.
pub fn is_neutral(kernel: &Admitted) -> bool
    ensures { result ≡ spec.is_neutral_kernel kernel.now.kernel }
{
    asks_nothing(&kernel.kernel) && is_neutral_over(&kernel.kernel)
}

fn is_neutral_over(kernel: &TypedKernel) -> bool
    ensures { result ≡ spec.is_neutral_over kernel.now kernel.now.domain }
{
    match &kernel.domain {
        TypedDomain::Walk(layout) => {
            is_guarded_body(*layout, kernel.vars, kernel.body.as_slice())
        }
        TypedDomain::Ranges(_ranges) => true,
    }
}

fn is_guarded_body(walked: u32, vars: u32, body: &[TypedStmt]) -> bool
    ensures { result ≡ spec.is_guarded_body walked vars body.now }
{
    match body {
        [stmt] => is_guard(walked, vars, &stmt.kind),
        _ => false,
    }
}

fn is_guard(walked: u32, vars: u32, kind: &TypedKind) -> bool
    ensures { result ≡ spec.is_guard walked vars (out-TypedKind kind.now) }
{
    match kind {
        TypedKind::If {
            cond,
            yes: _yes,
            no: _no,
            has_else,
        } => !*has_else && is_guarded(walked, vars, cond),
        _ => false,
    }
}

/// Whether a condition, or the leftmost operand of its chain of `&&`, is that the own cell isn't 0.
fn is_guarded(walked: u32, vars: u32, expr: &TypedExpr) -> bool
    ensures { result ≡ (spec.guard_of walked vars expr.now).is_guarded }
{
    match &expr.form {
        Form::Bin { op, left, right } => match op {
            BinOp::Ne => is_cell(walked, vars, left.get()) && is_zero(walked, vars, right.get()),
            BinOp::LAnd => is_guarded(walked, vars, left.get()),
            _ => false,
        },
        _ => false,
    }
}

fn is_cell(walked: u32, vars: u32, expr: &TypedExpr) -> bool
    ensures { result ≡ (spec.guard_of walked vars expr.now).is_cell }
{
    match &expr.form {
        Form::Read {
            layout,
            place: _place,
            index,
        } => *layout == walked && are_names(vars, index.as_slice()),
        _ => false,
    }
}

fn is_zero(walked: u32, vars: u32, expr: &TypedExpr) -> bool
    ensures { result ≡ (spec.guard_of walked vars expr.now).is_zero }
{
    match &expr.form {
        Form::Literal(word) => *word == 0,
        _ => false,
    }
}

/// Whether indices are exactly the names of the loop's variables in order.
pub(crate) fn are_names(vars: u32, index: &[TypedExpr]) -> bool
    ensures { result ≡ rules.are_names vars 0 (map rules.name_of index.now) }
{
    for (var, expr) in index.iter().enumerate() {
        if !is_name(var, expr) {
            return false;
        }
    }
    index.len() == vars as usize
}

fn is_name(var: usize, expr: &TypedExpr) -> bool
    ensures { result ≡ rules.is_name_of var (rules.name_of expr.now) }
{
    match &expr.form {
        Form::Var(name) => *name as usize == var,
        _ => false,
    }
}
