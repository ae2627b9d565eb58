//! Copies of typed syntax.

ghost use Rattle.std.specs.Prelude.{◌≡◌, IfOk};

use sg_types::{Form, TypedExpr, TypedRange};
use sg_words::{Boxed, Items, Memory};
use std::alloc::Global;

#[cycle(copies)]
pub(crate) fn copy_expr(alloc: Global, expr: &TypedExpr) -> Result<TypedExpr, Memory>
    ensures { IfOk result (λ it. it ≡ expr.now) }
{
    Ok(TypedExpr {
        ty: expr.ty,
        form: copy_form(alloc, &expr.form)?,
    })
}

#[cycle(copies)]
fn copy_form(alloc: Global, form: &Form) -> Result<Form, Memory>
    ensures { IfOk result (λ it. it ≡ form.now) }
{
    Ok(match form {
        Form::Literal(word) => Form::Literal(*word),
        Form::Constant(word) => Form::Constant(*word),
        Form::Var(var) => Form::Var(*var),
        Form::Read {
            layout,
            place,
            index,
        } => Form::Read {
            layout: *layout,
            place: *place,
            index: copy_exprs(alloc, index.as_slice())?,
        },
        Form::Paren(inner) => Form::Paren(copy_boxed(alloc, inner)?),
        Form::Un { op, of } => Form::Un {
            op: *op,
            of: copy_boxed(alloc, of)?,
        },
        Form::Bin { op, left, right } => Form::Bin {
            op: *op,
            left: copy_boxed(alloc, left)?,
            right: copy_boxed(alloc, right)?,
        },
        Form::Mulq { a, b, s } => Form::Mulq {
            a: copy_boxed(alloc, a)?,
            b: copy_boxed(alloc, b)?,
            s: copy_boxed(alloc, s)?,
        },
        Form::Convert(inner) => Form::Convert(copy_boxed(alloc, inner)?),
        Form::Active { layout, index } => Form::Active {
            layout: *layout,
            index: copy_exprs(alloc, index.as_slice())?,
        },
    })
}

#[cycle(copies)]
fn copy_boxed(alloc: Global, boxed: &Boxed<TypedExpr>) -> Result<Boxed<TypedExpr>, Memory>
    ensures { IfOk result (λ it. it ≡ boxed.now) }
{
    let inner = copy_expr(alloc, boxed.get())?;
    Ok(Boxed::new(alloc, inner)?)
}

#[cycle(copies)]
pub(crate) fn copy_exprs(alloc: Global, exprs: &[TypedExpr]) -> Result<Items<TypedExpr>, Memory>
    ensures { IfOk result (λ it. it ≡ exprs.now) }
{
    let mut copies = Items::new(alloc);
    for expr in exprs {
        copies.push(copy_expr(alloc, expr)?)?;
    }
    Ok(copies)
}

pub(crate) fn copy_range(alloc: Global, range: &TypedRange) -> Result<TypedRange, Memory>
    ensures { IfOk result (λ it. it ≡ range.now) }
{
    Ok(TypedRange {
        lo: copy_expr(alloc, &range.lo)?,
        hi: copy_expr(alloc, &range.hi)?,
    })
}
