//! Typed expressions made of typed parts, where their types fit.

ghost use Rattle.std.specs.Prelude.{◌≡◌, Some, IfOk, option_and_then};
ghost use Rattle.sg_words.specs.declared.operators.Ty.TheVariants as ty;
ghost use Rattle.sg_types.specs.declared.typed.Form.TheVariants as form;
ghost use Rattle.std.specs.List.{list_all};
ghost use Rattle.sg_words.specs.Words.{flag};
ghost use Rattle.sg_types.specs.Expressions as spec;

use crate::type_table::{bin_ty, is_numeric, is_signed, un_ty};
use crate::typed::{Form, TypedExpr};
use sg_ast::Callee;
use sg_names::FieldAt;
use sg_words::{BinOp, Boxed, Items, Memory, Ty, UnOp};
use std::alloc::Global;

/// A literal number, by its `u` without a sign.
pub(crate) fn number(value: u32, unsigned: bool) -> TypedExpr
    ensures { result ≡ record { ty = spec.number_ty unsigned; form = form.Literal value } }
{
    let ty = if unsigned { Ty::U32 } else { Ty::I32 };
    TypedExpr {
        ty,
        form: Form::Literal(value),
    }
}

pub(crate) fn truth(truth: bool) -> TypedExpr
    ensures { result ≡ record { ty = ty.Bool; form = form.Literal (flag truth) } }
{
    TypedExpr {
        ty: Ty::Bool,
        form: Form::Literal(u32::from(truth)),
    }
}

pub(crate) fn is_signed_expr(expr: &TypedExpr) -> bool
    ensures { result ≡ spec.is_signed_expr expr.now }
{
    is_signed(expr.ty)
}

/// Whether all are I32, as indices must be.
pub(crate) fn all_signed(exprs: &[TypedExpr]) -> bool
    ensures { result ≡ list_all spec.is_signed_expr exprs.now }
{
    exprs.iter().all(|expr| is_signed(expr.ty))
}

/// A read of a field, if there is one.
pub(crate) fn read(at: Option<FieldAt>, index: Items<TypedExpr>) -> Option<TypedExpr>
    ensures { result ≡ option_and_then (λ at. spec.access_expr at index) at }
{
    let at = at?;
    if all_signed(index.as_slice()) {
        Some(TypedExpr {
            ty: at.ty,
            form: Form::Read {
                layout: at.layout,
                place: at.place,
                index,
            },
        })
    } else {
        None
    }
}

/// Whether a coordinate is active in the layout of a field, if there is one.
pub(crate) fn active(at: Option<FieldAt>, index: Items<TypedExpr>) -> Option<TypedExpr>
    ensures { result ≡ option_and_then (λ at. spec.active_expr at index) at }
{
    let at = at?;
    if all_signed(index.as_slice()) {
        Some(TypedExpr {
            ty: Ty::Bool,
            form: Form::Active {
                layout: at.layout,
                index,
            },
        })
    } else {
        None
    }
}

pub(crate) fn paren(alloc: Global, inner: TypedExpr) -> Result<Option<TypedExpr>, Memory>
    ensures { IfOk result (λ typed. typed ≡ Some (record { ty = inner.ty; form = form.Paren inner })) }
{
    Ok(Some(TypedExpr {
        ty: inner.ty,
        form: Form::Paren(Boxed::new(alloc, inner)?),
    }))
}

pub(crate) fn un(alloc: Global, op: UnOp, operand: TypedExpr) -> Result<Option<TypedExpr>, Memory>
    ensures { IfOk result (λ typed. typed ≡ spec.un_expr op operand) }
{
    let Some(ty) = un_ty(op, operand.ty) else {
        return Ok(None);
    };
    Ok(Some(TypedExpr {
        ty,
        form: Form::Un {
            op,
            of: Boxed::new(alloc, operand)?,
        },
    }))
}

pub(crate) fn bin(
    alloc: Global,
    op: BinOp,
    left: TypedExpr,
    right: TypedExpr,
) -> Result<Option<TypedExpr>, Memory>
    ensures { IfOk result (λ typed. typed ≡ spec.bin_expr op left right) }
{
    let Some(ty) = bin_ty(op, left.ty, right.ty) else {
        return Ok(None);
    };
    Ok(Some(TypedExpr {
        ty,
        form: Form::Bin {
            op,
            left: Boxed::new(alloc, left)?,
            right: Boxed::new(alloc, right)?,
        },
    }))
}

fn mulq(
    alloc: Global,
    a: TypedExpr,
    b: TypedExpr,
    s: TypedExpr,
) -> Result<Option<TypedExpr>, Memory>
    ensures { IfOk result (λ typed. typed ≡ spec.mulq_expr a b s) }
{
    if !(is_signed_expr(&a) && is_signed_expr(&b) && is_signed_expr(&s)) {
        return Ok(None);
    }
    Ok(Some(TypedExpr {
        ty: Ty::I32,
        form: Form::Mulq {
            a: Boxed::new(alloc, a)?,
            b: Boxed::new(alloc, b)?,
            s: Boxed::new(alloc, s)?,
        },
    }))
}

fn convert(alloc: Global, to: Ty, inner: TypedExpr) -> Result<Option<TypedExpr>, Memory>
    ensures { IfOk result (λ typed. typed ≡ spec.convert_expr to inner) }
{
    if !is_numeric(inner.ty) {
        return Ok(None);
    }
    Ok(Some(TypedExpr {
        ty: to,
        form: Form::Convert(Boxed::new(alloc, inner)?),
    }))
}

/// A call, where the callee takes as many arguments of their types.
pub(crate) fn call(
    alloc: Global,
    callee: Callee,
    args: Items<TypedExpr>,
) -> Result<Option<TypedExpr>, Memory>
    ensures { IfOk result (λ typed. typed ≡ spec.call_expr callee args) }
{
    match callee {
        Callee::Min => two(alloc, BinOp::Min, args),
        Callee::Max => two(alloc, BinOp::Max, args),
        Callee::Mulq => three(alloc, args),
        Callee::I32 => one(alloc, Ty::I32, args),
        Callee::U32 => one(alloc, Ty::U32, args),
    }
}

fn one(alloc: Global, to: Ty, mut args: Items<TypedExpr>) -> Result<Option<TypedExpr>, Memory>
    ensures { IfOk result (λ typed. typed ≡ spec.on_one (spec.convert_expr to) args) }
{
    if args.len() != 1 {
        return Ok(None);
    }
    let inner = args.remove(0);
    convert(alloc, to, inner)
}

fn two(alloc: Global, op: BinOp, mut args: Items<TypedExpr>) -> Result<Option<TypedExpr>, Memory>
    ensures { IfOk result (λ typed. typed ≡ spec.on_two (spec.bin_expr op) args) }
{
    if args.len() != 2 {
        return Ok(None);
    }
    let left = args.remove(0);
    let right = args.remove(0);
    bin(alloc, op, left, right)
}

fn three(alloc: Global, mut args: Items<TypedExpr>) -> Result<Option<TypedExpr>, Memory>
    ensures { IfOk result (λ typed. typed ≡ spec.on_three spec.mulq_expr args) }
{
    if args.len() != 3 {
        return Ok(None);
    }
    let a = args.remove(0);
    let b = args.remove(0);
    let s = args.remove(0);
    mulq(alloc, a, b, s)
}
