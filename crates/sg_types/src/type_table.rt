//! The types that operators take and give.

ghost use Rattle.std.specs.Prelude.{◌≡◌};
ghost use Rattle.sg_types.specs.TypeTable as table;

use sg_words::{BinOp, Ty, UnOp};

pub(crate) fn is_numeric(ty: Ty) -> bool
    ensures { result ≡ table.is_numeric ty }
{
    match ty {
        Ty::I32 | Ty::U32 => true,
        Ty::Bool => false,
    }
}

pub(crate) fn is_signed(ty: Ty) -> bool
    ensures { result ≡ table.is_signed ty }
{
    match ty {
        Ty::I32 => true,
        Ty::U32 | Ty::Bool => false,
    }
}

pub(crate) fn is_truth(ty: Ty) -> bool
    ensures { result ≡ table.is_truth ty }
{
    match ty {
        Ty::Bool => true,
        Ty::I32 | Ty::U32 => false,
    }
}

pub(crate) fn same_ty(left: Ty, right: Ty) -> bool
    ensures { result ≡ table.same_ty left right }
{
    match left {
        Ty::I32 => is_signed(right),
        Ty::U32 => is_numeric(right) && !is_signed(right),
        Ty::Bool => is_truth(right),
    }
}

/// The type that an operator gives, where it takes operands of these types.
pub(crate) fn bin_ty(op: BinOp, left: Ty, right: Ty) -> Option<Ty>
    ensures { result ≡ table.bin_ty op left right }
{
    match op {
        BinOp::Add
        | BinOp::Sub
        | BinOp::Mul
        | BinOp::Div
        | BinOp::Rem
        | BinOp::And
        | BinOp::Or
        | BinOp::Xor
        | BinOp::Min
        | BinOp::Max => given(is_numeric(left) && same_ty(left, right), left),
        BinOp::Shl | BinOp::Shr => given(is_numeric(left) && is_numeric(right), left),
        BinOp::Eq | BinOp::Ne | BinOp::Lt | BinOp::Le | BinOp::Gt | BinOp::Ge => {
            given(is_numeric(left) && same_ty(left, right), Ty::Bool)
        }
        BinOp::LAnd | BinOp::LOr => given(is_truth(left) && is_truth(right), Ty::Bool),
    }
}

/// The type that an operator before its operand gives, where it takes one of this type.
pub(crate) fn un_ty(op: UnOp, of: Ty) -> Option<Ty>
    ensures { result ≡ table.un_ty op of }
{
    match op {
        UnOp::Neg | UnOp::Not => given(is_numeric(of), of),
        UnOp::LNot => given(is_truth(of), Ty::Bool),
    }
}

fn given(takes: bool, ty: Ty) -> Option<Ty>
    ensures { result ≡ table.given_if takes ty }
{
    if takes { Some(ty) } else { None }
}
