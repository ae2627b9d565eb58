//! The names of types and operators in the text of code.
ghost use Rattle.std.specs.Prelude.{◌≡◌};
ghost use Rattle.sg_ir.specs.Texts as spec;

use sg_words::{AccOp, BinOp, Ty, UnOp};

/// The name of a type.
pub(crate) fn ty_name(ty: Ty) -> &'static str
    ensures { result.now ≡ spec.ty_text ty }
{
    match ty {
        Ty::I32 => "i32",
        Ty::U32 => "u32",
        Ty::Bool => "bool",
    }
}

/// The name of an operator on two words.
pub(crate) fn bin_name(op: BinOp) -> &'static str
    ensures { result.now ≡ spec.bin_text op }
{
    match op {
        BinOp::Add => "add",
        BinOp::Sub => "sub",
        BinOp::Mul => "mul",
        BinOp::Div => "div",
        BinOp::Rem => "rem",
        BinOp::And => "and",
        BinOp::Or => "or",
        BinOp::Xor => "xor",
        BinOp::LAnd => "land",
        BinOp::LOr => "lor",
        BinOp::Shl => "shl",
        BinOp::Shr => "shr",
        BinOp::Min => "min",
        BinOp::Max => "max",
        BinOp::Eq => "eq",
        BinOp::Ne => "ne",
        BinOp::Lt => "lt",
        BinOp::Le => "le",
        BinOp::Gt => "gt",
        BinOp::Ge => "ge",
    }
}

/// The name of an operator on one word.
pub(crate) fn un_name(op: UnOp) -> &'static str
    ensures { result.now ≡ spec.un_text op }
{
    match op {
        UnOp::Neg => "neg",
        UnOp::Not => "not",
        UnOp::LNot => "lnot",
    }
}

/// The name of an accumulation.
pub(crate) fn acc_name(op: AccOp) -> &'static str
    ensures { result.now ≡ spec.acc_text op }
{
    match op {
        AccOp::Add => "add",
        AccOp::Min => "min",
        AccOp::Max => "max",
        AccOp::Or => "or",
        AccOp::And => "and",
        AccOp::Xor => "xor",
    }
}
