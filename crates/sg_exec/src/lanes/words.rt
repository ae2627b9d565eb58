//! One instruction on registers and variables, in some columns.

ghost use Rattle.sg_ir.specs.declared.code.Inst.TheVariants as v;
ghost use Rattle.sg_ir.specs.Runs.{does, set_var_word};
ghost use Rattle.sg_exec.specs.steps.Rows.{On};
ghost use Rattle.sg_exec.specs.steps.Moments.{AllMove};

use crate::lanes::arithmetic::{alter, combine, copy, fill, join, multiply, take_digits};
use crate::lanes::batch::Batch;
use crate::lanes::columns::Columns;
use sg_words::{BinOp, Ty, UnOp};

/// Registers become a word.
#[inline(never)]
pub(crate) fn constants(batch: &mut Batch, columns: &Columns, to: u32, word: u32)
    ensures { AllMove (λ seen. does seen (v.Const to word)) (On columns.now.on) batch.old batch.new }
{
    if batch.has_regs(to, to, to) {
        fill(batch.regs.as_mut_slice(), columns, to, word);
    }
}

/// Registers become variables' words.
#[inline(never)]
pub(crate) fn variables(batch: &mut Batch, columns: &Columns, to: u32, var: u32)
    ensures { AllMove (λ seen. does seen (v.Var to var)) (On columns.now.on) batch.old batch.new }
{
    if batch.has_regs(to, to, to) && batch.has_var(var) {
        copy(
            batch.regs.as_mut_slice(),
            columns,
            to,
            batch.vars.as_slice(),
            var,
        );
    }
}

/// Variables become registers' words.
#[inline(never)]
pub(crate) fn assigns(batch: &mut Batch, columns: &Columns, var: u32, from: u32)
    ensures { AllMove (λ seen. does seen (v.Set var from)) (On columns.now.on) batch.old batch.new }
{
    if batch.has_regs(from, from, from) && batch.has_var(var) {
        copy(
            batch.vars.as_mut_slice(),
            columns,
            var,
            batch.regs.as_slice(),
            from,
        );
    }
}

/// An operator on two words.
#[inline(never)]
pub(crate) fn binaries(
    batch: &mut Batch,
    columns: &Columns,
    to: u32,
    op: BinOp,
    ty: Ty,
    a: u32,
    b: u32,
)
    ensures { AllMove (λ seen. does seen (v.Bin to op ty a b)) (On columns.now.on) batch.old batch.new }
{
    if batch.has_regs(to, a, b) {
        combine(batch.regs.as_mut_slice(), columns, to, op, ty, a, b);
    }
}

/// An operator on one word.
#[inline(never)]
pub(crate) fn unaries(batch: &mut Batch, columns: &Columns, to: u32, op: UnOp, ty: Ty, a: u32)
    ensures { AllMove (λ seen. does seen (v.Un to op ty a)) (On columns.now.on) batch.old batch.new }
{
    let _ty = ty;
    if batch.has_regs(to, a, a) {
        alter(batch.regs.as_mut_slice(), columns, to, op, a);
    }
}

/// A product, shifted down.
#[inline(never)]
pub(crate) fn products(batch: &mut Batch, columns: &Columns, to: u32, a: u32, b: u32, s: u32)
    ensures { AllMove (λ seen. does seen (v.Mulq to a b s)) (On columns.now.on) batch.old batch.new }
{
    if batch.has_four_regs(to, a, b, s) {
        multiply(batch.regs.as_mut_slice(), columns, to, a, b, s);
    }
}

/// A word's digit.
#[inline(never)]
pub(crate) fn extracts(
    batch: &mut Batch,
    columns: &Columns,
    to: u32,
    div: u32,
    size: u32,
    from: u32,
)
    ensures { AllMove (λ seen. does seen (v.Extract to div size from)) (On columns.now.on) batch.old batch.new }
{
    if batch.has_regs(to, from, from) {
        take_digits(batch.regs.as_mut_slice(), columns, to, div, size, from);
    }
}

/// A word times a size, and another.
#[inline(never)]
pub(crate) fn offsets(batch: &mut Batch, columns: &Columns, to: u32, high: u32, size: u32, low: u32)
    ensures { AllMove (λ seen. does seen (v.Offset to high size low)) (On columns.now.on) batch.old batch.new }
{
    if batch.has_regs(to, high, low) {
        join(batch.regs.as_mut_slice(), columns, to, high, size, low);
    }
}

/// Variables become a word.
#[inline(never)]
pub(crate) fn set_vars(batch: &mut Batch, columns: &Columns, var: u32, word: u32)
    ensures { AllMove (λ seen. set_var_word var word) (On columns.now.on) batch.old batch.new }
{
    if batch.has_var(var) {
        fill(batch.vars.as_mut_slice(), columns, var, word);
    }
}
