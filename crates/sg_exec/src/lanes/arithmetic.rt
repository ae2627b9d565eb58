//! Words of registers in some columns, by words of others.

ghost use Rattle.std.specs.Prelude.{◌≡◌, ◌≤◌, ◌+◌, ◌*◌, ◌/◌, ◌%◌, ◌^◌, length};
ghost use Rattle.sg_words.specs.Words.{applied, applied_un, mulq_of};
ghost use Rattle.sg_exec.specs.steps.Rows.{item_in, On, IsPut};

use crate::lanes::columns::Columns;
use crate::lanes::operators::{digits_of, joined_by, operate, operate_one, products_of};
use crate::lanes::row::{put_row, row};
use sg_words::{BinOp, Ty, UnOp};
use std::simd::prelude::*;

/// An operator on two words.
#[inline(always)]
pub(crate) fn combine(
    regs: &mut [u32],
    columns: &Columns,
    to: u32,
    op: BinOp,
    ty: Ty,
    a: u32,
    b: u32,
)
    requires to { to * 32 + 32 ≤ length regs.old }
    requires a { a * 32 + 32 ≤ length regs.old }
    requires b { b * 32 + 32 ≤ length regs.old }
    ensures { IsPut (λ k word. word ≡ applied op ty (item_in regs.old 0 k a) (item_in regs.old 0 k b)) (On columns.now.on) to 0 regs.old regs.new }
{
    let x = row(regs, a);
    let y = row(regs, b);
    put_row(regs, columns, to, operate(op, ty, x, y));
}

/// A product, shifted down.
#[inline(always)]
pub(crate) fn multiply(regs: &mut [u32], columns: &Columns, to: u32, a: u32, b: u32, s: u32)
    requires to { to * 32 + 32 ≤ length regs.old }
    requires a { a * 32 + 32 ≤ length regs.old }
    requires b { b * 32 + 32 ≤ length regs.old }
    requires s { s * 32 + 32 ≤ length regs.old }
    ensures { IsPut (λ k word. word ≡ mulq_of (item_in regs.old 0 k a) (item_in regs.old 0 k b) (item_in regs.old 0 k s)) (On columns.now.on) to 0 regs.old regs.new }
{
    let x = row(regs, a);
    let y = row(regs, b);
    let shifts = row(regs, s);
    put_row(regs, columns, to, products_of(x, y, shifts));
}

/// An operator on one word.
#[inline(always)]
pub(crate) fn alter(regs: &mut [u32], columns: &Columns, to: u32, op: UnOp, a: u32)
    requires to { to * 32 + 32 ≤ length regs.old }
    requires a { a * 32 + 32 ≤ length regs.old }
    ensures { IsPut (λ k word. word ≡ applied_un op (item_in regs.old 0 k a)) (On columns.now.on) to 0 regs.old regs.new }
{
    let x = row(regs, a);
    put_row(regs, columns, to, operate_one(op, x));
}

/// The digits of words.
#[inline(always)]
pub(crate) fn take_digits(
    regs: &mut [u32],
    columns: &Columns,
    to: u32,
    div: u32,
    size: u32,
    from: u32,
)
    requires to { to * 32 + 32 ≤ length regs.old }
    requires from { from * 32 + 32 ≤ length regs.old }
    ensures { IsPut (λ k word. word ≡ (item_in regs.old 0 k from) / div % size) (On columns.now.on) to 0 regs.old regs.new }
{
    let x = row(regs, from);
    put_row(regs, columns, to, digits_of(x, div, size));
}

/// Words times a size, and others.
#[inline(always)]
pub(crate) fn join(regs: &mut [u32], columns: &Columns, to: u32, high: u32, size: u32, low: u32)
    requires to { to * 32 + 32 ≤ length regs.old }
    requires high { high * 32 + 32 ≤ length regs.old }
    requires low { low * 32 + 32 ≤ length regs.old }
    ensures { IsPut (λ k word. word ≡ ((item_in regs.old 0 k high) * size + (item_in regs.old 0 k low)) % 2 ^ 32) (On columns.now.on) to 0 regs.old regs.new }
{
    let x = row(regs, high);
    let y = row(regs, low);
    put_row(regs, columns, to, joined_by(x, size, y));
}

/// A row becomes a word.
#[inline(always)]
pub(crate) fn fill(items: &mut [u32], columns: &Columns, to: u32, word: u32)
    requires to { to * 32 + 32 ≤ length items.old }
    ensures { IsPut (λ k item. item ≡ word) (On columns.now.on) to 0 items.old items.new }
{
    put_row(items, columns, to, u32x32::splat(word));
}

/// A row becomes another one, of another list.
#[inline(always)]
pub(crate) fn copy(items: &mut [u32], columns: &Columns, to: u32, others: &[u32], from: u32)
    requires to { to * 32 + 32 ≤ length items.old }
    requires from { from * 32 + 32 ≤ length others.now }
    ensures { IsPut (λ k item. item ≡ item_in others.now 0 k from) (On columns.now.on) to 0 items.old items.new }
{
    put_row(items, columns, to, row(others, from));
}
