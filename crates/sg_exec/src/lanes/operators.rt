//! Operators on rows of 32 words, each lane by itself.

ghost use Rattle.std.specs.Prelude.{◌≡◌, ◌+◌, ◌*◌, ◌/◌, ◌%◌, ◌^◌, ◌<◌, ◌==◌, ℕ, true, map, get_or, nat_lt, if◌then◌else◌};
ghost use Rattle.std.specs.Simd.Lanes.{zip2};
ghost use Rattle.sg_words.specs.Words.{applied, applied_un, mulq_of, rank_of, flag, word_of, floor_over};
ghost use Rattle.sg_words.specs.declared.operators.BinOp.TheVariants as bin;
ghost use Rattle.sg_words.specs.declared.operators.UnOp.TheVariants as un;

use crate::lanes::by_word::{div, shl, shr};
use sg_coord::Digits;
use sg_words::{BinOp, Ty, UnOp, apply, mulq, number};
use std::simd::prelude::*;

/// An operator on two rows: in each lane what it gives on the lane's two words.
#[inline(always)]
pub(crate) fn operate(op: BinOp, ty: Ty, a: u32x32, b: u32x32) -> u32x32
    ensures { (k : ℕ) → k < 32 → get_or result k 0 ≡ applied op ty (get_or a k 0) (get_or b k 0) }
{
    zipped(op, ty, a, b)
}

/// The same. Which operator it is, is asked once for all lanes.
#[inline(always)]
fn zipped(op: BinOp, ty: Ty, a: u32x32, b: u32x32) -> u32x32
    ensures { result ≡ zip2 (applied op ty) a b }
{
    match op {
        BinOp::Add => add(ty, a, b),
        BinOp::Sub => sub(ty, a, b),
        BinOp::Mul => mul(ty, a, b),
        BinOp::Div => div(ty, a, b),
        BinOp::Rem => lane_by_lane(BinOp::Rem, ty, a, b),
        BinOp::And => and(ty, a, b),
        BinOp::Or => or(ty, a, b),
        BinOp::Xor => xor(ty, a, b),
        BinOp::LAnd => land(ty, a, b),
        BinOp::LOr => lor(ty, a, b),
        BinOp::Shl => shl(ty, a, b),
        BinOp::Shr => shr(ty, a, b),
        BinOp::Min => min(ty, a, b),
        BinOp::Max => max(ty, a, b),
        BinOp::Eq => eq(ty, a, b),
        BinOp::Ne => ne(ty, a, b),
        BinOp::Lt => lt(ty, a, b),
        BinOp::Le => le(ty, a, b),
        BinOp::Gt => gt(ty, a, b),
        BinOp::Ge => ge(ty, a, b),
    }
}

/// An operator on a row: in each lane what it gives on the lane's word.
#[inline(always)]
pub(crate) fn operate_one(op: UnOp, a: u32x32) -> u32x32
    ensures { (k : ℕ) → k < 32 → get_or result k 0 ≡ applied_un op (get_or a k 0) }
{
    mapped(op, a)
}

/// The same.
#[inline(always)]
fn mapped(op: UnOp, a: u32x32) -> u32x32
    ensures { result ≡ map (applied_un op) a }
{
    match op {
        UnOp::Neg => neg(a),
        UnOp::Not => not(a),
        UnOp::LNot => lnot(a),
    }
}

/// Products, shifted down. Where all shifts are one word, that is asked once for all lanes.
#[inline(always)]
pub(crate) fn products_of(a: u32x32, b: u32x32, s: u32x32) -> u32x32
    ensures { (k : ℕ) → k < 32 → get_or result k 0 ≡ mulq_of (get_or a k 0) (get_or b k 0) (get_or s k 0) }
{
    let first = first_lane(s);
    if are_all(s, first) {
        products_by(a, b, first)
    } else {
        products_each(a, b, s)
    }
}

/// Products, shifted down by one word.
#[inline(always)]
fn products_by(a: u32x32, b: u32x32, s: u32) -> u32x32
    ensures { (k : ℕ) → k < 32 → get_or result k 0 ≡ mulq_of (get_or a k 0) (get_or b k 0) s }
{
    let a = a.to_array();
    let b = b.to_array();
    let mut words = [0; 32];
    for k in 0..32 {
        words[k] = product_low(a[k], b[k], s);
    }
    u32x32::from_array(words)
}

/// Products, each shifted down by its own word.
#[cold]
#[inline(never)]
fn products_each(a: u32x32, b: u32x32, s: u32x32) -> u32x32
    ensures { (k : ℕ) → k < 32 → get_or result k 0 ≡ mulq_of (get_or a k 0) (get_or b k 0) (get_or s k 0) }
{
    let a = a.to_array();
    let b = b.to_array();
    let s = s.to_array();
    let mut words = [0; 32];
    for k in 0..32 {
        words[k] = mulq(a[k], b[k], s[k]);
    }
    u32x32::from_array(words)
}

/// The product of two words, shifted down.
#[inline(always)]
fn product_low(a: u32, b: u32, s: u32) -> u32
    ensures { result ≡ mulq_of a b s }
{
    low_word(number(Ty::I32, a) * number(Ty::I32, b), s)
}

/// The word of a number, shifted down: its low bits, which the sign doesn't reach.
#[inline(always)]
fn low_word(product: i64, s: u32) -> u32
    ensures { result ≡ word_of (floor_over product (2 ^ (s % 32))) }
{
    ((product.cast_unsigned() >> (s % 32)) % 0x1_0000_0000) as u32
}

/// The first lane.
#[inline(always)]
pub(crate) fn first_lane(a: u32x32) -> u32 {
    a.to_array()[0]
}

/// Whether all lanes are a word.
#[inline(always)]
pub(crate) fn are_all(a: u32x32, word: u32) -> bool
    ensures { result ≡ true → (k : ℕ) → k < 32 → get_or a k 0 ≡ word }
{
    a.simd_ne(u32x32::splat(word)).to_bitmask() == 0
}

/// Words' digits: divided by `div`, modulo `size`.
#[inline(always)]
pub(crate) fn digits_of(a: u32x32, div: u32, size: u32) -> u32x32
    ensures { (k : ℕ) → k < 32 → get_or result k 0 ≡ get_or a k 0 / div % size }
{
    let digits = Digits::of(div, size);
    let a = a.to_array();
    let mut words = [0; 32];
    for k in 0..32 {
        words[k] = digits.digit(a[k]);
    }
    u32x32::from_array(words)
}

/// Words times a size, and others, modulo 2^32.
#[inline(always)]
pub(crate) fn joined_by(high: u32x32, size: u32, low: u32x32) -> u32x32
    ensures { (k : ℕ) → k < 32 → get_or result k 0 ≡ (get_or high k 0 * size + get_or low k 0) % 2 ^ 32 }
{
    high * u32x32::splat(size) + low
}

/// An operator on two rows, one lane after the other.
#[inline(always)]
pub(crate) fn lane_by_lane(op: BinOp, ty: Ty, a: u32x32, b: u32x32) -> u32x32
    ensures { result ≡ zip2 (applied op ty) a b }
{
    let a = a.to_array();
    let b = b.to_array();
    let mut words = [0; 32];
    for k in 0..32 {
        words[k] = apply(op, ty, a[k], b[k]);
    }
    u32x32::from_array(words)
}

#[inline(always)]
fn add(ty: Ty, a: u32x32, b: u32x32) -> u32x32
    ensures { result ≡ zip2 (applied bin.Add ty) a b }
{
    let _ty = ty;
    a + b
}

#[inline(always)]
fn sub(ty: Ty, a: u32x32, b: u32x32) -> u32x32
    ensures { result ≡ zip2 (applied bin.Sub ty) a b }
{
    let _ty = ty;
    a - b
}

#[inline(always)]
fn mul(ty: Ty, a: u32x32, b: u32x32) -> u32x32
    ensures { result ≡ zip2 (applied bin.Mul ty) a b }
{
    let _ty = ty;
    a * b
}

#[inline(always)]
fn and(ty: Ty, a: u32x32, b: u32x32) -> u32x32
    ensures { result ≡ zip2 (applied bin.And ty) a b }
{
    let _ty = ty;
    a & b
}

#[inline(always)]
fn or(ty: Ty, a: u32x32, b: u32x32) -> u32x32
    ensures { result ≡ zip2 (applied bin.Or ty) a b }
{
    let _ty = ty;
    a | b
}

#[inline(always)]
fn xor(ty: Ty, a: u32x32, b: u32x32) -> u32x32
    ensures { result ≡ zip2 (applied bin.Xor ty) a b }
{
    let _ty = ty;
    a ^ b
}

#[inline(always)]
fn eq(ty: Ty, a: u32x32, b: u32x32) -> u32x32
    ensures { result ≡ zip2 (applied bin.Eq ty) a b }
{
    let _ty = ty;
    a.simd_eq(b).select(u32x32::splat(1), u32x32::splat(0))
}

#[inline(always)]
fn ne(ty: Ty, a: u32x32, b: u32x32) -> u32x32
    ensures { result ≡ zip2 (applied bin.Ne ty) a b }
{
    let _ty = ty;
    a.simd_eq(b).select(u32x32::splat(0), u32x32::splat(1))
}

/// What a word is raised by to keep the order of the numbers.
#[inline(always)]
fn raise(ty: Ty) -> u32
    ensures { (w : ℕ) → w < 2 ^ 32 → (w + result) % 2 ^ 32 ≡ rank_of ty w }
{
    match ty {
        Ty::I32 => 0x8000_0000,
        Ty::U32 => 0,
        Ty::Bool => 0,
    }
}

/// Words in the order of their numbers.
#[inline(always)]
fn ranks(ty: Ty, a: u32x32) -> u32x32
    ensures { result ≡ map (rank_of ty) a }
{
    a + u32x32::splat(raise(ty))
}

/// 1 where a word is below another.
#[inline(always)]
fn less(a: u32x32, b: u32x32) -> u32x32
    ensures { result ≡ zip2 (λ x y. flag (nat_lt x y)) a b }
{
    a.simd_lt(b).select(u32x32::splat(1), u32x32::splat(0))
}

#[inline(always)]
fn lt(ty: Ty, a: u32x32, b: u32x32) -> u32x32
    ensures { result ≡ zip2 (applied bin.Lt ty) a b }
{
    less(ranks(ty, a), ranks(ty, b))
}

#[inline(always)]
fn gt(ty: Ty, a: u32x32, b: u32x32) -> u32x32
    ensures { result ≡ zip2 (applied bin.Gt ty) a b }
{
    ranks(ty, b)
        .simd_lt(ranks(ty, a))
        .select(u32x32::splat(1), u32x32::splat(0))
}

#[inline(always)]
fn le(ty: Ty, a: u32x32, b: u32x32) -> u32x32
    ensures { result ≡ zip2 (applied bin.Le ty) a b }
{
    ranks(ty, b)
        .simd_lt(ranks(ty, a))
        .select(u32x32::splat(0), u32x32::splat(1))
}

#[inline(always)]
fn ge(ty: Ty, a: u32x32, b: u32x32) -> u32x32
    ensures { result ≡ zip2 (applied bin.Ge ty) a b }
{
    ranks(ty, a)
        .simd_lt(ranks(ty, b))
        .select(u32x32::splat(0), u32x32::splat(1))
}

/// 1 where a word isn't 0.
#[inline(always)]
fn truths(a: u32x32) -> u32x32
    ensures { result ≡ map (λ x. if x == 0 then 0 else 1) a }
{
    a.simd_eq(u32x32::splat(0))
        .select(u32x32::splat(0), u32x32::splat(1))
}

#[inline(always)]
fn land(ty: Ty, a: u32x32, b: u32x32) -> u32x32
    ensures { result ≡ zip2 (applied bin.LAnd ty) a b }
{
    let _ty = ty;
    truths(a) & truths(b)
}

#[inline(always)]
fn lor(ty: Ty, a: u32x32, b: u32x32) -> u32x32
    ensures { result ≡ zip2 (applied bin.LOr ty) a b }
{
    let _ty = ty;
    truths(a) | truths(b)
}

#[inline(always)]
fn min(ty: Ty, a: u32x32, b: u32x32) -> u32x32
    ensures { result ≡ zip2 (applied bin.Min ty) a b }
{
    ranks(ty, b).simd_lt(ranks(ty, a)).select(b, a)
}

#[inline(always)]
fn max(ty: Ty, a: u32x32, b: u32x32) -> u32x32
    ensures { result ≡ zip2 (applied bin.Max ty) a b }
{
    ranks(ty, b).simd_lt(ranks(ty, a)).select(a, b)
}

#[inline(always)]
fn neg(a: u32x32) -> u32x32
    ensures { result ≡ map (applied_un un.Neg) a }
{
    u32x32::splat(0) - a
}

#[inline(always)]
fn not(a: u32x32) -> u32x32
    ensures { result ≡ map (applied_un un.Not) a }
{
    u32x32::splat(0xffff_ffff) - a
}

#[inline(always)]
fn lnot(a: u32x32) -> u32x32
    ensures { result ≡ map (applied_un un.LNot) a }
{
    a.simd_eq(u32x32::splat(0))
        .select(u32x32::splat(1), u32x32::splat(0))
}
