//! Operators on two rows of 32 words, of which the second often is one word in all lanes.

ghost use Rattle.std.specs.Prelude.{◌≡◌, ◌<◌, ◌≤◌, ◌+◌, ◌-◌, ◌/◌, ◌%◌, ◌^◌, map, nat_lt, if◌then◌else◌};
ghost use Rattle.std.specs.Simd.Lanes.{zip2};
ghost use Rattle.sg_words.specs.Words.{applied};
ghost use Rattle.sg_words.specs.declared.operators.BinOp.TheVariants as bin;
ghost use Rattle.sg_words.specs.declared.operators.Ty.TheVariants as ty;

use crate::lanes::operators::{are_all, first_lane, lane_by_lane};
use sg_words::{BinOp, Ty, apply};
use std::simd::prelude::*;

/// Quotients. Where all divisors are one word, that is asked once for all lanes.
#[inline(always)]
pub(crate) fn div(ty: Ty, a: u32x32, b: u32x32) -> u32x32
    ensures { result ≡ zip2 (applied bin.Div ty) a b }
{
    let word = first_lane(b);
    if !are_all(b, word) {
        return lane_by_lane(BinOp::Div, ty, a, b);
    }
    divided_by(ty, a, word)
}

/// The same of words shifted down.
#[inline(always)]
pub(crate) fn shr(ty: Ty, a: u32x32, b: u32x32) -> u32x32
    ensures { result ≡ zip2 (applied bin.Shr ty) a b }
{
    let word = first_lane(b);
    if !are_all(b, word) {
        return lane_by_lane(BinOp::Shr, ty, a, b);
    }
    shifted_by(ty, a, word)
}

/// The same of words shifted up.
#[inline(always)]
pub(crate) fn shl(ty: Ty, a: u32x32, b: u32x32) -> u32x32
    ensures { result ≡ zip2 (applied bin.Shl ty) a b }
{
    let word = first_lane(b);
    if !are_all(b, word) {
        return shl_each(ty, a, b);
    }
    raised_by(ty, a, word)
}

#[inline(always)]
fn shl_each(ty: Ty, a: u32x32, b: u32x32) -> u32x32
    ensures { result ≡ zip2 (applied bin.Shl ty) a b }
{
    let _ty = ty;
    a << (b & u32x32::splat(31))
}

/// Words divided by one word.
#[inline(always)]
fn divided_by(ty: Ty, a: u32x32, word: u32) -> u32x32
    ensures { result ≡ map (λ x. applied bin.Div ty x word) a }
{
    match ty {
        Ty::I32 => quotients(a, word),
        Ty::U32 => each_by(BinOp::Div, Ty::U32, a, word),
        Ty::Bool => each_by(BinOp::Div, Ty::Bool, a, word),
    }
}

/// Words shifted down by one word.
#[inline(always)]
fn shifted_by(ty: Ty, a: u32x32, word: u32) -> u32x32
    ensures { result ≡ map (λ x. applied bin.Shr ty x word) a }
{
    match ty {
        Ty::I32 => each_by(BinOp::Shr, Ty::I32, a, word),
        Ty::U32 => each_by(BinOp::Shr, Ty::U32, a, word),
        Ty::Bool => each_by(BinOp::Shr, Ty::Bool, a, word),
    }
}

/// Words shifted up by one word.
#[inline(always)]
fn raised_by(ty: Ty, a: u32x32, word: u32) -> u32x32
    ensures { result ≡ map (λ x. applied bin.Shl ty x word) a }
{
    each_by(BinOp::Shl, ty, a, word)
}

/// What an operator gives on each of some words and one word.
#[inline(always)]
fn each_by(op: BinOp, ty: Ty, a: u32x32, word: u32) -> u32x32
    ensures { result ≡ map (λ x. applied op ty x word) a }
{
    let a = a.to_array();
    let mut words = [0; 32];
    for k in 0..32 {
        words[k] = apply(op, ty, a[k], word);
    }
    u32x32::from_array(words)
}

/// Words as I32, divided by one word: where that is more than 0, by a product and a shift.
#[inline(always)]
fn quotients(a: u32x32, word: u32) -> u32x32
    ensures { result ≡ map (λ x. applied bin.Div ty.I32 x word) a }
{
    if word == 0 {
        return each_by(BinOp::Div, Ty::I32, a, word);
    }
    if word >= 0x8000_0000 {
        return each_by(BinOp::Div, Ty::I32, a, word);
    }
    quotients_over(a, word, log_of(word))
}

/// Words as I32, divided by a number that lies between two powers of two.
#[inline(always)]
fn quotients_over(a: u32x32, div: u32, log: u32) -> u32x32
    requires log { log ≤ 30 }
    requires low { 2 ^ log ≤ div }
    requires high { div < 2 ^ (log + 1) }
    ensures { result ≡ map (λ x. applied bin.Div ty.I32 x div) a }
{
    let over = over_for(div, log);
    let a = a.to_array();
    let mut words = [0; 32];
    for k in 0..32 {
        words[k] = quotient_word(a[k], div, log, over);
    }
    u32x32::from_array(words)
}

/// What a number is multiplied by to be divided, where 2^(log + 32) is then divided off.
#[inline(always)]
fn over_for(div: u32, log: u32) -> u64
    requires log { log ≤ 30 }
    requires some { 1 ≤ div }
    ensures { result ≡ 2 ^ (log + 32) / div + 1 }
{
    (1_u64 << (log + 32)) / div as u64 + 1
}

/// A word as I32, divided by a number: the quotient of its size, with its sign.
#[inline(always)]
fn quotient_word(a: u32, div: u32, log: u32, over: u64) -> u32
    requires log { log ≤ 30 }
    requires low { 2 ^ log ≤ div }
    requires high { div < 2 ^ (log + 1) }
    requires over { over ≡ 2 ^ (log + 32) / div + 1 }
    ensures { result ≡ applied bin.Div ty.I32 a div }
{
    with_sign(a, quotient_of(size_of(a), div, log, over))
}

/// How far from 0 a word is as I32.
#[inline(always)]
fn size_of(a: u32) -> u32
    ensures is { result ≡ (if nat_lt a (2 ^ 31) then a else 2 ^ 32 - a) }
    ensures most { result ≤ 2 ^ 31 }
{
    if a < 0x8000_0000 {
        a
    } else {
        0_u32.wrapping_sub(a)
    }
}

/// A number with the sign that a word has as I32.
#[inline(always)]
fn with_sign(a: u32, size: u32) -> u32
    requires { size ≤ 2 ^ 31 }
    ensures { result ≡ (if nat_lt a (2 ^ 31) then size else (2 ^ 32 - size) % 2 ^ 32) }
{
    if a < 0x8000_0000 {
        size
    } else {
        0_u32.wrapping_sub(size)
    }
}

/// A number up to 2^31 divided by another, by a product and a shift.
#[inline(always)]
fn quotient_of(size: u32, div: u32, log: u32, over: u64) -> u32
    requires size { size ≤ 2 ^ 31 }
    requires log { log ≤ 30 }
    requires low { 2 ^ log ≤ div }
    requires high { div < 2 ^ (log + 1) }
    requires over { over ≡ 2 ^ (log + 32) / div + 1 }
    ensures is { result ≡ size / div }
    ensures most { result ≤ 2 ^ 31 }
{
    let _div = div;
    ((size as u64 * over) >> (log + 32)) as u32
}

/// The exponent of the greatest power of two that a number reaches.
fn log_of(number: u32) -> u32
    requires some { 1 ≤ number }
    requires few { number < 2 ^ 31 }
    ensures log { result ≤ 30 }
    ensures low { 2 ^ result ≤ number }
    ensures high { number < 2 ^ (result + 1) }
{
    number.ilog2()
}
