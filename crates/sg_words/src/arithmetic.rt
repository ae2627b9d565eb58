ghost use Rattle.std.specs.Prelude.{◌≡◌, ◌+◌, ◌-◌, ◌*◌, ◌%◌, ◌/◌, ◌^◌, ◌<◌, ◌≤◌, Bool, pos, negsuc, ◌≤ℤ◌, ◌<ℤ◌};
ghost use Rattle.sg_words.specs.Words.{number, word_of, flag, applied, applied_un, mulq_of, rank_of, unrank_of, folded};

use crate::operators::{AccOp, BinOp, Ty, UnOp};

/// The word that an operator gives on two words in a type. Defined on all words: a quotient by 0 is 0, a remainder by 0 the left word.
pub fn apply(op: BinOp, ty: Ty, a: u32, b: u32) -> u32
    ensures { result ≡ applied op ty a b }
{
    match op {
        BinOp::Add => a.wrapping_add(b),
        BinOp::Sub => a.wrapping_sub(b),
        BinOp::Mul => a.wrapping_mul(b),
        BinOp::Div => divided(ty, a, b),
        BinOp::Rem => remainder(ty, a, b),
        BinOp::And => a & b,
        BinOp::Or => a | b,
        BinOp::Xor => a ^ b,
        BinOp::LAnd => word_of_truth(a != 0 && b != 0),
        BinOp::LOr => word_of_truth(a != 0 || b != 0),
        BinOp::Shl => a.wrapping_shl(b),
        BinOp::Shr => word_of(number(ty, a) >> (b % 32)),
        BinOp::Min => smaller(ty, a, b),
        BinOp::Max => greater(ty, a, b),
        BinOp::Eq => word_of_truth(a == b),
        BinOp::Ne => word_of_truth(a != b),
        BinOp::Lt => word_of_truth(number(ty, a) < number(ty, b)),
        BinOp::Le => word_of_truth(number(ty, a) <= number(ty, b)),
        BinOp::Gt => word_of_truth(number(ty, b) < number(ty, a)),
        BinOp::Ge => word_of_truth(number(ty, b) <= number(ty, a)),
    }
}

/// The word that an operator gives on one word.
pub fn apply_un(op: UnOp, a: u32) -> u32
    ensures { result ≡ applied_un op a }
{
    match op {
        UnOp::Neg => 0u32.wrapping_sub(a),
        UnOp::Not => u32::MAX - a,
        UnOp::LNot => word_of_truth(a == 0),
    }
}

/// The product of two words as I32, divided by 2 to the power of `s` modulo 32 and rounded down, as a word.
pub fn mulq(a: u32, b: u32, s: u32) -> u32
    ensures { result ≡ mulq_of a b s }
{
    let product = number(Ty::I32, a) * number(Ty::I32, b);
    word_of(product >> (s % 32))
}

/// An old word `a` joined with a contribution `b`: their sum, the smaller or greater in the type's order, or the bitwise or, and,
/// exclusive or.
pub fn fold(op: AccOp, ty: Ty, a: u32, b: u32) -> u32
    ensures { result ≡ folded op ty a b }
{
    match op {
        AccOp::Add => a.wrapping_add(b),
        AccOp::Min => unrank(ty, rank(ty, a).min(rank(ty, b))),
        AccOp::Max => unrank(ty, rank(ty, a).max(rank(ty, b))),
        AccOp::Or => a | b,
        AccOp::And => a & b,
        AccOp::Xor => a ^ b,
    }
}

/// A number below 2^32 that keeps the type's order of words.
pub fn rank(ty: Ty, w: u32) -> u64
    ensures value { result ≡ rank_of ty w }
    ensures bound { result < 2 ^ 32 }
{
    match ty {
        Ty::I32 => (w as u64 + 0x8000_0000) % 0x1_0000_0000,
        Ty::U32 | Ty::Bool => w as u64,
    }
}

/// The word of a rank.
pub fn unrank(ty: Ty, k: u64) -> u32
    requires { k < 2 ^ 32 }
    ensures { result ≡ unrank_of ty k }
{
    match ty {
        Ty::I32 => ((k + 0x8000_0000) % 0x1_0000_0000) as u32,
        Ty::U32 | Ty::Bool => k as u32,
    }
}

/// The number that a word stands for in a type: as `I32` a word from 2^31 on is negative.
pub fn number(ty: Ty, w: u32) -> i64
    ensures value { result ≡ number ty w }
    ensures low { negsuc 2147483647 ≤ℤ result }
    ensures high { result <ℤ pos (2 ^ 32) }
{
    match ty {
        Ty::I32 => i64::from(w.cast_signed()),
        Ty::U32 | Ty::Bool => w as i64,
    }
}

/// The word of a whole number: the number modulo 2^32.
pub fn word_of(z: i64) -> u32
    ensures { result ≡ word_of z }
{
    (z.cast_unsigned() % 0x1_0000_0000) as u32
}

/// 1 or 0.
fn word_of_truth(truth: bool) -> u32
    ensures { result ≡ flag truth }
{
    if truth { 1 } else { 0 }
}

fn divided(ty: Ty, a: u32, b: u32) -> u32
    ensures { result ≡ applied BinOp.Div ty a b }
{
    if b == 0 {
        0
    } else {
        word_of(number(ty, a) / number(ty, b))
    }
}

fn remainder(ty: Ty, a: u32, b: u32) -> u32
    ensures { result ≡ applied BinOp.Rem ty a b }
{
    if b == 0 {
        a
    } else {
        word_of(number(ty, a) % number(ty, b))
    }
}

fn smaller(ty: Ty, a: u32, b: u32) -> u32
    ensures { result ≡ applied BinOp.Min ty a b }
{
    if number(ty, a) <= number(ty, b) { a } else { b }
}

fn greater(ty: Ty, a: u32, b: u32) -> u32
    ensures { result ≡ applied BinOp.Max ty a b }
{
    if number(ty, a) <= number(ty, b) { b } else { a }
}
