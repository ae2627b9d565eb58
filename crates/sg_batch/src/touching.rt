//! Which layouts kernels write and touch, found in their texts without memory.

ghost use Rattle.std.specs.Prelude.{◌≡◌, ◌++◌, ◌∷◌, [], ℕ, List, Some, true, false, Contains};
ghost use Rattle.std.specs.List.{flat_map};
ghost use Rattle.sg_ir.specs.Touches.{layouts_written, layouts_touched, layouts_walked, touched_by, written_by};
ghost use Rattle.sg_batch.specs.Independent.{are_independent, leaves_alone};
ghost use Rattle.sg_batch.specs.steps.Next.{IsNext};

use sg_flat::Domain;
use sg_ir::{Inst, KernelCode};

/// Whether neither of two kernels touches what the other writes.
pub(crate) fn independent(one: &KernelCode, other: &KernelCode) -> bool
    ensures { result ≡ are_independent one.now other.now }
{
    left_alone(one, other) && left_alone(other, one)
}

/// Whether no layout that one kernel writes is touched by the other. Each of these layouts takes one look at the texts of both.
fn left_alone(one: &KernelCode, other: &KernelCode) -> bool
    ensures { result ≡ leaves_alone one.now other.now }
{
    let mut from = 0_u64;
    while let Some(layout) = next_written(one, from) {
        if touches(other, layout) {
            return false;
        }
        let found = u64::from(layout);
        from = found + 1;
    }
    true
}

/// The least layout from a number on into which a kernel writes.
fn next_written(kernel: &KernelCode, from: u64) -> Option<u32>
    ensures { IsNext (layouts_written kernel.now) from result }
{
    let slice = kernel.slice.body.as_slice();
    let code = kernel.code.body.as_slice();
    let wanted = next_in(slice, from);
    let written = next_in(code, from);
    lesser(wanted, written)
}

/// The same of a block.
#[cycle(finding)]
fn next_in(block: &[Inst], from: u64) -> Option<u32>
    ensures { IsNext (flat_map written_by block.now) from result }
{
    let mut least = None;
    for inst in block {
        least = lesser(least, next_of(inst, from));
    }
    least
}

/// The same of an instruction.
#[cycle(finding)]
fn next_of(inst: &Inst, from: u64) -> Option<u32>
    ensures { IsNext (written_by inst.now) from result }
{
    match inst {
        Inst::Want { layout, .. } => not_below(*layout, from),
        Inst::OwnWrite { layout, .. } => not_below(*layout, from),
        Inst::Acc { layout, .. } => not_below(*layout, from),
        Inst::If { yes, no, .. } => {
            lesser(next_in(yes.as_slice(), from), next_in(no.as_slice(), from))
        }
        Inst::For { body, .. } => next_in(body.as_slice(), from),
        _ => None,
    }
}

/// A layout, unless it is below a number.
fn not_below(layout: u32, from: u64) -> Option<u32>
    ensures { IsNext (layout ∷ []) from result }
{
    let number = u64::from(layout);
    if number < from { None } else { Some(layout) }
}

/// The lesser of two numbers that may be there.
fn lesser(one: Option<u32>, other: Option<u32>) -> Option<u32>
    ensures { (first second : List ℕ) (from : ℕ) → IsNext first from one → IsNext second from other → IsNext (first ++ second) from result }
{
    match one {
        None => other,
        Some(left) => Some(least(left, other)),
    }
}

/// The lesser of a number and one that may be there.
fn least(left: u32, other: Option<u32>) -> u32
    ensures { (first second : List ℕ) (from : ℕ) → IsNext first from (Some left) → IsNext second from other → IsNext (first ++ second) from (Some result) }
{
    match other {
        None => left,
        Some(right) => if right < left { right } else { left },
    }
}

/// Whether a kernel writes, reads, asks or walks a layout.
fn touches(kernel: &KernelCode, layout: u32) -> bool
    ensures some { result ≡ true → Contains (layouts_touched kernel.now) layout }
    ensures none { result ≡ false → Contains (layouts_touched kernel.now) layout → ⊥ }
{
    text_touches(kernel, layout) || walks(kernel.domain, layout)
}

/// Whether the text of a kernel writes, reads or asks a layout.
fn text_touches(kernel: &KernelCode, layout: u32) -> bool
    ensures some { result ≡ true → Contains (flat_map touched_by kernel.now.slice.body ++ flat_map touched_by kernel.now.code.body) layout }
    ensures none { result ≡ false → Contains (flat_map touched_by kernel.now.slice.body ++ flat_map touched_by kernel.now.code.body) layout → ⊥ }
{
    touches_in(kernel.slice.body.as_slice(), layout)
        || touches_in(kernel.code.body.as_slice(), layout)
}

/// Whether a loop walks a layout.
fn walks(domain: Domain, layout: u32) -> bool
    ensures some { result ≡ true → Contains (layouts_walked domain) layout }
    ensures none { result ≡ false → Contains (layouts_walked domain) layout → ⊥ }
{
    match domain {
        Domain::Walk { layout: walked } => walked == layout,
        Domain::Range { lo: _lo, hi: _hi } => false,
    }
}

/// Whether a block writes, reads or asks a layout.
#[cycle(touching)]
fn touches_in(block: &[Inst], layout: u32) -> bool
    ensures some { result ≡ true → Contains (flat_map touched_by block.now) layout }
    ensures none { result ≡ false → Contains (flat_map touched_by block.now) layout → ⊥ }
{
    for inst in block {
        if touches_of(inst, layout) {
            return true;
        }
    }
    false
}

/// The same of an instruction.
#[cycle(touching)]
fn touches_of(inst: &Inst, layout: u32) -> bool
    ensures some { result ≡ true → Contains (touched_by inst.now) layout }
    ensures none { result ≡ false → Contains (touched_by inst.now) layout → ⊥ }
{
    match inst {
        Inst::Root { layout: named, .. } => *named == layout,
        Inst::ReadCell { layout: named, .. } => *named == layout,
        Inst::OwnRead { layout: named, .. } => *named == layout,
        Inst::Want { layout: named, .. } => *named == layout,
        Inst::OwnWrite { layout: named, .. } => *named == layout,
        Inst::Acc { layout: named, .. } => *named == layout,
        Inst::If { yes, no, .. } => {
            touches_in(yes.as_slice(), layout) || touches_in(no.as_slice(), layout)
        }
        Inst::For { body, .. } => touches_in(body.as_slice(), layout),
        _ => false,
    }
}
