//! The turns of a run, and the layouts into which they want to write.

ghost use Rattle.std.specs.Prelude.{◌≡◌, ◌==◌, [], true, false, filter, Contains};
ghost use Rattle.sg_ir.specs.Touches.{layouts_wanted, wanted_by};
ghost use Rattle.sg_exec.specs.steps.Turning.{turn_count, MayWant, WantsNone, BlockWantsNone, InstWantsNone, BlockSeeksNone, InstSeeksNone};

use crate::workers::points::Points;
use sg_flat::Write;
use sg_ir::Inst;

/// The turns of a run: the iterations of a slice at points, or listed writes, each a turn of its own.
#[derive(Clone, Copy)]
pub enum Turns<'a> {
    Slice {
        points: &'a Points,
        block: &'a [Inst],
    },
    Rows(&'a [Write]),
}

/// How many turns there are.
pub(crate) fn count_of(turns: Turns) -> usize
    ensures { result ≡ turn_count turns.entry }
{
    match turns {
        Turns::Slice { points, .. } => points.len(),
        Turns::Rows(rows) => rows.len(),
    }
}

/// Whether some turn may want to write into a layout. Where the answer is no, none does.
pub(crate) fn turns_want(turns: Turns, layout: u32) -> bool
    ensures none { result ≡ false → WantsNone turns.entry layout }
    ensures text { result ≡ true → MayWant turns.entry layout }
{
    match turns {
        Turns::Slice { block, .. } => block_wants(block, layout),
        Turns::Rows(rows) => rows_want(rows, layout),
    }
}

/// Whether one of listed writes is into a layout.
fn rows_want(rows: &[Write], layout: u32) -> bool
    ensures { result ≡ false → filter (λ row. row.layout == layout) rows.now ≡ [] }
{
    for row in rows {
        if row.layout == layout {
            return true;
        }
    }
    false
}

/// Whether a block has an instruction that wants a coordinate of a layout, however deep it stands.
#[cycle(wanting)]
fn block_wants(block: &[Inst], layout: u32) -> bool
    ensures none { result ≡ false → BlockWantsNone layout block.now }
    ensures text { result ≡ true → Contains (layouts_wanted block.now) layout }
{
    for inst in block {
        if inst_wants(inst, layout) {
            return true;
        }
    }
    false
}

/// Whether an instruction, or one in it, wants a coordinate of a layout. Where the answer is no, none wants one.
#[cycle(wanting)]
fn inst_wants(inst: &Inst, layout: u32) -> bool
    ensures none { result ≡ false → InstWantsNone layout inst.now }
    ensures text { result ≡ true → Contains (wanted_by inst.now) layout }
{
    match inst {
        Inst::Want {
            layout: wanted,
            index: _index,
            stmt: _stmt,
        } => *wanted == layout,
        Inst::If {
            cond: _cond,
            yes,
            no,
        } => { block_wants(yes.as_slice(), layout) || block_wants(no.as_slice(), layout) }
        Inst::For {
            var: _var,
            lo: _lo,
            hi: _hi,
            body,
        } => block_wants(body.as_slice(), layout),
        _ => false,
    }
}

/// Whether a block has an instruction that wants a coordinate, of any layout and however deep it stands. Where the answer is no, it wants none.
#[cycle(seeking)]
pub(crate) fn block_seeks(block: &[Inst]) -> bool
    ensures { result ≡ false → BlockSeeksNone block.now }
{
    for inst in block {
        if inst_seeks(inst) {
            return true;
        }
    }
    false
}

/// Whether an instruction, or one in it, wants a coordinate, of any layout. Where the answer is no, none wants one.
#[cycle(seeking)]
fn inst_seeks(inst: &Inst) -> bool
    ensures { result ≡ false → InstSeeksNone inst.now }
{
    match inst {
        Inst::Want {
            layout: _layout,
            index: _index,
            stmt: _stmt,
        } => true,
        Inst::If {
            cond: _cond,
            yes,
            no,
        } => { block_seeks(yes.as_slice()) || block_seeks(no.as_slice()) }
        Inst::For {
            var: _var,
            lo: _lo,
            hi: _hi,
            body,
        } => block_seeks(body.as_slice()),
        _ => false,
    }
}
