//! Runs of a block in several iterations, which go side by side: each instruction is read once for all of them. Where they part, each
//! branch runs in the columns that take it.

ghost use Rattle.std.specs.Prelude.{◌≡◌, ◌<◌, ◌≤◌, ◌^◌, ℕ, ◌+ℤ◌, ◌-ℤ◌, pos, length};
ghost use Rattle.sg_words.specs.Words.{word_of};
ghost use Rattle.sg_layout.specs.Axes.{count_of};
ghost use Rattle.sg_flat.specs.Domain.{numbers};
ghost use Rattle.sg_ir.specs.Runs.{does, runs};
ghost use Rattle.sg_ir.specs.declared.code.Inst.TheVariants as v;
ghost use Rattle.sg_exec.specs.steps.Rows.{On};
ghost use Rattle.sg_exec.specs.steps.Moments.{run_turns, AllMove, IsOver};

use crate::lanes::batch::Batch;
use crate::lanes::columns::{Columns, has_some, where_set, where_zero};
use crate::lanes::effects::{contributions, own_writes, wants};
use crate::lanes::memory::{asks, checks, own_reads, reads, roots, steps};
use crate::lanes::row::row_or_zero;
use crate::lanes::words::{
    assigns, binaries, constants, extracts, offsets, products, set_vars, unaries, variables,
};
use sg_ir::Inst;
use sg_words::word_of;

/// Runs instructions one after the other, in some columns. Where there are none, nothing is to be done.
#[cycle(insts)]
#[inline(never)]
pub(crate) fn run_all(batch: &mut Batch, columns: &Columns, block: &[Inst])
    requires room { 32 ≤ length batch.old.moments.items }
    requires over { IsOver batch.old.places.stores batch.old }
    ensures { AllMove (λ seen. runs seen block.now) (On columns.now.on) batch.old batch.new }
{
    if !has_some(columns) {
        return;
    }
    for inst in block {
        run(batch, columns, inst);
    }
}

/// Runs an instruction. Where a register decides, first the columns go on in which it isn't 0, then those in which it is.
#[cycle(insts)]
fn run(batch: &mut Batch, columns: &Columns, inst: &Inst)
    requires room { 32 ≤ length batch.old.moments.items }
    requires over { IsOver batch.old.places.stores batch.old }
    ensures { AllMove (λ seen. does seen inst.now) (On columns.now.on) batch.old batch.new }
{
    match inst {
        Inst::Const { to, word } => constants(batch, columns, *to, *word),
        Inst::Var { to, var } => variables(batch, columns, *to, *var),
        Inst::Set { var, from } => assigns(batch, columns, *var, *from),
        Inst::Bin { to, op, ty, a, b } => binaries(batch, columns, *to, *op, *ty, *a, *b),
        Inst::Un { to, op, ty, a } => unaries(batch, columns, *to, *op, *ty, *a),
        Inst::Mulq { to, a, b, s } => products(batch, columns, *to, *a, *b, *s),
        Inst::Root { to, layout } => roots(batch, columns, *to, *layout),
        Inst::Check {
            to,
            place,
            axis,
            extent,
            index,
        } => checks(batch, columns, *to, *place, *axis, *extent, *index),
        Inst::Extract {
            to,
            div,
            size,
            from,
        } => extracts(batch, columns, *to, *div, *size, *from),
        Inst::Offset {
            to,
            high,
            size,
            low,
        } => offsets(batch, columns, *to, *high, *size, *low),
        Inst::Child {
            to,
            place,
            node,
            offset,
        } => steps(batch, columns, *to, *place, *node, *offset),
        Inst::HashChild {
            to,
            place,
            node,
            offset,
        } => steps(batch, columns, *to, *place, *node, *offset),
        Inst::MaskBit {
            to,
            place,
            node,
            offset,
        } => steps(batch, columns, *to, *place, *node, *offset),
        Inst::DynCell {
            to,
            place,
            node,
            offset,
        } => steps(batch, columns, *to, *place, *node, *offset),
        Inst::ReadCell {
            to,
            place,
            layout,
            field,
            index,
        } => reads(
            batch,
            columns,
            *to,
            *place,
            *layout,
            *field,
            index.as_slice(),
        ),
        Inst::IsActive { to, place, index } => {
            asks(batch, columns, *to, *place, index.as_slice())
        }
        Inst::OwnRead { to, layout, field } => own_reads(batch, columns, *to, *layout, *field),
        Inst::OwnWrite {
            layout,
            field,
            from,
            stmt,
        } => own_writes(batch, columns, *layout, *field, *from, *stmt),
        Inst::Acc {
            op,
            layout,
            field,
            place,
            from,
            index,
            stmt,
        } => contributions(
            batch,
            columns,
            *op,
            *layout,
            *field,
            *place,
            *from,
            index.as_slice(),
            *stmt,
        ),
        Inst::Want {
            layout,
            index,
            stmt,
        } => wants(batch, columns, *layout, index.as_slice(), *stmt),
        Inst::If { cond, yes, no } => {
            let decides = row_or_zero(batch.regs.as_slice(), *cond);
            run_all(batch, &where_set(columns, decides), yes.as_slice());
            run_all(batch, &where_zero(columns, decides), no.as_slice());
        }
        Inst::For { var, lo, hi, body } => run_turns(
            batch,
            columns,
            *var,
            *lo,
            *hi,
            body.as_slice(),
        ),
    }
}

/// Runs the body of an inner loop, with its variable at each of the numbers from one up to below another.
#[cycle(insts)]
fn run_turns(batch: &mut Batch, columns: &Columns, var: u32, lo: i32, hi: i32, body: &[Inst])
    requires room { 32 ≤ length batch.old.moments.items }
    requires over { IsOver batch.old.places.stores batch.old }
    ensures { AllMove (λ seen now. run_turns seen var body.now now (numbers lo hi)) (On columns.now.on) batch.old batch.new }
{
    for k in 0..count_between(lo, hi) {
        set_vars(batch, columns, var, turn_word(lo, k));
        run_all(batch, columns, body);
    }
}

/// The word of the number that is `k` past another.
fn turn_word(lo: i32, k: u64) -> u32
    requires { k < 2 ^ 33 }
    ensures { result ≡ word_of (lo +ℤ pos k) }
{
    word_of(i64::from(lo) + k as i64)
}

/// How many numbers there are from one up to below another.
fn count_between(lo: i32, hi: i32) -> u64
    ensures value { result ≡ count_of (hi -ℤ lo) }
    ensures few { result < 2 ^ 33 }
{
    let count = i64::from(hi) - i64::from(lo);
    if count < 0 { 0 } else { count as u64 }
}
