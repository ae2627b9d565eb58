//! Iterations that go side by side.

ghost use Rattle.std.specs.Prelude.{◌≡◌, ◌<◌, ◌≤◌, ◌+◌, ◌*◌, ℕ, Some, length, get_or, nat_lt, slice_get, if◌then◌else◌, IfOk, IsTrue, OnOk};
ghost use Rattle.sg_words.specs.Words.{word_of};
ghost use Rattle.sg_coord.specs.declared.coord.Coord.{Coord};
ghost use Rattle.sg_flat.specs.declared.state.FlatState.{FlatState};
ghost use Rattle.sg_ir.specs.Runs.{part_words};
ghost use Rattle.sg_exec.specs.steps.Machines.{Sees};
ghost use Rattle.sg_exec.specs.steps.Landing.{current};
ghost use Rattle.sg_exec.specs.steps.Rows.{item_in};
ghost use Rattle.sg_exec.specs.steps.Moments.{Iterated, IsOver, AreFresh, AreStarted};

use crate::lanes::columns::first_columns;
use crate::lanes::control::run_all;
use crate::lanes::moment::Moment;
use crate::lanes::places::Places;
use crate::lanes::row::{reaches, reset};
use sg_coord::Coord;
use sg_ir::Inst;
use sg_store::{Store, Stores};
use sg_words::{Memory, word_of};
use std::alloc::Global;

/// How many iterations a worker runs side by side, of the code and of its slice.
pub(crate) const SIDE_BY_SIDE: usize = 32;

/// How far iterations have come that go side by side, each in a column: the words of registers and variables, a row for each by its number (0
/// for those past the end), the places, and a moment for each. The rows are made once for a run; each worker has its own.
/// Where memory was wanting, `lacks` is true, and what the iterations made says nothing.
#[derive(Drop)]
pub struct Batch<'a> {
    pub regs: Vec<u32>,
    pub vars: Vec<u32>,
    pub places: Places<'a>,
    pub moments: Vec<Moment<'a>>,
    pub lacks: bool,
}

impl<'a> Batch<'a> {
    ghost use Rattle.std.specs.Prelude.{◌≡◌, ◌≤◌, ◌+◌, ◌*◌, length, false, true, IsTrue};
    ghost use Rattle.sg_exec.specs.steps.Moments.{KeepsRows};

    /// Makes the rows of registers long enough for these numbers. False if memory runs out.
    #[inline(always)]
    pub fn has_regs(&mut self, a: u32, b: u32, c: u32) -> bool
        ensures keeps { KeepsRows self.old self.new }
        ensures lacks { result ≡ false → self.new.lacks ≡ true }
        ensures a { IsTrue result → a * 32 + 32 ≤ length self.new.regs.items }
        ensures b { IsTrue result → b * 32 + 32 ≤ length self.new.regs.items }
        ensures c { IsTrue result → c * 32 + 32 ≤ length self.new.regs.items }
    {
        let has = reaches(&mut self.regs, a.max(b).max(c), 0);
        if !has {
            self.lacks = true;
        }
        has
    }

    /// The same for four numbers.
    #[inline(always)]
    pub fn has_four_regs(&mut self, a: u32, b: u32, c: u32, d: u32) -> bool
        ensures keeps { KeepsRows self.old self.new }
        ensures lacks { result ≡ false → self.new.lacks ≡ true }
        ensures a { IsTrue result → a * 32 + 32 ≤ length self.new.regs.items }
        ensures b { IsTrue result → b * 32 + 32 ≤ length self.new.regs.items }
        ensures c { IsTrue result → c * 32 + 32 ≤ length self.new.regs.items }
        ensures d { IsTrue result → d * 32 + 32 ≤ length self.new.regs.items }
    {
        let has = reaches(&mut self.regs, a.max(b).max(c).max(d), 0);
        if !has {
            self.lacks = true;
        }
        has
    }

    /// Makes the rows of variables long enough for a number. False if memory runs out.
    #[inline(always)]
    pub fn has_var(&mut self, var: u32) -> bool
        ensures keeps { KeepsRows self.old self.new }
        ensures lacks { result ≡ false → self.new.lacks ≡ true }
        ensures regs { length self.new.regs.items ≡ length self.old.regs.items }
        ensures var { IsTrue result → var * 32 + 32 ≤ length self.new.vars.items }
    {
        let has = reaches(&mut self.vars, var, 0);
        if !has {
            self.lacks = true;
        }
        has
    }

    /// Makes the rows of places long enough for these numbers. False if memory runs out.
    #[inline(always)]
    pub fn has_places(&mut self, a: u32, b: u32) -> bool
        ensures keeps { KeepsRows self.old self.new }
        ensures lacks { result ≡ false → self.new.lacks ≡ true }
        ensures regs { length self.new.regs.items ≡ length self.old.regs.items }
        ensures a { IsTrue result → a * 32 + 32 ≤ length self.new.places.list }
        ensures b { IsTrue result → b * 32 + 32 ≤ length self.new.places.list }
    {
        let has = self.places.reaches(a.max(b));
        if !has {
            self.lacks = true;
        }
        has
    }
}

/// The rows of 32 iterations over the stores, with each copy in the place of the store that it was made of.
pub(crate) fn batch_for<'a>(
    alloc: Global,
    stores: &'a Stores,
    copies: &'a [Option<Store>],
) -> Result<Batch<'a>, Memory>
    ensures over { IfOk result (IsOver (current copies.now stores.now.list)) }
{
    let mut moments = Vec::with_capacity(alloc, SIDE_BY_SIDE)?;
    for _number in 0..SIDE_BY_SIDE {
        moments.push(Moment::new(alloc, stores, copies))?;
    }
    Ok(Batch {
        regs: Vec::new(alloc),
        vars: Vec::new(alloc),
        places: Places::new(alloc, stores, copies),
        moments,
        lacks: false,
    })
}

/// Runs a block from the start of the iteration at each of these points, of which there are at most 32.
pub(crate) fn iterate_all(
    stores: &Stores,
    reached: &[Option<Store>],
    batch: &mut Batch,
    points: &[Coord],
    block: &[Inst],
) -> Result<(), Memory>
    requires few { length points.now ≤ 32 }
    requires over { IsOver (current reached.now stores.now.list) batch.old }
    ensures over { IsOver (current reached.now stores.now.list) batch.new }
    ensures ran { OnOk result ((state : FlatState) → Sees (current reached.now stores.now.list) state → (k : ℕ) (at : Coord) →
        slice_get points.now k ≡ Some at → Iterated (current reached.now stores.now.list) state at block.now batch.new k) }
{
    let (_stores, _reached) = (stores, reached);
    start_all(batch, points);
    run_all(batch, &first_columns(points.len()), block);
    if batch.lacks { Err(Memory) } else { Ok(()) }
}

/// The starts of the iterations at points.
fn start_all(batch: &mut Batch, points: &[Coord])
    requires few { length points.now ≤ 32 }
    requires room { length points.now ≤ length batch.old.moments.items }
    ensures { AreStarted points.now batch.old batch.new }
{
    reset(&mut batch.regs, 0);
    reset(&mut batch.vars, 0);
    batch.places.start();
    batch.lacks = false;
    start_moments(batch.moments.as_mut_slice(), points);
    if batch.has_var(2) {
        put_parts(batch.vars.as_mut_slice(), points);
    }
}

/// The starts of iterations beside their words and places.
fn start_moments(moments: &mut [Moment], points: &[Coord])
    requires room { length points.now ≤ length moments.old }
    ensures { AreFresh points.now moments.old moments.new }
{
    for k in 0..points.len() {
        let moment = &mut moments[k];
        moment.start(points[k]);
    }
}

/// Gives the first variables the words of coordinates' parts, where all are 0.
fn put_parts(vars: &mut [u32], points: &[Coord])
    requires room { 96 ≤ length vars.old }
    requires few { length points.now ≤ 32 }
    requires none { (place : ℕ) → get_or vars.old place 0 ≡ 0 }
    ensures long { length vars.new ≡ length vars.old }
    ensures parts { (k : ℕ) (at : Coord) → slice_get points.now k ≡ Some at →
        (number : ℕ) → item_in vars.new 0 k number ≡ get_or (part_words at) number 0 }
{
    for k in 0..points.len() {
        put_part(vars, k, points[k]);
    }
}

/// The same in one column.
#[inline(always)]
fn put_part(vars: &mut [u32], k: usize, at: Coord)
    requires room { 96 ≤ length vars.old }
    requires column { k < 32 }
    requires none { (number : ℕ) → item_in vars.old 0 k number ≡ 0 }
    ensures long { length vars.new ≡ length vars.old }
    ensures parts { (number : ℕ) → item_in vars.new 0 k number ≡ get_or (part_words at) number 0 }
    ensures others { (other number : ℕ) → other < 32 → (other ≡ k → ⊥) → item_in vars.new 0 other number ≡ item_in vars.old 0 other number }
{
    vars[k] = part_word(at.n, 0, at.a);
    vars[32 + k] = part_word(at.n, 1, at.b);
    vars[64 + k] = part_word(at.n, 2, at.c);
}

/// The word of a coordinate's part, and 0 past the last.
#[inline(always)]
fn part_word(n: u32, axis: u32, part: i32) -> u32
    ensures { result ≡ (if nat_lt axis n then word_of part else 0) }
{
    if axis < n {
        word_of(i64::from(part))
    } else {
        0
    }
}
