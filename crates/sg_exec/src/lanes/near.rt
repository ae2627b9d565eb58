//! Cells by that of a coordinate near by, where cells follow one another along the last axis.

ghost use Rattle.std.specs.Prelude.{◌≡◌, ◌≤◌, ◌+ℤ◌, ℕ, List, pos, IfSome, Some};
ghost use Rattle.sg_store.specs.StoreWords.{StoreWords};
ghost use Rattle.sg_store.specs.Following.{along};
ghost use Rattle.sg_exec.specs.steps.Machines.{cell_there};
ghost use Rattle.sg_store.specs.Walks.{cell_in};
ghost use Rattle.sg_exec.specs.steps.Nearby.{IsNear, IsNearIn, IsFound, ends_dense, on_first, on_second, on_third};

use crate::lanes::view::View;
use sg_coord::Coord;
use sg_layout::Kind;
use sg_store::Store;

/// A coordinate with its cell in a layout's store, and how many cells follow it at least.
#[derive(Clone, Copy)]
pub struct Near {
    pub at: Coord,
    pub cell: u32,
    pub left: u32,
}

/// The cell of a coordinate by one whose cell is known, if it is so near that its cell follows.
#[inline(always)]
pub(crate) fn cell_by(near: Option<Near>, at: Coord) -> Option<u32>
    ensures { (stores : List StoreWords) (layout : ℕ) → IfSome near (IsNear stores layout) → IfSome result (IsFound stores layout at) }
{
    match near {
        Some(it) => cell_after(it, at),
        None => None,
    }
}

/// The same by one that is there.
#[inline(always)]
fn cell_after(near: Near, at: Coord) -> Option<u32>
    ensures { (stores : List StoreWords) (layout : ℕ) → IsNear stores layout near → IfSome result (IsFound stores layout at) }
{
    let far = distance(near.at, at);
    if far < 1 {
        return None;
    }
    let left = near.left;
    if far > left {
        return None;
    }
    let cell = near.cell;
    if cell > u32::MAX - far {
        return None;
    }
    Some(cell + far)
}

/// Whether the last node of a store is dense. Else no cell follows another.
#[inline(always)]
pub(crate) fn ends_dense(store: &Store) -> bool
    ensures { result ≡ ends_dense store.now.shape }
{
    let layout = store.layout();
    let node = &layout.shape().nodes.as_slice()[layout.nodes() - 1];
    node.kind == Kind::Dense
}

/// What is near for the next coordinate, where this one has a cell.
pub(crate) fn near_of(view: &View, layout: u32, at: Coord, cell: Option<u32>) -> Option<Near>
    requires cell { cell ≡ cell_there view.now layout (Some at) }
    ensures { IfSome result (IsNear view.now layout) }
{
    match view.get(layout) {
        Some(store) => near_in(store, at, cell),
        None => None,
    }
}

/// The same in a store.
fn near_in(store: &Store, at: Coord, cell: Option<u32>) -> Option<Near>
    requires cell { cell ≡ cell_in store.now at }
    ensures { IfSome result (IsNearIn store.now) }
{
    match cell {
        Some(cell) => {
            let left = store.cells_after(at);
            Some(Near { at, cell, left })
        }
        None => None,
    }
}

/// How much further a coordinate is along its last axis alone, and 0 if it isn't.
#[inline(always)]
fn distance(at: Coord, next: Coord) -> u32
    ensures { 1 ≤ result → next ≡ along result at }
{
    let n = at.n;
    if next.n != n {
        return 0;
    }
    if n >= 3 {
        return along_third(at, next);
    }
    if n >= 2 {
        return along_second(at, next);
    }
    along_first(at, next)
}

/// The same along the first axis.
#[inline(always)]
fn along_first(at: Coord, next: Coord) -> u32
    requires { next.n ≡ at.n }
    ensures { 1 ≤ result → next ≡ on_first result at }
{
    let (mine, its) = (at.b, next.b);
    if mine == its {
        let (here, there) = (at.c, next.c);
        if here == there {
            return difference(at.a, next.a);
        }
    }
    0
}

/// The same along the second axis.
#[inline(always)]
fn along_second(at: Coord, next: Coord) -> u32
    requires { next.n ≡ at.n }
    ensures { 1 ≤ result → next ≡ on_second result at }
{
    let (mine, its) = (at.a, next.a);
    if mine == its {
        let (here, there) = (at.c, next.c);
        if here == there {
            return difference(at.b, next.b);
        }
    }
    0
}

/// The same along the third axis.
#[inline(always)]
fn along_third(at: Coord, next: Coord) -> u32
    requires { next.n ≡ at.n }
    ensures { 1 ≤ result → next ≡ on_third result at }
{
    let (mine, its) = (at.a, next.a);
    if mine == its {
        let (here, there) = (at.b, next.b);
        if here == there {
            return difference(at.c, next.c);
        }
    }
    0
}

/// How much greater a number is than another, and 0 if it isn't.
#[inline(always)]
fn difference(part: i32, next: i32) -> u32
    ensures { 1 ≤ result → next ≡ part +ℤ pos result }
{
    if next <= part {
        0
    } else {
        (i64::from(next) - i64::from(part)) as u32
    }
}
