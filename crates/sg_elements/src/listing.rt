ghost use Rattle.std.specs.Prelude.{◌≡◌, ◌^◌, ◌<◌, ◌≤◌, All, IfOk, IsTrue, length, map};
ghost use Rattle.std.specs.List.Sorted.{IsPermutation};
ghost use Rattle.sg_coord.specs.Bounds.{bounds_of, volume};
ghost use Rattle.sg_coord.specs.Coord.{point_at};
ghost use Rattle.sg_layout.specs.Rules.{all_dense};
ghost use Rattle.sg_flat.specs.declared.state.FlatLayout.{FlatLayout};
ghost use Rattle.sg_store.specs.StandsFor.{StandsFor};
ghost use Rattle.sg_elements.specs.Active.{CountsActive};
ghost use Rattle.sg_elements.specs.steps.Levels.{walk_rows};

use crate::dense::{every_point, next_point};
use crate::order::in_order;
use crate::reached::{reached_count, reached_count_by, reached_rows, rows_reached_by};
use sg_coord::{Coord, Extents, coord_at, first_coord, numbering};
use sg_layout::{closure_members, dense_is_full, paths_tell};
use sg_store::Store;
use sg_store::laws::cells_are_active;
use sg_words::{Items, Memory};
use std::alloc::Global;
use std::thread::Threads;

/// Each active coordinate once, in row order. It waits for nobody.
pub fn elements(alloc: Global, store: &Store) -> Result<Items<Coord>, Memory>
    ensures { IfOk result (λ coords. (flat : FlatLayout) → StandsFor store.now flat → coords ≡ flat.active) }
{
    if store.layout().shape().is_dense() {
        return dense_points(alloc, store);
    }
    let rows = reached_rows(alloc, store)?;
    points_in_order(alloc, store, rows)
}

/// The same by so many workers, each of which lists a part. It waits for them.
pub fn elements_by_workers<R: Threads + Sync>(
    rt: &R,
    alloc: Global,
    store: &Store,
    workers: u32,
) -> Result<Items<Coord>, Memory>
    requires some { 1 ≤ workers }
    ensures { IfOk result (λ coords. (flat : FlatLayout) → StandsFor store.now flat → coords ≡ flat.active) }
{
    if store.layout().shape().is_dense() {
        return dense_points(alloc, store);
    }
    let rows = rows_reached_by(rt, alloc, store, workers)?;
    points_in_order(alloc, store, rows)
}

/// How many coordinates are active. It waits for nobody.
pub fn active_count(alloc: Global, store: &Store) -> Result<usize, Memory>
    ensures { IfOk result (CountsActive store.now) }
{
    if store.layout().shape().is_dense() {
        return Ok(dense_count(store));
    }
    walk_counts(store);
    reached_count(alloc, store)
}

/// The same, counted by so many workers, each of which counts a part. It waits for them.
pub fn active_count_by_workers<R: Threads + Sync>(
    rt: &R,
    alloc: Global,
    store: &Store,
    workers: u32,
) -> Result<usize, Memory>
    requires some { 1 ≤ workers }
    ensures { IfOk result (CountsActive store.now) }
{
    if store.layout().shape().is_dense() {
        return Ok(dense_count(store));
    }
    walk_counts(store);
    reached_count_by(rt, alloc, store, workers)
}

/// How many points there are in a store all of whose nodes are dense.
fn dense_count(store: &Store) -> usize
    requires { IsTrue (all_dense store.now.shape.nodes) }
    ensures { CountsActive store.now result }
{
    // for the law that it ensures
    dense_is_full();
    let extents = store.layout().extents();
    extents.volume() as usize
}

/// The walk leads to as many coordinates as are active. It changes nothing.
fn walk_counts(store: &Store)
    ensures few { length (walk_rows store.now) < 2 ^ 32 }
    ensures counts { CountsActive store.now (length (walk_rows store.now)) }
{
    // for the laws that they ensure
    cells_are_active();
    paths_tell();
    closure_members();
    let extents = store.layout().extents();
    numbering(&extents);
}

/// All points of a store all of whose nodes are dense, in row order.
fn dense_points(alloc: Global, store: &Store) -> Result<Items<Coord>, Memory>
    requires { IsTrue (all_dense store.now.shape.nodes) }
    ensures { IfOk result (λ coords. (flat : FlatLayout) → StandsFor store.now flat → coords ≡ flat.active) }
{
    // for the law that it ensures
    dense_is_full();
    every_point(alloc, &store.layout().extents())
}

/// The points with the row numbers to which the walk leads, in row order.
fn points_in_order(alloc: Global, store: &Store, rows: Vec<u32>) -> Result<Items<Coord>, Memory>
    requires { IsPermutation (walk_rows store.now) rows.items }
    ensures { IfOk result (λ coords. (flat : FlatLayout) → StandsFor store.now flat → coords ≡ flat.active) }
{
    // for the laws that they ensure
    cells_are_active();
    paths_tell();
    closure_members();
    let extents = store.layout().extents();
    numbering(&extents);
    let ordered = in_order(alloc, rows, extents.volume())?;
    points_of(alloc, &extents, &ordered)
}

/// The points with these row numbers. Where they follow each other, each next point is found by counting up.
fn points_of(alloc: Global, extents: &Extents, rows: &[u32]) -> Result<Items<Coord>, Memory>
    requires { All (λ row. row < volume (bounds_of extents.now)) rows.now }
    ensures { IfOk result (λ coords. coords ≡ map (point_at (bounds_of extents.now)) rows.now) }
{
    // for the law that it ensures
    numbering(extents);
    let mut coords = Vec::with_capacity(alloc, rows.len())?;
    let mut next = Counted {
        row: 0,
        at: first_coord(extents),
    };
    for row in rows {
        let at = point_of(extents, *row, next);
        coords.push(at)?;
        next = Counted {
            row: *row + 1,
            at: next_point(extents, *row, at),
        };
    }
    Ok(Items::from_vec(coords))
}

/// A row number and the point that has it, if there is one.
#[derive(Clone, Copy)]
pub(crate) struct Counted {
    row: u32,
    at: Coord,
}

/// The point with a row number, where another one is known.
#[inline(always)]
fn point_of(extents: &Extents, row: u32, known: Counted) -> Coord
    requires below { row < volume (bounds_of extents.now) }
    requires known { known.row < volume (bounds_of extents.now) → known.at ≡ point_at (bounds_of extents.now) known.row }
    ensures { result ≡ point_at (bounds_of extents.now) row }
{
    if row == known.row {
        known.at
    } else {
        coord_at(extents, row)
    }
}
