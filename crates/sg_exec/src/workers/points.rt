//! The points that a loop visits, by their numbers.

ghost use Rattle.std.specs.Prelude.{◌≡◌, ◌≤◌, ℕ, Some, IsTrue, slice_get, IfOk};
ghost use Rattle.std.specs.List.{AllZip};
ghost use Rattle.sg_coord.specs.Bounds.{IsBounds};
ghost use Rattle.sg_layout.specs.Axes.{bounds_of_shape};
ghost use Rattle.sg_layout.specs.Rules.{all_dense};
ghost use Rattle.sg_flat.specs.declared.effects.Domain.TheVariants.{Walk};
ghost use Rattle.sg_flat.specs.declared.state.FlatLayout.{FlatLayout};
ghost use Rattle.sg_flat.specs.declared.state.FlatState.{FlatState};
ghost use Rattle.sg_store.specs.StoreWords.{StoreWords};
ghost use Rattle.sg_flat.specs.Domain.{domain_points};
ghost use Rattle.sg_store.specs.StandsFor.{StandsFor};

use crate::lanes::batch::SIDE_BY_SIDE;
use crate::workers::region::{Region, region_of, region_within};
use sg_coord::Coord;
use sg_elements::elements_by_workers;
use sg_flat::Domain;
use sg_layout::dense_is_full;
use sg_store::{Store, Stores};
use sg_words::{Items, Memory};
use std::alloc::Global;
use std::marker::Model;
use std::thread::Threads;

/// The points that a loop visits, in row order. Contracts see their list; the points of a box, and of a walk over dense nodes, are
/// found by their numbers, and no list is made of them.
#[derive(Drop)]
pub struct Points {
    form: Form,
}

/// All points of a region, or listed ones.
#[derive(Drop)]
pub enum Form {
    Within(Region),
    Listed(Items<Coord>),
}

impl Model for Points {
    ghost use Rattle.std.specs.Prelude.{List};
    ghost use Rattle.sg_coord.specs.declared.coord.Coord.{Coord};
    ghost use Rattle.sg_exec.specs.steps.Boxes.{points_of, IsForm};

    ghost Value = { List Coord };

    ghost view = { λ points. points_of points.form };

    ghost invariant = { λ points. IsForm points.form };
}

impl Points {
    ghost use Rattle.std.specs.Prelude.{◌≡◌, ◌≤◌, ◌+◌, length, take, drop, Contains, IfSome, OnOk};
    ghost use Rattle.sg_coord.specs.declared.coord.Coord.{Coord};
    ghost use Rattle.sg_exec.specs.steps.Boxes.{IsRegion, IsUpToMost, region_points};

    /// All points of a region.
    fn within(region: Region) -> Points
        requires { IsRegion region }
        ensures { result ≡ region_points region }
    {
        Points {
            form: Form::Within(region),
        }
    }

    /// Listed points.
    fn listed(list: Items<Coord>) -> Points
        ensures { result ≡ list }
    {
        Points {
            form: Form::Listed(list),
        }
    }

    /// How many points there are.
    pub fn len(&self) -> usize
        ensures { result ≡ length self.now }
    {
        match &self.form {
            Form::Within(region) => region.count as usize,
            Form::Listed(list) => list.len(),
        }
    }

    /// What no part of a point is past, if it is known and no part is below 0.
    pub fn most(&self) -> Option<Most>
        ensures { IfSome result (λ most. (at : Coord) → Contains self.now at → IsUpToMost most at) }
    {
        match &self.form {
            Form::Within(region) => region.most(),
            Form::Listed(_list) => None,
        }
    }

    /// Makes a row of so many points, from the one with a number on.
    pub fn fill(&self, first: usize, count: usize, row: &mut Vec<Coord>) -> Result<(), Memory>
        requires within { first + count ≤ length self.now }
        ensures { OnOk result (row.new.items ≡ take count (drop first self.now)) }
    {
        row.clear();
        match &self.form {
            Form::Within(region) => region.push_some(first as u32, count as u32, row),
            Form::Listed(list) => {
                row.extend_from_slice(&list.as_slice()[first..first + count])?;
                Ok(())
            }
        }
    }
}

/// For each axis a word that no part of a point is past, where none is below 0.
#[derive(Clone, Copy)]
pub struct Most {
    pub a: u32,
    pub b: u32,
    pub c: u32,
}

/// A row for as many points as go side by side.
pub(crate) fn row_for(alloc: Global) -> Result<Vec<Coord>, Memory> {
    Ok(Vec::with_capacity(alloc, SIDE_BY_SIDE)?)
}

/// The points that a loop visits, in row order. Those of a walk over other nodes than dense ones are listed by so many workers.
pub(crate) fn domain_points<R: Threads + Sync>(
    rt: &R,
    alloc: Global,
    stores: &Stores,
    domain: Domain,
    workers: u32,
) -> Result<Points, Memory>
    requires some { 1 ≤ workers }
    ensures points { IfOk result (λ points. (state : FlatState) → AllZip StandsFor stores.now.list state.layouts →
        points ≡ domain_points state domain) }
    ensures bounds { IfOk result (λ _. (layout : ℕ) (store : StoreWords) → domain ≡ Walk layout →
        slice_get stores.now.list layout ≡ Some store → IsBounds (bounds_of_shape store.shape)) }
{
    match domain {
        Domain::Walk { layout } => match stores.list.get(layout as usize) {
            Some(store) => {
                // for the bounds that they ensure
                let _extents = store.layout().extents();
                active_points(rt, alloc, store, workers)
            }
            None => Ok(Points::listed(Items::new(alloc))),
        },
        Domain::Range { lo, hi } => Ok(Points::within(region_of(lo, hi)?)),
    }
}

/// The active coordinates of a store, in row order.
fn active_points<R: Threads + Sync>(
    rt: &R,
    alloc: Global,
    store: &Store,
    workers: u32,
) -> Result<Points, Memory>
    requires some { 1 ≤ workers }
    ensures { IfOk result (λ points. (flat : FlatLayout) → StandsFor store.now flat → points ≡ flat.active) }
{
    if store.layout().shape().is_dense() {
        return Ok(every_point(store));
    }
    Ok(Points::listed(elements_by_workers(rt, alloc, store, workers)?))
}

/// All points of a store all of whose nodes are dense.
fn every_point(store: &Store) -> Points
    requires { IsTrue (all_dense store.now.shape.nodes) }
    ensures { (flat : FlatLayout) → StandsFor store.now flat → result ≡ flat.active }
{
    // for the law that it ensures
    dense_is_full();
    Points::within(region_within(&store.layout().extents()))
}
