use crate::lanes::cell_write::CellWrite;
use crate::lanes::known::Known;
use crate::lanes::near::{Near, cell_by, near_of};
use crate::lanes::own::{cell_of, found_in, remember, value_of};
use crate::lanes::own_cell::OwnCell;
use crate::lanes::view::View;
use crate::lanes::written::Written;
use sg_coord::Coord;
use sg_store::{Store, Stores};
use sg_words::Memory;
use std::alloc::Global;
use std::marker::Model;

/// The cells of an iteration: those of its own coordinate, each of which is looked for once, and what it wrote. Contracts see the stores, the
/// coordinate and the writes.
#[derive(Drop)]
pub struct Cells<'a> {
    view: View<'a>,
    at: Coord,
    found: Vec<OwnCell>,
    written: Written,
}

impl<'a> Model for Cells<'a> {
    ghost use Rattle.sg_exec.specs.steps.Machines.{CellsMade, AreCellsMade};

    ghost Value = { CellsMade };

    ghost view = { λ cells. record {
      stores = cells.view;
      at = cells.at;
      writes = cells.written;
    } };

    ghost invariant = { λ cells. AreCellsMade (record {
      stores = cells.view;
      at = cells.at;
      writes = cells.written;
    }) cells.found.items };
}

impl<'a> Cells<'a> {
    ghost use Rattle.std.specs.Prelude.{◌≡◌, ◌++◌, ◌∷◌, [], IfSome, OnOk, Some};
    ghost use Rattle.std.specs.List.{AllZip};
    ghost use Rattle.sg_flat.specs.declared.state.FlatState.{FlatState};
    ghost use Rattle.sg_flat.specs.State.{value_of};
    ghost use Rattle.sg_store.specs.StandsFor.{StandsFor};
    ghost use Rattle.sg_exec.specs.Standing.{shapes_of};
    ghost use Rattle.sg_exec.specs.steps.Landing.{current};
    ghost use Rattle.sg_exec.specs.steps.Written.{own_write, last_or};
    ghost use Rattle.sg_exec.specs.steps.Machines.{cell_there, IsCellOf, IsStoreOf, AreCells};
    ghost use Rattle.sg_exec.specs.steps.Nearby.{IsNear};

    /// No cells over the stores, with each copy in the place of the store that it was made of.
    pub fn new(alloc: Global, stores: &'a Stores, copies: &'a [Option<Store>]) -> Cells<'a>
        ensures { result.stores ≡ current copies.now stores.now.list }
    {
        Cells {
            view: View::of(stores, copies),
            at: Coord {
                n: 0,
                a: 0,
                b: 0,
                c: 0,
            },
            found: Vec::new(alloc),
            written: Written::new(alloc),
        }
    }

    /// Nothing written, at the coordinate of another iteration.
    #[inline(always)]
    pub fn start(&mut self, at: Coord)
        ensures stores { self.new.stores ≡ self.old.stores }
        ensures at { self.new.at ≡ at }
        ensures writes { self.new.writes ≡ [] }
    {
        self.at = at;
        self.found.clear();
        self.written.clear();
    }

    /// The cell of the iteration's coordinate in a layout's store. None if the coordinate isn't active there.
    #[inline(always)]
    pub fn own_cell(&mut self, layout: u32) -> Option<u32>
        ensures cell { result ≡ cell_there self.old.stores layout (Some self.old.at) }
        ensures reached { IfSome result (IsCellOf self.old.stores layout) }
        ensures stays { self.new ≡ self.old }
    {
        if let Some(own) = found_in(self.found.as_slice(), layout) {
            return own.cell;
        }
        let cell = cell_of(&self.view, layout, self.at);
        remember(&mut self.found, OwnCell { layout, cell });
        cell
    }

    /// Looks for the cell of the iteration's coordinate in a layout's store, unless it was found already: by what is near, where its cell
    /// follows that. What is near for the next iteration is answered.
    #[inline(always)]
    pub fn find_by(&mut self, layout: u32, near: Option<Near>) -> Option<Near>
        requires near { IfSome near (IsNear self.old.stores layout) }
        ensures stays { self.new ≡ self.old }
        ensures near { IfSome result (IsNear self.old.stores layout) }
    {
        match found_in(self.found.as_slice(), layout) {
            Some(_own) => near,
            None => self.find_new(layout, near),
        }
    }

    /// The same where it wasn't found yet.
    #[inline(always)]
    fn find_new(&mut self, layout: u32, near: Option<Near>) -> Option<Near>
        requires near { IfSome near (IsNear self.old.stores layout) }
        ensures stays { self.new ≡ self.old }
        ensures near { IfSome result (IsNear self.old.stores layout) }
    {
        match cell_by(near, self.at) {
            Some(cell) => {
                self.keep(layout, Some(cell));
                near
            }
            None => self.look(layout),
        }
    }

    /// Looks for the cell down the tree.
    fn look(&mut self, layout: u32) -> Option<Near>
        ensures stays { self.new ≡ self.old }
        ensures near { IfSome result (IsNear self.old.stores layout) }
    {
        let cell = cell_of(&self.view, layout, self.at);
        self.keep(layout, cell);
        near_of(&self.view, layout, self.at, cell)
    }

    /// Keeps the cell of the iteration's coordinate in a layout's store.
    #[inline(always)]
    fn keep(&mut self, layout: u32, cell: Option<u32>)
        requires own { cell ≡ cell_there self.old.stores layout (Some self.old.at) }
        requires reached { IfSome cell (IsCellOf self.old.stores layout) }
        ensures { self.new ≡ self.old }
    {
        remember(&mut self.found, OwnCell { layout, cell });
    }

    /// The value of a field in the iteration's own cell, both from 0: the last own value, or else the store's, which is 0 if the
    /// coordinate isn't active, and if there is no such layout or field.
    #[inline(always)]
    pub fn own_value(&mut self, known: Option<Known>, layout: u32, place: u32) -> u32
        requires known { IfSome known (λ known. IsStoreOf self.old.stores known.layout known.store.now) }
        ensures value { (state : FlatState) → AllZip StandsFor self.old.stores state.layouts →
            result ≡ last_or (own_write layout place self.old.writes) (value_of (shapes_of self.old.stores) state layout place self.old.at) }
        ensures stays { self.new ≡ self.old }
    {
        if let Some(write) = self.written.own_write(layout, place) {
            return write.value;
        }
        let cell = self.own_cell(layout);
        value_of(&self.view, known, layout, place, cell)
    }

    /// Adds a write.
    #[inline(always)]
    pub fn write(&mut self, write: CellWrite) -> Result<(), Memory>
        requires cell { IfSome write.cell (IsCellOf self.old.stores write.layout) }
        ensures ok { OnOk result (self.new ≡ record self.old { writes = self.old.writes ++ write ∷ [] }) }
        ensures stores { self.new.stores ≡ self.old.stores }
    {
        self.written.push(write)
    }

    /// The writes so far, in order.
    pub fn writes(&self) -> &[CellWrite]
        ensures value { result.now ≡ self.now.writes }
        ensures cells { AreCells self.now.stores result.now }
    {
        self.written.as_slice()
    }

    /// The last own write to a field so far, both from 0.
    pub fn own_write(&self, layout: u32, place: u32) -> Option<CellWrite>
        ensures { result ≡ own_write layout place self.now.writes }
    {
        self.written.own_write(layout, place)
    }
}
