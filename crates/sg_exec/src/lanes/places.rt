ghost use Rattle.std.specs.Prelude.{◌≡◌, IfSome};
ghost use Rattle.sg_exec.specs.steps.Machines.{IsStoreOf};

use crate::lanes::columns::Columns;
use crate::lanes::held::Held;
use crate::lanes::held_row::{HeldRow, checked, in_all, words_of};
use crate::lanes::held_rows::HeldRows;
use crate::lanes::held_steps::{row_active, row_below, row_values};
use crate::lanes::known::{Known, known_of};
use crate::lanes::near::ends_dense;
use crate::lanes::row::row;
use crate::lanes::spots::{cell_held, root_of};
use crate::lanes::view::View;
use sg_ir::places_tell;
use sg_store::{Store, Stores};
use std::alloc::Global;
use std::marker::Model;
use std::simd::prelude::*;

/// The places of iterations side by side: for each place register a row of spots, each with its layout, or none if nothing is active.
/// Contracts see the stores and the rows.
#[derive(Drop)]
pub struct Places<'a> {
    view: View<'a>,
    rows: HeldRows,
}

impl<'a> Model for Places<'a> {
    ghost use Rattle.sg_exec.specs.steps.Machines.{PlaceRows, AreHeld};

    ghost Value = { PlaceRows };

    ghost view = { λ places. record {
      stores = places.view;
      list = places.rows;
    } };

    ghost invariant = { λ places. AreHeld places.view places.rows };
}

impl<'a> Places<'a> {
    ghost use Rattle.std.specs.Prelude.{◌≡◌, ◌<◌, ◌≤◌, ◌+◌, ◌*◌, [], ℕ, length, get_or, if◌then◌else◌, IfSome, IsTrue, Option, Some, None};
    ghost use Rattle.std.specs.List.{AllZip};
    ghost use Rattle.sg_words.specs.Words.{number};
    ghost use Rattle.sg_words.specs.declared.operators.Ty.TheVariants as ty;
    ghost use Rattle.sg_coord.specs.Coord.{is_on_axis};
    ghost use Rattle.sg_coord.specs.declared.coord.Coord.{Coord};
    ghost use Rattle.sg_flat.specs.declared.state.FlatState.{FlatState};
    ghost use Rattle.sg_store.specs.StandsFor.{StandsFor};
    ghost use Rattle.sg_ir.specs.Runs.{Place, down, at_of};
    ghost use Rattle.sg_ir.specs.Places.{place_at};
    ghost use Rattle.sg_exec.specs.Standing.{shapes_of};
    ghost use Rattle.sg_exec.specs.steps.Accessing.{TellsActive, IsValueAt};
    ghost use Rattle.sg_exec.specs.steps.Landing.{current};
    ghost use Rattle.sg_exec.specs.steps.Rows.{item_in, On, IsPut};
    ghost use Rattle.sg_exec.specs.steps.Nearby.{may_follow};
    ghost use Rattle.sg_exec.specs.steps.Machines.{cell_there, IsCellOf, IsHeld, HoldsPlace, IsStoreOf};

    /// No places over the stores, with each copy in the place of the store that it was made of.
    pub fn new(alloc: Global, stores: &'a Stores, copies: &'a [Option<Store>]) -> Places<'a>
        ensures { result.stores ≡ current copies.now stores.now.list }
    {
        Places {
            view: View::of(stores, copies),
            rows: HeldRows::new(alloc),
        }
    }

    /// No places.
    #[inline(always)]
    pub fn start(&mut self)
        ensures stores { self.new.stores ≡ self.old.stores }
        ensures none { (place : ℕ) → get_or self.new.list place None ≡ None }
    {
        self.rows.start();
    }

    /// Makes the rows long enough for a number. False if memory runs out.
    #[inline(always)]
    pub fn reaches(&mut self, number: u32) -> bool
        ensures stores { self.new.stores ≡ self.old.stores }
        ensures long { IsTrue result → number * 32 + 32 ≤ length self.new.list }
        ensures same { (place : ℕ) → get_or self.new.list place None ≡ get_or self.old.list place None }
    {
        self.rows.reaches(number)
    }

    /// A place register becomes the root of a layout. False if the layout's number has no room in a word, where no memory has room for so
    /// many stores.
    #[inline(always)]
    pub fn root(&mut self, columns: &Columns, to: u32, layout: u32) -> bool
        requires to { to * 32 + 32 ≤ length self.old.list }
        ensures stores { self.new.stores ≡ self.old.stores }
        ensures put { IsTrue result → IsPut (λ k held. HoldsPlace self.old.stores held (Some (record { layout = layout; path = [] }))) (On columns.now.on) to None self.old.list self.new.list }
    {
        if layout >= MOST_LAYOUTS {
            return false;
        }
        let held = root_of(&self.view, layout);
        let row = in_all(words_of(held));
        self.rows.put(columns, to, &row);
        true
    }

    /// A place register becomes another where a register's word, as an i32, is from 0 to below the extent, and none if it isn't.
    #[inline(always)]
    pub fn check(
        &mut self,
        columns: &Columns,
        to: u32,
        place: u32,
        extent: u32,
        regs: &[u32],
        index: u32,
    )
        requires to { to * 32 + 32 ≤ length self.old.list }
        requires place { place * 32 + 32 ≤ length self.old.list }
        requires index { index * 32 + 32 ≤ length regs.now }
        ensures stores { self.new.stores ≡ self.old.stores }
        ensures put { IsPut (λ k held. held ≡ (if is_on_axis extent (number ty.I32 (item_in regs.now 0 k index)) then item_in self.old.list None k place else None))
            (On columns.now.on) to None self.old.list self.new.list }
    {
        let held = self.rows.row(place);
        let words = row(regs, index);
        let passing = checked(&held, extent, words);
        self.rows.put(columns, to, &passing);
    }

    /// A place register becomes the place one node below another, over a register's word.
    #[inline(always)]
    pub fn step(
        &mut self,
        columns: &Columns,
        to: u32,
        place: u32,
        node: u32,
        regs: &[u32],
        offset: u32,
    )
        requires to { to * 32 + 32 ≤ length self.old.list }
        requires place { place * 32 + 32 ≤ length self.old.list }
        requires offset { offset * 32 + 32 ≤ length regs.now }
        ensures stores { self.new.stores ≡ self.old.stores }
        ensures put { IsPut (λ k held. (there : Option Place) → HoldsPlace self.old.stores (item_in self.old.list None k place) there →
            HoldsPlace self.old.stores held (down (shapes_of self.old.stores) node (item_in regs.now 0 k offset) there)) (On columns.now.on) to None self.old.list self.new.list }
    {
        let held = self.rows.row(place);
        let words = row(regs, offset);
        let under = row_below(&self.view, columns, &held, node, words);
        self.rows.put(columns, to, &under);
    }

    /// The store of a layout, if there is one.
    #[inline(always)]
    pub fn store_of(&self, layout: u32) -> Option<Known<'a>>
        ensures { IfSome result (λ known. IsStoreOf self.now.stores known.layout known.store.now) }
    {
        known_of(&self.view, layout)
    }

    /// Whether cells of a layout's store may follow one another: whether its last node is dense. False if there is no such layout.
    #[inline(always)]
    pub fn may_follow(&self, layout: u32) -> bool
        ensures { result ≡ may_follow self.now.stores layout }
    {
        match self.view.get(layout) {
            Some(store) => ends_dense(store),
            None => false,
        }
    }

    /// The values of a field, from 0, at the places of some columns: 0 where nothing is active.
    #[inline(always)]
    pub fn values(&self, columns: &Columns, place: u32, field: u32) -> u32x32
        requires place { place * 32 + 32 ≤ length self.now.list }
        ensures { (k : ℕ) → k < 32 → On columns.now.on k → IsValueAt self.now.stores (item_in self.now.list None k place) field (get_or result k 0) }
    {
        let held = self.rows.row(place);
        row_values(&self.view, columns, &held, field)
    }

    /// Whether the places of some columns are active, as words 1 and 0.
    #[inline(always)]
    pub fn active(&self, columns: &Columns, place: u32) -> u32x32
        requires place { place * 32 + 32 ≤ length self.now.list }
        ensures { (k : ℕ) → k < 32 → On columns.now.on k → TellsActive self.now.stores (item_in self.now.list None k place) (get_or result k 0) }
    {
        let held = self.rows.row(place);
        row_active(&self.view, columns, &held)
    }

    /// The cell of a place of a column in a layout's store. None if nothing is active, and where the place is another layout's.
    #[inline(always)]
    pub fn cell(&self, known: Option<Known>, place: u32, k: usize, layout: u32) -> Option<u32>
        requires place { place * 32 + 32 ≤ length self.now.list }
        requires column { k < 32 }
        requires known { IfSome known (λ known. IsStoreOf self.now.stores known.layout known.store.now) }
        ensures reached { IfSome result (IsCellOf self.now.stores layout) }
        ensures cell { (there : Option Place) → HoldsPlace self.now.stores (item_in self.now.list None k place) there → (at : Coord) →
            there ≡ place_at (shapes_of self.now.stores) layout at →
            result ≡ cell_there self.now.stores layout (at_of (shapes_of self.now.stores) there) }
    {
        // for the law that it ensures
        places_tell();
        match self.held(place, k) {
            Some(held) => cell_held(&self.view, known, held, layout),
            None => None,
        }
    }

    /// What a place register of a column holds.
    #[inline(always)]
    fn held(&self, place: u32, k: usize) -> Option<Held>
        requires place { place * 32 + 32 ≤ length self.now.list }
        requires column { k < 32 }
        ensures value { result ≡ item_in self.now.list None k place }
        ensures held { IfSome result (IsHeld self.now.stores) }
    {
        self.rows.held(place, k)
    }
}

/// How many layouts have numbers that fit a word together with a node's.
const MOST_LAYOUTS: u32 = 0x2000_0000;
