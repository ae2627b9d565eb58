use crate::lanes::cell_write::CellWrite;
use crate::lanes::cells::Cells;
use crate::lanes::near::Near;
use sg_coord::Coord;
use sg_flat::{Way, Write};
use sg_store::{Store, Stores};
use sg_words::AccOp;
use std::alloc::Global;

/// What an iteration has made so far beside its words and places: its cells and writes, and its wants.
#[derive(Drop)]
pub struct Moment<'a> {
    pub cells: Cells<'a>,
    pub wants: Vec<Write>,
}

impl<'a> Moment<'a> {
    ghost use Rattle.std.specs.Prelude.{◌≡◌, [], IfSome, IsTrue};
    ghost use Rattle.sg_exec.specs.steps.Landing.{current};
    ghost use Rattle.sg_exec.specs.steps.Machines.{IsCellOf};
    ghost use Rattle.sg_exec.specs.steps.Nearby.{IsNear};
    ghost use Rattle.sg_exec.specs.steps.Accessing.{contribution, own_write_at, BecomesIf, IsWanted, IsWritten};

    /// Nothing made, over the stores, with each copy in the place of the store that it was made of.
    pub fn new(alloc: Global, stores: &'a Stores, copies: &'a [Option<Store>]) -> Moment<'a>
        ensures { result.cells.stores ≡ current copies.now stores.now.list }
    {
        Moment {
            cells: Cells::new(alloc, stores, copies),
            wants: Vec::new(alloc),
        }
    }

    /// Nothing made, at the coordinate of another iteration.
    #[inline(always)]
    pub fn start(&mut self, at: Coord)
        ensures stores { self.new.cells.stores ≡ self.old.cells.stores }
        ensures at { self.new.cells.at ≡ at }
        ensures writes { self.new.cells.writes ≡ [] }
        ensures wants { self.new.wants.items ≡ [] }
    {
        self.cells.start(at);
        self.wants.clear();
    }

    /// Looks for the iteration's own cell in a layout's store, if the lane isn't 0: by what is near, where it follows that. What is near
    /// for the next is answered.
    #[inline(always)]
    pub fn find_if(&mut self, lane: u32, layout: u32, near: Option<Near>) -> Option<Near>
        requires near { IfSome near (IsNear self.old.cells.stores layout) }
        ensures stays { self.new ≡ self.old }
        ensures near { IfSome result (IsNear self.old.cells.stores layout) }
    {
        if lane == 0 {
            near
        } else {
            self.cells.find_by(layout, near)
        }
    }

    /// An own write, if the lane isn't 0. False if memory runs out.
    #[inline(always)]
    pub fn own_write_if(&mut self, lane: u32, layout: u32, field: u32, value: u32) -> bool
        ensures stores { self.new.cells.stores ≡ self.old.cells.stores }
        ensures made { IsTrue result → BecomesIf (λ before. IsWritten (own_write_at layout field value before) before) lane self.old self.new }
    {
        if lane == 0 {
            true
        } else {
            self.own_write(layout, field, value)
        }
    }

    /// An own write. False if memory runs out.
    #[inline(always)]
    fn own_write(&mut self, layout: u32, field: u32, value: u32) -> bool
        ensures stores { self.new.cells.stores ≡ self.old.cells.stores }
        ensures made { IsTrue result → IsWritten (own_write_at layout field value self.old) self.old self.new }
    {
        let cell = self.cells.own_cell(layout);
        let write = CellWrite {
            layout,
            place: field,
            cell,
            way: Way::Own,
            value,
        };
        match self.cells.write(write) {
            Ok(()) => true,
            Err(_) => false,
        }
    }

    /// A contribution to a cell, if the lane isn't 0. False if memory runs out.
    #[inline(always)]
    pub fn contribute_if(
        &mut self,
        lane: u32,
        op: AccOp,
        layout: u32,
        field: u32,
        cell: Option<u32>,
        value: u32,
    ) -> bool
        requires cell { IfSome cell (IsCellOf self.old.cells.stores layout) }
        ensures stores { self.new.cells.stores ≡ self.old.cells.stores }
        ensures made { IsTrue result → BecomesIf (IsWritten (contribution op layout field value cell)) lane self.old self.new }
    {
        if lane == 0 {
            true
        } else {
            self.contribute(op, layout, field, cell, value)
        }
    }

    /// A contribution to a cell. False if memory runs out.
    #[inline(always)]
    fn contribute(
        &mut self,
        op: AccOp,
        layout: u32,
        field: u32,
        cell: Option<u32>,
        value: u32,
    ) -> bool
        requires cell { IfSome cell (IsCellOf self.old.cells.stores layout) }
        ensures stores { self.new.cells.stores ≡ self.old.cells.stores }
        ensures made { IsTrue result → IsWritten (contribution op layout field value cell) self.old self.new }
    {
        let write = CellWrite {
            layout,
            place: field,
            cell,
            way: Way::Acc(op),
            value,
        };
        match self.cells.write(write) {
            Ok(()) => true,
            Err(_) => false,
        }
    }

    /// A wanted coordinate, if the lane isn't 0. False if memory runs out.
    #[inline(always)]
    pub fn want_if(&mut self, lane: u32, layout: u32, at: Coord, stmt: u32) -> bool
        ensures stores { self.new.cells.stores ≡ self.old.cells.stores }
        ensures made { IsTrue result → BecomesIf (IsWanted (record { layout = layout; stmt = stmt; at = at })) lane self.old self.new }
    {
        if lane == 0 {
            true
        } else {
            self.want(layout, at, stmt)
        }
    }

    /// A wanted coordinate. False if memory runs out.
    #[inline(always)]
    fn want(&mut self, layout: u32, at: Coord, stmt: u32) -> bool
        ensures stores { self.new.cells.stores ≡ self.old.cells.stores }
        ensures made { IsTrue result → IsWanted (record { layout = layout; stmt = stmt; at = at }) self.old self.new }
    {
        let want = Write {
            layout,
            place: 0,
            stmt,
            at,
            way: Way::Own,
            value: 0,
        };
        match self.wants.push(want) {
            Ok(()) => true,
            Err(_) => false,
        }
    }
}
