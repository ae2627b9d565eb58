//! What the turns of a run want in one layout.

ghost use Rattle.std.specs.Prelude.{◌≡◌, ◌++◌, List, All, OnErr, OnOk};
ghost use Rattle.sg_coord.specs.declared.coord.Coord.{Coord};
ghost use Rattle.sg_coord.specs.Bounds.{bounds_of};
ghost use Rattle.sg_coord.specs.Coord.{Inside};
ghost use Rattle.sg_exec.specs.steps.Turning.{turn_count, wanted_of};

use crate::activation::ahead::{Ahead, column_of};
use crate::activation::turns::Turns;
use crate::lanes::batch::batch_for;
use crate::lanes::values::ONE_POINT;
use crate::workers::effort::effort_of;
use crate::workers::points::row_for;
use sg_activate::Wanted;
use sg_coord::{Coord, Extents, inside, numbering};
use sg_flat::Write;
use sg_store::Stores;
use sg_words::Memory;
use std::alloc::Global;

/// What turns want in a layout with these extents; each turn is a piece. A worker runs the slice at several points side by side, ahead of their
/// pieces.
#[derive(Drop)]
pub struct LayoutWants<'a> {
    pub stores: &'a Stores,
    pub turns: Turns<'a>,
    pub count: u32,
    pub layout: u32,
    pub extents: Extents,
    ghost counted: { count ≡ turn_count turns },
}

impl<'a> Wanted for LayoutWants<'a> {
    type Hand = Ahead<'a>;

    ghost use Rattle.sg_coord.specs.Bounds.{bounds_of};
    ghost use Rattle.sg_exec.specs.steps.Turning.{Means, MayRun};

    ghost count = { λ want. want.count };

    ghost bounds = { λ want. bounds_of want.extents };

    ghost Means = { λ want list. Means want.stores.now.list want.turns (bounds_of want.extents) want.layout list };

    ghost IsHand = { λ want hand. MayRun want.stores.now.list want.turns hand };

    fn pieces(&self) -> u32 {
        self.count
    }

    fn effort(&self) -> usize {
        match self.turns {
            Turns::Slice {
                points: _points,
                block,
            } => effort_of(block),
            Turns::Rows(_rows) => 1,
        }
    }

    fn hand(&self, alloc: Global) -> Result<Ahead<'a>, Memory> {
        let batch = batch_for(alloc, self.stores, &[])?;
        let row = row_for(alloc)?;
        Ok(Ahead {
            batch,
            row,
            first: 0,
            count: 0,
        })
    }

    fn wanted(
        &self,
        hand: &mut Ahead<'a>,
        piece: u32,
        into: &mut Vec<Coord>,
    ) -> Result<(), Memory> {
        match self.turns {
            Turns::Slice { points, block } => {
                let column = column_of(self.stores, points, block, hand, piece)?;
                add_wants(
                    hand.batch.moments[column].wants.as_slice(),
                    self.layout,
                    &self.extents,
                    into,
                )
            }
            Turns::Rows(rows) => {
                let row = rows[piece as usize];
                add_wants(&[row], self.layout, &self.extents, into)
            }
        }
    }
}

/// Adds the coordinates of the writes into a layout that are inside its extents.
#[inline(always)]
fn add_wants(
    writes: &[Write],
    layout: u32,
    extents: &Extents,
    into: &mut Vec<Coord>,
) -> Result<(), Memory>
    ensures list { OnOk result (into.new.items ≡ into.old.items ++ wanted_of (bounds_of extents.now) layout writes.now) }
    ensures inside { OnOk result (All (Inside (bounds_of extents.now)) into.old.items → All (Inside (bounds_of extents.now)) into.new.items) }
    ensures front { OnErr result ((front rest : List Coord) × (into.new.items ≡ into.old.items ++ front) × (wanted_of (bounds_of extents.now) layout writes.now ≡ front ++ rest)) }
{
    // for the law that it ensures
    numbering(&ONE_POINT);
    for write in writes {
        if write.layout == layout && inside(extents, write.at) {
            into.push(write.at)?;
        }
    }
    Ok(())
}
