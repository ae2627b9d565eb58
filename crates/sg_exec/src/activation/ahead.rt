ghost use Rattle.std.specs.Prelude.{◌≡◌, ◌<◌, ◌≤◌, Some, length, slice_get, IfOk, OnOk};
ghost use Rattle.sg_exec.specs.steps.Turning.{HaveRun, IsColumnOf};

use crate::lanes::batch::{Batch, SIDE_BY_SIDE, iterate_all};
use crate::workers::points::Points;
use sg_coord::Coord;
use sg_ir::Inst;
use sg_store::Stores;
use sg_words::Memory;

/// Iterations at points that ran ahead: so many, from the point with one number on, each in a column of the batch. The row is that of
/// their points.
#[derive(Drop)]
pub struct Ahead<'a> {
    pub batch: Batch<'a>,
    pub row: Vec<Coord>,
    pub first: u32,
    pub count: u32,
}

/// The column in which the block has run at the point with a number. Where it isn't among those that ran ahead, the block runs there and at the
/// points that follow.
pub(crate) fn column_of(
    stores: &Stores,
    points: &Points,
    block: &[Inst],
    ahead: &mut Ahead,
    number: u32,
) -> Result<usize, Memory>
    requires below { number < length points.now }
    requires ran { HaveRun stores.now.list points.now block.now ahead.old }
    ensures ran { OnOk result (HaveRun stores.now.list points.now block.now ahead.new) }
    ensures column { IfOk result (IsColumnOf stores.now.list points.now block.now ahead.new.batch number) }
{
    if ahead.first <= number && number - ahead.first < ahead.count {
        return Ok((number - ahead.first) as usize);
    }
    let first = number as usize;
    let count = (points.len() - first).min(SIDE_BY_SIDE);
    points.fill(first, count, &mut ahead.row)?;
    iterate_all(stores, &[], &mut ahead.batch, ahead.row.as_slice(), block)?;
    ahead.first = number;
    ahead.count = count as u32;
    Ok(0)
}
