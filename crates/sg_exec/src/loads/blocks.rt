//! Rows of a run that stand side by side below one place of a store.

ghost use Rattle.std.specs.Prelude.{◌≡◌, ◌<◌, ◌^◌, length, IfSome, IsTrue};
ghost use Rattle.sg_coord.specs.Coord.{Inside};
ghost use Rattle.sg_layout.specs.Axes.{bounds_of_shape};
ghost use Rattle.sg_layout.specs.Path.{path};
ghost use Rattle.sg_store.specs.Spots.{LeadsAlong};
ghost use Rattle.sg_exec.specs.Runs as spec;
ghost use Rattle.sg_exec.specs.Runs.{IsShort};
ghost use Rattle.sg_exec.specs.steps.Blocks.{IsPart, MayBeBlock, HasRow};

use crate::loads::row_run::RowRun;
use crate::loads::spans::last_span;
use sg_coord::{Coord, inside};
use sg_layout::paths_tell;
use sg_store::{Spot, Store};

/// The greatest extent of an axis.
const MOST_EXTENT: u32 = 1 << 15;

/// The greatest number of slots of a node under a place.
const MOST_SLOTS: u32 = 1 << 30;

/// Rows of a run that stand side by side: from the one with a number, so many, over the offsets from one on below a place.
#[derive(Clone, Copy)]
pub struct Block {
    pub front: Spot,
    pub offset: u32,
    pub from: u32,
    pub room: u32,
}

/// The block that has the row of a run with this number, from 0: the last one if it has it. None if the row isn't active as far as can
/// be told.
#[inline(always)]
#[tactic(auto, using(crate::proofs::BlockRows::kept_block))]
pub(crate) fn block_for(store: &Store, run: RowRun, last: Block, k: u32) -> Option<Block>
    requires { MayBeBlock store.now run last }
    ensures { IfSome result (HasRow store.now run k) }
{
    if last.from <= k && k - last.from < last.room {
        return Some(last);
    }
    block_from(store, run, k)
}

/// A block without rows.
pub(crate) fn no_block(store: &Store, run: RowRun) -> Block
    ensures { MayBeBlock store.now run result }
{
    let _run = run;
    Block {
        front: store.root(),
        offset: 0,
        from: 0,
        room: 0,
    }
}

/// The block that begins with the row of a run with this number, from 0. None if the row is outside, and where links and bits don't
/// lead to its container.
fn block_from(store: &Store, run: RowRun, k: u32) -> Option<Block>
    ensures { IfSome result (HasRow store.now run k) }
{
    // for the laws that they ensure
    paths_tell();
    let layout = store.layout();
    let extents = layout.extents();
    let at = along(run.at, k)?;
    if !inside(&extents, at) {
        return None;
    }
    let last = layout.nodes() - 1;
    let front = front_of(store, at, last)?;
    let offset = layout.offset(last, at);
    if !is_slot(offset) {
        return None;
    }
    let span = last_span(layout);
    Some(Block {
        front,
        offset,
        from: k,
        room: span - offset % span,
    })
}

/// Whether an offset is one that a node can have.
fn is_slot(offset: u32) -> bool
    ensures { IsTrue result → offset < 2 ^ 30 }
{
    offset < MOST_SLOTS
}

/// The spot to which the root leads over the path of a coordinate through the first nodes.
fn front_of(store: &Store, at: Coord, through: usize) -> Option<Spot>
    requires within { through < length store.now.shape.nodes }
    requires inside { Inside (bounds_of_shape store.now.shape) at }
    ensures { IfSome result (λ spot. LeadsAlong store.now spot (path store.now.shape at through)) }
{
    let layout = store.layout();
    let mut spot = store.root();
    for index in 0..through {
        spot = store.under(spot, layout.offset(index, at))?;
    }
    Some(spot)
}

/// The coordinate that is so far along the last axis. None if a part of this one is below 0, and for what is farther than any layout
/// reaches.
pub(crate) fn along(at: Coord, k: u32) -> Option<Coord>
    ensures { IfSome result (λ moved. moved ≡ spec.along k at) }
{
    if k < MOST_EXTENT && is_short(at) {
        return Some(moved(at, k));
    }
    None
}

/// Whether each part is at least 0 and below the greatest extent.
fn is_short(at: Coord) -> bool
    ensures { IsTrue result → IsShort at (2 ^ 15) }
{
    is_part(at.a) && is_part(at.b) && is_part(at.c)
}

fn is_part(part: i32) -> bool
    ensures { IsTrue result → IsPart part }
{
    0 <= part && part < MOST_EXTENT as i32
}

/// The coordinate that is so far along the last axis.
pub(crate) fn moved(at: Coord, k: u32) -> Coord
    requires { IsShort at k }
    ensures { result ≡ spec.along k at }
{
    let Coord { n, a, b, c } = at;
    if n >= 3 {
        return Coord {
            n,
            a,
            b,
            c: c + k as i32,
        };
    }
    if n >= 2 {
        return Coord {
            n,
            a,
            b: b + k as i32,
            c,
        };
    }
    Coord {
        n,
        a: a + k as i32,
        b,
        c,
    }
}
