//! Runs of rows along the last axis.

ghost use Rattle.std.specs.Prelude.{◌≡◌, ◌≤◌, ◌<◌, ◌-◌, IsTrue};
ghost use Rattle.sg_coord.specs.Limits.{most_extent};
ghost use Rattle.sg_coord.specs.Bounds.{bounds_of};
ghost use Rattle.sg_coord.specs.Coord.{Inside};
ghost use Rattle.sg_grid.specs.Runs as spec;
ghost use Rattle.sg_grid.specs.Reading.{is_run_inside};
ghost use Rattle.sg_grid.specs.steps.Rooms.{room_after, IsShort};

use crate::grid::{GridRow, GridRun};
use sg_coord::{Coord, Extents, count, inside};

/// The row with this number, from 0, of a run whose rows are inside the extents.
pub fn row_of_run(extents: &Extents, run: GridRun, k: u32) -> GridRow
    requires below { k < run.len }
    requires inside { IsTrue (is_run_inside (bounds_of extents.now) run) }
    ensures { result ≡ record { at = spec.along k run.at; word = run.word } }
{
    // for the bounds of the extents
    extents.volume();
    GridRow {
        at: along(run.at, k),
        word: run.word,
    }
}

/// The coordinate of the last row of a run that is inside.
pub(crate) fn end_of(run: GridRun) -> Coord
    requires some { 1 ≤ run.len }
    requires short { IsShort run.at (run.len - 1) }
    ensures { result ≡ spec.end_of run }
{
    along(run.at, run.len - 1)
}

/// The coordinate that is so far along the last axis.
fn along(at: Coord, k: u32) -> Coord
    requires { IsShort at k }
    ensures { result ≡ spec.along k at }
{
    let Coord { n, a, b, c } = at;
    if n >= 3 {
        return Coord {
            n,
            a,
            b,
            c: c + k as i32,
        };
    }
    if n >= 2 {
        return Coord {
            n,
            a,
            b: b + k as i32,
            c,
        };
    }
    Coord {
        n,
        a: a + k as i32,
        b,
        c,
    }
}

/// Whether all rows of a run are inside.
pub fn is_run_inside(extents: &Extents, run: GridRun) -> bool
    ensures value { result ≡ is_run_inside (bounds_of extents.now) run }
    ensures short { IsTrue result → IsShort run.at (run.len - 1) }
{
    inside(extents, run.at) && run.len <= room_after(extents, run.at)
}

/// How many points there are from this one on, along the last axis.
fn room_after(extents: &Extents, at: Coord) -> u32
    requires { Inside (bounds_of extents.now) at }
    ensures value { result ≡ room_after (bounds_of extents.now) at }
    ensures most { result ≤ most_extent }
{
    if at.n >= 3 {
        return extents.c - count(at.c);
    }
    if at.n >= 2 {
        return extents.b - count(at.b);
    }
    extents.a - count(at.a)
}
