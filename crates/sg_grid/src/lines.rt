//! A line of a grid text: the run that it stands for, and the tests of it.

ghost use Rattle.std.specs.Prelude.{◌≡◌, ◌+◌, ◌-◌, ◌<◌, ◌≤◌, ◌^◌, IfOk, IfSome, IsTrue};
ghost use Rattle.sg_coord.specs.Bounds.{bounds_of};
ghost use Rattle.sg_grid.specs.Fronts as front;
ghost use Rattle.sg_grid.specs.Reading as spec;
ghost use Rattle.sg_grid.specs.steps.Finding.{Finds, FindsRun};
ghost use Rattle.sg_grid.specs.steps.Rooms.{IsShort};

use crate::grid::{GridFault, GridRun, LineStart, MOST_GRID_ROWS, Version};
use crate::numbers::number_before;
use crate::runs::{end_of, is_run_inside};
use sg_coord::{Coord, Extents, rises};
use sg_words::{Ty, word_of};

/// The run of a line that starts here, and the lines below it; or the line's fault.
#[tactic(auto, unfolding(crate::specs::Reading::run_in))]
pub(crate) fn run_in<'a>(
    version: Version,
    extents: &Extents,
    ty: Ty,
    start: LineStart,
    bytes: &'a [u8],
) -> Result<(GridRun, &'a [u8]), GridFault>
    ensures value { FindsRun result (spec.run_in version (bounds_of extents.now) ty start bytes.now) }
    ensures inside { IfOk result (λ found. IsTrue (spec.is_run_inside (bounds_of extents.now) found.0)) }
    ensures some { IfOk result (λ found. 1 ≤ found.0.len) }
    ensures short { IfOk result (λ found. IsShort found.0.at (found.0.len - 1)) }
    ensures few { IfOk result (λ found. start.rows + found.0.len ≤ 2 ^ 20) }
{
    let line = start.line;
    let Some((run, rest)) = line_at(version, extents.n, ty, bytes) else {
        return Err(GridFault::BadText { line });
    };
    if !is_run_inside(extents, run) {
        return Err(GridFault::Outside { line });
    }
    if !follows(start.last, run.at) {
        return Err(GridFault::NotRising { line });
    }
    if u64::from(start.rows) + u64::from(run.len) > MOST_GRID_ROWS {
        return Err(GridFault::TooManyRows);
    }
    Ok((run, rest))
}

/// Where the line after a run starts.
pub(crate) fn after_run(start: LineStart, run: GridRun) -> LineStart
    requires some { 1 ≤ run.len }
    requires short { IsShort run.at (run.len - 1) }
    requires few { start.rows + run.len ≤ 2 ^ 20 }
    requires line { start.line < 2 ^ 31 }
    ensures { result ≡ spec.after_run start run }
{
    LineStart {
        line: start.line + 1,
        rows: start.rows + run.len,
        last: Some(end_of(run)),
    }
}

/// Whether a coordinate comes after the last one of the line before, if there is one.
fn follows(last: Option<Coord>, at: Coord) -> bool
    ensures { result ≡ spec.follows last at }
{
    match last {
        Some(last) => rises(last, at),
        None => true,
    }
}

/// The run of a whole line, and the lines below it.
#[tactic(auto, unfolding(crate::specs::Fronts::line_at))]
fn line_at(version: Version, axes: u32, ty: Ty, bytes: &[u8]) -> Option<(GridRun, &[u8])>
    ensures value { Finds result (front.line_at version axes ty bytes.now) }
    ensures some { IfSome result (λ found. 1 ≤ found.0.len) }
{
    let (at, rest) = coordinate_at(axes, bytes)?;
    let (len, rest) = length_at(version, rest)?;
    let (value, rest) = number_before(ty, b"\n", rest)?;
    let word = word_of(value);
    Some((GridRun { at, len, word }, rest))
}

/// The length of a line's run.
#[tactic(auto, unfolding(crate::specs::Fronts::length_at))]
fn length_at(version: Version, bytes: &[u8]) -> Option<(u32, &[u8])>
    ensures value { Finds result (front.length_at version bytes.now) }
    ensures some { IfSome result (λ found. 1 ≤ found.0) }
{
    match version {
        Version::One => Some((1, bytes)),
        Version::Two => {
            let (len, rest) = number_before(Ty::I32, b" ", bytes)?;
            if len < 1 {
                return None;
            }
            Some((len as u32, rest))
        }
    }
}

/// A coordinate with a space after each part.
#[tactic(auto, unfolding(crate::specs::Fronts::coordinate_at))]
fn coordinate_at(axes: u32, bytes: &[u8]) -> Option<(Coord, &[u8])>
    ensures { Finds result (front.coordinate_at axes bytes.now) }
{
    let (a, rest) = coordinate_part_at(bytes)?;
    let (b, rest) = further_part_at(2, axes, rest)?;
    let (c, rest) = further_part_at(3, axes, rest)?;
    Some((Coord { n: axes, a, b, c }, rest))
}

/// A part of a coordinate with a space after it.
fn coordinate_part_at(bytes: &[u8]) -> Option<(i32, &[u8])>
    ensures { Finds result (front.coordinate_part_at bytes.now) }
{
    let (part, rest) = number_before(Ty::I32, b" ", bytes)?;
    Some((part as i32, rest))
}

/// The part of a further axis, or 0 if there are fewer axes.
#[tactic(auto, unfolding(crate::specs::Fronts::further_part_at))]
fn further_part_at(axis: u32, axes: u32, bytes: &[u8]) -> Option<(i32, &[u8])>
    ensures { Finds result (front.further_part_at axis axes bytes.now) }
{
    if axis <= axes {
        coordinate_part_at(bytes)
    } else {
        Some((0, bytes))
    }
}
