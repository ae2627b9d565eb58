//! Reading a grid text, line by line.

ghost use Rattle.std.specs.Prelude.{◌≡◌, ◌<◌, ◌≤◌, ◌^◌, IfOk};
ghost use Rattle.std.specs.List.{All};
ghost use Rattle.sg_coord.specs.Bounds.{bounds_of};
ghost use Rattle.sg_words.specs.Answers.{AnswersAs};
ghost use Rattle.sg_grid.specs.Runs.{rows_of_runs};
ghost use Rattle.sg_grid.specs.GridText.{head_text};
ghost use Rattle.sg_grid.specs.declared.grid.Version.TheVariants as version;
ghost use Rattle.sg_grid.specs.Fronts as front;
ghost use Rattle.sg_grid.specs.Reading as spec;
ghost use Rattle.sg_grid.specs.Reading.{rows_of, first_start, IsRunInside};
ghost use Rattle.sg_grid.specs.steps.Finding.{Finds, Leaves};

use crate::grid::{Grid, GridFault, LineStart, MOST_GRID_BYTES, MOST_GRID_ROWS, Version};
use crate::lines::{after_run, run_in};
use crate::numbers::{count_at, rest_after};
use sg_coord::Extents;
use sg_words::{Items, Stop, Ty};
use std::alloc::Global;

/// The runs of a grid text of either version over the extents, for a field of the type; or its first fault.
#[tactic(auto, unfolding(crate::specs::Reading::rows_of, crate::specs::Reading::runs_of))]
pub fn read_grid(
    alloc: Global,
    bytes: &[u8],
    extents: &Extents,
    ty: Ty,
) -> Result<Grid, Stop<GridFault>>
    ensures rows { AnswersAs (λ grid. rows_of_runs grid.runs) result (rows_of (bounds_of extents.now) ty bytes.now) }
    ensures inside { IfOk result (λ grid. All (IsRunInside (bounds_of extents.now)) grid.runs) }
{
    if bytes.len() > MOST_GRID_BYTES {
        return Err(Stop::Refused(GridFault::TooManyBytes));
    }
    let first = head_at(Version::One, extents.n, bytes);
    let second = head_at(Version::Two, extents.n, bytes);
    match (first, second) {
        (Some((count, lines)), _) => { runs_below(alloc, Version::One, extents, ty, count, lines) }
        (None, Some((count, lines))) => {
            runs_below(alloc, Version::Two, extents, ty, count, lines)
        }
        (None, None) => Err(Stop::Refused(GridFault::BadText { line: 1 })),
    }
}

/// The runs of so many lines, as a first line says.
fn runs_below(
    alloc: Global,
    version: Version,
    extents: &Extents,
    ty: Ty,
    count: u64,
    lines: &[u8],
) -> Result<Grid, Stop<GridFault>>
    ensures runs { AnswersAs (λ grid. grid.runs) result (spec.runs_below version (bounds_of extents.now) ty (count, lines.now)) }
    ensures inside { IfOk result (λ grid. All (IsRunInside (bounds_of extents.now)) grid.runs) }
{
    if count > MOST_GRID_ROWS {
        return Err(Stop::Refused(GridFault::TooManyRows));
    }
    runs_from(alloc, version, extents, ty, count as u32, lines)
}

/// The number of lines in the first line of a version, and the lines below it.
#[tactic(auto, unfolding(crate::specs::Fronts::head_at))]
fn head_at(version: Version, axes: u32, bytes: &[u8]) -> Option<(u64, &[u8])>
    requires { axes < 10 }
    ensures { Finds result (front.head_at version axes bytes.now) }
{
    let counted = counted_at(version, axes, bytes)?;
    let (count, rest) = count_at(counted)?;
    Some((count, rest_after(b"\n", rest)?))
}

/// What stands after the first line of a version up to the number of lines.
fn counted_at(version: Version, axes: u32, bytes: &[u8]) -> Option<&[u8]>
    requires { axes < 10 }
    ensures { Leaves result (front.rest_after (head_text version axes) bytes.now) }
{
    match version {
        Version::One => rest_after(&head(axes), bytes),
        Version::Two => rest_after(&run_head(axes), bytes),
    }
}

/// The first line of version 1 up to the number of rows.
fn head(axes: u32) -> [u8; 7]
    requires { axes < 10 }
    ensures { result ≡ head_text version.One axes }
{
    [b'g', b'r', b'i', b'd', b' ', b'0' + axes as u8, b' ']
}

/// The first line of version 2 up to the number of runs.
fn run_head(axes: u32) -> [u8; 8]
    requires { axes < 10 }
    ensures { result ≡ head_text version.Two axes }
{
    [b'g', b'r', b'i', b'd', b'2', b' ', b'0' + axes as u8, b' ']
}

/// The runs of `count` lines, which are all that is left.
fn runs_from(
    alloc: Global,
    version: Version,
    extents: &Extents,
    ty: Ty,
    count: u32,
    bytes: &[u8],
) -> Result<Grid, Stop<GridFault>>
    requires { count ≤ 2 ^ 20 }
    ensures runs { AnswersAs (λ grid. grid.runs) result (spec.runs_from version (bounds_of extents.now) ty count first_start bytes.now) }
    ensures inside { IfOk result (λ grid. All (IsRunInside (bounds_of extents.now)) grid.runs) }
{
    let mut runs = Items::new(alloc);
    let mut start = LineStart {
        line: 2,
        rows: 0,
        last: None,
    };
    let mut left = bytes;
    for _turn in 0..count {
        match run_in(version, extents, ty, start, left) {
            Ok((run, rest)) => {
                runs.push(run)?;
                start = after_run(start, run);
                left = rest;
            }
            Err(fault) => return Err(Stop::Refused(fault)),
        }
    }
    if left.is_empty() {
        Ok(Grid { runs })
    } else {
        Err(Stop::Refused(GridFault::BadText { line: start.line }))
    }
}
