//! The points of a box by their numbers.

ghost use Rattle.std.specs.Prelude.{◌≡◌, ◌<◌, ◌*◌, ◌^◌, ℕ, ◌+ℤ◌, ◌<ℤ◌, ◌≤ℤ◌, pos, IfOk};
ghost use Rattle.sg_coord.specs.Bounds.{bounds_of};
ghost use Rattle.sg_layout.specs.Closure.{points};
ghost use Rattle.sg_flat.specs.Domain.{box_points};
ghost use Rattle.sg_exec.specs.steps.Boxes.{IsRegion, region_points};

use crate::workers::points::Most;
use sg_coord::{Coord, Extents, quotient, remainder};
use sg_words::Memory;

/// The points from a corner on, so many along each axis, and how many in all; along an axis that the corner doesn't have, one.
#[derive(Clone, Copy)]
pub struct Region {
    pub corner: Coord,
    pub planes: u32,
    pub lines: u32,
    pub cells: u32,
    pub count: u32,
}

/// How far a point is from the corner along each axis.
#[derive(Clone, Copy)]
pub struct Along {
    pub plane: u32,
    pub line: u32,
    pub cell: u32,
}

/// The region of a box. A box with 2^32 points or more is refused as memory is.
pub(crate) fn region_of(lo: Coord, hi: Coord) -> Result<Region, Memory>
    ensures region { IfOk result IsRegion }
    ensures points { IfOk result (λ region. region_points region ≡ box_points lo hi) }
{
    let (planes, lines, cells) = (
        Side::first(lo, hi),
        Side::second(lo, hi),
        Side::third(lo, hi),
    );
    let corner = Coord {
        n: lo.n,
        a: planes.start(),
        b: lines.start(),
        c: cells.start(),
    };
    let (planes, lines, cells) = (planes.count(), lines.count(), cells.count());
    let count = product(planes, lines, cells)?;
    Ok(Region {
        corner,
        planes,
        lines,
        cells,
        count,
    })
}

/// How many points there are with so many along each axis, where they are fewer than 2^32.
fn product(planes: u32, lines: u32, cells: u32) -> Result<u32, Memory>
    ensures value { IfOk result (λ count. planes * lines * cells ≡ count) }
    ensures few { IfOk result (λ count. count < 2 ^ 32) }
{
    let count = (planes as usize * lines as usize).saturating_mul(cells as usize);
    u32::try_from(count).map_err(|_| Memory)
}

/// The region of all points inside.
pub(crate) fn region_within(extents: &Extents) -> Region
    ensures region { IsRegion result }
    ensures points { region_points result ≡ points (bounds_of extents.now) }
{
    Region {
        corner: Coord {
            n: extents.n,
            a: 0,
            b: 0,
            c: 0,
        },
        planes: extents.a,
        lines: extents.b,
        cells: extents.c,
        count: extents.volume(),
    }
}

impl Region {
    ghost use Rattle.std.specs.Prelude.{◌≡◌, ◌<◌, ◌≤◌, ◌+◌, ◌++◌, ℕ, map, IfSome, OnOk};
    ghost use Rattle.std.specs.List.{range_with_len};
    ghost use Rattle.sg_exec.specs.steps.Boxes.{IsRegion, IsUpToMost, AreAlong, IsInside, region_point, point_along};

    /// What no part of a point is past, if no part is below 0.
    pub(crate) fn most(self) -> Option<Most>
        requires region { IsRegion self }
        ensures { IfSome result (λ most. (k : ℕ) → k < self.count → IsUpToMost most (region_point self k)) }
    {
        let corner = self.corner;
        if corner.a < 0 || corner.b < 0 || corner.c < 0 {
            return None;
        }
        Some(Most {
            a: last_part(corner.a, self.planes),
            b: last_part(corner.b, self.lines),
            c: last_part(corner.c, self.cells),
        })
    }

    /// Adds so many points, from the one with a number on: that one is found by quotients, each next one by counting up.
    pub(crate) fn push_some(
        self,
        first: u32,
        count: u32,
        row: &mut Vec<Coord>,
    ) -> Result<(), Memory>
        requires region { IsRegion self }
        requires within { first + count ≤ self.count }
        ensures { OnOk result (row.new.items ≡ row.old.items ++ map (region_point self) (range_with_len first count)) }
    {
        let mut along = self.along(first);
        for _number in 0..count {
            row.push(self.point(along))?;
            along = self.next(along);
        }
        Ok(())
    }

    /// How far the point with this number is along each axis.
    fn along(self, number: u32) -> Along
        ensures { AreAlong self number result }
    {
        let line = quotient(number, self.cells);
        Along {
            plane: quotient(line, self.lines),
            line: remainder(line, self.lines),
            cell: remainder(number, self.cells),
        }
    }

    /// The point that is so far along each axis.
    #[inline(always)]
    fn point(self, along: Along) -> Coord
        requires region { IsRegion self }
        requires inside { IsInside self along }
        ensures { result ≡ point_along self along }
    {
        Coord {
            n: self.corner.n,
            a: part_at(self.corner.a, along.plane),
            b: part_at(self.corner.b, along.line),
            c: part_at(self.corner.c, along.cell),
        }
    }

    /// How far the next point is.
    #[inline(always)]
    fn next(self, along: Along) -> Along
        requires { IsInside self along }
        ensures { (k : ℕ) → AreAlong self k along → AreAlong self (k + 1) result }
    {
        if along.cell + 1 < self.cells {
            return Along {
                plane: along.plane,
                line: along.line,
                cell: along.cell + 1,
            };
        }
        if along.line + 1 < self.lines {
            return Along {
                plane: along.plane,
                line: along.line + 1,
                cell: 0,
            };
        }
        Along {
            plane: along.plane + 1,
            line: 0,
            cell: 0,
        }
    }
}

/// The last of so many parts, from the first on; the first where there are none.
fn last_part(first: i32, count: u32) -> u32
    requires low { pos 0 ≤ℤ first }
    requires fits { (first +ℤ pos count) ≤ℤ pos (2 ^ 31) }
    ensures low { pos 0 ≤ℤ first }
    ensures last { (far : ℕ) → far < count → (first +ℤ pos far) ≤ℤ pos result }
{
    first as u32 + count.saturating_sub(1)
}

/// The part that is so far from another one.
#[inline(always)]
fn part_at(first: i32, far: u32) -> i32
    requires { (first +ℤ pos far) <ℤ pos (2 ^ 31) }
    ensures { result ≡ first +ℤ pos far }
{
    (first as i64 + far as i64) as i32
}

/// The range of a box on an axis; where the box does not have the axis its one part is 0.
#[derive(Clone, Copy)]
pub struct Side {
    pub used: bool,
    pub lo: i32,
    pub hi: i32,
}

impl Side {
    ghost use Rattle.std.specs.Prelude.{◌≡◌, nat_le};
    ghost use Rattle.sg_exec.specs.steps.Boxes.{part_count, first_part};

    fn first(lo: Coord, hi: Coord) -> Side
        ensures { result ≡ record { used = nat_le 1 lo.n; lo = lo.a; hi = hi.a } }
    {
        Side {
            used: lo.n >= 1,
            lo: lo.a,
            hi: hi.a,
        }
    }

    fn second(lo: Coord, hi: Coord) -> Side
        ensures { result ≡ record { used = nat_le 2 lo.n; lo = lo.b; hi = hi.b } }
    {
        Side {
            used: lo.n >= 2,
            lo: lo.b,
            hi: hi.b,
        }
    }

    fn third(lo: Coord, hi: Coord) -> Side
        ensures { result ≡ record { used = nat_le 3 lo.n; lo = lo.c; hi = hi.c } }
    {
        Side {
            used: lo.n >= 3,
            lo: lo.c,
            hi: hi.c,
        }
    }

    /// How many parts there are.
    fn count(self) -> u32
        ensures { result ≡ part_count self }
    {
        let Side { used, lo, hi } = self;
        if used {
            if hi <= lo {
                0
            } else {
                (hi as i64 - lo as i64) as u32
            }
        } else {
            1
        }
    }

    /// The first part, from which the others are counted.
    fn start(self) -> i32
        ensures { result ≡ first_part self }
    {
        if self.used { self.lo } else { 0 }
    }
}
