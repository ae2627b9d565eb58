ghost use Rattle.std.specs.Prelude.{◌≡◌, ◌+◌, ◌<◌, ◌↔◌, IsTrue, ℕ};
ghost use Rattle.sg_coord.specs.Bounds.{bounds_of, volume};
ghost use Rattle.sg_coord.specs.Coord.{Inside, is_inside, is_on_axis, row_of, point_at};

use crate::coord::{Coord, coord_of, count};
use crate::digits::{quotient, remainder};
use crate::extents::Extents;

/// Whether a coordinate has as many axes as the extents, with each part at least 0 and below the
/// extent of its axis.
pub fn inside(extents: &Extents, at: Coord) -> bool
    ensures value { result ≡ is_inside (bounds_of extents.now) at }
    ensures inside { IsTrue result ↔ Inside (bounds_of extents.now) at }
{
    at.n == extents.n
        && on_axis(extents.a, at.a)
        && on_axis(extents.b, at.b)
        && on_axis(extents.c, at.c)
}

fn on_axis(extent: u32, part: i32) -> bool
    ensures { result ≡ is_on_axis extent part }
{
    0 <= part && (part as u32) < extent
}

/// The row number of a coordinate: how many points stand before it in row order.
pub fn row(extents: &Extents, at: Coord) -> u32
    requires { Inside (bounds_of extents.now) at }
    ensures value { result ≡ row_of (bounds_of extents.now) at }
    ensures below { result < volume (bounds_of extents.now) }
    ensures inverse { point_at (bounds_of extents.now) result ≡ at }
{
    (count(at.a) * extents.b + count(at.b)) * extents.c + count(at.c)
}

/// The coordinate with row number `k`.
pub fn coord_at(extents: &Extents, k: u32) -> Coord
    requires { k < volume (bounds_of extents.now) }
    ensures value { result ≡ point_at (bounds_of extents.now) k }
    ensures inside { Inside (bounds_of extents.now) result }
    ensures inverse { row_of (bounds_of extents.now) result ≡ k }
{
    Coord {
        n: extents.n,
        a: quotient(k, extents.b * extents.c) as i32,
        b: remainder(quotient(k, extents.c), extents.b) as i32,
        c: remainder(k, extents.c) as i32,
    }
}

/// The first coordinate in row order.
pub fn first_coord(extents: &Extents) -> Coord
    ensures { result ≡ point_at (bounds_of extents.now) 0 }
{
    coord_of(extents.n, 0, 0, 0)
}

/// The coordinate after another in row order, found by counting up. After the last one there is none.
#[inline(always)]
pub fn coord_after(extents: &Extents, at: Coord) -> Coord
    requires { Inside (bounds_of extents.now) at }
    ensures { (k : ℕ) → at ≡ point_at (bounds_of extents.now) k → k + 1 < volume (bounds_of extents.now) → result ≡ point_at (bounds_of extents.now) (k + 1) }
{
    let a = count(at.a);
    let b = count(at.b);
    let c = count(at.c);
    if c + 1 < extents.c {
        return coord_of(at.n, a, b, c + 1);
    }
    if b + 1 < extents.b {
        return coord_of(at.n, a, b + 1, 0);
    }
    coord_of(at.n, a + 1, 0, 0)
}
