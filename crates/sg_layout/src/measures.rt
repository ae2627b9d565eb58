ghost use Rattle.std.specs.Prelude.{◌≡◌, ◌*◌, ◌^◌, ◌<◌, ◌≤◌, pos, ◌≤ℤ◌, ◌<ℤ◌};
ghost use Rattle.sg_coord.specs.Coord.{count_of};

use sg_coord::{Coord, Digits, Extents, coord_at, coord_of, count, row};

/// A node's extents on three axes, the products of the extents of the nodes below it, and by these the digits of a coordinate's parts.
#[derive(Clone, Copy, Debug, PartialEq, Eq)]
pub(crate) struct Measures {
    pub(crate) own: Extents,
    pub(crate) below: Extents,
    pub(crate) a: Digits,
    pub(crate) b: Digits,
    pub(crate) c: Digits,
    ghost a_fits: { own.a * below.a ≤ 2 ^ 15 },
    ghost b_fits: { own.b * below.b ≤ 2 ^ 15 },
    ghost c_fits: { own.c * below.c ≤ 2 ^ 15 },
    ghost a_digits: { (a.div ≡ below.a) × (a.size ≡ own.a) },
    ghost b_digits: { (b.div ≡ below.b) × (b.size ≡ own.b) },
    ghost c_digits: { (c.div ≡ below.c) × (c.size ≡ own.c) },
}

impl Measures {
    ghost use Rattle.sg_coord.specs.Bounds.{bounds_of, volume};
    ghost use Rattle.sg_coord.specs.Coord.{Inside, row_of};
    ghost use Rattle.sg_layout.specs.steps.Measuring.{parts_in, share_in};

    /// How many slots the node has under one slot of the node before it.
    pub(crate) fn size(&self) -> u32
        ensures { result ≡ volume (bounds_of self.now.own) }
    {
        self.own.volume()
    }

    /// The offset of a coordinate at the node.
    pub(crate) fn offset(&self, at: Coord) -> u32
        requires a { pos 0 ≤ℤ at.a }
        requires b { pos 0 ≤ℤ at.b }
        requires c { pos 0 ≤ℤ at.c }
        ensures value { result
            ≡ row_of (bounds_of self.now.own) (parts_in (bounds_of self.now.own) (bounds_of self.now.below) at) }
        ensures below { result < volume (bounds_of self.now.own) }
    {
        row(&self.own, self.parts(at))
    }

    /// The parts of a coordinate at the node, as a point in the node's extents.
    fn parts(&self, at: Coord) -> Coord
        requires a { pos 0 ≤ℤ at.a }
        requires b { pos 0 ≤ℤ at.b }
        requires c { pos 0 ≤ℤ at.c }
        ensures value { result ≡ parts_in (bounds_of self.now.own) (bounds_of self.now.below) at }
        ensures inside { Inside (bounds_of self.now.own) result }
    {
        coord_of(
            self.own.n,
            self.a.digit(count(at.a)),
            self.b.digit(count(at.b)),
            self.c.digit(count(at.c)),
        )
    }

    /// What an offset at the node adds to a coordinate with so many axes.
    pub(crate) fn share(&self, axes: u32, offset: u32) -> Coord
        requires { offset < volume (bounds_of self.now.own) }
        ensures { result ≡ share_in axes (bounds_of self.now.own) (bounds_of self.now.below) offset }
    {
        let parts = coord_at(&self.own, offset);
        coord_of(
            axes,
            share_on(parts.a, self.own.a, self.below.a),
            share_on(parts.b, self.own.b, self.below.b),
            share_on(parts.c, self.own.c, self.below.c),
        )
    }
}

/// A part below an extent, times the product of the later extents.
fn share_on(part: i32, extent: u32, below: u32) -> u32
    requires low { pos 0 ≤ℤ part }
    requires high { part <ℤ pos extent }
    requires fits { extent * below ≤ 2 ^ 15 }
    ensures value { result ≡ count_of part * below }
    ensures small { result ≤ 2 ^ 15 }
{
    count(part) * below
}
