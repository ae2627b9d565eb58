//! The points of a layout all of whose nodes are dense, where everything is active always.

ghost use Rattle.std.specs.Prelude.{◌≡◌, ◌<◌, ◌+◌, IfOk};
ghost use Rattle.sg_coord.specs.Bounds.{bounds_of, volume};
ghost use Rattle.sg_coord.specs.Coord.{point_at};
ghost use Rattle.sg_layout.specs.Closure.{points};

use sg_coord::{Coord, Extents, coord_after, first_coord, numbering};
use sg_words::{Items, Memory};
use std::alloc::Global;

/// All points inside, in row order: the first one, and each next one by counting up.
pub fn every_point(alloc: Global, extents: &Extents) -> Result<Items<Coord>, Memory>
    ensures { IfOk result (λ coords. coords ≡ points (bounds_of extents.now)) }
{
    // for the law that it ensures
    numbering(extents);
    let mut coords = Vec::with_capacity(alloc, extents.volume() as usize)?;
    let mut at = first_coord(extents);
    for row in 0..extents.volume() {
        coords.push(at)?;
        at = next_point(extents, row, at);
    }
    Ok(Items::from_vec(coords))
}

/// The point after the one with this row number, if there is one.
#[inline(always)]
pub(crate) fn next_point(extents: &Extents, row: u32, at: Coord) -> Coord
    requires below { row < volume (bounds_of extents.now) }
    requires point { at ≡ point_at (bounds_of extents.now) row }
    ensures { row + 1 < volume (bounds_of extents.now) → result ≡ point_at (bounds_of extents.now) (row + 1) }
{
    // for the law that it ensures
    numbering(extents);
    let _row = row;
    coord_after(extents, at)
}
