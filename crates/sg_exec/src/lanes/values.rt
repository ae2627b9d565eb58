ghost use Rattle.std.specs.Prelude.{◌≡◌, IfSome};
ghost use Rattle.sg_coord.specs.declared.coord.Coord.{Coord};
ghost use Rattle.sg_flat.specs.declared.state.FlatLayout.{FlatLayout};
ghost use Rattle.sg_flat.specs.State.{value_at};
ghost use Rattle.sg_store.specs.StandsFor.{StandsFor};
ghost use Rattle.sg_store.specs.Walks.{cell_in};
ghost use Rattle.sg_store.specs.WellFormed.{IsReached};

use sg_coord::{Extents, numbering};
use sg_store::Store;
use sg_store::laws::cells_are_active;

/// Any extents: the laws of coordinates are of all bounds.
pub(crate) const ONE_POINT: Extents = Extents {
    n: 1,
    a: 1,
    b: 1,
    c: 1,
};

/// The value of a field of a store, from 0, in a cell: 0 if there is no cell, and if there is no such field.
#[inline(always)]
pub(crate) fn value_in(store: &Store, place: u32, cell: Option<u32>) -> u32
    requires cell { IfSome cell (IsReached store.now) }
    ensures { (flat : FlatLayout) → StandsFor store.now flat → (at : Coord) → cell_in store.now at ≡ cell →
        result ≡ value_at store.now.shape flat place at }
{
    // for the laws that they ensure
    numbering(&ONE_POINT);
    cells_are_active();
    if place as usize >= store.layout().shape().fields.len() {
        return 0;
    }
    match cell {
        Some(cell) => store.value(place, cell),
        None => 0,
    }
}
