//! The bytes of the part of a store most of whose points are active.

ghost use Rattle.std.specs.Prelude.{◌≡◌, ◌+◌, ◌++◌, ◌<◌, ℕ, Some, map, All, IfOk, OnOk};
ghost use Rattle.sg_coord.specs.declared.coord.Coord.{Coord};
ghost use Rattle.sg_coord.specs.Bounds.{bounds_of, volume};
ghost use Rattle.sg_coord.specs.Coord.{point_at, row_of};
ghost use Rattle.sg_layout.specs.Axes.{bounds_of_shape};
ghost use Rattle.sg_flat.specs.declared.state.FlatLayout.{FlatLayout};
ghost use Rattle.sg_store.specs.StandsFor.{StandsFor};
ghost use Rattle.sg_store.specs.Walks.{cell_in};
ghost use Rattle.sg_store.specs.WellFormed.{IsReached};
ghost use Rattle.sg_elements.specs.Active.{CountsActive};
ghost use Rattle.sg_snapshot.specs.Numbers.{bytes_of};
ghost use Rattle.sg_snapshot.specs.Parts.{part_numbers};
ghost use Rattle.sg_snapshot.specs.Image.{part_of};
ghost use Rattle.sg_snapshot.specs.steps.Asking.{row_if, cell_if};

use crate::narrow::narrow;
use crate::writing::{push_fields, push_number};
use sg_coord::{Coord, Extents, coord_after, first_coord, numbering};
use sg_layout::closure_members;
use sg_store::Store;
use sg_store::laws::cells_are_active;
use sg_words::{Items, Memory};
use std::alloc::Global;

/// Adds the bytes of the part of a store with so many active coordinates, asking for each of its points.
pub(crate) fn push_asked(
    alloc: Global,
    bytes: &mut Vec<u8>,
    store: &Store,
    many: usize,
) -> Result<(), Memory>
    requires { CountsActive store.now many }
    ensures { OnOk result ((flat : FlatLayout) → StandsFor store.now flat →
        bytes.new.items ≡ bytes.old.items ++ bytes_of (part_numbers (part_of store.now.shape flat))) }
{
    let count = narrow(many)?;
    push_number(bytes, count)?;
    let cells = push_points(alloc, bytes, store, many)?;
    push_fields(bytes, store, cells.as_slice())
}

/// Adds the bytes of the rows of the active coordinates, which are about so many; their cells.
fn push_points(
    alloc: Global,
    bytes: &mut Vec<u8>,
    store: &Store,
    many: usize,
) -> Result<Items<u32>, Memory>
    ensures reached { IfOk result (All (IsReached store.now)) }
    ensures rows { OnOk result ((flat : FlatLayout) → StandsFor store.now flat →
        bytes.new.items ≡ bytes.old.items ++ bytes_of (map (row_of (bounds_of_shape store.now.shape)) flat.active)) }
    ensures cells { IfOk result (λ cells. (flat : FlatLayout) → StandsFor store.now flat →
        map (cell_in store.now) flat.active ≡ map (λ cell. Some cell) cells) }
{
    // for the laws that they ensure
    cells_are_active();
    closure_members();
    let extents = store.layout().extents();
    numbering(&extents);
    bytes.reserve(many.saturating_mul(4))?;
    let mut cells = Vec::with_capacity(alloc, many)?;
    let mut at = first_coord(&extents);
    for row in 0..extents.volume() {
        push_point(bytes, &mut cells, store, row, at)?;
        at = point_after(&extents, row, at);
    }
    Ok(Items::from_vec(cells))
}

/// Adds the bytes of a row and a cell, if the coordinate has one.
fn push_point(
    bytes: &mut Vec<u8>,
    cells: &mut Vec<u32>,
    store: &Store,
    row: u32,
    at: Coord,
) -> Result<(), Memory>
    ensures reached { OnOk result (All (IsReached store.now) cells.old.items → All (IsReached store.now) cells.new.items) }
    ensures rows { OnOk result (bytes.new.items ≡ bytes.old.items ++ bytes_of (row_if (cell_in store.now at) row)) }
    ensures cells { OnOk result (cells.new.items ≡ cells.old.items ++ cell_if (cell_in store.now at)) }
{
    match store.cell_of(at) {
        None => Ok(()),
        Some(cell) => {
            cells.push(cell)?;
            push_number(bytes, row)?;
            Ok(())
        }
    }
}

/// The point after the one with this row number, if there is one.
#[inline(always)]
fn point_after(extents: &Extents, row: u32, at: Coord) -> Coord
    requires below { row < volume (bounds_of extents.now) }
    requires point { at ≡ point_at (bounds_of extents.now) row }
    ensures { row + 1 < volume (bounds_of extents.now) → result ≡ point_at (bounds_of extents.now) (row + 1) }
{
    // for the law that it ensures
    numbering(extents);
    let _row = row;
    coord_after(extents, at)
}
