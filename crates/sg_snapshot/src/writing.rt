//! The bytes of numbers, and of the part of a store.

ghost use Rattle.std.specs.Prelude.{◌≡◌, ◌++◌, ◌∷◌, [], ◌<◌, ℕ, Some, map, length, All, Contains, IfOk, OnOk};
ghost use Rattle.std.specs.List.{concat, range_with_len};
ghost use Rattle.sg_coord.specs.Bounds.{bounds_of};
ghost use Rattle.sg_coord.specs.Coord.{Inside, row_of};
ghost use Rattle.sg_layout.specs.Axes.{bounds_of_shape};
ghost use Rattle.sg_flat.specs.declared.state.FlatLayout.{FlatLayout};
ghost use Rattle.sg_store.specs.StandsFor.{StandsFor};
ghost use Rattle.sg_store.specs.StoreWords.{word_in};
ghost use Rattle.sg_store.specs.Walks.{cell_in};
ghost use Rattle.sg_store.specs.WellFormed.{IsReached};
ghost use Rattle.sg_snapshot.specs.Numbers.{number_bytes, bytes_of};
ghost use Rattle.sg_snapshot.specs.Parts.{part_numbers};
ghost use Rattle.sg_snapshot.specs.Image.{part_of};

use crate::asking::push_asked;
use crate::narrow::narrow;
use sg_coord::{Coord, Extents, inside, row};
use sg_elements::{active_count, elements};
use sg_layout::closure_members;
use sg_store::Store;
use sg_words::{Items, Memory};
use std::alloc::Global;

/// Of more points than these less than half are active, as a store has at most 2^22 cells.
const MOST_ASKED: u32 = 8_388_608;

/// Adds the bytes of the part of a store. Where at least half of its points are active, each is asked for; else the active ones are listed.
pub(crate) fn push_part(alloc: Global, bytes: &mut Vec<u8>, store: &Store) -> Result<(), Memory>
    ensures { OnOk result ((flat : FlatLayout) → StandsFor store.now flat →
        bytes.new.items ≡ bytes.old.items ++ bytes_of (part_numbers (part_of store.now.shape flat))) }
{
    let volume = store.layout().extents().volume();
    if MOST_ASKED < volume {
        return push_listed(alloc, bytes, store);
    }
    let many = active_count(alloc, store)?;
    if many < (volume / 2) as usize {
        return push_listed(alloc, bytes, store);
    }
    push_asked(alloc, bytes, store, many)
}

/// The same, by a list of the active coordinates.
fn push_listed(alloc: Global, bytes: &mut Vec<u8>, store: &Store) -> Result<(), Memory>
    ensures { OnOk result ((flat : FlatLayout) → StandsFor store.now flat →
        bytes.new.items ≡ bytes.old.items ++ bytes_of (part_numbers (part_of store.now.shape flat))) }
{
    // for the law that it ensures
    closure_members();
    let active = elements(alloc, store)?;
    let coords = active.as_slice();
    let many = narrow(coords.len())?;
    push_number(bytes, many)?;
    push_rows(bytes, store, coords)?;
    let cells = cells_of(alloc, store, coords)?;
    push_fields(bytes, store, cells.as_slice())
}

/// Adds the bytes of a number, the lowest first.
pub(crate) fn push_number(bytes: &mut Vec<u8>, number: u32) -> Result<(), Memory>
    ensures { OnOk result (bytes.new.items ≡ bytes.old.items ++ number_bytes number) }
{
    let four = [
        (number % 256) as u8,
        (number / 256 % 256) as u8,
        (number / 65536 % 256) as u8,
        (number / 16777216 % 256) as u8,
    ];
    bytes.extend_from_slice(&four)?;
    Ok(())
}

/// Adds the bytes of the rows of coordinates.
fn push_rows(bytes: &mut Vec<u8>, store: &Store, coords: &[Coord]) -> Result<(), Memory>
    ensures { OnOk result (All (Inside (bounds_of_shape store.now.shape)) coords.now →
        bytes.new.items ≡ bytes.old.items ++ bytes_of (map (row_of (bounds_of_shape store.now.shape)) coords.now)) }
{
    let extents = store.layout().extents();
    bytes.reserve(coords.len().saturating_mul(4))?;
    for at in coords {
        push_row(bytes, &extents, *at)?;
    }
    Ok(())
}

/// Adds the bytes of the row of a coordinate inside.
fn push_row(bytes: &mut Vec<u8>, extents: &Extents, at: Coord) -> Result<(), Memory>
    ensures { OnOk result (Inside (bounds_of extents.now) at →
        bytes.new.items ≡ bytes.old.items ++ number_bytes (row_of (bounds_of extents.now) at)) }
{
    if !inside(extents, at) {
        return Ok(());
    }
    push_number(bytes, row(extents, at))
}

/// The cells of active coordinates.
fn cells_of(alloc: Global, store: &Store, coords: &[Coord]) -> Result<Items<u32>, Memory>
    ensures reached { IfOk result (All (IsReached store.now)) }
    ensures cells { IfOk result (λ cells. (flat : FlatLayout) → StandsFor store.now flat → All (Contains flat.active) coords.now →
        map (cell_in store.now) coords.now ≡ map (λ cell. Some cell) cells) }
{
    let mut cells = Vec::with_capacity(alloc, coords.len())?;
    for at in coords {
        push_cell(&mut cells, store, *at)?;
    }
    Ok(Items::from_vec(cells))
}

/// Adds the cell of an active coordinate.
fn push_cell(cells: &mut Vec<u32>, store: &Store, at: Coord) -> Result<(), Memory>
    ensures reached { OnOk result (All (IsReached store.now) cells.old.items → All (IsReached store.now) cells.new.items) }
    ensures cells { OnOk result ((flat : FlatLayout) → StandsFor store.now flat → Contains flat.active at →
        map (λ cell. Some cell) cells.new.items ≡ map (λ cell. Some cell) cells.old.items ++ cell_in store.now at ∷ []) }
{
    match store.cell_of(at) {
        None => Ok(()),
        Some(cell) => {
            cells.push(cell)?;
            Ok(())
        }
    }
}

/// Adds the bytes of the words that each field has in cells.
pub(crate) fn push_fields(bytes: &mut Vec<u8>, store: &Store, cells: &[u32]) -> Result<(), Memory>
    requires { All (IsReached store.now) cells.now }
    ensures { OnOk result (bytes.new.items ≡ bytes.old.items
        ++ bytes_of (concat (map (λ place. map (word_in store.now place) cells.now) (range_with_len 0 (length store.now.shape.fields))))) }
{
    let fields = store.layout().shape().fields.len();
    for place in 0..fields {
        push_words(bytes, store, place as u32, cells)?;
    }
    Ok(())
}

/// Adds the bytes of the words that a field has in cells.
fn push_words(bytes: &mut Vec<u8>, store: &Store, place: u32, cells: &[u32]) -> Result<(), Memory>
    requires field { place < length store.now.shape.fields }
    requires cells { All (IsReached store.now) cells.now }
    ensures { OnOk result (bytes.new.items ≡ bytes.old.items ++ bytes_of (map (word_in store.now place) cells.now)) }
{
    bytes.reserve(cells.len().saturating_mul(4))?;
    for cell in cells {
        push_number(bytes, store.value(place, *cell))?;
    }
    Ok(())
}
