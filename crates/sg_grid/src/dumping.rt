//! Dumping a field of a store.

ghost use Rattle.std.specs.Prelude.{◌≡◌, ◌<◌, ◌++◌, length, map, IfOk, OnOk, string_bytes};
ghost use Rattle.sg_flat.specs.declared.state.FlatLayout.{FlatLayout};
ghost use Rattle.sg_store.specs.StandsFor.{StandsFor};
ghost use Rattle.sg_store.specs.Walks.{cell_in};
ghost use Rattle.sg_grid.specs.GridText.{rows_text};
ghost use Rattle.sg_grid.specs.Dump.{field_type, dump_text};
ghost use Rattle.sg_grid.specs.steps.Keeping.{word_or_zero, kept_row};

use crate::grid::GridRow;
use crate::writing::{first_line, push_row};
use sg_coord::Coord;
use sg_elements::elements;
use sg_layout::Layout;
use sg_store::Store;
use sg_store::laws::cells_are_active;
use sg_words::{Items, Memory, Text, Ty};
use std::alloc::{AllocError, Global};

/// The grid text of a field, from 0: a row for each active coordinate, with the field's value there.
pub fn dump(alloc: Global, store: &Store, place: u32) -> Result<Text, Memory>
    requires { place < length store.now.shape.fields }
    ensures { IfOk result (λ text. (flat : FlatLayout) → StandsFor store.now flat →
        text.bytes ≡ dump_text store.now.shape flat place) }
{
    // for the law that it ensures
    cells_are_active();
    let layout = store.layout();
    let active = elements(alloc, store)?;
    let mut text = first_line(alloc, layout.shape().axes, active.len())?;
    push_rows(
        &mut text,
        store,
        place,
        field_type(layout, place),
        active.as_slice(),
    )?;
    Ok(Text {
        bytes: Items::from_vec(text.into_bytes()),
    })
}

/// Adds the lines of these coordinates, with what the store keeps there of a field of the type.
fn push_rows(
    text: &mut String,
    store: &Store,
    place: u32,
    ty: Ty,
    coords: &[Coord],
) -> Result<(), AllocError>
    requires { place < length store.now.shape.fields }
    ensures { OnOk result (string_bytes text.new
        ≡ string_bytes text.old ++ rows_text ty (map (kept_row store.now place) coords.now)) }
{
    for at in coords {
        let word = kept_word(store, place, *at);
        push_row(text, ty, GridRow { at: *at, word })?;
    }
    Ok(())
}

/// The type of a field.
fn field_type(layout: &Layout, place: u32) -> Ty
    ensures { result ≡ field_type layout.now place }
{
    match layout.shape().fields.get(place as usize) {
        Some(ty) => *ty,
        None => Ty::I32,
    }
}

/// The word that the store keeps of a field at a coordinate; 0 if it has no cell.
fn kept_word(store: &Store, place: u32, at: Coord) -> u32
    requires { place < length store.now.shape.fields }
    ensures { result ≡ word_or_zero store.now place (cell_in store.now at) }
{
    match store.cell_of(at) {
        Some(cell) => store.value(place, cell),
        None => 0,
    }
}
