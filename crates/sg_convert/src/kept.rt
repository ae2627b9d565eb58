//! The coordinates that a store keeps: those where some field isn't 0.

ghost use Rattle.std.specs.Prelude.{◌≡◌, ◌++◌, ◌∷◌, [], All, IfOk, OnOk};
ghost use Rattle.std.specs.List.{filter};
ghost use Rattle.sg_coord.specs.declared.coord.Coord.{Coord};
ghost use Rattle.sg_coord.specs.Coord.{Inside};
ghost use Rattle.sg_layout.specs.Axes.{bounds_of_shape};
ghost use Rattle.sg_flat.specs.declared.state.FlatLayout.{FlatLayout};
ghost use Rattle.sg_store.specs.WellFormed.{IsReached};
ghost use Rattle.sg_store.specs.StandsFor.{StandsFor};
ghost use Rattle.sg_store.specs.Pruning.{valued_coordinates};
ghost use Rattle.sg_convert.specs.steps.Moving.{has_word, is_valued};

use sg_coord::{Coord, numbering};
use sg_store::Store;
use sg_store::laws::cells_are_active;
use sg_words::{Items, Memory};
use std::alloc::Global;

/// Those of the active coordinates, which are given in order, where some field isn't 0.
pub(crate) fn kept_of(
    alloc: Global,
    store: &Store,
    active: &[Coord],
) -> Result<Items<Coord>, Memory>
    requires { (flat : FlatLayout) → StandsFor store.now flat → active.now ≡ flat.active }
    ensures inside { IfOk result (All (Inside (bounds_of_shape store.now.shape))) }
    ensures kept { IfOk result (λ kept. (flat : FlatLayout) → StandsFor store.now flat → kept ≡ valued_coordinates store.now.shape flat) }
{
    // for the laws that they ensure
    cells_are_active();
    let layout = store.layout();
    numbering(&layout.extents());
    let kept = keep_valued(alloc, store, active)?;
    Ok(kept)
}

/// Those of the coordinates in whose cells some field has a word.
fn keep_valued(alloc: Global, store: &Store, coords: &[Coord]) -> Result<Items<Coord>, Memory>
    ensures { IfOk result (λ kept. kept ≡ filter (is_valued store.now) coords.now) }
{
    let mut kept = Items::new(alloc);
    for at in coords {
        keep_one(&mut kept, store, *at)?;
    }
    Ok(kept)
}

/// Adds a coordinate, if some field has a word in its cell.
fn keep_one(kept: &mut Items<Coord>, store: &Store, at: Coord) -> Result<(), Memory>
    ensures { OnOk result (kept.new ≡ kept.old ++ filter (is_valued store.now) (at ∷ [])) }
{
    if is_valued(store, at) {
        kept.push(at)?;
    }
    Ok(())
}

/// Whether a coordinate has a cell in which some field has a word.
fn is_valued(store: &Store, at: Coord) -> bool
    ensures { result ≡ is_valued store.now at }
{
    match store.cell_of(at) {
        Some(cell) => has_word(store, cell),
        None => false,
    }
}

/// Whether some field has a word in a cell.
fn has_word(store: &Store, cell: u32) -> bool
    requires { IsReached store.now cell }
    ensures { result ≡ has_word store.now cell }
{
    for place in 0..store.layout().shape().fields.len() {
        if store.value(place as u32, cell) != 0 {
            return true;
        }
    }
    false
}
