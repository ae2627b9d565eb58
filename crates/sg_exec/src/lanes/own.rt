ghost use Rattle.std.specs.Prelude.{◌≡◌, List, Contains, IfSome, Some};
ghost use Rattle.std.specs.List.{AllZip};
ghost use Rattle.sg_coord.specs.declared.coord.Coord.{Coord};
ghost use Rattle.sg_flat.specs.declared.state.FlatState.{FlatState};
ghost use Rattle.sg_flat.specs.State.{value_of};
ghost use Rattle.sg_store.specs.StandsFor.{StandsFor};
ghost use Rattle.sg_store.specs.StoreWords.{StoreWords};
ghost use Rattle.sg_exec.specs.Standing.{shapes_of};
ghost use Rattle.sg_exec.specs.steps.Machines.{cell_there, IsCellOf, IsOwnCell, AreOwnCells, IsStoreOf};

use crate::lanes::known::{Known, store_of};
use crate::lanes::own_cell::OwnCell;
use crate::lanes::values::value_in;
use crate::lanes::view::View;
use sg_coord::Coord;

/// The cell that was found in a layout's store, where it was looked for.
#[inline(always)]
pub(crate) fn found_in(found: &[OwnCell], layout: u32) -> Option<OwnCell>
    ensures same { IfSome result (λ own. own.layout ≡ layout) }
    ensures among { IfSome result (λ own. Contains found.now own) }
{
    for own in found {
        if own.layout == layout {
            return Some(*own);
        }
    }
    None
}

/// Keeps a cell that was found. Where memory runs out it isn't kept, and is looked for again.
#[inline(always)]
pub(crate) fn remember(found: &mut Vec<OwnCell>, own: OwnCell)
    ensures { (stores : List StoreWords) (at : Coord) → AreOwnCells stores at found.old.items → IsOwnCell stores at own →
        AreOwnCells stores at found.new.items }
{
    match found.push(own) {
        Ok(()) => {}
        Err(_) => {}
    }
}

/// The cell of a coordinate in a layout's store.
#[inline(always)]
pub(crate) fn cell_of(view: &View, layout: u32, at: Coord) -> Option<u32>
    ensures cell { result ≡ cell_there view.now layout (Some at) }
    ensures reached { IfSome result (IsCellOf view.now layout) }
{
    match view.get(layout) {
        Some(store) => store.cell_of(at),
        None => None,
    }
}

/// The value of a field in a cell of a layout's store, and 0 if there is none. Where that store is the known one, it isn't looked for.
#[inline(always)]
pub(crate) fn value_of(
    view: &View,
    known: Option<Known>,
    layout: u32,
    place: u32,
    cell: Option<u32>,
) -> u32
    requires known { IfSome known (λ known. IsStoreOf view.now known.layout known.store.now) }
    requires cell { IfSome cell (IsCellOf view.now layout) }
    ensures { (state : FlatState) → AllZip StandsFor view.now state.layouts → (at : Coord) → cell_there view.now layout (Some at) ≡ cell →
        result ≡ value_of (shapes_of view.now) state layout place at }
{
    match store_of(view, known, layout) {
        Some(store) => value_in(store, place, cell),
        None => 0,
    }
}
