//! Words that move from a store to another.

ghost use Rattle.std.specs.Prelude.{◌≡◌, ◌<◌, length, Some, IfSome};
ghost use Rattle.sg_store.specs.Walks.{cell_in};
ghost use Rattle.sg_store.specs.WellFormed.{IsReached};
ghost use Rattle.sg_convert.specs.steps.Moving.{word_or_zero, HasMoved, MovesCell};

use sg_coord::Coord;
use sg_store::Store;
use sg_store::laws::cells_are_active;

/// Gives the fields of a store the words that another has at these coordinates.
pub(crate) fn move_words(store: &mut Store, from: &Store, coords: &[Coord])
    requires { store.old.shape.fields ≡ from.now.shape.fields }
    ensures { HasMoved from.now store.old store.new coords.now }
{
    // for the laws that they ensure
    cells_are_active();
    store.layout();
    for at in coords {
        move_word(store, from, *at);
    }
}

/// Gives the fields of a store the words that another has at a coordinate.
fn move_word(store: &mut Store, from: &Store, at: Coord)
    requires { store.old.shape.fields ≡ from.now.shape.fields }
    ensures { MovesCell from.now store.old store.new at }
{
    let source = from.cell_of(at);
    if let Some(cell) = store.cell_of(at) {
        for place in 0..from.layout().shape().fields.len() {
            // for the invariant that it ensures
            store.layout();
            store.set(place as u32, cell, word_at(from, place as u32, source));
        }
    }
}

/// The word of a field, from 0, in a cell; 0 where there is none.
fn word_at(store: &Store, place: u32, cell: Option<u32>) -> u32
    requires field { place < length store.now.shape.fields }
    requires reached { IfSome cell (IsReached store.now) }
    ensures { result ≡ word_or_zero store.now place cell }
{
    match cell {
        Some(cell) => store.value(place, cell),
        None => 0,
    }
}
