//! Stores that stand for parts.

ghost use Rattle.std.specs.Prelude.{◌≡◌, ◌≤◌, ◌<◌, ℕ, List, Some, map, length, All, Contains, IfOk, OnOk};
ghost use Rattle.sg_words.specs.Answers.{Answers};
ghost use Rattle.sg_coord.specs.declared.coord.Coord.{Coord};
ghost use Rattle.sg_coord.specs.Bounds.{bounds_of, volume};
ghost use Rattle.sg_coord.specs.Coord.{point_at};
ghost use Rattle.sg_layout.specs.Axes.{bounds_of_shape};
ghost use Rattle.sg_layout.specs.Need.{first_full};
ghost use Rattle.sg_layout.specs.StorageWords.{words_of_shape, most_words};
ghost use Rattle.sg_flat.specs.Closed.{AreClosed};
ghost use Rattle.sg_flat.specs.State.{opening_layout};
ghost use Rattle.sg_store.specs.StandsFor.{StandsFor};
ghost use Rattle.sg_snapshot.specs.Parts.{frame_of, IsPart};
ghost use Rattle.sg_snapshot.specs.Restoring.{points_in, layout_of};
ghost use Rattle.sg_snapshot.specs.steps.Laying.{laid, IsLaid, put_row, words_at, GivesRow, unless_too_full, StandsForPart};
ghost use Rattle.sg_store.specs.Walks.{cell_in};
ghost use Rattle.sg_store.specs.WellFormed.{IsReached};

use crate::fault::SnapFault;
use crate::narrow::narrow;
use crate::part::Part;
use sg_coord::{Coord, Extents, coord_at, numbering};
use sg_layout::{Layout, closure_closes, need_absorbs};
use sg_store::Store;
use sg_words::{Items, Memory, Stop};
use std::alloc::Global;

/// A store that stands for a part of the layout of this number; refused where a node has no room.
pub(crate) fn store_of(
    alloc: Global,
    number: usize,
    layout: &Layout,
    part: &Part,
) -> Result<Store, Stop<SnapFault>>
    requires few_words { words_of_shape layout.now ≤ most_words }
    requires is { IsPart (frame_of layout.now) part.now }
    requires closed { AreClosed layout.now part.now.rows }
    ensures { StandsForPart number layout.now part.now result }
{
    let number = narrow(number)?;
    let mut store = Store::make(alloc, layout)?;
    match reach_points(alloc, number, &mut store, part.rows.as_slice()) {
        Ok(()) => {
            set_words(&mut store, part);
            Ok(store)
        }
        Err(stop) => Err(stop),
    }
}

/// Makes the points with these rows active in a store at its start; refused where a node has no room.
fn reach_points(
    alloc: Global,
    number: u32,
    store: &mut Store,
    rows: &[u32],
) -> Result<(), Stop<SnapFault>>
    requires below { All (λ row. row < volume (bounds_of_shape store.old.shape)) rows.now }
    requires closed { AreClosed store.old.shape rows.now }
    requires opening { StandsFor store.old (opening_layout store.old.shape) }
    ensures answer { Answers result
        (unless_too_full number (first_full store.old.shape (map (point_at (bounds_of_shape store.old.shape)) rows.now))) }
    ensures same_shape { OnOk result (store.new.shape ≡ store.old.shape) }
    ensures reached { OnOk result (StandsFor store.new
        (laid store.old.shape (map (point_at (bounds_of_shape store.old.shape)) rows.now) (λ place row. 0))) }
{
    // for the laws that they ensure
    closure_closes();
    need_absorbs();
    let extents = store.layout().extents();
    numbering(&extents);
    let points = points_of(alloc, &extents, rows)?;
    match store.reach(alloc, points.as_slice()) {
        Ok(()) => Ok(()),
        Err(Stop::Memory) => Err(Stop::Memory),
        Err(Stop::Refused(full)) => Err(Stop::Refused(SnapFault::Full {
            layout: number,
            node: full.node,
            cap: full.cap,
        })),
    }
}

/// The points with these rows.
fn points_of(alloc: Global, extents: &Extents, rows: &[u32]) -> Result<Items<Coord>, Memory>
    requires { All (λ row. row < volume (bounds_of extents.now)) rows.now }
    ensures { IfOk result (λ points. points ≡ map (point_at (bounds_of extents.now)) rows.now) }
{
    let mut points = Vec::with_capacity(alloc, rows.len())?;
    for row in rows {
        points.push(coord_at(extents, *row))?;
    }
    Ok(Items::from_vec(points))
}

/// Gives the fields the words of a part, from the last row to the first.
fn set_words(store: &mut Store, part: &Part)
    requires is { IsPart (frame_of store.old.shape) part.now }
    requires closed { AreClosed store.old.shape part.now.rows }
    ensures same_shape { store.new.shape ≡ store.old.shape }
    ensures stands { StandsFor store.old (laid store.old.shape (points_in store.old.shape part.now) (λ place row. 0))
        → StandsFor store.new (layout_of store.old.shape part.now) }
{
    let rows = part.rows.as_slice();
    let many = rows.len();
    for done in 0..many {
        let index = many - 1 - done;
        set_row(store, rows[index], part.words.as_slice(), index);
    }
}

/// Gives the fields the words with an index in the cell of a row.
fn set_row(store: &mut Store, row: u32, words: &[Items<u32>], index: usize)
    requires inside { row < volume (bounds_of_shape store.old.shape) }
    requires many { length words.now ≡ length store.old.shape.fields }
    requires within { All (λ list. index < length list) words.now }
    ensures same_shape { store.new.shape ≡ store.old.shape }
    ensures gives { (active : List Coord) (word : ℕ → ℕ → ℕ) → IsLaid store.old.shape active word →
        Contains active (point_at (bounds_of_shape store.old.shape) row) → StandsFor store.old (laid store.old.shape active word) →
        GivesRow store.old store.new (length store.old.shape.fields) row (words_at words.now index) active word }
{
    let at = coord_at(&store.layout().extents(), row);
    match store.cell_of(at) {
        Some(cell) => set_cell(store, at, cell, words, index),
        None => {}
    }
}

/// Gives the fields the words with an index in the cell of a coordinate.
fn set_cell(store: &mut Store, at: Coord, cell: u32, words: &[Items<u32>], index: usize)
    requires cell { cell_in store.old at ≡ Some cell }
    requires reached { IsReached store.old cell }
    requires many { length words.now ≡ length store.old.shape.fields }
    requires within { All (λ list. index < length list) words.now }
    ensures same_shape { store.new.shape ≡ store.old.shape }
    ensures gives { (active : List Coord) (word : ℕ → ℕ → ℕ) (row : ℕ) → row < volume (bounds_of_shape store.old.shape) →
        point_at (bounds_of_shape store.old.shape) row ≡ at → IsLaid store.old.shape active word →
        Contains active at → StandsFor store.old (laid store.old.shape active word) →
        GivesRow store.old store.new (length store.old.shape.fields) row (words_at words.now index) active word }
{
    // for the laws that it ensures, and what the layout keeps
    let layout = store.layout();
    numbering(&layout.extents());
    layout.shape();
    for place in 0..words.len() {
        store.set(place as u32, cell, word_at(words, place, index));
    }
}

/// The word with an index in the list at a place.
fn word_at(words: &[Items<u32>], place: usize, index: usize) -> u32
    requires place { place < length words.now }
    requires within { All (λ list. index < length list) words.now }
    ensures { result ≡ words_at words.now index place }
{
    words[place].as_slice()[index]
}
