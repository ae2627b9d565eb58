//! The same values under another layout.

ghost use Rattle.std.specs.Prelude.{◌≡◌, ◌≤◌, IfOk};
ghost use Rattle.sg_words.specs.Answers.{AnswersAs};
ghost use Rattle.sg_coord.specs.Bounds.{bounds_of};
ghost use Rattle.sg_layout.specs.Axes.{bounds_of_shape};
ghost use Rattle.sg_layout.specs.StorageWords.{words_of_shape, most_words};
ghost use Rattle.sg_layout.specs.Need.{first_full};
ghost use Rattle.sg_flat.specs.declared.state.FlatLayout.{FlatLayout};
ghost use Rattle.sg_store.specs.Pruning.{valued_coordinates};
ghost use Rattle.sg_store.specs.StandsFor.{StandsFor};
ghost use Rattle.sg_activate.specs.Activating.{unless_full};
ghost use Rattle.sg_convert.specs.Alike.{AreAlike};
ghost use Rattle.sg_convert.specs.Converted.{converted};
ghost use Rattle.sg_convert.specs.steps.Moving.{opened_layout};

use crate::kept::kept_of;
use crate::moving::move_words;
use crate::parts::{Pieces, cut};
use sg_activate::{ActFault, activate};
use sg_coord::numbering;
use sg_elements::elements_by_workers;
use sg_layout::{Layout, closure_closes, closure_members, need_absorbs};
use sg_outside::Gate;
use sg_store::Store;
use sg_store::laws::cells_are_active;
use sg_words::Stop;
use std::alloc::Global;
use std::thread::Threads;

/// A store of another layout that has the values of this one. Active is the closure, under that layout, of the coordinates
/// where some field isn't 0. Refused where the need for these passes a cap. It waits for its workers.
pub fn convert<R: Threads + Sync, G: Gate + Sync>(
    rt: &R,
    alloc: Global,
    from: &Store,
    to: &Layout,
    workers: u32,
    gate: &G,
) -> Result<Store, Stop<ActFault>>
    requires alike { AreAlike from.now.shape to.now }
    requires few_words { words_of_shape to.now ≤ most_words }
    requires some { 1 ≤ workers }
    requires few { workers ≤ 16 }
    ensures shape { IfOk result (λ store. store.shape ≡ to.now) }
    ensures answer { (flat : FlatLayout) → StandsFor from.now flat →
        AnswersAs (λ store. tt) result (unless_full (first_full to.now (valued_coordinates from.now.shape flat))) }
    ensures converted { IfOk result (λ store. (flat : FlatLayout) → StandsFor from.now flat →
        StandsFor store (converted from.now.shape to.now flat)) }
{
    // for the laws that they ensure
    cells_are_active();
    closure_members();
    closure_closes();
    numbering(&to.extents());
    from.layout();
    let active = elements_by_workers(rt, alloc, from, workers)?;
    let kept = kept_of(alloc, from, active.as_slice())?;
    let pieces = cut(kept, to.extents());
    let mut store = match opened_for(rt, alloc, to, &pieces, workers, gate) {
        Ok(store) => store,
        Err(stop) => return Err(stop),
    };
    move_words(&mut store, from, pieces.coords.as_slice());
    Ok(store)
}

/// A new store of a layout, opened for pieces. Refused where the need for these passes a cap.
fn opened_for<R: Threads + Sync, G: Gate + Sync>(
    rt: &R,
    alloc: Global,
    to: &Layout,
    pieces: &Pieces,
    workers: u32,
    gate: &G,
) -> Result<Store, Stop<ActFault>>
    requires bounds { bounds_of pieces.now.extents ≡ bounds_of_shape to.now }
    requires few_words { words_of_shape to.now ≤ most_words }
    requires some { 1 ≤ workers }
    requires few { workers ≤ 16 }
    ensures shape { IfOk result (λ store. store.shape ≡ to.now) }
    ensures answer { AnswersAs (λ store. tt) result (unless_full (first_full to.now pieces.now.coords)) }
    ensures opened { IfOk result (λ store. StandsFor store (opened_layout to.now pieces.now.coords)) }
{
    // for the laws that they ensure
    closure_closes();
    need_absorbs();
    let mut store = Store::make_by_workers(rt, alloc, to, workers)?;
    match activate(rt, alloc, &mut store, pieces, workers, gate) {
        Ok(()) => Ok(store),
        Err(stop) => Err(stop),
    }
}
