//! New coordinates that are few, opened by one worker one after the other, without a table.
ghost use Rattle.std.specs.Prelude.{◌≡◌, ◌++◌, All, IfOk, OnOk};
ghost use Rattle.sg_words.specs.Answers.{AnswersAs};
ghost use Rattle.sg_coord.specs.Coord.{Inside};
ghost use Rattle.sg_layout.specs.Axes.{bounds_of_shape};
ghost use Rattle.sg_layout.specs.Closure.{closure};
ghost use Rattle.sg_layout.specs.Need.{first_full};
ghost use Rattle.sg_flat.specs.declared.state.FlatLayout.{FlatLayout};
ghost use Rattle.sg_store.specs.WellFormed.{IsWellFormed};
ghost use Rattle.sg_store.specs.StandsFor.{StandsFor};
ghost use Rattle.sg_store.specs.Reaching.{KeepsCells};
ghost use Rattle.sg_activate.specs.Activating.{unless_full};
ghost use Rattle.sg_activate.specs.steps.Finding.{coords_found, found_in};

use crate::asking::Work;
use crate::fault::ActFault;
use crate::found::{Finds, Found, coord_found};
use sg_coord::Coord;
use sg_store::{Full, Store};
use sg_words::{Items, Memory, Stop};
use std::alloc::Global;

/// A table costs as much as so many words of the containers for each coordinate that is opened without one.
const WORDS_EACH: u64 = 64;

/// Whether so few coordinates are new that a table for all words of the containers costs more than they do, and the gate holds nobody.
pub(crate) fn are_few<G>(store: &Store, work: &Work<G>) -> bool {
    if work.gated {
        return false;
    }
    let most = store.layout().words() / WORDS_EACH;
    let mut many: u64 = 0;
    for finds in work.found {
        many = many.saturating_add(finds.list.len() as u64);
    }
    many <= most
}

/// Opens a store for what was found. Refused where the need passes a cap; then the store is let go, and where memory runs out.
pub(crate) fn open_few(
    alloc: Global,
    store: Store,
    axes: u32,
    found: &[Finds],
) -> Result<Store, Stop<ActFault>>
    requires inside { All (Inside (bounds_of_shape store.shape)) (found_in axes found.now) }
    ensures answer { (flat : FlatLayout) → StandsFor store flat →
        AnswersAs (λ next. tt) result (unless_full (first_full store.shape (flat.active ++ found_in axes found.now))) }
    ensures opened { IfOk result (λ next. (flat : FlatLayout) → StandsFor store flat → StandsFor next
        (record flat { active = closure store.shape (flat.active ++ found_in axes found.now) })) }
    ensures keeps { IfOk result (λ next. KeepsCells store next) }
    ensures well_formed { IfOk result IsWellFormed }
{
    let coords = coords_of(alloc, axes, found)?;
    match store.opened(alloc, coords.as_slice()) {
        Ok(next) => Ok(next),
        Err(Stop::Memory) => Err(Stop::Memory),
        Err(Stop::Refused(Full { node, cap })) => {
            Err(Stop::Refused(ActFault::PoolFull { node, cap }))
        }
    }
}

/// The coordinates that were found, in order.
fn coords_of(alloc: Global, axes: u32, found: &[Finds]) -> Result<Items<Coord>, Memory>
    ensures { IfOk result (λ coords. coords ≡ found_in axes found.now) }
{
    let mut coords = Items::new(alloc);
    for finds in found {
        add_coords(&mut coords, axes, finds.list.as_slice())?;
    }
    Ok(coords)
}

/// Adds those of one list.
fn add_coords(coords: &mut Items<Coord>, axes: u32, list: &[Found]) -> Result<(), Memory>
    ensures { OnOk result (coords.new ≡ coords.old ++ coords_found axes list.now) }
{
    for found in list {
        coords.push(coord_found(axes, *found))?;
    }
    Ok(())
}
