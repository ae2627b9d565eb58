ghost use Rattle.std.specs.Prelude.{◌≡◌, ◌∷◌, [], length, Contains, IfSome, OnOk, unwrap_or};
ghost use Rattle.sg_flat.specs.declared.effects.Write.{Write};
ghost use Rattle.sg_flat.specs.declared.state.FlatLayout.{FlatLayout};
ghost use Rattle.sg_flat.specs.Effects.{land};
ghost use Rattle.sg_store.specs.StandsFor.{StandsFor};
ghost use Rattle.sg_store.specs.WellFormed.{IsReached};
ghost use Rattle.sg_exec.specs.steps.Landing.{current, landed_layout, HasTree, IsLanding, Lands};
ghost use Rattle.sg_exec.specs.steps.Made.{HaveTrees};

use crate::lanes::cell_write::CellWrite;
use crate::lanes::values::ONE_POINT;
use sg_coord::numbering;
use sg_flat::{Way, Write};
use sg_layout::{closure_closes, closure_members};
use sg_store::laws::cells_are_active;
use sg_store::{Store, Stores};
use sg_words::{Memory, Ty, fold};
use std::alloc::Global;

/// Lands a write in a store.
pub(crate) fn put_cell(store: &mut Store, write: &CellWrite)
    requires cell { IfSome write.now.cell (IsReached store.old) }
    ensures same { HasTree store.old store.new }
    ensures lands { (flat : FlatLayout) → StandsFor store.old flat → (made : Write) → IsLanding store.old write.now made →
        Contains flat.active made.at →
        StandsFor store.new (landed_layout made.layout store.old.shape flat (made ∷ [])) }
{
    // for the laws that they ensure
    numbering(&ONE_POINT);
    closure_closes();
    closure_members();
    cells_are_active();
    let Some(ty) = store
        .layout()
        .shape()
        .fields
        .get(write.place as usize)
        .copied()
    else {
        return;
    };
    let Some(cell) = write.cell else {
        return;
    };
    let word = word_after(ty, store.value(write.place, cell), write.way, write.value);
    store.set(write.place, cell, word);
}

/// Lands writes in the copies, each in its turn.
pub(crate) fn land_all(
    alloc: Global,
    stores: &Stores,
    copies: &mut Vec<Option<Store>>,
    writes: &[Write],
) -> Result<(), Memory>
    requires room { length copies.old.items ≡ length stores.now.list }
    ensures lands { OnOk result (Lands (current copies.old.items stores.now.list) (current copies.new.items stores.now.list) writes.now) }
    ensures room { length copies.new.items ≡ length stores.now.list }
    ensures trees { HaveTrees (current copies.old.items stores.now.list) (current copies.new.items stores.now.list) }
{
    for write in writes {
        land(alloc, stores, copies, write)?;
    }
    Ok(())
}

/// Lands a write in the copy of its layout's store, which is made if there is none.
fn land(
    alloc: Global,
    stores: &Stores,
    copies: &mut Vec<Option<Store>>,
    write: &Write,
) -> Result<(), Memory>
    requires room { length copies.old.items ≡ length stores.now.list }
    ensures lands { OnOk result (Lands (current copies.old.items stores.now.list) (current copies.new.items stores.now.list) (write.now ∷ [])) }
    ensures room { length copies.new.items ≡ length stores.now.list }
    ensures trees { HaveTrees (current copies.old.items stores.now.list) (current copies.new.items stores.now.list) }
{
    let number = write.layout as usize;
    let Some(store) = stores.list.get(number) else {
        return Ok(());
    };
    let slot = &mut copies[number];
    land_in(alloc, store, slot, write)
}

/// Lands a write in the copy of a store, which is made if there is none.
fn land_in(
    alloc: Global,
    store: &Store,
    slot: &mut Option<Store>,
    write: &Write,
) -> Result<(), Memory>
    ensures shape { (unwrap_or slot.new store.now).shape ≡ (unwrap_or slot.old store.now).shape }
    ensures same { HasTree (unwrap_or slot.old store.now) (unwrap_or slot.new store.now) }
    ensures lands { OnOk result ((flat : FlatLayout) → StandsFor (unwrap_or slot.old store.now) flat →
        Contains flat.active write.now.at →
        StandsFor (unwrap_or slot.new store.now)
        (landed_layout write.now.layout (unwrap_or slot.old store.now).shape flat (write.now ∷ []))) }
{
    match slot {
        Some(copy) => put(copy, write),
        None => {
            let mut copy = store.copy(alloc)?;
            put(&mut copy, write);
            *slot = Some(copy);
        }
    }
    Ok(())
}

/// Lands a write in a store.
fn put(store: &mut Store, write: &Write)
    ensures shape { store.new.shape ≡ store.old.shape }
    ensures same { HasTree store.old store.new }
    ensures lands { (flat : FlatLayout) → StandsFor store.old flat → Contains flat.active write.now.at →
        StandsFor store.new (landed_layout write.now.layout store.old.shape flat (write.now ∷ [])) }
{
    // for the laws that they ensure
    numbering(&ONE_POINT);
    closure_closes();
    closure_members();
    let Some(ty) = store
        .layout()
        .shape()
        .fields
        .get(write.place as usize)
        .copied()
    else {
        return;
    };
    let Some(cell) = store.cell_of(write.at) else {
        return;
    };
    let word = word_after(ty, store.value(write.place, cell), write.way, write.value);
    store.set(write.place, cell, word);
}

/// What a write makes of its cell's word.
fn word_after(ty: Ty, old: u32, way: Way, value: u32) -> u32
    ensures { result ≡ land ty old way value }
{
    match way {
        Way::Own => value,
        Way::Acc(op) => fold(op, ty, old, value),
    }
}
