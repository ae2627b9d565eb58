//! What a place register holds in a column: the root of a layout, the place below another, and the value and the cell at one.

ghost use Rattle.std.specs.Prelude.{◌≡◌, ◌⊎◌, ◌<◌, ◌+◌, ◌^◌, [], ℕ, List, length, slice_get, IfSome, IfNone, Some, true, false};
ghost use Rattle.sg_layout.specs.Slots.{coordinate_of};
ghost use Rattle.sg_flat.specs.declared.state.FlatLayout.{FlatLayout};
ghost use Rattle.sg_flat.specs.State.{value_at};
ghost use Rattle.sg_store.specs.Spots.{LeadsAlong, IsSpot};
ghost use Rattle.sg_store.specs.StandsFor.{StandsFor};
ghost use Rattle.sg_store.specs.StoreWords.{StoreWords};
ghost use Rattle.sg_store.specs.Walks.{cell_in};
ghost use Rattle.sg_store.specs.WellFormed.{IsReached, IsWellFormed};
ghost use Rattle.sg_exec.specs.steps.Machines.{HoldsPlace, IsHeld, IsCellOf, IsStoreOf, StepsDown};
ghost use Rattle.sg_exec.specs.steps.Holding.{FitsWord, HasLayoutWord};
ghost use Rattle.sg_exec.specs.steps.Stepping.{can_step, StepLeads, StepIsDead};

use crate::lanes::held::{Held, held_in};
use crate::lanes::known::{Known, store_of};
use crate::lanes::view::View;
use sg_layout::{Layout, paths_tell};
use sg_store::laws::cells_are_active;
use sg_store::{Spot, Store};

/// The root of a layout.
#[inline(always)]
pub(crate) fn root_of(view: &View, layout: u32) -> Option<Held>
    ensures held { IfSome result (IsHeld view.now) }
    ensures holds { HoldsPlace view.now result (Some (record { layout = layout; path = [] })) }
    ensures fits { layout < 2 ^ 29 → IfSome result FitsWord }
{
    match view.get(layout) {
        Some(store) => held_in(layout, Some(store.root())),
        None => None,
    }
}

/// The place one node below another.
#[inline(always)]
pub(crate) fn below(
    view: &View,
    known: Option<Known>,
    held: Option<Held>,
    node: u32,
    offset: u32,
) -> Option<Held>
    requires known { IfSome known (λ known. IsStoreOf view.now known.layout known.store.now) }
    requires held { IfSome held (IsHeld view.now) }
    requires layout { IfSome held HasLayoutWord }
    ensures steps { StepsDown view.now node offset held result }
    ensures fits { IfSome result FitsWord }
{
    match held {
        Some(held) => below_held(view, known, held, node, offset),
        None => None,
    }
}

/// The place one node below a spot.
#[inline(always)]
fn below_held(view: &View, known: Option<Known>, held: Held, node: u32, offset: u32) -> Option<Held>
    requires known { IfSome known (λ known. IsStoreOf view.now known.layout known.store.now) }
    requires held { IsHeld view.now held }
    requires layout { HasLayoutWord held }
    ensures steps { StepsDown view.now node offset (Some held) result }
    ensures fits { IfSome result FitsWord }
{
    match store_of(view, known, held.layout) {
        Some(store) => held_in(held.layout, spot_below(store, held.spot, node, offset)),
        None => None,
    }
}

/// The value of a field, from 0, at a spot.
#[inline(always)]
pub(crate) fn value_held(view: &View, known: Option<Known>, held: Held, field: u32) -> u32
    requires known { IfSome known (λ known. IsStoreOf view.now known.layout known.store.now) }
    requires held { IsHeld view.now held }
    ensures { (store : StoreWords) → slice_get view.now held.layout ≡ Some store → (flat : FlatLayout) → StandsFor store flat →
        (path : List ℕ) → LeadsAlong store held.spot path → length path ≡ length store.shape.nodes →
        result ≡ value_at store.shape flat field (coordinate_of store.shape path) }
{
    match store_of(view, known, held.layout) {
        Some(store) => value_in(store, held.spot, field),
        None => 0,
    }
}

/// Whether the coordinate of a spot is active: whether the spot is after the last node.
#[inline(always)]
pub(crate) fn is_cell_held(view: &View, known: Option<Known>, held: Held) -> bool
    requires known { IfSome known (λ known. IsStoreOf view.now known.layout known.store.now) }
    requires held { IsHeld view.now held }
    ensures { (store : StoreWords) → slice_get view.now held.layout ≡ Some store → (path : List ℕ) → LeadsAlong store held.spot path →
        length path ≡ length store.shape.nodes → (result ≡ true) × IsWellFormed store }
{
    match store_of(view, known, held.layout) {
        Some(store) => is_cell(store, held.spot),
        None => false,
    }
}

/// Whether a spot is after the last node.
fn is_cell(store: &Store, spot: Spot) -> bool
    requires leads { IsSpot store.now spot }
    ensures { (path : List ℕ) → LeadsAlong store.now spot path → length path ≡ length store.now.shape.nodes → (result ≡ true) × IsWellFormed store.now }
{
    spot.node as usize == store.layout().nodes()
}

/// The cell of a spot in a layout's store. None if the spot is another layout's.
#[inline(always)]
pub(crate) fn cell_held(view: &View, known: Option<Known>, held: Held, layout: u32) -> Option<u32>
    requires known { IfSome known (λ known. IsStoreOf view.now known.layout known.store.now) }
    requires held { IsHeld view.now held }
    ensures reached { IfSome result (IsCellOf view.now layout) }
    ensures cell { held.layout ≡ layout → (store : StoreWords) → slice_get view.now layout ≡ Some store →
        (path : List ℕ) → LeadsAlong store held.spot path → length path ≡ length store.shape.nodes →
        cell_in store (coordinate_of store.shape path) ≡ result }
{
    if held.layout != layout {
        return None;
    }
    match store_of(view, known, held.layout) {
        Some(store) => cell_under(store, held.spot),
        None => None,
    }
}

/// The spot one node below, over an offset. None if there is no such node, where the offset isn't below its size, and where the slot
/// isn't active.
#[inline(always)]
fn spot_below(store: &Store, spot: Spot, node: u32, offset: u32) -> Option<Spot>
    requires leads { IsSpot store.now spot }
    ensures some { IfSome result (λ below. (path : List ℕ) → LeadsAlong store.now spot path → StepLeads store.now below node path offset) }
    ensures none { IfNone result ((path : List ℕ) → LeadsAlong store.now spot path → StepIsDead store.now node path offset) }
    ensures node { IfSome result (λ below. below.node < 7) }
{
    // for the laws that they ensure
    paths_tell();
    cells_are_active();
    let layout = store.layout();
    let _shape = layout.shape();
    if spot.node as usize >= layout.nodes() {
        return None;
    }
    if !goes_on(layout, spot, node, offset) {
        return None;
    }
    store.under(spot, offset)
}

/// Whether the node is the one below a spot, or else there is one with this number, from 1, and the offset is below its size.
#[inline(always)]
fn goes_on(layout: &Layout, spot: Spot, node: u32, offset: u32) -> bool
    requires { spot.node < 6 }
    ensures on { result ≡ true → (spot.node + 1 ≡ node) ⊎ (can_step layout.now.nodes node offset ≡ true) }
    ensures refused { result ≡ false → can_step layout.now.nodes node offset ≡ false }
{
    spot.node + 1 == node || can_step(layout, node, offset)
}

/// Whether there is a node with this number, from 1, and the offset is below its size.
fn can_step(layout: &Layout, node: u32, offset: u32) -> bool
    ensures { result ≡ can_step layout.now.nodes node offset }
{
    if node == 0 {
        return false;
    }
    let index = node as usize - 1;
    if index >= layout.nodes() {
        return false;
    }
    offset < layout.size(index)
}

/// The cell of a spot: none if the spot isn't after the last node.
fn cell_under(store: &Store, spot: Spot) -> Option<u32>
    requires leads { IsSpot store.now spot }
    ensures reached { IfSome result (IsReached store.now) }
    ensures cell { (path : List ℕ) → LeadsAlong store.now spot path → length path ≡ length store.now.shape.nodes →
        cell_in store.now (coordinate_of store.now.shape path) ≡ result }
{
    if spot.node as usize != store.layout().nodes() {
        return None;
    }
    Some(store.cell_at(spot))
}

/// The value of a field, from 0, at a spot: 0 if the spot isn't after the last node, and if there is no such field.
#[inline(always)]
fn value_in(store: &Store, spot: Spot, field: u32) -> u32
    requires leads { IsSpot store.now spot }
    ensures { (flat : FlatLayout) → StandsFor store.now flat → (path : List ℕ) → LeadsAlong store.now spot path →
        length path ≡ length store.now.shape.nodes → result ≡ value_at store.now.shape flat field (coordinate_of store.now.shape path) }
{
    if spot.node as usize != store.layout().nodes() {
        return 0;
    }
    if field as usize >= store.layout().shape().fields.len() {
        return 0;
    }
    store.value(field, store.cell_at(spot))
}
