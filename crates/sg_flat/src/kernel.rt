ghost use Rattle.std.specs.Prelude.{◌≡◌, ◌++◌, ◌∷◌, [], None, All, OnOk, OnErr, IfOk, IsTrue, slice_get};
ghost use Rattle.sg_layout.specs.Axes.{bounds_of_shape};
ghost use Rattle.sg_layout.specs.Closure.{closure};
ghost use Rattle.sg_layout.specs.Need.{first_full};
ghost use Rattle.sg_words.specs.Answers.{AnswersAs};
ghost use Rattle.sg_flat.specs.State.{IsFlat, IsFlatLayout};
ghost use Rattle.sg_flat.specs.Effects.{writes_of, written_in};
ghost use Rattle.sg_flat.specs.steps.Landing.{stay_inside};
ghost use Rattle.sg_flat.specs.Kernel.{is_inside_of, outside_among, first_outside, full_fault, first_full_layout, layout_after, layouts_after, kernel_meaning};

use crate::closure::closure;
use crate::effects::{Effects, RunFault, Turn};
use crate::landing::next_fields;
use crate::need::first_full;
use crate::state::{FlatLayout, FlatState};
use sg_coord::{Coord, inside, numbering};
use sg_layout::{Layout, Layouts, closure_closes, closure_members, dense_is_full};
use sg_words::{Items, Memory, Stop};
use std::alloc::Global;

impl FlatState {
    /// Runs a kernel of these effects, or refuses it. After a refusal, or where memory runs out, the state is as before.
    pub fn apply(
        &mut self,
        alloc: Global,
        layouts: &Layouts,
        effects: &Effects,
    ) -> Result<(), Stop<RunFault>>
        requires flat { IsFlat layouts.now.list self.old }
        ensures answer { AnswersAs (λ _. self.new) result
            (kernel_meaning layouts.now.list self.old effects.now) }
        ensures refused { OnErr result (self.new ≡ self.old) }
        ensures flat { IsFlat layouts.now.list self.new }
    {
        if let Some(fault) = first_outside(layouts, effects) {
            return Err(Stop::Refused(fault));
        }
        if let Some(fault) = first_full_layout(alloc, layouts, self, effects)? {
            return Err(Stop::Refused(fault));
        }
        let next = next_state(alloc, layouts, self, effects)?;
        *self = next;
        Ok(())
    }
}

/// The fault of the first write outside, of the first iteration that has one.
fn first_outside(layouts: &Layouts, effects: &Effects) -> Option<RunFault>
    ensures { result ≡ first_outside layouts.now.list effects.now.turns }
{
    for turn in effects.turns.as_slice() {
        if let Some(fault) = outside_among(layouts, turn) {
            return Some(fault);
        }
    }
    None
}

/// The fault of the first write outside of one iteration.
fn outside_among(layouts: &Layouts, turn: &Turn) -> Option<RunFault>
    ensures { result ≡ outside_among layouts.now.list turn.now.at turn.now.writes }
{
    for write in turn.writes.as_slice() {
        if !is_inside(layouts, write.layout, write.at) {
            return Some(RunFault::WriteOutside {
                stmt: write.stmt,
                at: turn.at,
            });
        }
    }
    None
}

/// Whether a coordinate is inside the extents of a layout.
fn is_inside(layouts: &Layouts, layout: u32, at: Coord) -> bool
    ensures { result ≡ is_inside_of (slice_get layouts.now.list layout) at }
{
    match layouts.list.get(layout as usize) {
        Some(layout) => inside(&layout.extents(), at),
        None => false,
    }
}

/// The fault of the first layout, in order of declaration, with a node whose need passes its cap.
fn first_full_layout(
    alloc: Global,
    layouts: &Layouts,
    state: &FlatState,
    effects: &Effects,
) -> Result<Option<RunFault>, Memory>
    requires flat { IsFlat layouts.now.list state.now }
    requires inside { first_outside layouts.now.list effects.now.turns ≡ None }
    ensures { IfOk result (λ fault. fault
        ≡ first_full_layout 0 layouts.now.list state.now.layouts effects.now.turns) }
{
    let before = state.layouts.as_slice();
    for (number, (layout, flat)) in layouts.list.as_slice().iter().zip(before).enumerate() {
        let fault = full_layout(alloc, number, layout, flat, effects)?;
        if fault.is_some() {
            return Ok(fault);
        }
    }
    Ok(None)
}

/// The fault of the layout of this number, where a node of it has no room for its active and its written coordinates.
fn full_layout(
    alloc: Global,
    number: usize,
    layout: &Layout,
    flat: &FlatLayout,
    effects: &Effects,
) -> Result<Option<RunFault>, Memory>
    requires flat { IsFlatLayout layout.now flat.now }
    requires inside { IsTrue
        (stay_inside (bounds_of_shape layout.now) number (writes_of effects.now.turns)) }
    ensures { IfOk result (λ fault. fault
        ≡ full_fault number (first_full layout.now (flat.now.active ++ written_in number effects.now.turns))) }
{
    // for the law that it ensures
    dense_is_full();
    if layout.shape().is_dense() {
        return Ok(None);
    }
    // for the laws that they ensure
    numbering(&layout.extents());
    closure_members();
    let coords = active_and_written(alloc, number, flat, effects)?;
    // a number past 32 bits can't come: no memory has room for so many layouts
    let number = u32::try_from(number).map_err(|_| Memory)?;
    first_full(alloc, number, layout, coords.as_slice())
}

/// The state after the run, beside the one before it.
fn next_state(
    alloc: Global,
    layouts: &Layouts,
    state: &FlatState,
    effects: &Effects,
) -> Result<FlatState, Memory>
    requires flat { IsFlat layouts.now.list state.now }
    requires inside { first_outside layouts.now.list effects.now.turns ≡ None }
    ensures meaning { IfOk result (λ next. next.layouts
        ≡ layouts_after 0 layouts.now.list state.now.layouts effects.now.turns) }
    ensures flat { IfOk result (IsFlat layouts.now.list) }
{
    let mut flats = Items::new(alloc);
    let before = state.layouts.as_slice();
    for (number, (layout, flat)) in layouts.list.as_slice().iter().zip(before).enumerate() {
        flats.push(next_layout(alloc, number, layout, flat, effects)?)?;
    }
    Ok(FlatState { layouts: flats })
}

/// The layout of this number after the run.
fn next_layout(
    alloc: Global,
    number: usize,
    layout: &Layout,
    flat: &FlatLayout,
    effects: &Effects,
) -> Result<FlatLayout, Memory>
    requires flat { IsFlatLayout layout.now flat.now }
    requires inside { IsTrue
        (stay_inside (bounds_of_shape layout.now) number (writes_of effects.now.turns)) }
    ensures meaning { IfOk result (λ next. next ≡ layout_after number layout.now flat.now effects.now.turns) }
    ensures flat { IfOk result (IsFlatLayout layout.now) }
{
    // for the laws that they ensure
    numbering(&layout.extents());
    closure_closes();
    let fields = next_fields(alloc, number, layout, flat, effects)?;
    let active = next_active(alloc, number, layout, flat, effects)?;
    Ok(FlatLayout { active, fields })
}

/// The active coordinates of the layout of this number after the run.
fn next_active(
    alloc: Global,
    number: usize,
    layout: &Layout,
    flat: &FlatLayout,
    effects: &Effects,
) -> Result<Items<Coord>, Memory>
    requires flat { IsFlatLayout layout.now flat.now }
    requires inside { IsTrue
        (stay_inside (bounds_of_shape layout.now) number (writes_of effects.now.turns)) }
    ensures { IfOk result (λ active. active
        ≡ closure layout.now (flat.now.active ++ written_in number effects.now.turns)) }
{
    // for the law that it ensures
    dense_is_full();
    if layout.shape().is_dense() {
        // everything inside is active already
        return Ok(Items::from_slice(alloc, flat.active.as_slice())?);
    }
    // for the laws that they ensure
    numbering(&layout.extents());
    closure_members();
    let coords = active_and_written(alloc, number, flat, effects)?;
    closure(alloc, layout, coords.as_slice())
}

/// The active coordinates of the layout of this number, and then those that writes into it have.
fn active_and_written(
    alloc: Global,
    number: usize,
    flat: &FlatLayout,
    effects: &Effects,
) -> Result<Items<Coord>, Memory>
    ensures { IfOk result (λ coords. coords ≡ flat.now.active ++ written_in number effects.now.turns) }
{
    let mut coords = Items::from_slice(alloc, flat.active.as_slice())?;
    for turn in effects.turns.as_slice() {
        turn.add_written(number, &mut coords)?;
    }
    Ok(coords)
}

impl Turn {
    /// Adds the coordinates that its writes into the layout of this number have.
    fn add_written(&self, number: usize, coords: &mut Items<Coord>) -> Result<(), Memory>
        ensures { OnOk result (coords.new ≡ coords.old ++ written_in number (self.now ∷ [])) }
    {
        for write in self.writes.as_slice() {
            if write.layout as usize == number {
                coords.push(write.at)?;
            }
        }
        Ok(())
    }
}
