ghost use Rattle.std.specs.Prelude.{◌≡◌, [], map, IfOk};

use crate::closure::closure;
use crate::field::FlatField;
use sg_coord::{Coord, inside, row};
use sg_layout::{Layout, Layouts, closure_closes};
use sg_words::{Items, Memory, Ty};
use std::alloc::Global;

/// A layout's active coordinates in row order, and its fields in order of declaration.
#[derive(Debug, Drop)]
pub struct FlatLayout {
    pub active: Items<Coord>,
    pub fields: Items<FlatField>,
}

/// The state that kernels and commands work on, layout by layout in order of declaration.
#[derive(Debug, Drop)]
pub struct FlatState {
    pub layouts: Items<FlatLayout>,
}

impl FlatState {
    ghost use Rattle.std.specs.Prelude.{◌≡◌, IfOk};
    ghost use Rattle.sg_flat.specs.State.{IsFlat, opening, value_of};

    /// The state at the start: what is active without any write, and all words 0.
    pub fn open(alloc: Global, layouts: &Layouts) -> Result<FlatState, Memory>
        ensures opening { IfOk result (λ state. state ≡ opening layouts.now.list) }
        ensures flat { IfOk result (IsFlat layouts.now.list) }
    {
        let mut flats = Items::new(alloc);
        for layout in layouts.list.as_slice() {
            flats.push(FlatLayout::open(alloc, layout)?)?;
        }
        Ok(FlatState { layouts: flats })
    }

    /// The value of a field of a layout, both from 0, at a coordinate: 0 outside the extents, and if there is no such
    /// layout or field.
    pub fn value(&self, layouts: &Layouts, layout: u32, place: u32, at: Coord) -> u32
        ensures { result ≡ value_of layouts.now.list self.now layout place at }
    {
        match (
            layouts.list.get(layout as usize),
            self.layouts.get(layout as usize),
        ) {
            (Some(layout), Some(flat)) => flat.value(layout, place, at),
            _ => 0,
        }
    }
}

impl FlatLayout {
    ghost use Rattle.std.specs.Prelude.{◌≡◌, IfOk};
    ghost use Rattle.sg_flat.specs.State.{IsFlatLayout, opening_layout, value_at};

    /// The value of a field, from 0, at a coordinate: 0 outside the extents, and if there is no such field.
    pub fn value(&self, layout: &Layout, place: u32, at: Coord) -> u32
        ensures { result ≡ value_at layout.now self.now place at }
    {
        let extents = layout.extents();
        if !inside(&extents, at) {
            return 0;
        }
        match self.fields.get(place as usize) {
            Some(field) => field.word(row(&extents, at)),
            None => 0,
        }
    }

    /// The layout at the start: what is active without any write, and all words 0.
    fn open(alloc: Global, layout: &Layout) -> Result<FlatLayout, Memory>
        ensures opening { IfOk result (λ flat. flat ≡ opening_layout layout.now) }
        ensures flat { IfOk result (IsFlatLayout layout.now) }
    {
        // for the law that it ensures
        closure_closes();
        let active = closure(alloc, layout, &[])?;
        let fields = zero_fields(alloc, layout.shape().fields.as_slice())?;
        Ok(FlatLayout { active, fields })
    }
}

/// A field of words 0 for each type.
fn zero_fields(alloc: Global, types: &[Ty]) -> Result<Items<FlatField>, Memory>
    ensures { IfOk result (λ fields. fields ≡ map (λ _. []) types.now) }
{
    let mut fields = Items::new(alloc);
    for _ in types {
        fields.push(FlatField::new(alloc))?;
    }
    Ok(fields)
}
