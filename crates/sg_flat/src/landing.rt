ghost use Rattle.std.specs.Prelude.{◌≡◌, ◌∷◌, [], All, OnOk, IfOk, IsTrue};
ghost use Rattle.sg_coord.specs.Bounds.{bounds_of, volume};
ghost use Rattle.sg_layout.specs.Axes.{bounds_of_shape};
ghost use Rattle.sg_flat.specs.State.{IsFlatLayout};
ghost use Rattle.sg_flat.specs.Effects.{writes_of, land};
ghost use Rattle.sg_flat.specs.Words.{are_words, word_at};
ghost use Rattle.sg_flat.specs.steps.Landing.{AreWordsBelow, stay_inside};
ghost use Rattle.sg_flat.specs.Kernel.{field_after, fields_after};

use crate::effects::{Effects, Turn, Way, Write};
use crate::field::FlatField;
use crate::state::FlatLayout;
use sg_coord::{Extents, row};
use sg_layout::Layout;
use sg_words::{Items, Memory, Ty, fold};
use std::alloc::Global;

/// The fields of a layout after the run.
pub(crate) fn next_fields(
    alloc: Global,
    number: usize,
    layout: &Layout,
    flat: &FlatLayout,
    effects: &Effects,
) -> Result<Items<FlatField>, Memory>
    requires flat { IsFlatLayout layout.now flat.now }
    requires inside { IsTrue
        (stay_inside (bounds_of_shape layout.now) number (writes_of effects.now.turns)) }
    ensures meaning { IfOk result (λ next. next
        ≡ fields_after (bounds_of_shape layout.now) number 0 layout.now.fields flat.now.fields effects.now.turns) }
    ensures in_range { IfOk result (All (λ words. IsTrue (are_words words))) }
{
    let extents = layout.extents();
    let mut fields = Items::new(alloc);
    let types = layout.shape().fields.as_slice();
    for (place, (ty, field)) in types.iter().zip(flat.fields.as_slice()).enumerate() {
        let target = Target {
            extents,
            layout: number,
            place,
            ty: *ty,
        };
        fields.push(target.after_turns(field, effects)?)?;
    }
    Ok(fields)
}

/// A field that writes land in: its layout's extents, its layout's number and its place there, and its type.
#[derive(Clone, Copy)]
struct Target {
    extents: Extents,
    layout: usize,
    place: usize,
    ty: Ty,
}

impl Target {
    /// The field after all turns, beside the one before them.
    fn after_turns(&self, field: &FlatField, effects: &Effects) -> Result<FlatField, Memory>
        requires words { AreWordsBelow (volume (bounds_of self.now.extents)) field.now }
        requires inside { IsTrue
            (stay_inside (bounds_of self.now.extents) self.now.layout (writes_of effects.now.turns)) }
        ensures meaning { IfOk result (λ next. next
            ≡ field_after (bounds_of self.now.extents) self.now.layout self.now.place self.now.ty field.now
            (writes_of effects.now.turns)) }
        ensures in_range { IfOk result (λ next. IsTrue (are_words next)) }
    {
        let turns = effects.turns.as_slice();
        let mut next = field.copy()?;
        for turn in turns {
            self.land_all(&mut next, turn)?;
        }
        // for what every field keeps
        next.keeps_words();
        Ok(next)
    }

    /// Lands the writes of one turn.
    fn land_all(&self, field: &mut FlatField, turn: &Turn) -> Result<(), Memory>
        requires words { AreWordsBelow (volume (bounds_of self.now.extents)) field.old }
        requires inside { IsTrue
            (stay_inside (bounds_of self.now.extents) self.now.layout turn.now.writes) }
        ensures { OnOk result (field.new
            ≡ field_after (bounds_of self.now.extents) self.now.layout self.now.place self.now.ty field.old turn.now.writes) }
    {
        for write in turn.writes.as_slice() {
            self.land(field, write)?;
        }
        Ok(())
    }

    /// Lands one write, if it is one to this field.
    fn land(&self, field: &mut FlatField, write: &Write) -> Result<(), Memory>
        requires words { AreWordsBelow (volume (bounds_of self.now.extents)) field.old }
        requires inside { IsTrue
            (stay_inside (bounds_of self.now.extents) self.now.layout (write.now ∷ [])) }
        ensures { OnOk result (field.new
            ≡ field_after (bounds_of self.now.extents) self.now.layout self.now.place self.now.ty field.old
            (write.now ∷ [])) }
    {
        if write.layout as usize != self.layout || write.place as usize != self.place {
            return Ok(());
        }
        let row = row(&self.extents, write.at);
        let word = self.word_after(field, row, write);
        field.put(row, word)
    }

    /// What a write makes of the word of a row.
    fn word_after(&self, field: &FlatField, row: u32, write: &Write) -> u32
        ensures { result ≡ land self.now.ty (word_at field.now row) write.now.way write.now.value }
    {
        match write.way {
            Way::Own => write.value,
            Way::Acc(op) => fold(op, self.ty, field.word(row), write.value),
        }
    }
}
