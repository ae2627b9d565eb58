//! The place of an access.
ghost use Rattle.std.specs.Prelude.{◌≡◌, ◌<◌, length, All, Some, None, IfSome, IfOk, slice_get, true, false};
ghost use Rattle.sg_types.specs.Expressions.{equals_some};
ghost use Rattle.sg_types.specs.WellTyped.{axes_in};
ghost use Rattle.sg_ir.specs.Runs.{named_by};
ghost use Rattle.sg_ir.specs.Places.{place_at};
ghost use Rattle.sg_ir.specs.WellTyped.{set_vars};
ghost use Rattle.sg_ir.specs.Apt.{uses_in};
ghost use Rattle.sg_ir.specs.Trimmed.{Ways, way_of};
ghost use Rattle.sg_ir.specs.Trails.{asked_by, ways_after};
ghost use Rattle.sg_ir.specs.Emits.{NamesGrow, LeadsToPlace};
ghost use Rattle.sg_ir.specs.EmitTypes.{Adds, CanRead};
ghost use Rattle.sg_lower.specs.steps.Typing.{IsCell};

use sg_ir::emit::root;
use sg_ir::place::place;
use sg_ir::{Inst, Names};
use sg_layout::{Layout, Layouts};
use sg_words::{Items, Memory};

/// The place of the access to a layout whose coordinate the index registers name. Its root where the layout isn't there or hasn't so
/// many axes, which no well-typed kernel has.
pub(crate) fn named_place(
    layouts: &Layouts,
    layout: u32,
    names: &mut Names,
    block: &mut Items<Inst>,
    index: &[u32],
) -> Result<u32, Memory>
    requires named { All (λ r. r < length names.old.regs) index.now }
    ensures grows { IfOk result (λ to. NamesGrow names.old names.new × (to < names.new.places)) }
    ensures leads { IfOk result (λ to. equals_some (axes_in layouts.now.list layout) (length index.now) ≡ true → LeadsToPlace layouts.now.list index.now
        (λ seen now. place_at layouts.now.list layout (named_by index.now now)) layout to names.old names.new block.old block.new) }
    ensures uses { IfOk result (λ to. uses_in block.new ≡ uses_in block.old) }
    ensures asks { IfOk result (λ to. (ways : Ways) → asked_by block.new ways ≡ asked_by block.old ways) }
    ensures comes { IfOk result (λ to. (ways : Ways) → (way_of (ways_after block.new ways) to).root ≡ Some layout) }
    ensures vars { IfOk result (λ to. set_vars block.new ≡ set_vars block.old) }
    ensures typed { IfOk result (λ to. equals_some (axes_in layouts.now.list layout) (length index.now) ≡ true → Adds layouts.now.list (CanRead index.now)
        (IsCell to layout) names.old names.new block.old block.new) }
{
    match layout_of(layouts, layout, index.len()) {
        Some(it) => place(it, layout, names, block, index),
        None => root(names, block, layout),
    }
}

/// The layout with this number, if it has so many axes.
fn layout_of(layouts: &Layouts, layout: u32, axes: usize) -> Option<&Layout>
    ensures there { IfSome result (λ it. slice_get layouts.now.list layout ≡ Some it.now) }
    ensures axes { IfSome result (λ it. it.now.axes ≡ axes) }
    ensures missing { result ≡ None → equals_some (axes_in layouts.now.list layout) axes ≡ false }
{
    let it = layouts.list.get(layout as usize)?;
    if it.shape().axes as usize == axes {
        Some(it)
    } else {
        None
    }
}
