//! Simplification, and what it keeps.
ghost use Rattle.std.specs.Prelude.{◌≡◌, ℕ, true, IfOk, Some, slice_get};
ghost use Rattle.sg_coord.specs.Bounds.{IsBounds};
ghost use Rattle.sg_layout.specs.declared.shape.Shape.{Shape};
ghost use Rattle.sg_layout.specs.Accepted.{IsAccepted};
ghost use Rattle.sg_layout.specs.Axes.{bounds_of_shape};
ghost use Rattle.sg_ir.specs.Named.{IsNamed};
ghost use Rattle.sg_ir.specs.WellTyped.{is_well_typed};
ghost use Rattle.sg_simplify.specs.Simplified.{IsSimplified};

use crate::lean::lean;
use crate::pass::pass;
use sg_coord::{Extents, numbering};
use sg_flat::Domain;
use sg_flat::laws::box_in_order;
use sg_ir::Code;
use sg_layout::laws::closure_members;
use sg_layout::{Layouts, paths_tell};
use sg_words::Memory;
use sg_words::laws::{arithmetic_is_modular, operators_give_words, words_are_numbers};
use std::alloc::Global;

// Any extents: the laws of coordinates are of all bounds.
const ONE_POINT: Extents = Extents {
    n: 1,
    a: 1,
    b: 1,
    c: 1,
};

/// Code with the same writes, wants and values for every flat state and every coordinate of the domain, which is well typed, named,
/// shared and trimmed, uses fields only as the given code does, and has nothing that could be left out. Registers and places that went
/// leave their numbers free. Running out of memory also where the numbers of a u32 are used up.
pub fn simplify(
    alloc: Global,
    code: &Code,
    domain: &Domain,
    layouts: &Layouts,
) -> Result<Code, Memory>
    requires typed { is_well_typed layouts.now.list code.now ≡ true }
    requires named { IsNamed layouts.now.list domain.now code.now.body }
    ensures { IfOk result (IsSimplified layouts.now.list domain.now code.now) }
{
    let simple = pass(alloc, code, domain, layouts)?;
    // for the laws that they ensure
    layouts_keep(layouts);
    words_are_numbers();
    arithmetic_is_modular();
    operators_give_words();
    closure_members();
    box_in_order();
    paths_tell();
    numbering(&ONE_POINT);
    lean(alloc, simple)
}

/// The layouts keep all rules.
fn layouts_keep(layouts: &Layouts)
    ensures { (layout : ℕ) (shape : Shape) → slice_get layouts.now.list layout ≡ Some shape → IsAccepted shape × IsBounds (bounds_of_shape shape) }
{
    for layout in layouts.list.as_slice() {
        // for what they ensure
        layout.shape();
        layout.extents();
    }
}
