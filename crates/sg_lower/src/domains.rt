//! The points of a domain.
ghost use Rattle.std.specs.Prelude.{◌≡◌, ℕ, Some, slice_get};
ghost use Rattle.sg_coord.specs.declared.coord.Coord.{Coord};
ghost use Rattle.sg_coord.specs.Bounds.{IsBounds};
ghost use Rattle.sg_layout.specs.declared.shape.Shape.{Shape};
ghost use Rattle.sg_layout.specs.Axes.{bounds_of_shape};
ghost use Rattle.sg_flat.specs.declared.effects.Domain.TheVariants.{Walk, Range};
ghost use Rattle.sg_lower.specs.steps.Basis.{IsSmall};

use sg_flat::Domain;
use sg_layout::Layouts;

/// What holds of a domain: a walked layout has extents, and the bounds of a box are numbers of words.
pub(crate) fn domain_bounds(layouts: &Layouts, domain: Domain)
    ensures walked { (layout : ℕ) (shape : Shape) → domain ≡ Walk layout → slice_get layouts.now.list layout ≡ Some shape → IsBounds (bounds_of_shape shape) }
    ensures boxed { (lo hi : Coord) → domain ≡ Range lo hi → IsSmall lo × IsSmall hi }
{
    match domain {
        Domain::Walk { layout } => match layouts.list.get(layout as usize) {
            Some(it) => {
                // for the bounds that they ensure
                let _extents = it.extents();
            }
            None => {}
        },
        Domain::Range { lo: _lo, hi: _hi } => {}
    }
}
