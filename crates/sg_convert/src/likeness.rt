//! Layouts between which values can move.

ghost use Rattle.std.specs.Prelude.{◌≡◌, ◌↔◌, IsTrue};
ghost use Rattle.sg_coord.specs.Bounds.{bounds_of};
ghost use Rattle.sg_convert.specs.Alike.{AreAlike, are_alike, same_bounds, same_type, same_types};

use sg_coord::Extents;
use sg_layout::Layout;
use sg_words::Ty;

/// Whether two layouts have as many axes, of the same extents, and the same types of fields.
pub fn alike(one: &Layout, other: &Layout) -> bool
    ensures value { result ≡ are_alike one.now other.now }
    ensures tells { IsTrue result ↔ AreAlike one.now other.now }
{
    same_extents(&one.extents(), &other.extents())
        && same_types(
            one.shape().fields.as_slice(),
            other.shape().fields.as_slice(),
        )
}

fn same_extents(one: &Extents, other: &Extents) -> bool
    ensures { result ≡ same_bounds (bounds_of one.now) (bounds_of other.now) }
{
    one.n == other.n && one.a == other.a && one.b == other.b && one.c == other.c
}

fn same_types(one: &[Ty], other: &[Ty]) -> bool
    ensures { result ≡ same_types one.now other.now }
{
    if one.len() != other.len() {
        return false;
    }
    for place in 0..one.len() {
        if !same_type(one[place], other[place]) {
            return false;
        }
    }
    true
}

fn same_type(one: Ty, other: Ty) -> bool
    ensures { result ≡ same_type one other }
{
    match (one, other) {
        (Ty::I32, Ty::I32) | (Ty::U32, Ty::U32) | (Ty::Bool, Ty::Bool) => true,
        _ => false,
    }
}
