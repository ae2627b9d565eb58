ghost use Rattle.std.specs.Prelude.{◌≡◌, map, IfOk};
ghost use Rattle.sg_names.specs.Names.{has_repeat};

use crate::table::Named;
use indexmap::IndexSet;
use sg_words::Memory;
use std::alloc::Global;

/// Whether two of the things have the same name.
pub(crate) fn has_repeat<T: Named>(alloc: Global, things: &[T]) -> Result<bool, Memory>
    ensures { IfOk result (λ repeat. repeat ≡ has_repeat (map T.name_of things.now)) }
{
    let mut seen = IndexSet::new(alloc);
    for thing in things {
        if !seen.insert(thing.name().text.as_slice())? {
            return Ok(true);
        }
    }
    Ok(false)
}
