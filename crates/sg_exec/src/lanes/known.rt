ghost use Rattle.std.specs.Prelude.{◌≡◌, option_map, slice_get, IfSome};
ghost use Rattle.sg_exec.specs.steps.Machines.{IsStoreOf};

use crate::lanes::view::View;
use sg_store::Store;

/// The store of a layout.
#[derive(Clone, Copy)]
pub struct Known<'a> {
    pub layout: u32,
    pub store: &'a Store,
}

/// The store of a layout, if there is one.
#[inline(always)]
pub(crate) fn known_of<'a>(view: &View<'a>, layout: u32) -> Option<Known<'a>>
    ensures { IfSome result (λ known. IsStoreOf view.now known.layout known.store.now) }
{
    match view.get(layout) {
        Some(store) => Some(Known { layout, store }),
        None => None,
    }
}

/// The store of a layout, which is the known one or is looked for.
#[inline(always)]
pub(crate) fn store_of<'a>(
    view: &View<'a>,
    known: Option<Known<'a>>,
    layout: u32,
) -> Option<&'a Store>
    requires { IfSome known (λ known. IsStoreOf view.now known.layout known.store.now) }
    ensures { option_map (λ store. store.now) result ≡ slice_get view.now layout }
{
    if let Some(it) = known {
        if it.layout == layout {
            return Some(it.store);
        }
    }
    view.get(layout)
}
