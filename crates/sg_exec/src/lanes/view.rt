ghost use Rattle.std.specs.Prelude.{◌≡◌, get_or, unwrap_or, None};

use sg_store::{Store, Stores};
use std::marker::Model;

/// The stores that iterations see, in order of declaration: for each layout the copy of its store, or the store if there is no
/// copy. Contracts see the list of these stores.
#[derive(Drop)]
pub struct View<'a> {
    stores: &'a Stores,
    copies: &'a [Option<Store>],
}

impl<'a> Model for View<'a> {
    ghost use Rattle.std.specs.Prelude.{List};
    ghost use Rattle.sg_store.specs.StoreWords.{StoreWords};
    ghost use Rattle.sg_exec.specs.steps.Landing.{current};

    ghost Value = { List StoreWords };

    ghost view = { λ view. current view.copies.now view.stores.now.list };
}

impl<'a> View<'a> {
    ghost use Rattle.std.specs.Prelude.{◌≡◌, length, option_map, slice_get};
    ghost use Rattle.sg_exec.specs.steps.Landing.{current};

    /// The stores, with each copy in the place of the store that it was made of.
    pub fn of(stores: &'a Stores, copies: &'a [Option<Store>]) -> View<'a>
        ensures { result ≡ current copies.now stores.now.list }
    {
        View { stores, copies }
    }

    /// How many layouts there are.
    pub fn len(&self) -> usize
        ensures { result ≡ length self.now }
    {
        self.stores.list.len()
    }

    /// The store of a layout, from 0; none if there is no such layout.
    #[inline(always)]
    pub fn get(&self, layout: u32) -> Option<&'a Store>
        ensures value { option_map (λ store. store.now) result ≡ slice_get self.now layout }
    {
        let number = layout as usize;
        match self.stores.list.get(number) {
            Some(store) => Some(copy_or(self.copies, number, store)),
            None => None,
        }
    }
}

/// The copy with a number, or else the store.
#[inline(always)]
fn copy_or<'a>(copies: &'a [Option<Store>], number: usize, store: &'a Store) -> &'a Store
    ensures { result.now ≡ unwrap_or (get_or copies.now number None) store.now }
{
    match copies.get(number) {
        Some(Some(copy)) => copy,
        Some(None) => store,
        None => store,
    }
}
