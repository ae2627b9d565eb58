//! One of several stores freed in its place.

ghost use Rattle.std.specs.Prelude.{◌≡◌, ◌+◌, ◌<◌, ◌≤◌, ◌++◌, ◌∷◌, [], length, OnOk, OnErr, vec_capacity};
ghost use Rattle.sg_store.specs.Freeing.{IsCleared, IsPruned, ChangesStore};

use crate::store::{Store, Stores};
use sg_words::{Items, Memory};
use std::alloc::Global;

impl Stores {
    /// Makes all values 0 in the store with this number, from 0, and frees what holds them. Where memory runs out all are as before.
    pub fn clear(&mut self, alloc: Global, number: usize) -> Result<(), Memory>
        requires { number < length self.old.list }
        ensures cleared { OnOk result (ChangesStore IsCleared self.old.list self.new.list number) }
        ensures stays { OnErr result (self.new ≡ self.old) }
    {
        let room = Vec::with_capacity(alloc, self.list.len())?;
        let mut owned = moved(alloc, self, room);
        let store = &mut owned[number];
        let answer = store.clear(alloc);
        self.list = Items::from_vec(owned);
        answer
    }

    /// Frees what holds no values in the store with this number, from 0. Where memory runs out all are as before.
    pub fn prune(&mut self, alloc: Global, number: usize) -> Result<(), Memory>
        requires { number < length self.old.list }
        ensures pruned { OnOk result (ChangesStore IsPruned self.old.list self.new.list number) }
        ensures stays { OnErr result (self.new ≡ self.old) }
    {
        let room = Vec::with_capacity(alloc, self.list.len())?;
        let mut owned = moved(alloc, self, room);
        let store = &mut owned[number];
        let answer = store.prune(alloc);
        self.list = Items::from_vec(owned);
        answer
    }
}

/// Moves all stores to where there is room for them.
fn moved(alloc: Global, stores: &mut Stores, room: Vec<Store>) -> Vec<Store>
    requires none { room.items ≡ [] }
    requires space { length stores.old.list ≤ vec_capacity room }
    ensures { result.items ≡ stores.old.list }
{
    let list = std::mem::replace(&mut stores.list, Items::new(alloc));
    let mut owned = room;
    move_all(list, &mut owned);
    owned
}

/// Moves stores after others, if there is room for all.
fn move_all(list: Items<Store>, owned: &mut Vec<Store>)
    requires space { length owned.old.items + length list ≤ vec_capacity owned.old }
    ensures items { owned.new.items ≡ owned.old.items ++ list }
    ensures space { vec_capacity owned.old ≤ vec_capacity owned.new }
{
    let mut list = list;
    let Some(store) = list.pop() else {
        return;
    };
    move_all(list, owned);
    move_one(store, owned);
}

/// Moves a store after others, if there is room for it.
fn move_one(store: Store, owned: &mut Vec<Store>)
    requires space { length owned.old.items < vec_capacity owned.old }
    ensures items { owned.new.items ≡ owned.old.items ++ store ∷ [] }
    ensures space { vec_capacity owned.old ≤ vec_capacity owned.new }
{
    owned.push(store).unwrap();
}
