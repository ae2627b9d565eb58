//! Rows that end after the last item that they were given, so that they take time by these items and not by their places.

ghost use Rattle.std.specs.Prelude.{◌≡◌, ℕ, ◌<◌, ◌≤◌, length, replicate, slice_index_or, slice_set, vec_capacity, IfOk};
ghost use Rattle.sg_links.specs.steps.Padding.{padded_with};

use crate::LinkMemory;
use std::alloc::Global;
use std::marker::Model;

/// An item for each of so many places, with room for all of them; past the last that was given all are the same one. Contracts see the
/// items of all places.
#[derive(Debug, Drop)]
pub struct Row<T> {
    items: Vec<T>,
    rest: T,
    places: usize,
}

impl<T> Model for Row<T> {
    ghost use Rattle.std.specs.Prelude.{ℕ, List, ◌≤◌, length, vec_capacity};
    ghost use Rattle.std.specs.Coded.{coded_list};
    ghost use Rattle.sg_links.specs.steps.Padding.{padded_with};

    ghost Value = { List T };

    ghost coded = { coded_list T.code };

    ghost view = { λ row. padded_with row.items.items row.rest row.places };

    ghost invariant = { λ row. (length row.items.items ≤ row.places) × (row.places ≤ vec_capacity row.items) };
}

impl<T: Copy> Row<T> {
    /// A row with the same item for each of so many places.
    pub fn make(alloc: Global, places: usize, rest: T) -> Result<Row<T>, LinkMemory>
        ensures { IfOk result (λ row. row ≡ replicate places rest) }
    {
        let items = Vec::with_capacity(alloc, places)?;
        Ok(Row {
            items,
            rest,
            places,
        })
    }

    /// A copy of the row. In time by the items that were given.
    pub fn copy(&self, alloc: Global) -> Result<Row<T>, LinkMemory>
        ensures { IfOk result (λ copy. copy ≡ self.now) }
    {
        let mut items = Vec::with_capacity(alloc, self.places)?;
        items.extend_from_slice(self.items.as_slice())?;
        Ok(Row {
            items,
            rest: self.rest,
            places: self.places,
        })
    }

    /// How many places there are.
    pub fn len(&self) -> usize
        ensures { result ≡ length self.now }
    {
        self.places
    }

    /// The item of a place.
    pub fn get(&self, place: usize) -> T
        requires { place < length self.now }
        ensures { (other : T) → result ≡ slice_index_or self.now place other }
    {
        let items = self.items.as_slice();
        if place < items.len() {
            items[place]
        } else {
            self.rest
        }
    }

    /// How far items were given, and the item of all places from there on.
    pub fn end(&self) -> (usize, T)
        ensures few { result.0 ≤ length self.now }
        ensures rest { (place : ℕ) (other : T) → result.0 ≤ place → place < length self.now → slice_index_or self.now place other ≡ result.1 }
    {
        let items = self.items.as_slice();
        (items.len(), self.rest)
    }

    /// Gives a place an item.
    pub fn set(&mut self, place: usize, item: T)
        requires { place < length self.old }
        ensures { self.new ≡ slice_set self.old place item }
    {
        grow(&mut self.items, place + 1, self.rest);
        self.items[place] = item;
    }
}

/// Makes items at least as many, within their room: those that are added are `rest`.
fn grow<T: Copy>(items: &mut Vec<T>, places: usize, rest: T)
    requires { places ≤ vec_capacity items.old }
    ensures items { items.new.items ≡ padded_with items.old.items rest places }
    ensures room { vec_capacity items.old ≤ vec_capacity items.new }
{
    if items.len() < places {
        items.resize(places, rest).unwrap();
    }
}
