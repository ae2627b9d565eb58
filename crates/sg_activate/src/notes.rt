//! What one worker of a look has found so far.
ghost use Rattle.std.specs.Prelude.{◌≡◌, ◌<◌, ◌↔◌, ℕ, [], ◌∷◌, All, Contains, IfOk, OnOk};
ghost use Rattle.sg_coord.specs.declared.coord.Coord.{Coord};
ghost use Rattle.sg_activate.specs.steps.Finding.{coord_found, found_in};
ghost use Rattle.sg_activate.specs.steps.Looked.{noted, NotesGrew};

use crate::found::{Finds, Found};
use sg_coord::Coord;
use sg_words::{Items, Memory};
use std::alloc::Global;

/// What a worker has found, which is kept in lists of some length: those that are full, with what others found, and the
/// last. And the coordinate that it looked at last.
#[derive(Drop)]
pub(crate) struct Notes {
    pub(crate) worker: u32,
    pub(crate) axes: u32,
    pub(crate) found: Items<Finds>,
    pub(crate) fresh: Items<Found>,
    pub(crate) last: Option<Coord>,
}

/// How many coordinates a list has at most.
const FULL: usize = 65_536;

impl Notes {
    /// Adds a coordinate.
    pub(crate) fn add(&mut self, alloc: Global, found: Found) -> Result<(), Memory>
        ensures grew { OnOk result (NotesGrew (coord_found self.old.axes found ∷ []) self.old self.new) }
        ensures has { OnOk result (Contains (noted self.new) (coord_found self.old.axes found)) }
        ensures last { OnOk result (self.new.last ≡ self.old.last) }
    {
        self.make_room(alloc)?;
        self.fresh.push(found)?;
        Ok(())
    }

    /// Begins a new list if the last one is full.
    fn make_room(&mut self, alloc: Global) -> Result<(), Memory>
        ensures grew { OnOk result (NotesGrew [] self.old self.new) }
        ensures last { OnOk result (self.new.last ≡ self.old.last) }
    {
        if self.fresh.len() < FULL {
            return Ok(());
        }
        let list = std::mem::replace(&mut self.fresh, Items::new(alloc));
        self.found.push(Finds {
            worker: self.worker,
            list,
        })?;
        Ok(())
    }

    /// All lists.
    pub(crate) fn close(self) -> Result<Items<Finds>, Memory>
        ensures same { IfOk result (λ list. (at : Coord) → Contains (found_in self.axes list) at ↔ Contains
            (noted self) at) }
        ensures of_workers { IfOk result (λ list. (count : ℕ) → self.worker < count →
            All (λ finds. finds.worker < count) self.found → All (λ finds. finds.worker < count) list) }
    {
        let Notes {
            worker,
            axes: _,
            mut found,
            fresh,
            last: _,
        } = self;
        if fresh.is_empty() {
            return Ok(found);
        }
        found.push(Finds {
            worker,
            list: fresh,
        })?;
        Ok(found)
    }
}
