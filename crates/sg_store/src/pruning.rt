//! Freeing what holds no values, in place: the memory that it takes is taken before anything changes, and then nothing is refused.

ghost use Rattle.std.specs.Prelude.{◌≡◌, OnOk, OnErr};
ghost use Rattle.sg_flat.specs.declared.state.FlatLayout.{FlatLayout};
ghost use Rattle.sg_flat.specs.State.{opening_layout};
ghost use Rattle.sg_store.specs.StandsFor.{StandsFor};
ghost use Rattle.sg_store.specs.Pruning.{pruned};
ghost use Rattle.sg_store.specs.Links.{GrowsLinks};

use crate::laws::cells_are_active;
use crate::store::Store;
use crate::trimming::{empty_rows, trim_all};
use sg_coord::numbering;
use sg_layout::{closure_closes, closure_members, live_absorbs, paths_tell, rules_decide};
use sg_words::{Items, Memory};
use std::alloc::Global;

impl Store {
    /// Makes all values 0, and only those coordinates active that are so without any write. Where memory runs out the store is as before.
    pub fn clear(&mut self, alloc: Global) -> Result<(), Memory>
        ensures cleared { OnOk result (StandsFor self.new (opening_layout self.old.shape)) }
        ensures same_shape { self.new.shape ≡ self.old.shape }
        ensures links { GrowsLinks self.new self.old }
        ensures stays { OnErr result (self.new ≡ self.old) }
    {
        // for the laws that they ensure
        closure_closes();
        live_absorbs();
        paths_tell();
        rules_decide();
        numbering(&self.layout.extents());
        let none = Items::new(alloc);
        let plans = self.plans(alloc, none)?;
        empty_rows(&mut self.fields);
        trim_all(
            &mut self.nodes,
            self.layout.shape().nodes.as_slice(),
            plans.as_slice(),
        );
        Ok(())
    }

    /// Makes the active coordinates the closure of those where some field isn't 0, and keeps all values. What holds none of these is
    /// given back; what stays keeps its number and its slot. Where memory runs out the store is as before. In time by the words that
    /// stand, the slots of numbers below the pools' marks, and the places of a hash node's table.
    pub fn prune(&mut self, alloc: Global) -> Result<(), Memory>
        ensures pruned { OnOk result ((flat : FlatLayout) → StandsFor self.old flat → StandsFor self.new (pruned self.old.shape flat)) }
        ensures same_shape { self.new.shape ≡ self.old.shape }
        ensures links { GrowsLinks self.new self.old }
        ensures stays { OnErr result (self.new ≡ self.old) }
    {
        // for the laws that they ensure
        cells_are_active();
        closure_closes();
        closure_members();
        live_absorbs();
        paths_tell();
        rules_decide();
        numbering(&self.layout.extents());
        let cells = self.valued_cells(alloc)?;
        let plans = self.plans(alloc, cells)?;
        trim_all(
            &mut self.nodes,
            self.layout.shape().nodes.as_slice(),
            plans.as_slice(),
        );
        Ok(())
    }
}
