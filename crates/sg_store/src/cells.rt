ghost use Rattle.std.specs.Prelude.{◌≡◌, ◌≢◌, ◌↔◌, ℕ, ◌-◌, ◌+◌, ◌<◌, ◌≤◌, List, length, Contains, IsTrue, IsSome, IfSome, MatchOption, Some, slice_get, slice_set, slice_index_or, []};
ghost use Rattle.sg_coord.specs.declared.coord.Coord.{Coord};
ghost use Rattle.sg_layout.specs.declared.shape.NodeShape.{NodeShape};
ghost use Rattle.sg_layout.specs.NeedLaws.{IsNumberedNode};
ghost use Rattle.sg_layout.specs.Need.{need_of};
ghost use Rattle.sg_layout.specs.Live.{kind_at};
ghost use Rattle.sg_flat.specs.declared.state.FlatLayout.{FlatLayout};
ghost use Rattle.sg_flat.specs.State.{value_at};
ghost use Rattle.sg_pool.specs.Numbers.{live_count};
ghost use Rattle.sg_store.specs.declared.node.NodeWords.{NodeWords};
ghost use Rattle.sg_store.specs.StoreWords.{StoreWords, word_in};
ghost use Rattle.sg_store.specs.Walks.{cell_in};
ghost use Rattle.sg_store.specs.WellFormed.{kind_has_cap, IsReached};
ghost use Rattle.sg_store.specs.StandsFor.{StandsFor, SetsValue};

use crate::laws::{cells_are_active, live_is_need};
use crate::store::Store;
use sg_coord::{Coord, inside};
use sg_layout::paths_tell;

impl Store {
    /// The cell of a coordinate: none if it isn't active. Different coordinates have different cells.
    pub fn cell_of(&self, at: Coord) -> Option<u32>
        ensures value { result ≡ cell_in self.now at }
        ensures reached { IfSome result (IsReached self.now) }
        ensures active { (flat : FlatLayout) → StandsFor self.now flat → IsSome result ↔ Contains flat.active at }
        ensures differs { (other : Coord) (cell : ℕ) → result ≡ Some cell → cell_in self.now other ≡ Some cell → other ≡ at }
    {
        // for the laws that they ensure
        paths_tell();
        cells_are_active();
        if !inside(&self.layout.extents(), at) {
            return None;
        }
        let cell = self.place_of(at, self.layout.nodes(), true)?;
        Some(cell as u32)
    }

    /// The value of a field, from 0, in the cell of an active coordinate.
    pub fn value(&self, place: u32, cell: u32) -> u32
        requires field { place < length self.now.shape.fields }
        requires cell { IsReached self.now cell }
        ensures value { result ≡ word_in self.now place cell }
        ensures stands { (flat : FlatLayout) → StandsFor self.now flat → (at : Coord) → cell_in self.now at ≡ Some cell →
            result ≡ value_at self.now.shape flat place at }
    {
        self.fields.as_slice()[place as usize].get(cell as usize)
    }

    /// Gives a field, from 0, a value in the cell of an active coordinate.
    pub fn set(&mut self, place: u32, cell: u32, word: u32)
        requires field { place < length self.old.shape.fields }
        requires cell { IsReached self.old cell }
        ensures set { self.new ≡ record self.old {
          fields = slice_set self.old.fields place
              (slice_set (slice_index_or self.old.fields place []) cell word);
        } }
        ensures stands { (flat now : FlatLayout) (at : Coord) → StandsFor self.old flat → cell_in self.old at ≡ Some cell →
            SetsValue self.old.shape flat now place at word → StandsFor self.new now }
    {
        // for the law that it ensures
        cells_are_active();
        let row = &mut self.fields[place as usize];
        row.set(cell as usize, word);
    }

    /// How many child containers of a pointer or hash node, or chunks of a dynamic one, numbered from 1, are live.
    pub fn live(&self, node: u32) -> u32
        requires capped { IsTrue (kind_has_cap (kind_at self.now.shape.nodes node)) }
        requires first { 1 ≤ node }
        ensures value { (kept : NodeWords) → slice_get self.now.nodes (node - 1) ≡ Some kept → result ≡ live_count kept.pool }
        ensures need { (flat : FlatLayout) → StandsFor self.now flat → (shape : NodeShape) → IsNumberedNode self.now.shape node shape →
            result ≡ need_of self.now.shape flat.active node shape }
    {
        // for the law that it ensures
        live_is_need();
        self.nodes.as_slice()[node as usize - 1].pool.live()
    }
}
