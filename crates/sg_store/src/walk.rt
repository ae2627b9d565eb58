ghost use Rattle.std.specs.Prelude.{◌≡◌, ℕ, suc, ◌<◌, ◌≤◌, length, Some, slice_get, slice_index};
ghost use Rattle.sg_coord.specs.Coord.{Inside};
ghost use Rattle.sg_layout.specs.declared.shape.NodeShape.{NodeShape};
ghost use Rattle.sg_layout.specs.Axes.{sizes_of, bounds_of_shape};
ghost use Rattle.sg_layout.specs.Path.{path};
ghost use Rattle.sg_store.specs.declared.node.NodeWords.{NodeWords};
ghost use Rattle.sg_store.specs.Slots.{slot_under};
ghost use Rattle.sg_store.specs.Walks.{place_after, slot_in, place_in};
ghost use Rattle.sg_store.specs.steps.AtNode.{AtNodeOf};
ghost use Rattle.sg_store.specs.steps.Walking.{IsPlaceAt, step_of_walk};

use crate::store::Store;
use sg_coord::Coord;
use sg_layout::paths_tell;

impl Store {
    /// The place to which a place leads over an offset at the node with this index, from 0: along links and set bits,
    /// or along links alone.
    pub(crate) fn onward(
        &self,
        index: usize,
        place: usize,
        offset: u32,
        bits: bool,
    ) -> Option<usize>
        requires there { index < length self.now.shape.nodes }
        requires fits { AtNodeOf (IsPlaceAt place) self.now index }
        requires below { offset < slice_index (sizes_of self.now.shape.nodes) index }
        ensures { (node : NodeShape) (kept : NodeWords) → slice_get self.now.shape.nodes index ≡ Some node →
            slice_get self.now.nodes index ≡ Some kept →
            result ≡ step_of_walk bits node.kind node kept (slot_under node place offset) }
    {
        let nodes = self.layout.shape().nodes.as_slice();
        let size = self.layout.size(index) as usize;
        let kept = &self.nodes.as_slice()[index];
        kept.onward(&nodes[index], size, place, offset as usize, bits)
    }

    /// The place to which the root leads over the path of a coordinate through the first nodes.
    pub(crate) fn place_of(&self, at: Coord, through: usize, bits: bool) -> Option<usize>
        requires within { through ≤ length self.now.shape.nodes }
        requires inside { Inside (bounds_of_shape self.now.shape) at }
        ensures { result ≡ place_after (step_of_walk bits) self.now.shape.nodes self.now.nodes 0 (path self.now.shape at through) }
    {
        // for the laws that it ensures
        paths_tell();
        let mut place = 0;
        for index in 0..through {
            place = self.onward(index, place, self.layout.offset(index, at), bits)?;
        }
        Some(place)
    }

    /// The number of the slot of a coordinate at the node with this index, from 0. None if links do not lead to its
    /// container.
    pub(crate) fn number_at(&self, index: usize, at: Coord) -> Option<usize>
        requires node { index < length self.now.shape.nodes }
        requires inside { Inside (bounds_of_shape self.now.shape) at }
        ensures { result ≡ slot_in self.now (suc index) at }
    {
        // for the laws that it ensures
        paths_tell();
        let size = self.layout.size(index) as usize;
        let offset = self.layout.offset(index, at) as usize;
        let place = self.place_of(at, index, false)?;
        Some(place * size + offset)
    }

    /// The number of the word of a coordinate's slot at the node with this index, from 0. None if links do not lead to
    /// its container.
    pub(crate) fn word_at(&self, index: usize, at: Coord) -> Option<usize>
        requires node { index < length self.now.shape.nodes }
        requires inside { Inside (bounds_of_shape self.now.shape) at }
        ensures { result ≡ place_in self.now (suc index) at }
    {
        let slot = self.number_at(index, at)?;
        Some(self.layout.widths(index).word_number(slot))
    }
}
