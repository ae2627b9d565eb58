ghost use Rattle.std.specs.Prelude.{◌≡◌, Some, slice_get, ℕ, ◌*◌, ◌<◌, ◌||◌, ◌==◌, List, length, All};
ghost use Rattle.sg_layout.specs.declared.shape.Kind.TheVariants.{Bitmasked};
ghost use Rattle.sg_store.specs.declared.node.NodeWords.{NodeWords};
ghost use Rattle.sg_store.specs.Slots.{mask_bit};
ghost use Rattle.sg_store.specs.steps.Marking.{IsMarked, HasMarked};
ghost use Rattle.sg_store.specs.steps.AtNode.{AtNodeOf, AreNumbers};
ghost use Rattle.sg_store.specs.steps.Settling.{CanSettleMasks, IsRemasked, ChangesAt, ChangesNode};
ghost use Rattle.sg_store.specs.Reaching.{KeepsCells};
ghost use Rattle.sg_store.specs.steps.Levels.{IsOfKind, OpensNext};

use crate::node::NodeWords;
use crate::store::Store;
use crate::word_row::WordRow;
use sg_coord::Coord;
use sg_layout::paths_tell;

/// Sets the bit with this number.
pub(crate) fn mark(masks: &mut WordRow, number: usize)
    requires { number < 64 * length masks.old }
    ensures bits { (bit : ℕ) → mask_bit masks.new bit ≡ (mask_bit masks.old bit || number == bit) }
    ensures as_many { length masks.new ≡ length masks.old }
{
    let word = masks.get(number / 64);
    masks.set(number / 64, word | (1 << (number % 64)));
}

/// Sets the bits with these numbers.
fn mark_all(masks: &mut WordRow, numbers: &[usize])
    requires { All (λ number. number < 64 * length masks.old) numbers.now }
    ensures { IsMarked masks.old masks.new numbers.now }
{
    for number in numbers {
        mark(masks, *number);
    }
}

impl NodeWords {
    /// Gives the node these masks.
    fn remask(&mut self, masks: &[u64])
        requires { length masks.now ≡ length self.old.masks }
        ensures { IsRemasked masks.now self.old self.new }
    {
        self.masks.overwrite(masks);
    }

    /// Sets the bits of the node with these numbers.
    fn mark_bits(&mut self, numbers: &[usize])
        requires { All (λ number. number < 64 * length self.old.masks) numbers.now }
        ensures { HasMarked numbers.now self.old self.new }
    {
        mark_all(&mut self.masks, numbers);
    }
}

/// Sets these bits of one of these nodes, by its index from 0.
fn mark_bits_at(nodes: &mut Vec<NodeWords>, index: usize, numbers: &[usize])
    requires there { index < length nodes.old.items }
    requires can { (kept : NodeWords) → slice_get nodes.old.items index ≡ Some kept →
        All (λ number. number < 64 * length kept.masks) numbers.now }
    ensures { ChangesAt (HasMarked numbers.now) nodes.old.items nodes.new.items index }
{
    let kept = &mut nodes[index];
    kept.mark_bits(numbers);
}

/// Gives one of these nodes, by its index from 0, these masks.
fn remask_at(nodes: &mut Vec<NodeWords>, index: usize, masks: &[u64])
    requires there { index < length nodes.old.items }
    requires can { (kept : NodeWords) → slice_get nodes.old.items index ≡ Some kept →
        length masks.now ≡ length kept.masks }
    ensures { ChangesAt (IsRemasked masks.now) nodes.old.items nodes.new.items index }
{
    let kept = &mut nodes[index];
    kept.remask(masks);
}

impl Store {
    /// Gives the bitmasked node with this index, from 0, these masks.
    pub(crate) fn remask_node(&mut self, index: usize, masks: &[u64])
        requires there { index < length self.old.nodes }
        requires can { AtNodeOf (CanSettleMasks masks.now) self.old index }
        ensures { ChangesNode (IsRemasked masks.now) self.old self.new index }
    {
        remask_at(&mut self.nodes, index, masks);
    }

    /// Sets these bits of the bitmasked node with this index, from 0.
    fn mark_node(&mut self, index: usize, numbers: &[usize])
        requires there { index < length self.old.nodes }
        requires within { (kept : NodeWords) → slice_get self.old.nodes index ≡ Some kept →
            All (λ number. number < 64 * length kept.masks) numbers.now }
        requires can { (masks : List ℕ) (kept : NodeWords) → slice_get self.old.nodes index ≡ Some kept →
            IsMarked kept.masks masks numbers.now → AtNodeOf (CanSettleMasks masks) self.old index }
        ensures { ChangesNode (HasMarked numbers.now) self.old self.new index }
    {
        mark_bits_at(&mut self.nodes, index, numbers);
    }

    /// Opens the bitmasked node with this index, from 0, for wanted coordinates, whose slots have these numbers. Takes no memory.
    pub(crate) fn open_mask(&mut self, index: usize, wanted: &[Coord], slots: &[usize])
        requires few { index < 6 }
        requires masked { AtNodeOf (IsOfKind Bitmasked) self.old index }
        requires numbers { AreNumbers self.old index wanted.now slots.now }
        ensures opened { OpensNext self.old self.new wanted.now index }
        ensures keeps { KeepsCells self.old self.new }
    {
        // for the law that it ensures
        paths_tell();
        // for the invariant that it ensures
        self.layout();
        self.mark_node(index, slots);
    }
}
