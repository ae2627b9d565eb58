ghost use Rattle.std.specs.Prelude.{◌≡◌, ◌≢◌, ℕ, suc, ◌+◌, ◌*◌, ◌-◌, ◌^◌, ◌<◌, ◌≤◌, List, length, All, Contains, IfOk, IfSome, IsSome, IsTrue};
ghost use Rattle.sg_coord.specs.declared.coord.Coord.{Coord};
ghost use Rattle.sg_coord.specs.Coord.{Inside};
ghost use Rattle.sg_layout.specs.declared.shape.Kind.TheVariants.{Dense, Bitmasked, Pointer, Hash, Dynamic};
ghost use Rattle.sg_layout.specs.declared.shape.NodeShape.{NodeShape};
ghost use Rattle.sg_layout.specs.Axes.{bounds_of_shape, count_of};
ghost use Rattle.sg_layout.specs.Live.{kind_at};
ghost use Rattle.sg_layout.specs.StorageWords.{ends_segment};
ghost use Rattle.sg_layout.specs.NeedLaws.{IsNumberedNode};
ghost use Rattle.sg_pool.specs.Numbers.{live_count, IsStock};
ghost use Rattle.sg_store.specs.Walks.{place_in};
ghost use Rattle.sg_store.specs.WellFormed.{IsWellFormed};
ghost use Rattle.sg_store.specs.Reaching.{KeepsCells, IsOpenThrough};
ghost use Rattle.sg_store.specs.Changes.{IsRelinked, ChangesNode};
ghost use Rattle.sg_store.specs.Opening.{link_words_of, masks_of, lengths_of, pool_of, filled_count, IsInLive, CanSettleSlots, FitsCap, WantedHaveLinks, NewLinksAreWanted, OpensNode};

use crate::store::Store;
use sg_coord::Coord;
use sg_layout::{paths_tell, rules_decide};
use sg_words::{Items, Memory};
use std::alloc::Global;

impl Store {
    /// All link words of a pointer or hash node, numbered from 1: each is 0 or one more than the number of a child
    /// container. A pointer node has one for each slot, a hash node one beside each key word.
    pub fn slot_words(&self, alloc: Global, node: u32) -> Result<Items<u64>, Memory>
        requires first { 1 ≤ node }
        requires linked { IsTrue (ends_segment (kind_at self.now.shape.nodes node)) }
        ensures words { IfOk result (λ links. links ≡ link_words_of self.now node) }
        ensures some { IfOk result (λ links. 0 < length links) }
        ensures small { IfOk result (λ links. All (λ link. link ≤ 2 ^ 32) links) }
        ensures filled { IfOk result (λ links. filled_count links ≡ live_count (pool_of self.now node)) }
    {
        // for the laws that they ensure
        paths_tell();
        rules_decide();
        let _extents = self.layout.extents();
        let kept = &self.nodes.as_slice()[node as usize - 1];
        Ok(Items::from_vec(kept.links.whole(alloc)?))
    }

    /// All numbers of a pointer or hash node's pool that are not live, each once. The node is numbered from 1.
    pub fn stock(&self, alloc: Global, node: u32) -> Result<Items<u32>, Memory>
        requires first { 1 ≤ node }
        requires linked { IsTrue (ends_segment (kind_at self.now.shape.nodes node)) }
        ensures stock { IfOk result (IsStock (pool_of self.now node)) }
        ensures unlinked { IfOk result (λ stock. (number : ℕ) → Contains stock number →
            Contains (link_words_of self.now node) (suc number) → ⊥) }
        ensures rest { IfOk result (λ stock. (shape : NodeShape) → IsNumberedNode self.now.shape node shape →
            length stock + live_count (pool_of self.now node) ≡ count_of shape.cap + 17) }
    {
        self.nodes.as_slice()[node as usize - 1].pool.stock(alloc)
    }

    /// The number of a coordinate's word at a node with activity, numbered from 1: that of its slot's link, its key, the
    /// number of its bit, or that of its parent's length. None if the container that holds it isn't live.
    pub fn place_in(&self, node: u32, at: Coord) -> Option<usize>
        requires first { 1 ≤ node }
        requires sparse { kind_at self.now.shape.nodes node ≢ Dense }
        requires inside { Inside (bounds_of_shape self.now.shape) at }
        ensures value { result ≡ place_in self.now node at }
        ensures in_live { IfSome result (IsInLive self.now node) }
        ensures slots { kind_at self.now.shape.nodes node ≡ Pointer →
            IfSome result (λ slot. slot < length (link_words_of self.now node)) }
        ensures keys { kind_at self.now.shape.nodes node ≡ Hash → IfSome result (λ key. key < 2 ^ 32) }
        ensures bits { kind_at self.now.shape.nodes node ≡ Bitmasked →
            IfSome result (λ slot. slot < 64 * length (masks_of self.now node)) }
        ensures parents { kind_at self.now.shape.nodes node ≡ Dynamic →
            IfSome result (λ parent. parent < length (lengths_of self.now node)) }
        ensures open { (old all : List Coord) → IsOpenThrough self.now old all (node - 1) → Contains all at →
            IsSome result }
    {
        // for the laws that it ensures, and the invariant
        paths_tell();
        self.layout();
        self.word_at(node as usize - 1, at)
    }

    /// Gives a pointer node, numbered from 1, these links, and makes the numbers live that they take from the stock.
    pub fn settle_slots(&mut self, node: u32, links: &[u64], taken: &[u32])
        requires first { 1 ≤ node }
        requires pointer { kind_at self.old.shape.nodes node ≡ Pointer }
        requires can { CanSettleSlots self.old node links.now taken.now }
        requires fits { FitsCap self.old node taken.now }
        ensures settled { ChangesNode (IsRelinked links.now taken.now) self.old self.new (node - 1) }
        ensures keeps { KeepsCells self.old self.new }
        ensures well_formed { IsWellFormed self.new }
        ensures opened { (wanted : List Coord) → WantedHaveLinks self.old node links.now wanted →
            NewLinksAreWanted self.old node links.now wanted → OpensNode self.old self.new node wanted }
    {
        // for the laws that it ensures, and the invariant before and after
        paths_tell();
        self.layout();
        self.settle_links(node as usize - 1, links, taken);
        self.layout();
    }
}
