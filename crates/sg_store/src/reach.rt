ghost use Rattle.std.specs.Prelude.{◌≡◌, ◌++◌, ◌∷◌, [], OnOk};
ghost use Rattle.sg_layout.specs.Axes.{count_of};
ghost use Rattle.sg_store.specs.steps.AtNode.{HaveSame};

use crate::node::chunk_of;
use crate::store::Store;
use sg_coord::{Coord, count, numbering};
use sg_layout::{
    Kind, NodeShape, closure_closes, closure_members, last_sparse_decides, live_absorbs,
    need_counts_live, paths_tell,
};
use sg_words::{Items, Memory, Stop};
use std::alloc::Global;

/// The first node from the root, from 1, whose need passes its cap, and that cap.
#[derive(Clone, Copy, Debug, PartialEq, Eq)]
pub struct Full {
    pub node: u32,
    pub cap: u32,
}

impl Store {
    ghost use Rattle.std.specs.Prelude.{◌++◌, ◌≡◌, ◌<◌, length, All, IfOk, IfErr, OnOk, OnErr};
    ghost use Rattle.sg_coord.specs.Coord.{Inside};
    ghost use Rattle.sg_words.specs.Answers.{Answers, AnswersAs};
    ghost use Rattle.sg_layout.specs.Axes.{bounds_of_shape};
    ghost use Rattle.sg_layout.specs.Closure.{closure};
    ghost use Rattle.sg_layout.specs.Need.{first_full};
    ghost use Rattle.sg_flat.specs.declared.state.FlatLayout.{FlatLayout};
    ghost use Rattle.sg_store.specs.WellFormed.{IsWellFormed};
    ghost use Rattle.sg_store.specs.StandsFor.{StandsFor};
    ghost use Rattle.sg_store.specs.Reaching.{unless_full, KeepsCells};
    ghost use Rattle.sg_store.specs.steps.AtNode.{AreNumbers};
    ghost use Rattle.sg_store.specs.steps.Levels.{OpensNext, IsFullNode, IfRefused};

    /// Makes the active coordinates the closure of themselves and the wanted ones, and keeps all values. Refused where
    /// the need for these passes a cap: then, and where memory runs out, the store is as before.
    pub fn reach(&mut self, alloc: Global, wanted: &[Coord]) -> Result<(), Stop<Full>>
        requires { All (Inside (bounds_of_shape self.old.shape)) wanted.now }
        ensures answer { (flat : FlatLayout) → StandsFor self.old flat →
            Answers result (unless_full (first_full self.old.shape (flat.active ++ wanted.now))) }
        ensures reached { OnOk result ((flat : FlatLayout) → StandsFor self.old flat → StandsFor self.new
            (record flat { active = closure self.old.shape (flat.active ++ wanted.now) })) }
        ensures keeps { OnOk result (KeepsCells self.old self.new) }
        ensures stays { OnErr result (self.new ≡ self.old) }
    {
        match self.copy(alloc)?.opened(alloc, wanted) {
            Ok(next) => {
                *self = next;
                Ok(())
            }
            Err(stop) => Err(stop),
        }
    }

    /// The store with the closure of the active coordinates and the wanted ones in the place of the active ones, and all values kept.
    /// Refused where the need for these passes a cap: then, and where memory runs out, the store is let go. In time by the wanted
    /// coordinates, the words that stand, and the places of a hash node's table.
    pub fn opened(self, alloc: Global, wanted: &[Coord]) -> Result<Store, Stop<Full>>
        requires { All (Inside (bounds_of_shape self.shape)) wanted.now }
        ensures answer { (flat : FlatLayout) → StandsFor self flat →
            AnswersAs (λ next. tt) result (unless_full (first_full self.shape (flat.active ++ wanted.now))) }
        ensures reached { IfOk result (λ next. (flat : FlatLayout) → StandsFor self flat → StandsFor next
            (record flat { active = closure self.shape (flat.active ++ wanted.now) })) }
        ensures keeps { IfOk result (λ next. KeepsCells self next) }
        ensures well_formed { IfOk result IsWellFormed }
    {
        // for the laws that they ensure
        paths_tell();
        need_counts_live();
        live_absorbs();
        closure_members();
        closure_closes();
        last_sparse_decides();
        numbering(&self.layout.extents());
        let nodes = self.layout.nodes();
        let mut next = self;
        for index in 0..nodes {
            next.open_node(alloc, index, wanted)?;
            // for the invariant that it ensures
            next.layout();
        }
        Ok(next)
    }

    /// Opens the node with this index, from 0, for wanted coordinates.
    fn open_node(&mut self, alloc: Global, index: usize, wanted: &[Coord]) -> Result<(), Stop<Full>>
        requires there { index < length self.old.shape.nodes }
        requires few { index < 6 }
        requires inside { All (Inside (bounds_of_shape self.old.shape)) wanted.now }
        ensures opened { OnOk result (OpensNext self.old self.new wanted.now index) }
        ensures keeps { OnOk result (KeepsCells self.old self.new) }
        ensures full { IfErr result (IfRefused (IsFullNode self.old wanted.now index)) }
    {
        let node = &self.layout.shape().nodes.as_slice()[index];
        match node.kind {
            Kind::Dense => Ok(()),
            Kind::Bitmasked => {
                let slots = self.numbers(alloc, index, wanted)?;
                self.open_mask(index, wanted, slots.as_slice());
                Ok(())
            }
            Kind::Pointer => {
                let cap = cap_of(node);
                let slots = self.numbers(alloc, index, wanted)?;
                self.open_pointer(alloc, index, cap, wanted, slots.as_slice())
            }
            Kind::Hash => {
                let cap = cap_of(node);
                let slots = self.numbers(alloc, index, wanted)?;
                self.open_hash(alloc, index, cap, wanted, slots.as_slice())
            }
            Kind::Dynamic => {
                let cap = cap_of(node);
                let chunk = chunk_of(node);
                let slots = self.numbers(alloc, index, wanted)?;
                self.open_dynamic(alloc, index, cap, chunk, wanted, slots.as_slice())
            }
        }
    }

    /// The numbers that slots of the coordinates have at the node with this index, from 0; where coordinates that follow one another have
    /// the same, it stands there once.
    fn numbers(&self, alloc: Global, index: usize, wanted: &[Coord]) -> Result<Items<usize>, Memory>
        requires there { index < length self.now.shape.nodes }
        requires inside { All (Inside (bounds_of_shape self.now.shape)) wanted.now }
        ensures { IfOk result (AreNumbers self.now index wanted.now) }
    {
        let mut slots = Items::new(alloc);
        for at in wanted {
            if let Some(slot) = self.number_at(index, *at) {
                add_slot(&mut slots, slot)?;
            }
        }
        Ok(slots)
    }
}

/// Adds a slot to others, unless it is the last of them.
fn add_slot(slots: &mut Items<usize>, slot: usize) -> Result<(), Memory>
    ensures { OnOk result (HaveSame slots.new (slots.old ++ slot ∷ [])) }
{
    let many = slots.len();
    if many > 0 && slots.as_slice()[many - 1] == slot {
        return Ok(());
    }
    slots.push(slot)?;
    Ok(())
}

/// The cap of a node; 0 if it is negative, as no accepted layout's is.
fn cap_of(node: &NodeShape) -> u32
    ensures { result ≡ count_of node.now.cap }
{
    if node.cap < 0 { 0 } else { count(node.cap) }
}
