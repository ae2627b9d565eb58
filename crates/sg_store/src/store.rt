ghost use Rattle.std.specs.Prelude.{◌≡◌, ◌≤◌, All, IfOk};
ghost use Rattle.sg_layout.specs.StorageWords.{words_of_shape, most_words};
ghost use Rattle.sg_flat.specs.State.{opening_layout};
ghost use Rattle.sg_store.specs.WellFormed.{IsWellFormed};
ghost use Rattle.sg_store.specs.StandsFor.{StandsFor};

use crate::field_row::FieldRow;
use crate::frame::Frame;
use crate::fresh::{FreshNodes, fresh_nodes, zero_rows};
use crate::node::NodeWords;
use sg_layout::{Layout, laws as layouts};
use sg_words::{Items, Memory};
use std::alloc::Global;
use std::marker::Model;

/// The tree of containers of one layout, and the values of its fields in the cells.
#[derive(Debug, Drop)]
pub struct Store {
    pub(crate) layout: Frame,
    pub(crate) nodes: Vec<NodeWords>,
    pub(crate) fields: Vec<FieldRow>,
}

impl Model for Store {
    ghost use Rattle.sg_store.specs.StoreWords.{StoreWords};
    ghost use Rattle.sg_store.specs.WellFormed.{IsWellFormed};

    ghost Value = { StoreWords };

    ghost view = { λ store. record { shape = store.layout; nodes = store.nodes.items; fields = store.fields.items } };

    ghost invariant = { λ store. IsWellFormed (record { shape = store.layout; nodes = store.nodes.items; fields = store.fields.items }) };
}

/// The stores of a program's layouts, in order of declaration.
#[derive(Debug, Drop)]
pub struct Stores {
    pub list: Items<Store>,
}

impl Store {
    /// A store in which nothing is active but what is so without any write, and all values are 0.
    pub fn make(alloc: Global, layout: &Layout) -> Result<Store, Memory>
        requires few_words { words_of_shape layout.now ≤ most_words }
        ensures shape { IfOk result (λ store. store.shape ≡ layout.now) }
        ensures opening { IfOk result (λ store. StandsFor store (opening_layout layout.now)) }
        ensures well_formed { IfOk result IsWellFormed }
    {
        // for the laws that they ensure
        layouts::rules_decide();
        layouts::paths_tell();
        layouts::closure_closes();
        layouts::live_absorbs();
        let _extents = layout.extents();
        let shape = layout.shape();
        let FreshNodes { words, cells } = fresh_nodes(alloc, layout)?;
        Ok(Store {
            layout: Frame::make(alloc, layout)?,
            nodes: words,
            fields: zero_rows(alloc, shape.fields.len(), cells)?,
        })
    }

    /// A copy of the store. In time by the words that were given, and by the places of a hash node's table.
    pub fn copy(&self, alloc: Global) -> Result<Store, Memory>
        ensures { IfOk result (λ copy. copy ≡ self.now) }
    {
        let nodes = copied_nodes(alloc, self.nodes.as_slice())?;
        let mut fields = Vec::new(alloc);
        for row in &self.fields {
            fields.push(row.copy(alloc)?)?;
        }
        Ok(Store {
            layout: self.layout.copy(alloc)?,
            nodes,
            fields,
        })
    }

    /// The layout with which the store was made.
    pub fn layout(&self) -> &Layout
        ensures layout { result.now ≡ self.now.shape }
        ensures well_formed { IsWellFormed self.now }
    {
        self.layout.layout()
    }
}

impl Stores {
    /// For what each of them keeps: in time by how many there are.
    pub fn well_formed(&self)
        ensures { All IsWellFormed self.now.list }
    {
        let list = self.list.as_slice();
        for store in list {
            // for the invariant that it ensures
            store.layout();
        }
    }
}

/// Copies of the words of nodes.
pub(crate) fn copied_nodes(alloc: Global, nodes: &[NodeWords]) -> Result<Vec<NodeWords>, Memory>
    ensures { IfOk result (λ copy. copy.items ≡ nodes.now) }
{
    let mut copy = Vec::new(alloc);
    for kept in nodes {
        copy.push(kept.copy(alloc)?)?;
    }
    Ok(copy)
}
