//! Where the live numbers of stores stand, node by node.

ghost use Rattle.std.specs.Prelude.{◌≡◌, IfOk, [], length, slice_get, Some, ◌<◌, IsTrue};
ghost use Rattle.sg_store.specs.Links.{AreLinks};
ghost use Rattle.sg_journal.specs.Placing.{ArePlaced, ArePlacedIn, AreRising, nothing_in, nothing_placed};

use sg_layout::{Kind, Layout, Layouts};
use sg_store::{LinkAt, Store, Stores};
use sg_words::{Items, Memory};
use std::alloc::Global;
use std::marker::Model;

/// The links of a node, by rising number.
#[derive(Debug, Drop)]
pub struct NodeLinks {
    links: Items<LinkAt>,
}

impl Model for NodeLinks {
    ghost use Rattle.std.specs.Prelude.{List};
    ghost use Rattle.sg_store.specs.declared.links.LinkAt.{LinkAt};
    ghost use Rattle.sg_journal.specs.Placing.{AreRising};

    ghost Value = { List LinkAt };

    ghost view = { λ node. node.links };

    ghost invariant = { λ node. AreRising node.links };
}

/// Where the live numbers of stores stand: for each layout, for each of its nodes, its links.
#[derive(Debug, Drop)]
pub struct Placed {
    pub layouts: Items<Items<NodeLinks>>,
}

impl NodeLinks {
    /// No links.
    fn none(alloc: Global) -> NodeLinks
        ensures { result ≡ [] }
    {
        NodeLinks {
            links: Items::new(alloc),
        }
    }

    /// The links of the node with this index, from 0, of a store.
    fn of(alloc: Global, store: &Store, index: usize) -> Result<NodeLinks, Memory>
        requires { index < length store.now.shape.nodes }
        ensures { IfOk result (AreLinks store.now index) }
    {
        match store.layout().shape().nodes.as_slice()[index].kind {
            Kind::Dense | Kind::Bitmasked => Ok(NodeLinks::none(alloc)),
            Kind::Pointer | Kind::Hash | Kind::Dynamic => Ok(NodeLinks {
                links: Items::from_vec(store.links_of(alloc, index as u32 + 1)?),
            }),
        }
    }

    /// The links, by rising number.
    pub fn as_slice(&self) -> &[LinkAt]
        ensures links { result.now ≡ self.now }
        ensures rising { AreRising self.now }
    {
        self.links.as_slice()
    }
}

impl Placed {
    /// Where the live numbers of stores stand. In time by the words of their nodes, not by those of their fields.
    pub fn of(alloc: Global, stores: &Stores) -> Result<Placed, Memory>
        ensures { IfOk result (λ placed. ArePlaced stores.now.list placed.layouts) }
    {
        let mut layouts = Items::new(alloc);
        for store in stores.list.as_slice() {
            layouts.push(store_links(alloc, store)?)?;
        }
        Ok(Placed { layouts })
    }

    /// The nodes of layouts, where no number stands anywhere.
    pub fn nothing(alloc: Global, layouts: &Layouts) -> Result<Placed, Memory>
        ensures { IfOk result (λ placed. placed.layouts ≡ nothing_placed layouts.now.list) }
    {
        let mut empty = Items::new(alloc);
        for layout in layouts.list.as_slice() {
            empty.push(no_links(alloc, layout)?)?;
        }
        Ok(Placed { layouts: empty })
    }
}

/// The links of the nodes of a store.
fn store_links(alloc: Global, store: &Store) -> Result<Items<NodeLinks>, Memory>
    ensures { IfOk result (ArePlacedIn store.now) }
{
    let mut nodes = Items::new(alloc);
    for index in 0..store.layout().nodes() {
        nodes.push(NodeLinks::of(alloc, store, index)?)?;
    }
    Ok(nodes)
}

/// The nodes of a layout, without any link.
fn no_links(alloc: Global, layout: &Layout) -> Result<Items<NodeLinks>, Memory>
    ensures { IfOk result (λ nodes. nodes ≡ nothing_in layout.now) }
{
    let mut nodes = Items::new(alloc);
    for node in layout.shape().nodes.as_slice() {
        let _node = node;
        nodes.push(NodeLinks::none(alloc))?;
    }
    Ok(nodes)
}
