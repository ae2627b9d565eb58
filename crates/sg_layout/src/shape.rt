ghost use Rattle.std.specs.Prelude.{◌≡◌, IfOk};
ghost use Rattle.std.specs.List.{list_all};
ghost use Rattle.sg_layout.specs.Rules.{is_field, is_declared, all_dense};

use sg_words::{Items, Memory, Ty};
use std::alloc::Global;

/// What a node keeps of its slots: nothing, a bit each, a child container each, a child container per key, or a length.
#[derive(Clone, Copy, Debug, PartialEq, Eq)]
pub enum Kind {
    Dense,
    Bitmasked,
    Pointer,
    Hash,
    Dynamic,
}

/// The extent that a node gives an axis. Axes are numbered from 1; 0 stands for a name that the layout does not have.
#[derive(Clone, Copy, Debug, PartialEq, Eq)]
pub struct Size {
    pub axis: u32,
    pub extent: i32,
}

/// A node of a layout. `cap` and `chunk` are 0 if the node's kind has none.
#[derive(Debug, Drop)]
pub struct NodeShape {
    pub kind: Kind,
    pub sizes: Items<Size>,
    pub cap: i32,
    pub chunk: i32,
}

/// A layout as it was declared, its nodes from the root on: not yet checked.
#[derive(Debug, Drop)]
pub struct Shape {
    pub axes: u32,
    pub nodes: Items<NodeShape>,
    pub fields: Items<Ty>,
}

impl NodeShape {
    fn copy(&self, alloc: Global) -> Result<NodeShape, Memory>
        ensures { IfOk result (λ copy. copy ≡ self.now) }
    {
        Ok(NodeShape {
            kind: self.kind,
            sizes: Items::from_slice(alloc, self.sizes.as_slice())?,
            cap: self.cap,
            chunk: self.chunk,
        })
    }
}

impl Shape {
    /// Whether there are 1 to 3 axes, 1 to 6 nodes and 1 to 16 fields, all of them of numbers.
    pub fn is_declared(&self) -> bool
        ensures { result ≡ is_declared self.now }
    {
        (1..=3).contains(&self.axes)
            && (1..=6).contains(&self.nodes.len())
            && (1..=16).contains(&self.fields.len())
            && are_fields(self.fields.as_slice())
    }

    /// Whether every node is dense.
    pub fn is_dense(&self) -> bool
        ensures { result ≡ all_dense self.now.nodes }
    {
        self.nodes
            .as_slice()
            .iter()
            .all(|node| node.kind == Kind::Dense)
    }

    /// A copy of the shape.
    pub fn copy(&self, alloc: Global) -> Result<Shape, Memory>
        ensures { IfOk result (λ copy. copy ≡ self.now) }
    {
        Ok(Shape {
            axes: self.axes,
            nodes: copy_nodes(alloc, self.nodes.as_slice())?,
            fields: Items::from_slice(alloc, self.fields.as_slice())?,
        })
    }
}

fn are_fields(types: &[Ty]) -> bool
    ensures { result ≡ list_all is_field types.now }
{
    types.iter().all(|ty| is_field(*ty))
}

fn is_field(ty: Ty) -> bool
    ensures { result ≡ is_field ty }
{
    match ty {
        Ty::I32 | Ty::U32 => true,
        Ty::Bool => false,
    }
}

fn copy_nodes(alloc: Global, nodes: &[NodeShape]) -> Result<Items<NodeShape>, Memory>
    ensures { IfOk result (λ copies. copies ≡ nodes.now) }
{
    let mut copies = Items::new(alloc);
    for node in nodes {
        copies.push(node.copy(alloc)?)?;
    }
    Ok(copies)
}
