use crate::token::Name;
use sg_words::{Items, Ty};

/// `layout NAME(AXES) { NODES FIELDS }`: the axes by name, the nodes from the root on, and the fields.
#[derive(Debug, Drop)]
pub struct LayoutDecl {
    pub name: Name,
    pub axes: Items<Name>,
    pub nodes: Items<NodeDecl>,
    pub fields: Items<FieldDecl>,
}

/// A node of a layout's tree. `Pointer` and `Hash` have a `cap`, `Dynamic` has a `chunk` and a `cap`.
#[derive(Debug, Drop)]
pub struct NodeDecl {
    pub kind: NodeKind,
    pub axes: Items<AxisDecl>,
    pub chunk: Option<SizeDecl>,
    pub cap: Option<SizeDecl>,
}

/// How a node keeps its slots.
#[derive(Clone, Copy, Debug, PartialEq, Eq)]
pub enum NodeKind {
    Dense,
    Bitmasked,
    Pointer,
    Hash,
    Dynamic,
}

/// An axis that a node names, with its extent there.
#[derive(Debug, Drop)]
pub struct AxisDecl {
    pub name: Name,
    pub size: SizeDecl,
}

/// An extent, a cap or a chunk: a number, or the name of a constant.
#[derive(Debug, Drop)]
pub enum SizeDecl {
    Number(u32),
    Name(Name),
}

/// `field NAME: TY;`, where the type is `I32` or `U32`.
#[derive(Debug, Drop)]
pub struct FieldDecl {
    pub name: Name,
    pub ty: Ty,
}
