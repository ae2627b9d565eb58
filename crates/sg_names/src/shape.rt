//! Declared layouts with their sizes as numbers.

ghost use Rattle.std.specs.Prelude.{◌≡◌, ◌<◌, map, length, position, IfOk, IfSome};
ghost use Rattle.sg_ast.specs.Token.{same_name};
ghost use Rattle.sg_names.specs.Shapes.{shape_of, node_shape, axis_size, axis_number, size_number, optional_number, node_kind};

use crate::names::Names;
use sg_ast::{AxisDecl, FieldDecl, LayoutDecl, Name, NodeDecl, NodeKind, SizeDecl};
use sg_layout::{Kind, NodeShape, Shape, Size};
use sg_words::{Items, Memory, Ty};
use std::alloc::Global;

impl Names {
    /// A declared layout with its sizes as numbers. A size that is a number is its word read as `I32`, one that names a constant is
    /// that constant's word read so, and one that names none is 0. Axes are numbered from 1, in the order of the layout's list, and
    /// a name that is not in it is axis 0. A cap or chunk that is not there is 0.
    pub fn shape(&self, alloc: Global, decl: &LayoutDecl) -> Result<Shape, Memory>
        ensures { IfOk result (λ shape. shape ≡ shape_of self.now decl.now) }
    {
        let Ok(axes) = u32::try_from(decl.axes.len()) else {
            return Err(Memory);
        };
        let mut nodes = Items::new(alloc);
        for node in decl.nodes.as_slice() {
            nodes.push(self.node_shape(alloc, decl.axes.as_slice(), node)?)?;
        }
        Ok(Shape {
            axes,
            nodes,
            fields: types_of(alloc, decl.fields.as_slice())?,
        })
    }

    fn node_shape(&self, alloc: Global, axes: &[Name], node: &NodeDecl) -> Result<NodeShape, Memory>
        ensures { IfOk result (λ shape. shape ≡ node_shape self.now axes.now node.now) }
    {
        Ok(NodeShape {
            kind: node_kind(node.kind),
            sizes: self.sizes(alloc, axes, node.axes.as_slice())?,
            cap: self.optional_number(&node.cap),
            chunk: self.optional_number(&node.chunk),
        })
    }

    fn sizes(&self, alloc: Global, axes: &[Name], named: &[AxisDecl]) -> Result<Items<Size>, Memory>
        ensures { IfOk result (λ sizes. sizes ≡ map (axis_size self.now axes.now) named.now) }
    {
        let mut sizes = Items::new(alloc);
        for axis in named {
            sizes.push(Size {
                axis: axis_number(axes, &axis.name)?,
                extent: self.size_number(&axis.size),
            })?;
        }
        Ok(sizes)
    }

    fn optional_number(&self, size: &Option<SizeDecl>) -> i32
        ensures { result ≡ optional_number self.now size.now }
    {
        match size {
            None => 0,
            Some(size) => self.size_number(size),
        }
    }

    fn size_number(&self, size: &SizeDecl) -> i32
        ensures { result ≡ size_number self.now size.now }
    {
        match size {
            SizeDecl::Number(value) => value.cast_signed(),
            SizeDecl::Name(name) => match self.constant(name) {
                None => 0,
                Some(constant) => constant.word.cast_signed(),
            },
        }
    }
}

/// The number of an axis in a layout's list, from 1; 0 if it is not there.
fn axis_number(axes: &[Name], name: &Name) -> Result<u32, Memory>
    ensures { IfOk result (λ number. number ≡ axis_number axes.now name.now) }
{
    match axis_place(axes, name) {
        None => Ok(0),
        Some(place) => match u32::try_from(place + 1) {
            Ok(number) => Ok(number),
            Err(_) => Err(Memory),
        },
    }
}

fn axis_place(axes: &[Name], name: &Name) -> Option<usize>
    ensures value { result ≡ position (same_name name.now) axes.now }
    ensures within { IfSome result (λ place. place < length axes.now) }
{
    axes.iter().position(|axis| name.is(axis))
}

fn types_of(alloc: Global, fields: &[FieldDecl]) -> Result<Items<Ty>, Memory>
    ensures { IfOk result (λ types. types ≡ map (λ field. field.ty) fields.now) }
{
    let mut types = Items::new(alloc);
    for field in fields {
        types.push(field.ty)?;
    }
    Ok(types)
}

fn node_kind(kind: NodeKind) -> Kind
    ensures { result ≡ node_kind kind }
{
    match kind {
        NodeKind::Dense => Kind::Dense,
        NodeKind::Bitmasked => Kind::Bitmasked,
        NodeKind::Pointer => Kind::Pointer,
        NodeKind::Hash => Kind::Hash,
        NodeKind::Dynamic => Kind::Dynamic,
    }
}
