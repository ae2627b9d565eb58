//! The constants that sizes name.

ghost use Rattle.std.specs.Prelude.{◌≡◌};
ghost use Rattle.std.specs.List.{list_any};
ghost use Rattle.sg_names.specs.Uses.{node_sizes, size_names, optional_size_names};
ghost use Rattle.sg_names.specs.Names.{is_no_size};

use crate::names::Names;
use sg_ast::{AxisDecl, NodeDecl, SizeDecl};

/// Whether a size names no constant of type `I32`.
pub fn sizes_unknown(names: &Names, nodes: &[NodeDecl]) -> bool
    ensures { result ≡ list_any (λ node. list_any (is_no_size names.now) (node_sizes node)) nodes.now }
{
    nodes.iter().any(|node| node_unknown(names, node))
}

fn node_unknown(names: &Names, node: &NodeDecl) -> bool
    ensures { result ≡ list_any (is_no_size names.now) (node_sizes node.now) }
{
    axes_unknown(names, node.axes.as_slice())
        || (optional_unknown(names, &node.chunk) || optional_unknown(names, &node.cap))
}

fn axes_unknown(names: &Names, axes: &[AxisDecl]) -> bool
    ensures { result ≡ list_any (λ axis. list_any (is_no_size names.now) (size_names axis.size)) axes.now }
{
    axes.iter().any(|axis| size_unknown(names, &axis.size))
}

fn optional_unknown(names: &Names, size: &Option<SizeDecl>) -> bool
    ensures { result ≡ list_any (is_no_size names.now) (optional_size_names size.now) }
{
    match size {
        None => false,
        Some(size) => size_unknown(names, size),
    }
}

fn size_unknown(names: &Names, size: &SizeDecl) -> bool
    ensures { result ≡ list_any (is_no_size names.now) (size_names size.now) }
{
    match size {
        SizeDecl::Number(_) => false,
        SizeDecl::Name(name) => names.lacks_size(name),
    }
}
