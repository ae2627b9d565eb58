//! How many rows stand side by side at the last node of a layout.

ghost use Rattle.std.specs.Prelude.{◌≡◌, ◌≤◌, ◌-◌, ◌^◌, length, Some, slice_get, IsTrue};
ghost use Rattle.std.specs.List.{list_all};
ghost use Rattle.sg_layout.specs.declared.shape.NodeShape.{NodeShape};
ghost use Rattle.sg_layout.specs.Rules.{is_extent};
ghost use Rattle.sg_exec.specs.steps.Blocks.{IsSpan};

use sg_layout::{Layout, NodeShape, extent_in};

/// How many rows stand side by side along the last axis at the last node of a layout.
pub(crate) fn last_span(layout: &Layout) -> u32
    ensures some { 1 ≤ result }
    ensures few { result ≤ 2 ^ 15 }
    ensures span { (node : NodeShape) → slice_get layout.now.nodes (length layout.now.nodes - 1) ≡ Some node →
        IsSpan node layout.now.axes result }
{
    let shape = layout.shape();
    let node = &shape.nodes.as_slice()[layout.nodes() - 1];
    span_of(node, shape.axes)
}

/// How many rows stand side by side along the last of so many axes at a node: as many as its extent there has, or 1 if it names a
/// further axis.
fn span_of(node: &NodeShape, axes: u32) -> u32
    requires { IsTrue (list_all (λ size. is_extent size.extent) node.now.sizes) }
    ensures some { 1 ≤ result }
    ensures few { result ≤ 2 ^ 15 }
    ensures span { IsSpan node.now axes result }
{
    let sizes = node.sizes.as_slice();
    let b = extent_in(sizes, 2);
    let c = extent_in(sizes, 3);
    if axes >= 3 {
        return c;
    }
    if c != 1 {
        return 1;
    }
    if axes >= 2 {
        return b;
    }
    if b != 1 {
        return 1;
    }
    extent_in(sizes, 1)
}
