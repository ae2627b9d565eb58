//! Tests of types, operators, kinds of node and axes.
ghost use Rattle.std.specs.Prelude.{◌≡◌, ◌&&◌, ◌==◌, slice_get};
ghost use Rattle.sg_layout.specs.declared.shape.NodeShape.{NodeShape};
ghost use Rattle.sg_layout.specs.Axes.{bounds_of_shape};
ghost use Rattle.sg_ir.specs.Runs.{node_in};
ghost use Rattle.sg_ir.specs.WellTyped.{is_truth_as, joins, is_truth, takes_truth, gives_truth, is_lnot, goes_down, holds_of, is_i32};
ghost use Rattle.sg_ir.specs.Places.{extents_in};
ghost use Rattle.sg_ir.specs.steps.Frames.{way_of_step};

use sg_layout::{Kind, Layout, NodeShape};
use sg_words::{BinOp, Ty, UnOp};

/// Whether the node with this number, from 1, is there and of the kind that is gone down so.
pub(crate) fn is_gone_down(nodes: &[NodeShape], step: StepKind, node: u32) -> bool
    ensures { result ≡ holds_of (λ (there : NodeShape). goes_down (way_of_step step) there.kind) (node_in nodes.now node) }
{
    let Some(before) = node.checked_sub(1) else {
        return false;
    };
    match nodes.get(before as usize) {
        Some(there) => goes_down(step, there.kind),
        None => false,
    }
}

pub(crate) fn is_extent(there: Option<u32>, extent: u32) -> bool
    ensures { result ≡ holds_of (λ e. e == extent) there }
{
    match there {
        Some(there) => there == extent,
        None => false,
    }
}

/// Whether both hold. Both are computed.
pub(crate) fn both(a: bool, b: bool) -> bool
    ensures { result ≡ (a && b) }
{
    a && b
}

/// The extent of an axis, from 0.
pub(crate) fn extent_of(layout: &Layout, axis: u32) -> Option<u32>
    ensures { result ≡ slice_get (extents_in (bounds_of_shape layout.now)) axis }
{
    let extents = layout.extents();
    match axis {
        0 => Some(extents.a),
        1 => Some(extents.b),
        2 => Some(extents.c),
        _ => None,
    }
}

/// The instruction that goes down a node.
#[derive(Clone, Copy, Debug, PartialEq, Eq)]
pub enum StepKind {
    Child,
    Key,
    Bit,
    Length,
}

pub(crate) fn goes_down(step: StepKind, kind: Kind) -> bool
    ensures { result ≡ goes_down (way_of_step step) kind }
{
    match kind {
        Kind::Dense => step == StepKind::Child,
        Kind::Pointer => step == StepKind::Child,
        Kind::Hash => step == StepKind::Key,
        Kind::Bitmasked => step == StepKind::Bit,
        Kind::Dynamic => step == StepKind::Length,
    }
}

/// Whether a type is there, that of a truth value or not.
pub(crate) fn is_of(truth: bool, ty: Option<Ty>) -> bool
    ensures { result ≡ is_truth_as truth ty }
{
    match ty {
        Some(ty) => is_truth(ty) == truth,
        None => false,
    }
}

/// Whether both types are there, both of truth values or neither.
pub(crate) fn joins(ty: Option<Ty>, other: Option<Ty>) -> bool
    ensures { result ≡ joins ty other }
{
    match ty {
        Some(ty) => is_of(is_truth(ty), other),
        None => false,
    }
}

pub(crate) fn is_truth(ty: Ty) -> bool
    ensures { result ≡ is_truth ty }
{
    ty == Ty::Bool
}

pub(crate) fn is_i32(ty: Option<Ty>) -> bool
    ensures { result ≡ holds_of is_i32 ty }
{
    match ty {
        Some(ty) => ty == Ty::I32,
        None => false,
    }
}

pub(crate) fn is_lnot(op: UnOp) -> bool
    ensures { result ≡ is_lnot op }
{
    op == UnOp::LNot
}

pub(crate) fn takes_truth(op: BinOp) -> bool
    ensures { result ≡ takes_truth op }
{
    op == BinOp::LAnd || op == BinOp::LOr
}

pub(crate) fn gives_truth(op: BinOp) -> bool
    ensures { result ≡ gives_truth op }
{
    match op {
        BinOp::LAnd => true,
        BinOp::LOr => true,
        BinOp::Eq => true,
        BinOp::Ne => true,
        BinOp::Lt => true,
        BinOp::Le => true,
        BinOp::Gt => true,
        BinOp::Ge => true,
        _ => false,
    }
}
