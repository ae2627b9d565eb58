use crate::fixtures::{Node, shape_of};
use sg_layout::Kind::{Bitmasked, Hash, Pointer};
use sg_layout::{Layout, Shape, check_layout};
use std::alloc::Global;
use std::test::Fail;

static GRID: [Node; 3] = [
    (Hash, [4, 4, 0], 16),
    (Pointer, [2, 2, 0], 64),
    (Bitmasked, [8, 8, 0], 0),
];

/// The layout of a copy of a shape.
fn checked(alloc: Global, shape: &Shape) -> Result<Layout, Fail> {
    let copy = shape.copy(alloc)?;
    if !copy.is_declared() {
        return Err(Fail::from("not declared"));
    }
    Ok(check_layout(alloc, &copy)?)
}

/// The points on each axis and the storage words of a copy of the layout.
fn measured(alloc: Global, shape: &Shape) -> Result<([u32; 4], u64), Fail> {
    let layout = checked(alloc, shape)?.copy(alloc)?;
    let extents = layout.extents();
    Ok(([extents.n, extents.a, extents.b, extents.c], layout.words()))
}

#[test]
fn layouts_are_checked_and_copied(rt: HostRuntime) -> Result<(), Fail> {
    let shape = shape_of(rt.alloc(), 2, &GRID)?;
    assert_eq!(rt; measured(rt.alloc(), &shape)?, ([2, 64, 64, 1], 15829));
    Ok(())
}
