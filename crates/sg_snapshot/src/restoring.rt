//! Stores made from an image.

ghost use Rattle.std.specs.Prelude.{◌≡◌, ◌≤◌, None, Some, Ok, IfOk};
ghost use Rattle.sg_layout.specs.StorageWords.{total_words, most_words};
ghost use Rattle.sg_store.specs.Standing.{shapes_of};
ghost use Rattle.sg_snapshot.specs.Parts.{frames_of, AreParts};
ghost use Rattle.sg_snapshot.specs.Restoring as spec;
ghost use Rattle.sg_snapshot.specs.Restored.{StandForAnswer, StandForRestored};
ghost use Rattle.sg_snapshot.specs.steps.Laying.{filled};

use crate::fault::SnapFault;
use crate::filling::store_of;
use crate::narrow::narrow;
use crate::part::Part;
use crate::reading::parts_in;
use sg_coord::numbering;
use sg_flat::is_closed;
use sg_layout::{Layout, Layouts, closure_members};
use sg_store::Stores;
use sg_words::{Items, Memory, Stop};
use std::alloc::Global;

/// Stores of these layouts that stand for the flat state whose image the bytes are; refused where they are that of none.
pub fn restore(alloc: Global, bytes: &[u8], layouts: &Layouts) -> Result<Stores, Stop<SnapFault>>
    requires few_words { total_words layouts.now.list ≤ most_words }
    ensures answer { StandForRestored layouts.now.list bytes.now result }
    ensures shapes { IfOk result (λ stores. shapes_of stores.list ≡ layouts.now.list) }
{
    let list = layouts.list.as_slice();
    match parts_in(alloc, bytes, list)? {
        None => Err(Stop::Refused(SnapFault::NotSnapshot)),
        Some(parts) => stores_of(alloc, list, parts.as_slice()),
    }
}

/// Stores that stand for parts; refused where the points of one aren't closed, or else where a node has no room.
fn stores_of(alloc: Global, layouts: &[Layout], parts: &[Part]) -> Result<Stores, Stop<SnapFault>>
    requires few_words { total_words layouts.now ≤ most_words }
    requires are { AreParts (frames_of layouts.now) parts.now }
    ensures { StandForAnswer layouts.now (spec.state_of layouts.now (Some parts.now)) result }
{
    match first_open(layouts, parts)? {
        Some(fault) => Err(Stop::Refused(fault)),
        None => filled(alloc, layouts, parts),
    }
}

/// The fault of the first layout whose points aren't closed.
fn first_open(layouts: &[Layout], parts: &[Part]) -> Result<Option<SnapFault>, Memory>
    requires { AreParts (frames_of layouts.now) parts.now }
    ensures { IfOk result (λ found. found ≡ spec.first_open 0 layouts.now parts.now) }
{
    // for the law that it ensures
    closure_members();
    for number in 0..parts.len() {
        let layout = &layouts[number];
        // for the laws that they ensure
        numbering(&layout.extents());
        if !is_closed(layout, parts[number].rows.as_slice()) {
            let layout = narrow(number)?;
            return Ok(Some(SnapFault::NotClosed { layout }));
        }
    }
    Ok(None)
}

/// Stores that stand for parts whose points are closed; refused where a node has no room.
fn filled(alloc: Global, layouts: &[Layout], parts: &[Part]) -> Result<Stores, Stop<SnapFault>>
    requires few_words { total_words layouts.now ≤ most_words }
    requires are { AreParts (frames_of layouts.now) parts.now }
    requires closed { spec.first_open 0 layouts.now parts.now ≡ None }
    ensures { StandForAnswer layouts.now (filled layouts.now parts.now) result }
{
    // for the laws that they ensure
    closure_members();
    let mut list = Items::new(alloc);
    for number in 0..parts.len() {
        let layout = &layouts[number];
        numbering(&layout.extents());
        match store_of(alloc, number, layout, &parts[number]) {
            Ok(store) => list.push(store)?,
            Err(stop) => return Err(stop),
        }
    }
    Ok(Stores { list })
}
