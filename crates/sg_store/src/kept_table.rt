//! The table that a hash node keeps: those keys alone whose numbers are kept.

ghost use Rattle.std.specs.Prelude.{◌+◌, ◌<◌, length, IfOk};
ghost use Rattle.sg_store.specs.steps.KeptTables.{IsOldTable, IsKeptSoFar, IsKeptTable};

use crate::kept_rows::is_link_in_row;
use sg_hash::{PagedRow, put_in};
use sg_words::Memory;
use std::alloc::Global;

/// A table of keys, with the links beside them.
#[derive(Debug, Drop)]
pub(crate) struct KeptTable {
    pub(crate) keys: PagedRow,
    pub(crate) links: PagedRow,
}

/// A table of as many places, with those keys alone whose numbers a row keeps. In time by the keys.
pub(crate) fn kept_table(
    alloc: Global,
    keys: &PagedRow,
    links: &PagedRow,
    row: &[bool],
) -> Result<KeptTable, Memory>
    requires { IsOldTable keys.now links.now }
    ensures { IfOk result (λ table. IsKeptTable keys.now links.now row.now table.keys table.links) }
{
    let mut kept = PagedRow::zeros(alloc, keys.len())?;
    let mut beside = PagedRow::zeros(alloc, keys.len())?;
    let mut place = 0;
    while let Some(next) = keys.next(place) {
        put_kept(&mut kept, &mut beside, keys, links, next, row);
        place = next + 1;
    }
    Ok(KeptTable {
        keys: kept,
        links: beside,
    })
}

/// Puts the key at a place of a table into another, where a row keeps its number.
fn put_kept(
    kept: &mut PagedRow,
    beside: &mut PagedRow,
    keys: &PagedRow,
    links: &PagedRow,
    place: usize,
    row: &[bool],
)
    requires there { place < length keys.now }
    requires old { IsOldTable keys.now links.now }
    requires so_far { IsKeptSoFar keys.now links.now row.now kept.old beside.old place }
    ensures { IsKeptSoFar keys.now links.now row.now kept.new beside.new (place + 1) }
{
    let key = keys.get(place);
    let link = links.get(place);
    if key != 0 && is_link_in_row(link, row) {
        put_in(kept, beside, (key - 1) as u32, (link - 1) as u32);
    }
}
