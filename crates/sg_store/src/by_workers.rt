//! Stores copied by several workers, which copy the rows of the fields side by side.

ghost use Rattle.std.specs.Prelude.{◌≡◌, ◌-◌, ◌<◌, ◌≤◌, [], length, replicate, slice_index_or, IfOk};
ghost use Rattle.std.specs.Thread.{IsSync};
ghost use Rattle.sg_layout.specs.StorageWords.{words_of_shape, most_words};
ghost use Rattle.sg_flat.specs.State.{opening_layout};
ghost use Rattle.sg_store.specs.WellFormed.{IsWellFormed};
ghost use Rattle.sg_store.specs.StandsFor.{StandsFor};
ghost use Rattle.sg_store.specs.steps.RowsMade.{rows_from};

use crate::field_row::FieldRow;
use crate::store::{Store, copied_nodes};
use sg_layout::Layout;
use sg_words::Memory;
use std::alloc::Global;
use std::thread::{Threads, join};

/// A row in which fewer words than these stand is copied sooner than a thread is made for it.
const FEW_WORDS: usize = 16_384;

impl Store {
    /// As `make`, for a caller that has so many workers: a row of zeros takes no time, so that one makes them.
    pub fn make_by_workers<R: Threads + Sync>(
        rt: &R,
        alloc: Global,
        layout: &Layout,
        workers: u32,
    ) -> Result<Store, Memory>
        requires few_words { words_of_shape layout.now ≤ most_words }
        ensures shape { IfOk result (λ store. store.shape ≡ layout.now) }
        ensures opening { IfOk result (λ store. StandsFor store (opening_layout layout.now)) }
        ensures well_formed { IfOk result IsWellFormed }
    {
        // rows of zeros take no time
        Store::make(alloc, layout)
    }

    /// A copy of the store, by so many workers, for which it waits: the rows of the fields are copied side by side.
    pub fn copy_by_workers<R: Threads + Sync>(
        &self,
        rt: &R,
        alloc: Global,
        workers: u32,
    ) -> Result<Store, Memory>
        ensures { IfOk result (λ copy. copy ≡ self.now) }
    {
        let nodes = copied_nodes(alloc, self.nodes.as_slice())?;
        let rows = self.fields.as_slice();
        let cells = cells_of(rows);
        let threads = workers_for(most_standing(rows), workers);
        let fields = rows_among(rt, alloc, rows, cells, 0, rows.len(), threads, false)?;
        Ok(Store {
            layout: self.layout.copy(alloc)?,
            nodes,
            fields,
        })
    }
}

/// How many cells the first of these rows has; all rows of a store have as many.
fn cells_of(rows: &[FieldRow]) -> usize
    ensures { result ≡ length (slice_index_or rows.now 0 []) }
{
    match rows.get(0) {
        Some(row) => row.len(),
        None => 0,
    }
}

/// How many words stand in the longest of these rows.
fn most_standing(rows: &[FieldRow]) -> usize {
    let mut most = 0;
    for row in rows {
        most = most.max(row.standing().len());
    }
    most
}

/// How many workers copy rows in which so many words stand: one where they are few.
fn workers_for(words: usize, workers: u32) -> u32
    ensures few { words < 16384 → result ≡ 1 }
    ensures many { 16384 ≤ words → result ≡ workers }
{
    if words < FEW_WORDS { 1 } else { workers }
}

/// The rows at the places from one up to below another, by fork and join over halves of them: a copy of each of these rows, and past
/// them rows of zeros with a word for each of so many cells. A thread that has forked `waits`: it makes no row itself.
fn rows_among<R: Threads + Sync>(
    rt: &R,
    alloc: Global,
    rows: &[FieldRow],
    cells: usize,
    from: usize,
    to: usize,
    workers: u32,
    waits: bool,
) -> Result<Vec<FieldRow>, Memory>
    requires order { from ≤ to }
    ensures { IfOk result (λ made. made.items ≡ rows_from rows.now cells from (to - from)) }
{
    if workers < 2 || to - from < 2 {
        if waits {
            return rows_apart(rt, alloc, rows, cells, from, to);
        }
        return rows_in_order(alloc, rows, cells, from, to);
    }
    let half = workers / 2;
    let middle = from + (to - from) / 2;
    let (left, right) = join(
        rt,
        move || -> Result<Vec<FieldRow>, Memory>
            requires { IsSync R.row × (half ≤ workers) × (from ≤ middle) }
            ensures { IfOk result (λ made. made.items ≡ rows_from rows.entry.now cells from (middle - from)) }
        { rows_among(rt, alloc, rows, cells, from, middle, workers - half, false) },
        move || -> Result<Vec<FieldRow>, Memory>
            requires { IsSync R.row × (middle ≤ to) }
            ensures { IfOk result (λ made. made.items ≡ rows_from rows.entry.now cells middle (to - middle)) }
        { rows_among(rt, alloc, rows, cells, middle, to, half, true) },
    );
    let (mut made, mut others) = (left?, right?);
    made.append(&mut others)?;
    Ok(made)
}

/// The same by one worker, in a thread of its own.
fn rows_apart<R: Threads + Sync>(
    rt: &R,
    alloc: Global,
    rows: &[FieldRow],
    cells: usize,
    from: usize,
    to: usize,
) -> Result<Vec<FieldRow>, Memory>
    requires order { from ≤ to }
    ensures { IfOk result (λ made. made.items ≡ rows_from rows.now cells from (to - from)) }
{
    let (made, ()) = join(
        rt,
        move || -> Result<Vec<FieldRow>, Memory>
            requires { from ≤ to }
            ensures { IfOk result (λ made. made.items ≡ rows_from rows.entry.now cells from (to - from)) }
        { rows_in_order(alloc, rows, cells, from, to) },
        || (),
    );
    made
}

/// The same by one worker.
fn rows_in_order(
    alloc: Global,
    rows: &[FieldRow],
    cells: usize,
    from: usize,
    to: usize,
) -> Result<Vec<FieldRow>, Memory>
    requires order { from ≤ to }
    ensures { IfOk result (λ made. made.items ≡ rows_from rows.now cells from (to - from)) }
{
    let mut made = Vec::new(alloc);
    for place in from..to {
        made.push(row_at(alloc, rows, cells, place)?)?;
    }
    Ok(made)
}

/// One of these rows.
fn row_at(alloc: Global, rows: &[FieldRow], cells: usize, place: usize) -> Result<FieldRow, Memory>
    ensures { IfOk result (λ row. row ≡ slice_index_or rows.now place (replicate cells 0)) }
{
    match rows.get(place) {
        Some(row) => Ok(row.copy(alloc)?),
        None => Ok(FieldRow::zeros(alloc, cells)?),
    }
}
