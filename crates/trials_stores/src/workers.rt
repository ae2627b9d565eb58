//! Stores made, copied and listed by workers, as without them, and a field that is given the words of another.

ghost use Rattle.std.specs.Prelude.{◌<◌, length, IfOk};
ghost use Rattle.std.specs.List.{concat};
ghost use Rattle.sg_store.specs.WellFormed.{IsFieldRow};

use crate::fixtures::{Node, coords_of, on_line, put, reach, store_of};
use sg_elements::{active_count, active_count_by_workers, elements, elements_by_workers};
use sg_layout::Kind::{Dense, Pointer};
use sg_store::Store;
use sg_words::{Items, Memory};
use std::alloc::Global;
use std::test::Fail;
use std::thread::Threads;

static WORKERS: [u32; 3] = [1, 2, 16];

/// Few cells, which one worker makes, and so many that all workers make and list them.
static BLOCKS: [[Node; 2]; 2] = [
    [(Pointer, [4, 0, 0], 2), (Dense, [4, 0, 0], 0)],
    [(Pointer, [4, 0, 0], 2), (Dense, [8192, 0, 0], 0)],
];

/// Whether two stores have three fields each, with equal rows.
fn are_alike(alloc: Global, one: &Store, other: &Store) -> Result<bool, Fail> {
    if one.layout().shape().fields.len() != 3 || other.layout().shape().fields.len() != 3 {
        return Ok(false);
    }
    for place in 0..3 {
        let row = one.field_row(alloc, place)?;
        let same = other.field_row(alloc, place)?;
        if row.as_slice() != same.as_slice() {
            return Ok(false);
        }
    }
    Ok(one.cell_of(on_line(5)) == other.cell_of(on_line(5)))
}

fn copy_is_alike(alloc: Global, store: &Store) -> Result<bool, Fail> {
    let copy = store.copy(alloc)?;
    are_alike(alloc, store, &copy)
}

fn copies_are_alike<R: Threads + Sync>(
    rt: &R,
    alloc: Global,
    store: &Store,
    workers: u32,
) -> Result<bool, Fail> {
    let copy = store.copy_by_workers(rt, alloc, workers)?;
    are_alike(alloc, store, &copy)
}

/// Whether workers make a store of the same layout like this one.
fn made_is_alike<R: Threads + Sync>(
    rt: &R,
    alloc: Global,
    store: &Store,
    workers: u32,
) -> Result<bool, Fail> {
    if store.layout().words() > 1 << 22 {
        return Err(Fail::from("many words"));
    }
    let made = Store::make_by_workers(rt, alloc, store.layout(), workers)?;
    are_alike(alloc, &made, store)
}

fn lists_are_alike<R: Threads + Sync>(
    rt: &R,
    alloc: Global,
    store: &Store,
    workers: u32,
) -> Result<bool, Fail> {
    if workers == 0 {
        return Ok(false);
    }
    let list = elements(alloc, store)?;
    let by_workers = elements_by_workers(rt, alloc, store, workers)?;
    let count = active_count(alloc, store)?;
    let counted = active_count_by_workers(rt, alloc, store, workers)?;
    Ok(list.as_slice() == by_workers.as_slice() && list.len() == count && counted == count)
}

/// Whether one, two and sixteen workers make an opening store like this one.
fn makers_agree<R: Threads + Sync>(rt: &R, alloc: Global, store: &Store) -> Result<bool, Fail> {
    for workers in &WORKERS {
        if !made_is_alike(rt, alloc, store, *workers)? {
            return Ok(false);
        }
    }
    Ok(true)
}

/// Whether one, two and sixteen workers copy and list the store as is done without them.
fn workers_agree<R: Threads + Sync>(rt: &R, alloc: Global, store: &Store) -> Result<bool, Fail> {
    for workers in &WORKERS {
        if !copies_are_alike(rt, alloc, store, *workers)?
            || !lists_are_alike(rt, alloc, store, *workers)?
        {
            return Ok(false);
        }
    }
    copy_is_alike(alloc, store)
}

/// Activates the blocks at both ends, and makes each row another.
fn fill(alloc: Global, store: &mut Store) -> Result<(), Fail> {
    let last = (store.layout().extents().a as i32).wrapping_sub(1);
    let wanted = coords_of(alloc, 1, &[[5, 0, 0], [last, 0, 0]])?;
    reach(alloc, store, &wanted)?;
    put(store, 0, on_line(5), 7);
    put(store, 1, on_line(6), 8);
    put(store, 2, on_line(last), 1);
    Ok(())
}

/// Whether all is the same by workers, of an opening store and once it has values.
fn all_agree<R: Threads + Sync>(rt: &R, alloc: Global, store: &mut Store) -> Result<bool, Fail> {
    if !makers_agree(rt, alloc, store)? {
        return Ok(false);
    }
    fill(alloc, store)?;
    workers_agree(rt, alloc, store)
}

fn agree<R: Threads + Sync>(rt: &R, alloc: Global, nodes: &[Node]) -> Result<bool, Fail> {
    match store_of(alloc, 1, nodes) {
        Ok(mut store) => all_agree(rt, alloc, &mut store),
        Err(fail) => Err(fail),
    }
}

#[test]
fn workers_make_the_same(rt: HostRuntime) -> Result<(), Fail> {
    for nodes in &BLOCKS {
        let same = agree(&rt, rt.alloc(), nodes)?;
        assert!(rt; same);
    }
    Ok(())
}

/// The words of the first field, in one part.
fn first_row(alloc: Global, store: &Store) -> Result<Vec<Items<u32>>, Memory>
    requires { 0 < length store.now.shape.fields }
    ensures { IfOk result (λ parts. IsFieldRow store.now (concat parts.items)) }
{
    let row = store.field_row(alloc, 0)?;
    let words = Items::from_slice(alloc, row.as_slice())?;
    let mut parts = Vec::new(alloc);
    parts.push(words)?;
    Ok(parts)
}

/// Whether a field has the words of a field of another store.
fn is_same_row(
    alloc: Global,
    store: &Store,
    place: u32,
    other: &Store,
    from: u32,
) -> Result<bool, Fail> {
    if store.layout().shape().fields.len() <= place as usize
        || other.layout().shape().fields.len() <= from as usize
    {
        return Ok(false);
    }
    let row = store.field_row(alloc, place)?;
    let same = other.field_row(alloc, from)?;
    Ok(row.as_slice() == same.as_slice())
}

/// Gives the last of three fields the words of the first: whether it has them, and the others stay.
fn last_is_first(alloc: Global, store: &mut Store) -> Result<bool, Fail> {
    if store.layout().shape().fields.len() != 3 {
        return Ok(false);
    }
    let copy = store.copy(alloc)?;
    let parts = first_row(alloc, store)?;
    store.set_field_row(2, parts.as_slice());
    Ok(
        is_same_row(alloc, store, 0, &copy, 0)?
            && is_same_row(alloc, store, 1, &copy, 1)?
            && is_same_row(alloc, store, 2, &copy, 0)?,
    )
}

fn is_given(alloc: Global, store: &mut Store) -> Result<bool, Fail> {
    fill(alloc, store)?;
    last_is_first(alloc, store)
}

fn give(alloc: Global, nodes: &[Node]) -> Result<bool, Fail> {
    match store_of(alloc, 1, nodes) {
        Ok(mut store) => is_given(alloc, &mut store),
        Err(fail) => Err(fail),
    }
}

#[test]
fn a_row_is_given(rt: HostRuntime) -> Result<(), Fail> {
    for nodes in &BLOCKS {
        let given = give(rt.alloc(), nodes)?;
        assert!(rt; given);
    }
    Ok(())
}
