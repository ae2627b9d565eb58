//! Loads of rows into stores.

use sg_coord::Coord;
use sg_exec::load_rows;
use sg_flat::{RunFault, Way, Write};
use sg_grid::dump;
use sg_session::{Compiled, compile};
use sg_store::{Store, Stores};
use sg_words::{Items, Memory, Stop};
use std::alloc::{AllocError, Global};
use std::test::Fail;
use std::thread::Threads;

static FILE: &str = "layout A(i) { pointer(i: 4) cap 2; dense(i: 4); field x: i32; }";

fn at(a: i32) -> Coord {
    Coord {
        n: 1,
        a,
        b: 0,
        c: 0,
    }
}

fn row(a: i32, value: u32) -> Write {
    Write {
        layout: 0,
        place: 0,
        stmt: 0,
        at: at(a),
        way: Way::Own,
        value,
    }
}

/// 5,000 rows that go to and fro between two places.
fn to_and_fro(alloc: Global) -> Result<Vec<Write>, AllocError> {
    let mut rows = Vec::new(alloc);
    for number in 0..2500_u32 {
        rows.push(row(10, number))?;
        rows.push(row(3, number))?;
    }
    Ok(rows)
}

/// The stores of a program's layouts.
fn stores_of(alloc: Global, compiled: &Compiled) -> Result<Stores, Memory> {
    let mut list = Items::new(alloc);
    for layout in compiled.layouts.list.as_slice() {
        if layout.words() > 1 << 22 {
            return Err(Memory);
        }
        list.push(Store::make(alloc, layout)?)?;
    }
    Ok(Stores { list })
}

/// Whether a load ends with this fault, or with none, and after it the first field of the first store has this grid text.
fn loads<R: Threads + Sync>(
    rt: &R,
    alloc: Global,
    compiled: &Compiled,
    stores: &mut Stores,
    rows: &[Write],
    fault: Option<RunFault>,
    grid: &str,
) -> Result<bool, Memory> {
    let found = match load_rows(rt, alloc, stores, &compiled.layouts, rows) {
        Ok(()) => None,
        Err(Stop::Refused(fault)) => Some(fault),
        Err(Stop::Memory) => {
            return Err(Memory);
        }
    };
    match stores.list.get(0) {
        Some(store) => Ok(found == fault && holds(alloc, store, grid)?),
        None => Ok(false),
    }
}

fn holds(alloc: Global, store: &Store, grid: &str) -> Result<bool, Memory> {
    if store.layout().shape().fields.is_empty() {
        return Ok(false);
    }
    let found = dump(alloc, store, 0)?;
    Ok(found.bytes.as_slice() == grid.as_bytes())
}

static GRID: &str = "grid 1 8\n0 0\n1 0\n2 0\n3 2499\n8 0\n9 0\n10 2499\n11 0\n";

/// Rows in any order; two blocks are all that there is room for; and a row outside comes before a full pool.
fn all_load<R: Threads + Sync>(rt: &R, alloc: Global, compiled: &Compiled) -> Result<bool, Memory> {
    let mut stores = stores_of(alloc, compiled)?;
    let rows = to_and_fro(alloc)?;
    let full = RunFault::PoolFull {
        layout: 0,
        node: 1,
        cap: 2,
    };
    let outside = RunFault::WriteOutside {
        stmt: 0,
        at: at(16),
    };
    Ok(
        loads(rt, alloc, compiled, &mut stores, &rows, None, GRID)?
            && loads(
                rt,
                alloc,
                compiled,
                &mut stores,
                &[row(3, 6), row(5, 1)],
                Some(full),
                GRID,
            )?
            && loads(
                rt,
                alloc,
                compiled,
                &mut stores,
                &[row(5, 1), row(16, 1)],
                Some(outside),
                GRID,
            )?,
    )
}

fn file_loads<R: Threads + Sync>(rt: &R, alloc: Global) -> Result<bool, Memory> {
    match compile(alloc, FILE.as_bytes()) {
        Ok(compiled) => all_load(rt, alloc, &compiled),
        Err(Stop::Refused(_refusal)) => Ok(false),
        Err(Stop::Memory) => Err(Memory),
    }
}

#[test]
fn rows_activate_their_blocks(rt: HostRuntime) -> Result<(), Fail> {
    let alloc = rt.alloc();
    assert!(rt; file_loads(&rt, alloc)?);
    Ok(())
}
