//! Dumps, images, counts and grid texts.

ghost use Rattle.std.specs.Prelude.{IsTrue};
ghost use Rattle.sg_coord.specs.Bounds.{bounds_of};
ghost use Rattle.sg_grid.specs.Reading.{is_run_inside};

use crate::fixtures::{Node, at, coords_of, put, reach, store_of};
use sg_coord::Extents;
use sg_grid::runs::is_run_inside;
use sg_grid::writing::push_row;
use sg_grid::{GridRow, GridRun, dump, grid_text, push_coordinate, read_grid, row_of_run};
use sg_image::{image, stats, stats_by_workers};
use sg_layout::Kind::{Dense, Pointer};
use sg_store::Store;
use sg_words::{Memory, Stop, Text, Ty};
use std::alloc::{AllocError, Global};
use std::test::Fail;
use std::thread::Threads;

/// Two rows of sixteen, each a block.
static LINES: [Node; 2] = [(Pointer, [2, 1, 0], 2), (Dense, [1, 16, 0], 0)];

/// What the texts of the field are.
static TEXTS: &str =
    "grid 2 16\n1 0 1\n1 1 0\n1 2 0\n1 3 0\n1 4 0\n1 5 0\n1 6 0\n1 7 0\n1 8 0\n1 9 0\n1 10 -3\n1 11 2\n1 12 0\n1 13 0\n1 14 0\n1 15 -1\n\
    P2\n16 2\n255\n127 127 127 127 127 127 127 127 127 127 127\n127 127 127 127 127\n191 127 127 127 127 127 127 127 127 127 0\n255 127 127 127 63\n\
    stats A active 16 node 1 live 1\nstats A active 16 node 1 live 1\n";

/// Activates the second row, and gives the field values there.
fn fill(alloc: Global, store: &mut Store) -> Result<(), Fail> {
    let wanted = coords_of(alloc, 2, &[[1, 0, 0]])?;
    reach(alloc, store, &wanted)?;
    put(store, 0, at(2, [1, 0, 0]), 1);
    put(store, 0, at(2, [1, 10, 0]), 4_294_967_293);
    put(store, 0, at(2, [1, 11, 0]), 2);
    put(store, 0, at(2, [1, 15, 0]), 4_294_967_295);
    Ok(())
}

fn dumped(alloc: Global, store: &Store) -> Result<Text, Fail> {
    if store.layout().shape().fields.len() == 0 {
        return Err(Fail::from("no field"));
    }
    Ok(dump(alloc, store, 0)?)
}

/// The image of the field from -2 to 2.
fn drawn(alloc: Global, store: &Store) -> Result<Text, Fail> {
    let layout = store.layout();
    if layout.shape().fields.len() == 0 || layout.shape().axes != 2 {
        return Err(Fail::from("no plane"));
    }
    if layout.extents().volume() > 1 << 20 {
        return Err(Fail::from("many points"));
    }
    Ok(image(alloc, store, 0, -2, 2)?)
}

fn texts<R: Threads + Sync>(rt: &R, alloc: Global, store: &mut Store) -> Result<Vec<u8>, Fail> {
    fill(alloc, store)?;
    let mut bytes = Vec::new(alloc);
    bytes.extend_from_slice(dumped(alloc, store)?.bytes.as_slice())?;
    bytes.extend_from_slice(drawn(alloc, store)?.bytes.as_slice())?;
    bytes.extend_from_slice(stats(alloc, store, b"A")?.bytes.as_slice())?;
    bytes.extend_from_slice(
        stats_by_workers(rt, alloc, store, b"A", 2)?
            .bytes
            .as_slice(),
    )?;
    Ok(bytes)
}

fn texts_of_lines<R: Threads + Sync>(rt: &R, alloc: Global) -> Result<Vec<u8>, Fail> {
    match store_of(alloc, 2, &LINES) {
        Ok(mut store) => texts(rt, alloc, &mut store),
        Err(fail) => Err(fail),
    }
}

#[test]
fn fields_are_dumped_and_drawn(rt: HostRuntime) -> Result<(), Fail> {
    let bytes = texts_of_lines(&rt, rt.alloc())?;
    assert_eq!(rt; bytes.as_slice(), TEXTS.as_bytes());
    Ok(())
}

/// 4 by 8 points.
fn plane() -> Extents {
    let (n, a, b, c) = (2, 4, 8, 1);
    Extents { n, a, b, c }
}

/// The text of the rows that a text has, once at a time and once row by row, or the fault.
fn again(alloc: Global, bytes: &[u8]) -> Result<String, Fail> {
    match read_grid(alloc, bytes, &plane(), Ty::I32) {
        Ok(grid) => {
            let rows = rows_of(alloc, grid.runs.as_slice())?;
            let mut text = grid_text(alloc, 2, Ty::I32, &rows)?;
            push_rows(&mut text, &rows)?;
            Ok(text)
        }
        Err(Stop::Refused(fault)) => Ok(format!(in alloc; "{fault:?}")?),
        Err(Stop::Memory) => Err(Fail::from(Memory)),
    }
}

/// The rows of runs that are inside.
fn rows_of(alloc: Global, runs: &[GridRun]) -> Result<Vec<GridRow>, AllocError> {
    let extents = plane();
    let mut rows = Vec::new(alloc);
    for run in runs {
        if is_run_inside(&extents, *run) {
            push_run(&mut rows, &extents, *run)?;
        }
    }
    Ok(rows)
}

fn push_run(rows: &mut Vec<GridRow>, extents: &Extents, run: GridRun) -> Result<(), AllocError>
    requires { IsTrue (is_run_inside (bounds_of extents.now) run) }
{
    for k in 0..run.len {
        rows.push(row_of_run(extents, run, k))?;
    }
    Ok(())
}

fn push_rows(text: &mut String, rows: &[GridRow]) -> Result<(), AllocError> {
    for row in rows {
        push_row(text, Ty::U32, *row)?;
        push_coordinate(text, row.at)?;
    }
    Ok(())
}

#[test]
fn grid_texts_are_read_and_written(rt: HostRuntime) -> Result<(), Fail> {
    let text = again(rt.alloc(), b"grid 2 2\n1 7 -2\n3 0 5\n")?;
    assert_eq!(rt;
        text.as_str(),
        "grid 2 2\n1 7 -2\n3 0 5\n1 7 4294967294\n1 73 0 5\n3 0"
    );
    let text = again(rt.alloc(), b"grid2 2 2\n1 6 2 -2\n3 0 1 5\n")?;
    assert_eq!(rt;
        text.as_str(),
        "grid 2 3\n1 6 -2\n1 7 -2\n3 0 5\n1 6 4294967294\n1 61 7 4294967294\n1 73 0 5\n3 0"
    );
    Ok(())
}

/// A line of runs is tested for its form, then for where its rows are, then for its order.
#[test]
fn lines_of_runs_are_tested_in_order(rt: HostRuntime) -> Result<(), Fail> {
    for (text, want) in [
        ("grid2 2 1\n1 6 3 5\n", "Outside { line: 2 }"),
        ("grid2 2 1\n1 6 3 x\n", "BadText { line: 2 }"),
        ("grid2 2 1\n1 6 0 5\n", "BadText { line: 2 }"),
        ("grid2 2 1\n1 6 2147483647 5\n", "Outside { line: 2 }"),
        (
            "grid2 2 1\n2147483647 2147483647 2147483647 5\n",
            "Outside { line: 2 }",
        ),
        ("grid2 2 1\n1 6 2147483648 5\n", "BadText { line: 2 }"),
        ("grid2 2 2\n1 2 3 5\n1 4 1 5\n", "NotRising { line: 3 }"),
        ("grid2 2 2\n1 2 3 5\n1 4 9 5\n", "Outside { line: 3 }"),
        ("grid2 2 1\n1 6 1 5\n7", "BadText { line: 3 }"),
        ("grid2 2 1048577\n", "TooManyRows"),
        ("grid 2 1\n1 6 1 5\n", "BadText { line: 2 }"),
        ("grid2 2 1\n1 6 5\n", "BadText { line: 2 }"),
    ] {
        let answer = again(rt.alloc(), text.as_bytes())?;
        assert_eq!(rt; answer.as_str(), want);
    }
    Ok(())
}

/// As many bytes as are looked at, and one more.
#[test]
fn bytes_are_counted_first(rt: HostRuntime) -> Result<(), Fail> {
    for (bytes, want) in [
        (16_777_216, "BadText { line: 1 }"),
        (16_777_217, "TooManyBytes"),
    ] {
        let text = vec![in rt.alloc(); b'7'; bytes]?;
        let answer = again(rt.alloc(), &text)?;
        assert_eq!(rt; answer.as_str(), want);
    }
    Ok(())
}
