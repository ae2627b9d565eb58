//! The longest files that may be loaded, the most rows, and the largest image.

use super::setting::{EveryWorker, named, owned, repeated, run_over};
use sg_outside::{MemFiles, MemSink};
use std::alloc::{AllocError, Global};
use std::process::Abort;
use std::test::Fail;
use std::thread::Threads;

static BLOCKS: &str = "layout B(i) { pointer(i: 4) cap 2; dense(i: 4); field x: i32; } load x;";

/// What stands after 2^24 blanks in the loaded file, the status, and what is written.
static LONG: &[(&str, u8, &str)] = &[
    ("", 6, "refused: grid: x line 1\n"),
    (" ", 8, "refused: limit: grid bytes x\n"),
];

/// The files of a program that loads a grid.
fn files(alloc: Global, source: &str, grid: &str) -> Result<MemFiles, AllocError> {
    let mut list = Vec::new(alloc);
    list.push(named(alloc, "p.sg", source)?)?;
    list.push(named(alloc, "g", grid)?)?;
    Ok(MemFiles::new(list, Vec::new(alloc)))
}

fn loaded<R: Threads + Sync + Abort>(
    rt: &R,
    alloc: Global,
    source: &str,
    grid: &str,
    status: u8,
    text: &str,
) -> Result<(), Fail> {
    let words = owned(alloc, &["p.sg", "x=g"])?;
    let mut files = files(alloc, source, grid)?;
    let mut out = MemSink::new(alloc, Vec::new(alloc), 0);
    let seen = run_over(
        rt,
        alloc,
        words.as_slice(),
        &mut files,
        &mut out,
        &EveryWorker,
    );
    assert_eq!(rt; seen.status, status);
    assert_eq!(rt; out.bytes(), text.as_bytes());
    Ok(())
}

#[test]
fn longest_grids(rt: HostRuntime) -> Result<(), Fail> {
    let alloc = rt.alloc();
    for (more, status, text) in LONG {
        let mut grid = repeated(alloc, "                ", 1 << 20)?;
        grid.push_str(more)?;
        loaded(&rt, alloc, BLOCKS, grid.as_str(), *status, text)?;
    }
    Ok(())
}

static TALL: &str = "layout A(i, j) { dense(i: 1025, j: 1024); field x: i32; } load x;";

/// Runs of 1,024 rows, so many of them.
fn runs(alloc: Global, count: u32) -> Result<String, AllocError> {
    let mut text = format!(in alloc; "grid2 2 {count}\n")?;
    for i in 0..count {
        text.push_str(format!(in alloc; "{i} 0 1024 1\n")?.as_str())?;
    }
    Ok(text)
}

#[test]
fn most_rows_of_runs(rt: HostRuntime) -> Result<(), Fail> {
    let alloc = rt.alloc();
    loaded(&rt, alloc, TALL, runs(alloc, 1024)?.as_str(), 0, "")?;
    let last = "refused: limit: grid rows x\n";
    loaded(&rt, alloc, TALL, runs(alloc, 1025)?.as_str(), 8, last)
}

static SQUARE: &str =
    "layout A(i, j) { dense(i: 1024, j: 1024); field x: i32; } load x; dump x; image x 0 1;";

/// As many rows as a grid may have, each with the value 1.
fn most_rows(alloc: Global) -> Result<String, AllocError> {
    let mut text = String::from_str(alloc, "grid 2 1048576\n")?;
    for row in 0..1048576_u32 {
        let (i, j) = (row / 1024, row % 1024);
        text.push_str(format!(in alloc; "{i} {j} 1\n")?.as_str())?;
    }
    Ok(text)
}

/// A white image of as many points.
fn white(alloc: Global) -> Result<String, AllocError> {
    let lines = repeated(alloc, "255 255 255 255 255 255 255 255 255 255 255\n", 93)?;
    let row = format!(in alloc; "{lines}255\n")?;
    let rows = repeated(alloc, row.as_str(), 1024)?;
    format!(in alloc; "P2\n1024 1024\n255\n{rows}")
}

#[test]
fn most_rows_and_points(rt: HostRuntime) -> Result<(), Fail> {
    let alloc = rt.alloc();
    let grid = most_rows(alloc)?;
    let image = white(alloc)?;
    let text = format!(in alloc; "{grid}{image}")?;
    loaded(&rt, alloc, SQUARE, grid.as_str(), 0, text.as_str())
}
