//! Loads of files, and reads that fail.

use super::setting::Setting;
use std::alloc::Global;
use std::process::Abort;
use std::test::Fail;
use std::thread::Threads;

static BLOCKS: &str = "layout B(i) { pointer(i: 4) cap 2; dense(i: 4); field x: i32; } load x;";

/// The loaded file, the status, and what is written.
static GRIDS: &[(&[(&str, &str)], u8, &str)] = &[
    (&[("g", "grid 1 0\n")], 0, ""),
    (&[("g", "grid 1 1\n0 5\n")], 0, ""),
    (
        &[("g", "grid 1 2\n3 1\n2 1\n")],
        6,
        "refused: grid: x line 3\n",
    ),
    (&[("g", "grid 1 1\n0 -0\n")], 6, "refused: grid: x line 2\n"),
    (&[("g", "grid 1 2\n0 5\n")], 6, "refused: grid: x line 3\n"),
    (&[("g", "grid 1 1\n0 5")], 6, "refused: grid: x line 2\n"),
    (&[("g", "grid 1 1\n16 5\n")], 6, "refused: grid: x line 2\n"),
    (&[("g", "grid 2 0\n")], 6, "refused: grid: x line 1\n"),
    (&[("g", "")], 6, "refused: grid: x line 1\n"),
    (&[("g", "grid 1 1")], 6, "refused: grid: x line 1\n"),
    (
        &[("g", "grid 1 1048577\n")],
        8,
        "refused: limit: grid rows x\n",
    ),
    (
        &[("g", "grid 1 3\n0 1\n4 1\n8 1\n")],
        7,
        "refused: pool full: B node 1 cap 2\n",
    ),
    (&[("g", "grid2 1 0\n")], 0, ""),
    (
        &[("g", "grid2 1 1\n14 3 1\n")],
        6,
        "refused: grid: x line 2\n",
    ),
    (
        &[("g", "grid2 1 1\n0 0 1\n")],
        6,
        "refused: grid: x line 2\n",
    ),
    (
        &[("g", "grid2 1 2\n0 3 5\n2 1 1\n")],
        6,
        "refused: grid: x line 3\n",
    ),
    (&[("g", "grid2 1 1\n0 8 5\n")], 0, ""),
    (
        &[("g", "grid2 1 1\n0 9 5\n")],
        7,
        "refused: pool full: B node 1 cap 2\n",
    ),
];

#[test]
fn grids(rt: HostRuntime) -> Result<(), Fail> {
    for (others, status, last) in GRIDS {
        let setting = Setting {
            words: &["p.sg", "x=g"],
            others,
            ..Setting::of(BLOCKS)
        };
        setting.ends(&rt, rt.alloc(), *status, last)?;
    }
    Ok(())
}

static OTHERS: &[(&str, &str)] = &[
    ("a", "grid 1 2\n0 1\n2 5\n"),
    ("b", "grid 1 1\n1 -7\n"),
    ("c=d", "grid 1 1\n3 9\n"),
    ("px.grid", "grid 1 4\n0 5\n1 300\n2 5\n3 17\n"),
    ("py.grid", "grid 1 4\n0 8\n1 40\n2 8\n3 17\n"),
    ("m.grid", "grid 1 4\n0 2\n1 3\n2 5\n3 7\n"),
    ("runs", "grid2 1 2\n0 3 5\n8 1 -2\n"),
    ("rows", "grid2 2 3\n0 30 2 1\n0 33 1 2\n1 0 32 3\n"),
    ("across", "grid2 2 2\n0 2 5 7\n1 4 1 -1\n"),
];

const FOUR_BLOCKS: &str =
    "layout A(i) { pointer(i: 4) cap 4; dense(i: 4); field x: i32; } load x; dump x;";

const THREE_IN_A_ROW: &str =
    "layout A(i, j) { pointer(i: 2, j: 3) cap 4; dense(j: 3); field x: i32; } load x; dump x;";

const STRIPES: &str =
    "layout A(i, j) { pointer(i: 2, j: 2) cap 4; bitmasked(j: 32); field x: i32; } load x; stats A;";

const TWO: &str =
    "layout A(i) { dense(i: 4); field x: i32; } layout C(i) { bitmasked(i: 4); field y: i32; field z: i32; } \
     kernel k { for i in C { x[i] += y[i]; } } load x; load y; run k; dump x; load y; dump y;";

const SCATTER: &str = "layout P(p) { dense(p: 4); field px: i32; field py: i32; field m: i32; } \
     layout G(i, j) { hash(i: 4, j: 4) cap 16; pointer(i: 2, j: 2) cap 64; bitmasked(i: 8, j: 8); field g: i32; } \
     kernel scatter { for p in P { g[px[p] >> 4, py[p] >> 4] += m[p]; } } load px; load py; load m; run scatter; dump g;";

const SCATTER_WORDS: &[&str] = &["p.sg", "px=px.grid", "py=py.grid", "m=m.grid"];

/// A source, the words, the reads that fail, the status, and what is written.
static READS: &[(&str, &[&str], &[u64], u8, &str)] = &[
    (
        TWO,
        &["p.sg", "x=a", "y=b"],
        &[],
        0,
        "grid 1 4\n0 1\n1 -7\n2 5\n3 0\ngrid 1 1\n1 -7\n",
    ),
    (
        FOUR_BLOCKS,
        &["p.sg", "x=runs"],
        &[],
        0,
        "grid 1 8\n0 5\n1 5\n2 5\n3 0\n8 -2\n9 0\n10 0\n11 0\n",
    ),
    (
        THREE_IN_A_ROW,
        &["p.sg", "x=across"],
        &[],
        0,
        "grid 2 12\n0 0 0\n0 1 0\n0 2 7\n0 3 7\n0 4 7\n0 5 7\n0 6 7\n0 7 0\n0 8 0\n1 3 0\n1 4 -1\n1 5 0\n",
    ),
    (
        STRIPES,
        &["p.sg", "x=rows"],
        &[],
        0,
        "stats A active 35 node 1 live 3\n",
    ),
    (
        TWO,
        &["--workers=1", "p.sg", "y=c=d", "x=b", "z=nowhere"],
        &[5],
        0,
        "grid 1 4\n0 0\n1 -7\n2 0\n3 9\ngrid 1 1\n3 9\n",
    ),
    (
        TWO,
        &["p.sg", "x=a", "y=b"],
        &[1],
        2,
        "refused: read p.sg\n",
    ),
    (TWO, &["p.sg", "x=a", "y=b"], &[2], 2, "refused: read a\n"),
    (TWO, &["p.sg", "x=a", "y=b"], &[3], 2, "refused: read b\n"),
    (
        TWO,
        &["p.sg", "x=a", "y=b"],
        &[4],
        2,
        "grid 1 4\n0 1\n1 -7\n2 5\n3 0\nrefused: read b\n",
    ),
    (
        TWO,
        &["p.sg", "x=a", "y=nowhere"],
        &[],
        2,
        "refused: read nowhere\n",
    ),
    (TWO, &["p.sg", "x=a"], &[], 1, "refused: no file for y\n"),
    (TWO, &["p.sg", "y=a"], &[], 1, "refused: no file for x\n"),
    (TWO, &["p.sg", "z=a"], &[], 1, "refused: no file for x\n"),
    (
        SCATTER,
        SCATTER_WORDS,
        &[],
        0,
        "grid 2 3\n0 0 7\n1 1 7\n18 2 3\n",
    ),
    (SCATTER, SCATTER_WORDS, &[1], 2, "refused: read p.sg\n"),
    (SCATTER, SCATTER_WORDS, &[2], 2, "refused: read px.grid\n"),
    (SCATTER, SCATTER_WORDS, &[3], 2, "refused: read py.grid\n"),
    (SCATTER, SCATTER_WORDS, &[4], 2, "refused: read m.grid\n"),
];

fn reads_end<R: Threads + Sync + Abort>(rt: &R, alloc: Global) -> Result<(), Fail> {
    for (source, words, failing_reads, status, text) in READS {
        let setting = Setting {
            words,
            others: OTHERS,
            failing_reads,
            ..Setting::of(source)
        };
        setting.ends(rt, alloc, *status, text)?;
    }
    Ok(())
}

#[test]
fn reads(rt: HostRuntime) -> Result<(), Fail> {
    reads_end(&rt, rt.alloc())
}

/// A load without a file is refused before any command runs, also inside `times`, and only in mode run.
static UNBOUND: &[(&str, &[&str], u8, &str)] = &[
    (
        "layout A(i) { dense(i: 1); field x: i32; field y: i32; } dump x; times 2 { dump y; load y; } load x;",
        &["p.sg"],
        1,
        "refused: no file for y\n",
    ),
    (
        "layout A(i) { dense(i: 1); field x: i32; } kernel k { for p in 0..1 { x[0] += 1; } } load x; run k; dump x;",
        &["p.sg"],
        1,
        "refused: no file for x\n",
    ),
    (
        "layout A(i) { dense(i: 1); field x: i32; } dump x; load x;",
        &["p.sg", "--mode", "check"],
        0,
        "",
    ),
];

#[test]
fn loads_without_a_file(rt: HostRuntime) -> Result<(), Fail> {
    for (source, words, status, text) in UNBOUND {
        let setting = Setting {
            words,
            ..Setting::of(source)
        };
        setting.ends(&rt, rt.alloc(), *status, text)?;
    }
    Ok(())
}
