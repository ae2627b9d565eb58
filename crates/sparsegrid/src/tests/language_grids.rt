//! The examples of the language page for grid texts.

use super::setting::{Setting, beside};
use std::alloc::Global;
use std::process::Abort;
use std::test::Fail;
use std::thread::Threads;

/// Words, a program, the grids that it loads, the status, and what is written.
static LOADS: &[(&[&str], &str, &[(&str, &str)], u8, &str)] = &[
    (
        &["p.sg", "at=at", "mass=mass"],
        "layout Dust(p) { dense(p: 4); field at: i32; field mass: i32; } layout Line(i) { pointer(i: 16) cap 16; bitmasked(i: 16); field sum: i32; field most: i32; } kernel scatter { for p in Dust { sum[at[p]] += mass[p]; most[at[p]] max= mass[p]; } } load at; load mass; run scatter; dump sum; dump most;",
        &[
            ("at", "grid 1 4\n0 9\n1 33\n2 200\n3 33\n"),
            ("mass", "grid 1 4\n0 7\n1 2\n2 3\n3 3\n"),
        ],
        0,
        "grid 1 3\n9 7\n33 5\n200 3\ngrid 1 3\n9 7\n33 3\n200 3\n",
    ),
    (
        &["p.sg", "x=x"],
        "layout A(i) { dense(i: 16); field x: i32; } layout B(i) { dense(i: 4); field peak: i32; } kernel blocks { for i in 0..4 { let best = 0; for k in 0..4 { let here = x[4 * i + k]; if here > best { best = here; } } peak[i] = best; } } load x; run blocks; dump peak;",
        &[("x", "grid 1 4\n1 9\n2 3\n8 4\n11 -1\n")],
        0,
        "grid 1 4\n0 9\n1 0\n2 4\n3 0\n",
    ),
    (
        &["p.sg", "x=x"],
        "layout A(i, j) { dense(i: 8, j: 8); field x: i32; } layout B(i, j) { bitmasked(i: 8, j: 8); field y: i32; } kernel blur { for i, j in 1..7, 1..7 { y[i, j] = (x[i - 1, j] + x[i + 1, j] + x[i, j - 1] + x[i, j + 1]) / 4; } } load x; run blur; dump y;",
        &[("x", "grid 2 4\n0 2 -7\n3 3 8\n3 4 5\n6 6 4\n")],
        0,
        "grid 2 36\n1 1 0\n1 2 -1\n1 3 0\n1 4 0\n1 5 0\n1 6 0\n2 1 0\n2 2 0\n2 3 2\n2 4 1\n2 5 0\n2 6 0\n3 1 0\n3 2 2\n3 3 1\n3 4 2\n3 5 1\n3 6 0\n4 1 0\n4 2 0\n4 3 2\n4 4 1\n4 5 0\n4 6 0\n5 1 0\n5 2 0\n5 3 0\n5 4 0\n5 5 0\n5 6 1\n6 1 0\n6 2 0\n6 3 0\n6 4 0\n6 5 1\n6 6 0\n",
    ),
    (
        &["p.sg", "x=x"],
        "layout A(i, j) { bitmasked(i: 4, j: 4); field x: i32; } load x; dump x;",
        &[("x", "grid 2 3\n0 1 5\n1 0 7\n3 3 -9\n")],
        0,
        "grid 2 3\n0 1 5\n1 0 7\n3 3 -9\n",
    ),
    (
        &["p.sg", "x=x"],
        "layout A(i, j) { bitmasked(i: 4, j: 5); field x: i32; } load x; dump x;",
        &[("x", "grid2 2 2\n0 3 2 5\n1 0 3 -7\n")],
        0,
        "grid 2 5\n0 3 5\n0 4 5\n1 0 -7\n1 1 -7\n1 2 -7\n",
    ),
    (
        &["p.sg", "x=x"],
        "layout A(i, j) { bitmasked(i: 4, j: 5); field x: i32; } load x; dump x;",
        &[("x", "grid 2 5\n0 3 5\n0 4 5\n1 0 -7\n1 1 -7\n1 2 -7\n")],
        0,
        "grid 2 5\n0 3 5\n0 4 5\n1 0 -7\n1 1 -7\n1 2 -7\n",
    ),
];

#[test]
fn grids_of_the_page(rt: HostRuntime) -> Result<(), Fail> {
    for (words, source, others, status, text) in LOADS {
        let setting = Setting {
            words,
            others,
            ..Setting::of(source)
        };
        setting.ends(&rt, rt.alloc(), *status, text)?;
    }
    Ok(())
}

const FOUR: &str = "layout A(i) { dense(i: 4); field x: i32; } load x; dump x;";

/// Texts that are no grid text of a field over four points, each with the first line that is wrong.
static BAD_TEXTS: &[(&str, u32)] = &[
    ("grid 2 0\n", 1),
    ("grid 1\n", 1),
    ("Grid 1 0\n", 1),
    ("grid3 1 0\n", 1),
    ("", 1),
    ("grid 1 2\n0 5\n", 3),
    ("grid 1 1\n0 5\n1 5\n", 3),
    ("grid 1 1\n0 5\n\n", 3),
    ("grid 1 1\n0 5", 2),
    ("grid 1 1\n0  5\n", 2),
    ("grid 1 1\n0 05\n", 2),
    ("grid 1 1\n0 -0\n", 2),
    ("grid 1 1\n0 5 5\n", 2),
    ("grid 1 1\n0 2147483648\n", 2),
    ("grid2 1 1\n0 0 5\n", 2),
    ("grid2 1 1\n0 -1 5\n", 2),
    ("grid2 1 1\n0 5\n", 2),
    ("grid2 1 1\n0 2147483648 5\n", 2),
    ("grid 1 1\n4 5\n", 2),
    ("grid2 1 1\n2 3 5\n", 2),
    ("grid 1 2\n3 1\n2 1\n", 3),
    ("grid2 1 2\n0 3 5\n2 1 1\n", 3),
    ("grid 1 1\r\n0 5\r\n", 1),
    ("grid 1 1 \n0 5\n", 1),
];

/// The load of a text is refused for this line of it.
fn is_refused<R: Threads + Sync + Abort>(
    rt: &R,
    alloc: Global,
    grid: &str,
    line: u32,
) -> Result<(), Fail> {
    let others = beside(alloc, "g", grid)?;
    let last = format!(in alloc; "refused: grid: x line {line}\n")?;
    let setting = Setting {
        words: &["p.sg", "x=g"],
        others: others.as_slice(),
        ..Setting::of(FOUR)
    };
    setting.ends(rt, alloc, 6, last.as_str())
}

#[test]
fn bad_texts_of_the_page(rt: HostRuntime) -> Result<(), Fail> {
    for (grid, line) in BAD_TEXTS {
        is_refused(&rt, rt.alloc(), grid, *line)?;
    }
    Ok(())
}
