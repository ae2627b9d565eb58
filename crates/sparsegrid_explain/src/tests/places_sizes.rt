//! Sizes, axes, boxes and commands that are refused, and full pools: each with its last line, and the line, the column and the length of what
//! is shown.

use super::shown;
use std::test::Fail;

/// Sizes, axes, boxes and commands that are refused, and full pools.
static SIZES: &[(&str, &str, u32, u32, u32)] = &[
    (
        "layout A(i) { dense(i: 4); field x: i32; } layout B(i) { dense(i: 0); field y: i32; } layout C(i) { pointer(i: 4) cap 0; field z: i32; } kernel k { for i in A { x[i] = true; } }",
        "refused: layout: B node 1 rule 1",
        1,
        58,
        11,
    ),
    (
        "layout A(i) { dense(i: 32768); dense(i: 2); field x: i32; }",
        "refused: limit: layout A",
        1,
        1,
        8,
    ),
    (
        "layout A(i, j) { dense(i: 32768, j: 32768); field x: i32; }",
        "refused: limit: words",
        1,
        1,
        8,
    ),
    (
        "layout A(i, j) { dense(i: 32768, j: 256); field x: i32; }",
        "refused: limit: words",
        1,
        1,
        8,
    ),
    (
        "layout A(i) { pointer(i: 1) cap 65537; field x: i32; }",
        "refused: layout: A node 1 rule 5",
        1,
        15,
        23,
    ),
    (
        "layout B(i) { pointer(i: 4) cap 2; dense(i: 4); field x: i32; } layout C(i) { dense(i: 32); field y: i32; } kernel k { for i in B { if x[i] > 0 { y[i + 1] += 1; x[i] = 0; } } }",
        "refused: admission: kernel k statement 2 rule 4",
        1,
        147,
        13,
    ),
    (
        "layout A(i) { dense(i: 1); field x: i32; } kernel k { for i in 0..1048577 { x[i] = 1; } }",
        "refused: limit: box k",
        1,
        55,
        19,
    ),
    (
        "kernel k { for i, j, l in -1..16, 0..61681, 0..1 { let t = i; } }",
        "refused: limit: box k",
        1,
        12,
        37,
    ),
    (
        "kernel k { for i in 0..1 { let a = i; } } times 0 { run k; }",
        "refused: command: item 2",
        1,
        43,
        18,
    ),
    (
        "kernel k { for i in 0..1 { let a = i; } } times 1001 { run k; }",
        "refused: limit: times",
        1,
        49,
        4,
    ),
    (
        "kernel k { for i in 0..1 { let a = i; } } times 1001 { run k; } times 0 { run k; }",
        "refused: limit: times",
        1,
        49,
        4,
    ),
    (
        "layout A(i) { dense(i: 1); field x: i32; } image x 0 9;",
        "refused: command: item 2",
        1,
        44,
        12,
    ),
    (
        "layout A(i, j) { dense(i: 1, j: 1); field x: i32; } times 2 { clear A; image x 9 9; }",
        "refused: command: item 2",
        1,
        72,
        11,
    ),
    (
        "layout A(i) { dense(i: 4); field x: i32; } times 2 { stats A; image x 0 9; }",
        "refused: command: item 2",
        1,
        63,
        11,
    ),
    (
        "layout A(i, j) { dense(i: 4, j: 4); field x: i32; } image x 9 9; times 0 { prune A; }",
        "refused: command: item 2",
        1,
        53,
        12,
    ),
    (
        "layout A(i, j) { dense(i: 2048, j: 1024); field x: i32; } image x 0 9;",
        "refused: limit: image",
        1,
        59,
        7,
    ),
    (
        "layout A(i, j) { dense(i: 2048, j: 1024); field x: i32; } times 2 { clear A; image x 0 9; }",
        "refused: limit: image",
        1,
        78,
        7,
    ),
    ("stats A;", "refused: unknown name: item 1", 1, 7, 1),
    (
        "layout A(i) { dense(i: 1); field x: i32; } prune x;",
        "refused: unknown name: item 2",
        1,
        50,
        1,
    ),
    ("kernel", "refused: syntax: item 1 line 1", 1, 7, 0),
    ("@", "refused: bad byte: line 1", 1, 1, 1),
    (
        "layout A(i) { dense(i: 65536); field x: i32; }",
        "refused: layout: A node 1 rule 1",
        1,
        15,
        15,
    ),
    (
        "layout A(i) { dense(i: 4, i: 4); field x: i32; }",
        "refused: layout: A node 1 rule 3",
        1,
        15,
        17,
    ),
    (
        "layout A(i, j) { dynamic(i: 4, j: 4) chunk 2 cap 2; field x: i32; }",
        "refused: layout: A node 1 rule 3",
        1,
        18,
        33,
    ),
    (
        "layout A(i) { dynamic(i: 4) chunk 0 cap 2; field x: i32; }",
        "refused: layout: A node 1 rule 5",
        1,
        15,
        27,
    ),
    (
        "layout A(i) { dynamic(i: 4) chunk 8 cap 2; field x: i32; }",
        "refused: layout: A node 1 rule 5",
        1,
        15,
        27,
    ),
    (
        "layout A(i) { dynamic(i: 4) chunk 2 cap 2; dense(i: 4); field x: i32; }",
        "refused: layout: A node 1 rule 2",
        1,
        15,
        27,
    ),
    (
        "layout A(i j) { dense(i: 4); field x: i32; }",
        "refused: syntax: item 1 line 1",
        1,
        12,
        1,
    ),
    (
        "kernel k { for i j in 0..4, 0..4 { } }",
        "refused: syntax: item 1 line 1",
        1,
        18,
        1,
    ),
    (
        "layout A(i) { dense(i: 4); field x: i32; field y: i32; } kernel k { for i in A { x[y[i]] += 1; } } load y; run k;",
        "refused: write outside: kernel k statement 1 at 2",
        1,
        82,
        12,
    ),
    (
        "layout A(i) { pointer(i: 4) cap 4; field x: i32; } kernel k { for i in 0..4 { x[i] = 1; } } run k;",
        "refused: pool full: A node 1 cap 4",
        1,
        29,
        5,
    ),
    (
        "layout A(i) { pointer(i: 4) cap 3; field x: i32; } layout B(i) { pointer(i: 4) cap 2; field y: i32; } kernel k { for i in 0..3 { y[i] = 1; x[i] = 1; } } run k; dump x; dump y;",
        "refused: pool full: B node 1 cap 2",
        1,
        80,
        5,
    ),
    (
        "layout A(i, j) { pointer(i: 2) cap 2; dense(i: 2); dynamic(j: 4) chunk 2 cap 3; field x: i32; } kernel k { for i, j in 1..3, 1..3 { x[i, j] += i * 10 + j; } } run k; dump x;",
        "refused: pool full: A node 3 cap 3",
        1,
        74,
        5,
    ),
    (
        "layout A(i) { dense(i: 4); field x: i32; field y: i32; } load y; load x; load y; load x;",
        "refused: no file for x",
        1,
        66,
        6,
    ),
    (
        "layout A(i) { dense(i: 4); field x: i32; field y: i32; } load y; load x; dump y;",
        "refused: grid: x line 3",
        1,
        66,
        6,
    ),
];

#[test]
fn sizes_and_commands_are_shown(rt: HostRuntime) -> Result<(), Fail> {
    let alloc = rt.alloc();
    for (text, last, line, column, length) in SIZES {
        assert_eq!(rt;
            shown(alloc, *text, *last),
            Some((*line, *column, *length)),
            "{text}"
        );
    }
    Ok(())
}
