//! Kernels of all forms, over layouts of all kinds: blocks, tables of keys up to their caps, and lists that grow by chunks.

use super::setting::compare;
use std::test::Fail;

static KERNELS: &[(&str, u8, &str)] = &[
    // the greatest, in the order of the type
    (
        "layout A(i) { dense(i: 2); field x: u32; } kernel k { for p in 0..4 { x[p & 1] max= u32(p) * 5u; } } run k; dump x;",
        0,
        "grid 1 2\n0 10\n1 15\n",
    ),
    // walks, conditions and inner loops
    (
        "layout A(i, j) { bitmasked(i: 4, j: 4); field x: i32; } kernel w { for i, j in 0..4, 0..4 { if i == j { x[i, j] = i + 1; } } } \
         kernel k { for i, j in A { if x[i, j] > 2 { x[i, j] = x[i, j] * 10; } else { x[i, j] = 0; } } } run w; run k; dump x;",
        0,
        "grid 2 4\n0 0 0\n1 1 0\n2 2 30\n3 3 40\n",
    ),
    (
        "layout A(i) { dense(i: 4); field x: i32; } layout T(k) { dense(k: 1); field t: i32; } kernel w { for i in A { x[i] = i * i; } } \
         kernel s { for i in A { for a in -1..2 { if x[i + a] != 0 { t[0] += x[i + a] * (a + 2); } } } } run w; run s; dump t;",
        0,
        "grid 1 1\n0 75\n",
    ),
    (
        "layout A(i) { dense(i: 1); field x: i32; } kernel k { for i in A { x[i] = x[i] + 1; } } times 2 { run k; dump x; } times 2 { run k; } dump x;",
        0,
        "grid 1 1\n0 1\ngrid 1 1\n0 2\ngrid 1 1\n0 4\n",
    ),
];

#[test]
fn kernels(rt: HostRuntime) -> Result<(), Fail> {
    compare(&rt, rt.alloc(), KERNELS)
}

/// Lists under four parents that grow in turns, so that their chunks lie among each other, and what doesn't fit any more.
const TURNS: &str = "layout A(i, j) { dense(i: 4); dynamic(j: 8) chunk 2 cap 8; field x: i32; } \
     kernel a { for i, j in 0..4, 0..1 { x[i, j] = i + 1; } } kernel b { for i, j in 2..3, 2..3 { x[i, j] = 20; } } \
     kernel c { for i, j in 0..1, 4..5 { x[i, j] = 40; } } kernel d { for i, j in 3..4, 6..7 { x[i, j] = 60; } } \
     run a; run b; run c; dump x; run d;";

const AFTER_TURNS: &str =
    "grid 2 10\n0 0 1\n0 1 0\n0 2 0\n0 3 0\n0 4 40\n1 0 2\n2 0 3\n2 1 0\n2 2 20\n3 0 4\n\
     refused: pool full: A node 2 cap 8\n";

/// Runs over layouts of hash and dynamic nodes.
static CHAINED: &[(&str, u8, &str)] = &[
    // chunks are counted
    (
        "layout A(i) { dynamic(i: 8) chunk 4 cap 1; field x: i32; } kernel k { for i in 3..4 { x[i] = 7; } } kernel l { for i in 4..5 { x[i] = 8; } } run k; run l; dump x;",
        7,
        "refused: pool full: A node 1 cap 1\n",
    ),
    (
        "layout A(i, j) { pointer(i: 2) cap 2; dense(i: 2); dynamic(j: 4) chunk 2 cap 3; field x: i32; } kernel k { for i, j in 1..3, 1..3 { x[i, j] += i * 10 + j; } } run k; dump x;",
        7,
        "refused: pool full: A node 3 cap 3\n",
    ),
    (
        "layout A(i, j) { pointer(i: 2) cap 2; dense(i: 2); dynamic(j: 4) chunk 2 cap 4; field x: i32; } kernel k { for i, j in 1..3, 1..3 { x[i, j] += i * 10 + j; } } run k; dump x;",
        0,
        "grid 2 6\n1 0 0\n1 1 11\n1 2 12\n2 0 0\n2 1 21\n2 2 22\n",
    ),
    // a key for each block
    (
        "layout A(i) { hash(i: 64) cap 3; dense(i: 2); field x: i32; } kernel k { for i in 0..3 { x[i * 48 + 1] += i; } } run k; dump x;",
        0,
        "grid 1 6\n0 0\n1 0\n48 0\n49 1\n96 0\n97 2\n",
    ),
    (
        "layout A(i) { dynamic(i: 8) chunk 4 cap 1; field x: i32; } kernel k { for i in 4..5 { x[i] = 1; } } run k;",
        7,
        "refused: pool full: A node 1 cap 1\n",
    ),
    (
        "layout A(i) { hash(i: 4) cap 2; dense(i: 4); field x: i32; } kernel k { for i in 5..6 { x[i] = 7; } } run k; dump x;",
        0,
        "grid 1 4\n4 0\n5 7\n6 0\n7 0\n",
    ),
    (TURNS, 7, AFTER_TURNS),
];

#[test]
fn kernels_over_hash_and_dynamic_nodes(rt: HostRuntime) -> Result<(), Fail> {
    compare(&rt, rt.alloc(), CHAINED)
}
