//! Extents that are no powers of two, each program on one worker, on two and on sixteen.

use super::setting::Setting;
use std::test::Fail;

/// Programs, with the status and the text of their run.
static ROWS: &[(&str, u8, &str)] = &[
    ("layout A(i) { dense(i: 3); field x: i32; }", 0, ""),
    // a border inside a block, and the last coordinate
    (
        "layout A(i) { pointer(i: 3) cap 2; dense(i: 5); field x: i32; } kernel k { for i in 7..8 { x[i] = 1; } } run k; dump x;",
        0,
        "grid 1 5\n5 0\n6 0\n7 1\n8 0\n9 0\n",
    ),
    (
        "layout A(i) { pointer(i: 3) cap 2; dense(i: 5); field x: i32; } kernel k { for i in 14..16 { x[i] = 1; } } run k; dump x;",
        7,
        "refused: write outside: kernel k statement 1 at 15\n",
    ),
    (
        "layout A(i) { pointer(i: 3) cap 3; bitmasked(i: 7); field x: i32; } kernel k { for i in 0..21 { if i % 6 == 0 { x[i] = i; } } } run k; dump x; stats A;",
        0,
        "grid 1 4\n0 0\n6 6\n12 12\n18 18\nstats A active 4 node 1 live 3\n",
    ),
    // seven elements are three chunks
    (
        "layout A(i) { dynamic(i: 7) chunk 3 cap 3; field x: i32; } kernel k { for i in 6..7 { x[i] = 1; } } run k; dump x; stats A;",
        0,
        "grid 1 7\n0 0\n1 0\n2 0\n3 0\n4 0\n5 0\n6 1\nstats A active 7 node 1 live 3\n",
    ),
    (
        "layout A(i) { dynamic(i: 7) chunk 3 cap 2; field x: i32; } kernel k { for i in 6..7 { x[i] = 1; } } run k;",
        7,
        "refused: pool full: A node 1 cap 2\n",
    ),
    (
        "layout A(i, j) { hash(i: 5, j: 3) cap 4; dense(i: 3, j: 2); field x: i32; } kernel k { for i, j in 14..15, 5..6 { x[i, j] = 9; } } run k; dump x;",
        0,
        "grid 2 6\n12 4 0\n12 5 0\n13 4 0\n13 5 0\n14 4 0\n14 5 9\n",
    ),
    // both sides of the borders of three nodes
    (
        "layout A(i, j) { hash(i: 5, j: 3) cap 4; pointer(i: 3) cap 7; bitmasked(i: 11, j: 13); field x: i32; } kernel k { for i, j in 10..12, 12..14 { x[i, j] = i * 100 + j; } } run k; dump x; stats A;",
        0,
        "grid 2 4\n10 12 1012\n10 13 1013\n11 12 1112\n11 13 1113\nstats A active 4 node 1 live 2 node 2 live 4\n",
    ),
    // two words of bits for a container
    (
        "layout A(i) { pointer(i: 2) cap 2; bitmasked(i: 65); field x: i32; } kernel k { for i in 63..67 { x[i] = i; } } run k; dump x; stats A;",
        0,
        "grid 1 4\n63 63\n64 64\n65 65\n66 66\nstats A active 4 node 1 live 2\n",
    ),
    // a walk, and reads past each border
    (
        "layout A(i, j) { dense(i: 7, j: 3); field x: i32; field y: i32; } kernel a { for i, j in A { x[i, j] = i * 10 + j; } } kernel b { for i, j in A { y[i, j] = x[i - 1, j] + x[i + 1, j] + x[i, j - 1] + x[i, j + 1]; } } run a; run b; dump y;",
        0,
        "grid 2 21\n0 0 11\n0 1 13\n0 2 13\n1 0 31\n1 1 44\n1 2 35\n2 0 61\n2 1 84\n2 2 65\n3 0 91\n3 1 124\n3 2 95\n4 0 121\n4 1 164\n4 2 125\n5 0 151\n5 1 204\n5 2 155\n6 0 111\n6 1 173\n6 2 113\n",
    ),
    (
        "layout A(i) { pointer(i: 7) cap 1; pointer(i: 31) cap 1; dense(i: 151); field x: i32; } kernel k { for i in 32766..32767 { x[i] = 1; } } run k; stats A;",
        0,
        "stats A active 151 node 1 live 1 node 2 live 1\n",
    ),
    (
        "layout A(i, j, k) { hash(i: 1023, j: 1021, k: 1019) cap 2; field x: i32; } kernel n { for i, j, k in 1022..1023, 1020..1021, 1018..1019 { x[i, j, k] = 7; } } run n; dump x;",
        0,
        "grid 3 1\n1022 1020 1018 7\n",
    ),
    // a sum over odd blocks
    (
        "layout A(i) { pointer(i: 5) cap 5; dense(i: 3); field m: i32; } kernel k { for p in 0..150 { m[p % 15] += 1; } } run k; stats A; prune A; stats A;",
        0,
        "stats A active 15 node 1 live 5\nstats A active 15 node 1 live 5\n",
    ),
];

#[test]
fn extents_of_any_size(rt: HostRuntime) -> Result<(), Fail> {
    for (source, status, text) in ROWS {
        Setting::of(source).ends_on_workers(&rt, rt.alloc(), *status, text)?;
    }
    Ok(())
}
