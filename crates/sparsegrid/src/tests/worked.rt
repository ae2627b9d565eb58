//! Runs of each kind, each on one worker, on two and on sixteen; those in which workers race stand in `races`.

use super::setting::Setting;
use std::test::Fail;

const ONE_WHITE: &str =
    "P2\n8 8\n255\n0 0 0 0 0 0 0 0\n0 0 255 0 0 0 0 0\n0 0 0 0 0 0 0 0\n0 0 0 0 0 0 0 0\n0 0 0 0 0 0 0 0\n0 0 0 0 0 0 0 0\n0 0 0 0 0 0 0 0\n0 0 0 0 0 0 0 0\n\
     stats A active 64\n";

const ONE_WHITE_IN_A_BLOCK: &str =
    "P2\n8 8\n255\n0 0 0 0 0 0 0 0\n0 0 255 0 0 0 0 0\n0 0 0 0 0 0 0 0\n0 0 0 0 0 0 0 0\n0 0 0 0 0 0 0 0\n0 0 0 0 0 0 0 0\n0 0 0 0 0 0 0 0\n0 0 0 0 0 0 0 0\n\
     stats A active 16 node 1 live 1\n";

/// Programs, with the status and the text of their run.
static RUNS: &[(&str, u8, &str)] = &[
    ("", 0, ""),
    (
        "layout A(i) { dense(i: 4); field x: i32; } kernel k { for i in 0..4 { x[i] = i * i; } } run k; dump x;",
        0,
        "grid 1 4\n0 0\n1 1\n2 4\n3 9\n",
    ),
    // the whole block of a written coordinate is active, or its bit alone
    (
        "layout A(i) { pointer(i: 4) cap 2; dense(i: 4); field x: i32; } kernel k { for i in 5..6 { x[i] = 7; } } dump x; run k; dump x; stats A;",
        0,
        "grid 1 0\ngrid 1 4\n4 0\n5 7\n6 0\n7 0\nstats A active 4 node 1 live 1\n",
    ),
    (
        "layout A(i) { pointer(i: 4) cap 2; bitmasked(i: 4); field x: i32; } kernel k { for i in 5..6 { x[i] = 7; } } run k; dump x; stats A;",
        0,
        "grid 1 1\n5 7\nstats A active 1 node 1 live 1\n",
    ),
    // the value that was there takes part in a least one
    (
        "layout A(i) { pointer(i: 1) cap 1; field x: i32; } kernel a { for p in 0..1 { x[0] min= 5; } } kernel b { for p in 0..1 { x[0] min= -3; } } \
         run a; dump x; run b; dump x;",
        0,
        "grid 1 1\n0 0\ngrid 1 1\n0 -3\n",
    ),
    // the first of two writes outside, and none before a full pool
    (
        "layout A(i) { pointer(i: 4) cap 4; field x: i32; } kernel k { for i in 0..4 { x[i + 1] += 1; } } run k;",
        7,
        "refused: write outside: kernel k statement 1 at 3\n",
    ),
    (
        "layout A(i) { pointer(i: 64) cap 1; field x: i32; } kernel k { for i in 0..64 { x[i + 61] += 1; } } run k;",
        7,
        "refused: write outside: kernel k statement 1 at 3\n",
    ),
    // the first layout that is too full
    (
        "layout A(i) { pointer(i: 4) cap 1; field x: i32; } layout B(i) { pointer(i: 4) cap 2; field y: i32; } \
         kernel k { for i in 0..3 { y[i] = 1; x[i] = 1; } } run k;",
        7,
        "refused: pool full: A node 1 cap 1\n",
    ),
    (
        "layout A(i) { pointer(i: 4) cap 3; field x: i32; } layout B(i) { pointer(i: 4) cap 2; field y: i32; } \
         kernel k { for i in 0..3 { y[i] = 1; x[i] = 1; } } run k; dump x; dump y;",
        7,
        "refused: pool full: B node 1 cap 2\n",
    ),
    // one of two fields holds the block; and pruning it makes room for another
    (
        "layout A(i) { pointer(i: 4) cap 1; dense(i: 2); field x: i32; field y: i32; } kernel w { for i in 0..1 { x[i] = 1; y[i] = 2; } } \
         kernel zx { for i in A { x[i] = 0; } } kernel zy { for i in A { y[i] = 0; } } kernel far { for i in 6..7 { x[i] = 5; } } \
         run w; run zx; prune A; stats A; run zy; prune A; stats A; run far; stats A;",
        0,
        "stats A active 2 node 1 live 1\nstats A active 0 node 1 live 0\nstats A active 2 node 1 live 1\n",
    ),
    (
        "layout A(i) { dense(i: 1); field x: u32; } kernel k { for i in A { x[i] = x[i] * 2u + 1u; } } times 3 { run k; } dump x; clear A; dump x;",
        0,
        "grid 1 1\n0 7\ngrid 1 1\n0 0\n",
    ),
];

/// Words, files and programs that load them, with the status and the text of their run.
static LOADS: &[(&[&str], &[(&str, &str)], &str, u8, &str)] = &[
    // contributions wrap as all words do
    (
        &["p.sg", "x=g"],
        &[("g", "grid 1 1\n0 2147483647\n")],
        "layout A(i) { dense(i: 1); field x: i32; } kernel k { for p in 0..1 { x[0] += 1; } } load x; run k; dump x;",
        0,
        "grid 1 1\n0 -2147483648\n",
    ),
    // neighbours outside the extents count as 0
    (
        &["p.sg", "x=x.grid"],
        &[("x.grid", "grid 2 3\n0 1 5\n1 0 7\n3 3 9\n")],
        "layout A(i, j) { dense(i: 4, j: 4); field x: i32; field y: i32; } kernel k { for i, j in A { y[i, j] = x[i - 1, j] + x[i + 1, j] + x[i, j - 1] + x[i, j + 1]; } } \
         load x; run k; image y 0 12; dump y;",
        0,
        "P2\n4 4\n255\n255 0 106 0\n0 255 0 0\n148 0 0 191\n0 0 191 0\n\
         grid 2 16\n0 0 12\n0 1 0\n0 2 5\n0 3 0\n1 0 0\n1 1 12\n1 2 0\n1 3 0\n2 0 7\n2 1 0\n2 2 0\n2 3 9\n3 0 0\n3 1 0\n3 2 9\n3 3 0\n",
    ),
    // particles in a list are summed into the cells of a grid under keys, pointers and bits
    (
        &["p.sg", "px=a", "py=b", "m=c"],
        &[
            ("a", "grid 1 4\n0 5\n1 300\n2 5\n3 17\n"),
            ("b", "grid 1 4\n0 8\n1 40\n2 8\n3 17\n"),
            ("c", "grid 1 4\n0 2\n1 3\n2 5\n3 7\n"),
        ],
        "layout P(p) { dynamic(p: 64) chunk 2 cap 2; field px: i32; field py: i32; field m: i32; } \
         layout G(i, j) { hash(i: 4, j: 4) cap 16; pointer(i: 2, j: 2) cap 64; bitmasked(i: 8, j: 8); field g: i32; } \
         kernel scatter { for p in P { g[px[p] >> 4, py[p] >> 4] += m[p]; } } load px; load py; load m; run scatter; dump g; stats G;",
        0,
        "grid 2 3\n0 0 7\n1 1 7\n18 2 3\nstats G active 3 node 1 live 2 node 2 live 2\n",
    ),
    // one image under two layouts
    (
        &["p.sg", "x=x.grid"],
        &[("x.grid", "grid 2 1\n1 2 3\n")],
        "layout A(i, j) { dense(i: 8, j: 8); field x: i32; } kernel k { for i, j in A { if x[i, j] != 0 { x[i, j] = x[i, j] * 2; } } } \
         load x; run k; image x 0 6; stats A;",
        0,
        ONE_WHITE,
    ),
    (
        &["p.sg", "x=x.grid"],
        &[("x.grid", "grid 2 1\n1 2 3\n")],
        "layout A(i, j) { pointer(i: 2, j: 2) cap 4; dense(i: 4, j: 4); field x: i32; } kernel k { for i, j in A { if x[i, j] != 0 { x[i, j] = x[i, j] * 2; } } } \
         load x; run k; image x 0 6; stats A;",
        0,
        ONE_WHITE_IN_A_BLOCK,
    ),
];

#[test]
fn runs_on_any_number_of_workers(rt: HostRuntime) -> Result<(), Fail> {
    for (source, status, text) in RUNS {
        Setting::of(source).ends_on_workers(&rt, rt.alloc(), *status, text)?;
    }
    Ok(())
}

#[test]
fn loads_on_any_number_of_workers(rt: HostRuntime) -> Result<(), Fail> {
    for (words, others, source, status, text) in LOADS {
        let setting = Setting {
            words,
            others,
            ..Setting::of(source)
        };
        setting.ends_on_workers(&rt, rt.alloc(), *status, text)?;
    }
    Ok(())
}
