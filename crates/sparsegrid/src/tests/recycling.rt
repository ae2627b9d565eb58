//! Containers and chunks that are given back and taken again, many times over, on one worker, on two and on sixteen.

use super::setting::Setting;
use sg_outside::{FreeGate, MemSink};
use std::test::Fail;

/// Programs without loads, with the text of their run.
static TURNS: &[(&str, &str)] = &[
    // workers race for the only block, and each may draw a number that isn't used
    (
        "layout A(i) { pointer(i: 4) cap 1; dense(i: 2); field x: i32; field y: i32; } kernel w { for p in 0..64 { x[0] += 1; y[0] += 2; } } \
         kernel zx { for i in A { x[i] = 0; } } kernel zy { for i in A { y[i] = 0; } } \
         times 40 { run w; run zx; run zy; prune A; } stats A; run w; dump y;",
        "stats A active 0 node 1 live 0\ngrid 1 2\n0 128\n1 0\n",
    ),
    // keys come and go: 0, 8 and 16, then 16, 24 and 32, then 24, 0 and 8
    (
        "layout A(i) { hash(i: 64) cap 3; dense(i: 2); field x: i32; } layout T(i) { dense(i: 1); field t: i32; } \
         kernel a { for i in 0..3 { x[i * 16] += i + 1; } } kernel b { for i in 3..5 { x[i * 16] += i + 1; } } \
         kernel c { for i in 0..2 { x[i * 16] += i + 1; } } kernel sum { for i in A { t[0] += x[i]; } } \
         kernel three { for i in A { if x[i] != 3 { x[i] = 0; } } } kernel four { for i in A { if x[i] != 4 { x[i] = 0; } } } \
         kernel none { for i in A { x[i] = 0; } } \
         times 20 { run a; run three; prune A; run b; run sum; run four; prune A; run c; run sum; run none; prune A; } \
         dump t; stats A; run a; run three; prune A; dump x; stats A;",
        "grid 1 1\n0 380\nstats A active 0 node 1 live 0\ngrid 1 2\n32 3\n33 0\nstats A active 2 node 1 live 1\n",
    ),
    // a list of four chunks gives three of them to another one, and takes one back
    (
        "layout A(j, i) { dense(j: 2); dynamic(i: 8) chunk 2 cap 4; field x: i32; } layout T(i) { dense(i: 1); field t: i32; } \
         kernel a { for p in 0..1 { x[0, 7] += 1; x[0, 0] += 2; } } kernel b { for p in 0..1 { x[1, 5] += 3; } } kernel c { for p in 0..1 { x[0, 1] += 4; } } \
         kernel sum { for j, i in A { t[0] += x[j, i]; } } \
         kernel one { for j, i in A { if x[j, i] == 1 { x[j, i] = 0; } } } kernel two { for j, i in A { if x[j, i] == 2 { x[j, i] = 0; } } } \
         kernel none { for j, i in A { x[j, i] = 0; } } \
         times 20 { run a; run one; prune A; run b; run sum; run two; prune A; run c; run sum; run none; prune A; } \
         dump t; stats A; run b; run c; dump x; stats A;",
        "grid 1 1\n0 240\nstats A active 0 node 2 live 0\ngrid 2 8\n0 0 0\n0 1 4\n1 0 0\n1 1 0\n1 2 0\n1 3 0\n1 4 0\n1 5 3\nstats A active 8 node 2 live 4\n",
    ),
    // one value goes to and fro between two trees, each of which is cleared after it
    (
        "layout A(i, j) { hash(i: 8, j: 8) cap 1; pointer(i: 4, j: 4) cap 1; bitmasked(i: 8, j: 8); field x: i32; } \
         layout B(i, j) { pointer(i: 8, j: 8) cap 1; pointer(i: 4, j: 4) cap 1; dense(i: 8, j: 8); field y: i32; } \
         kernel from { for i, j in 10..11, 20..21 { x[i, j] = 7; } } \
         kernel to { for i, j in A { y[(i + 3) & 255, (j + 250) & 255] += x[i, j]; } } \
         kernel fro { for i, j in B { if y[i, j] != 0 { x[(i + 5) & 255, (j + 11) & 255] += y[i, j]; } } } \
         run from; times 20 { run to; clear A; run fro; clear B; } dump x; stats A; stats B;",
        "grid 2 1\n170 120 7\nstats A active 1 node 1 live 1 node 2 live 1\nstats B active 0 node 1 live 0 node 2 live 0\n",
    ),
];

#[test]
fn containers_come_back(rt: HostRuntime) -> Result<(), Fail> {
    for (source, text) in TURNS {
        Setting::of(source).ends_on_workers(&rt, rt.alloc(), 0, *text)?;
    }
    Ok(())
}

/// The only block comes and goes a thousand times, for sixteen workers too: each run on one, since the gate holds nobody.
#[test]
fn a_block_comes_back_a_thousand_times(rt: HostRuntime) -> Result<(), Fail> {
    let alloc = rt.alloc();
    let source =
        "layout A(i) { pointer(i: 4) cap 1; dense(i: 2); field x: i32; field y: i32; } kernel w { for i in 0..1 { x[i] = 1; y[i] = 2; } } \
         kernel zx { for i in A { x[i] = 0; } } kernel zy { for i in A { y[i] = 0; } } \
         times 1000 { run w; run zx; run zy; prune A; } stats A;";
    for count in ["1", "2", "16"] {
        let words = ["--workers", count, "p.sg"];
        let setting = Setting {
            words: &words,
            ..Setting::of(source)
        };
        let mut out = MemSink::new(alloc, Vec::new(alloc), 0);
        let seen = setting.gated(&rt, alloc, &mut out, &FreeGate)?;
        assert_eq!(rt; seen.status, 0);
        assert!(rt; out.bytes() == b"stats A active 0 node 1 live 0\n".as_slice());
    }
    Ok(())
}

/// Three keys that all begin at the first place of a table of eight.
static FIRST_PLACE: &[(&str, &str)] = &[("g", "grid 1 3\n0 1\n5 1\n13 1\n")];

/// After a key that has gone the others are still found, and another one has room.
#[test]
fn keys_are_found_behind_a_gap(rt: HostRuntime) -> Result<(), Fail> {
    let setting = Setting {
        words: &["p.sg", "x=g"],
        others: FIRST_PLACE,
        ..Setting::of(
            "layout A(i) { hash(i: 64) cap 3; field x: i32; } kernel z { for i in 0..1 { x[i] = 0; } } kernel n { for i in 18..19 { x[i] = 4; } } \
             load x; run z; prune A; run n; dump x;",
        )
    };
    setting.ends_on_workers(&rt, rt.alloc(), 0, "grid 1 3\n5 1\n13 1\n18 4\n")
}

/// Two of the longest lists lose all chunks but the first, 65,534 in all, a hundred times: a walk along a list for each chunk takes minutes.
#[test]
fn long_lists_are_cut(rt: HostRuntime) -> Result<(), Fail> {
    let source =
        "layout A(j, i) { dense(j: 2); dynamic(i: 32768) chunk 1 cap 65536; field x: i32; } \
         kernel first { for j, i in 0..2, 0..1 { x[j, i] = 5; } } kernel last { for j, i in 0..2, 32767..32768 { x[j, i] = 6; } } \
         kernel none { for j, i in 0..2, 32767..32768 { x[j, i] = 0; } } \
         times 100 { run first; run last; run none; prune A; } dump x; stats A;";
    Setting::of(source).ends(
        &rt,
        rt.alloc(),
        0,
        "grid 2 2\n0 0 5\n1 0 5\nstats A active 2 node 2 live 2\n",
    )
}
