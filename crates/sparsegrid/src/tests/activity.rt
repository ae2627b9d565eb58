//! Kernels that ask what is active, each program on one worker, on two and on sixteen.

use super::setting::Setting;
use std::test::Fail;

/// Programs, with the status and the text of their run.
static ROWS: &[(&str, u8, &str)] = &[
    // the container of one written coordinate
    (
        "layout B4(i) { pointer(i: 4) cap 4; dense(i: 4); field x: i32; } layout C(i) { dense(i: 16); field y: i32; } kernel w { for i in 5..6 { x[i] = 7; } } \
         kernel c { for i in 0..16 { if active(x[i]) { y[i] = 1; } } } run w; run c; dump y;",
        0,
        "grid 1 16\n0 0\n1 0\n2 0\n3 0\n4 1\n5 1\n6 1\n7 1\n8 0\n9 0\n10 0\n11 0\n12 0\n13 0\n14 0\n15 0\n",
    ),
    // elements of a dynamic node up to its length, and coordinates outside
    (
        "layout A(i) { dynamic(i: 8) chunk 4 cap 2; field x: i32; } layout C(i) { dense(i: 10); field y: i32; } kernel w { for i in 5..6 { x[i] = 1; } } \
         kernel c { for i in 0..10 { if active(x[i - 1]) { y[i] = 1; } } } run w; run c; dump y;",
        0,
        "grid 1 10\n0 0\n1 1\n2 1\n3 1\n4 1\n5 1\n6 1\n7 0\n8 0\n9 0\n",
    ),
    // what is asked decides what is activated, by the pass before the run too
    (
        "layout A(i) { dense(i: 1); field x: i32; } layout B(i) { pointer(i: 4) cap 1; field y: i32; } kernel c { for i in 0..4 { if active(x[i]) { y[i] = 1; } } } run c; stats B;",
        0,
        "stats B active 1 node 1 live 1\n",
    ),
    (
        "layout A(i) { dense(i: 1); field x: i32; } layout B(i) { pointer(i: 4) cap 1; field y: i32; } kernel c { for i in 0..4 { if active(x[i % 1]) { y[i] = 1; } } } run c; stats B;",
        7,
        "refused: pool full: B node 1 cap 1\n",
    ),
    // a value of 0 is active, until a prune or a clear
    (
        "layout A(i) { hash(i: 4) cap 2; field x: i32; } layout C(i) { dense(i: 4); field y: i32; } kernel w { for i in 0..2 { x[i * 3] += i; } } \
         kernel c { for i in 0..4 { if active(x[i]) { y[i] += 1; } } } run c; run w; run c; prune A; run c; clear A; run c; dump y;",
        0,
        "grid 1 4\n0 1\n1 0\n2 0\n3 2\n",
    ),
    // the layout that is walked, beside each place, and far outside
    (
        "layout A(i) { pointer(i: 4) cap 4; field x: i32; } layout D(i) { dense(i: 1); field n: i32; } kernel w { for i in 1..3 { x[i] = 5; } } \
         kernel c { for i in A { if active(x[i]) { n[0] += 1; } if active(x[i + 2147483647]) || active(x[2147483647]) { n[0] += 10; } \
         if active(x[i - 1]) { n[0] += 100; } if active(x[i + 1]) { n[0] += 1000; } } } run w; run c; dump n;",
        0,
        "grid 1 1\n0 1102\n",
    ),
    // what a local keeps of an answer decides what is activated
    (
        "layout A(i) { pointer(i: 4) cap 4; field x: i32; } layout B(i) { pointer(i: 4) cap 2; field y: i32; } kernel w { for i in 1..3 { x[i] = 0; } } \
         kernel c { for i in 0..4 { let t = false; if active(x[i]) { t = true; } if t { y[i] += i; } } } run w; run c; dump y; stats B;",
        0,
        "grid 1 2\n1 1\n2 2\nstats B active 2 node 1 live 2\n",
    ),
    // under every kind of node, in and under conditions, beside other fields of a layout, after a prune and after a clear
    (
        "layout H(i) { hash(i: 4) cap 4; bitmasked(i: 4); field h: i32; } layout P(i) { pointer(i: 4) cap 4; dynamic(i: 4) chunk 2 cap 8; field p: i32; } \
         layout C(i) { dense(i: 16); field y: i32; field z: i32; } kernel w { for i in 0..16 { if i % 5 == 3 { h[i] += i % 2; p[15 - i] += 2; } } } \
         kernel c { for i in 0..16 { let a = active(h[i]); let b = !active(p[i]) || a; if a { y[i] += 1; } else { if b { y[i] += 2; } } \
         for k in 0..2 { if active(p[i + k]) && active(h[i - k]) { z[i] += 1 << k; } } } } run w; run c; dump y; dump z; prune H; run c; dump y; clear P; run c; dump z;",
        0,
        "grid 1 16\n0 0\n1 0\n2 0\n3 1\n4 0\n5 0\n6 0\n7 0\n8 1\n9 2\n10 2\n11 2\n12 0\n13 1\n14 2\n15 2\n\
         grid 1 16\n0 0\n1 0\n2 0\n3 0\n4 2\n5 0\n6 0\n7 0\n8 0\n9 0\n10 0\n11 0\n12 0\n13 0\n14 0\n15 0\n\
         grid 1 16\n0 0\n1 0\n2 0\n3 2\n4 0\n5 0\n6 0\n7 0\n8 3\n9 4\n10 4\n11 4\n12 0\n13 2\n14 4\n15 4\n\
         grid 1 16\n0 0\n1 0\n2 0\n3 0\n4 4\n5 0\n6 0\n7 0\n8 0\n9 0\n10 0\n11 0\n12 0\n13 0\n14 0\n15 0\n",
    ),
];

#[test]
fn kernels_ask_what_is_active(rt: HostRuntime) -> Result<(), Fail> {
    for (source, status, text) in ROWS {
        Setting::of(source).ends_on_workers(&rt, rt.alloc(), *status, text)?;
    }
    Ok(())
}
