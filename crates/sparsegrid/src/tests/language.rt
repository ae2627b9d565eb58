//! The examples of the language page, each with what its run writes.

use super::setting::compare;
use std::test::Fail;

/// Programs, with the status and the text of their run.
static RUNS: &[(&str, u8, &str)] = &[
    (
        "layout Numbers(k) { dense(k: 4); field composite: u32; } kernel sieve { for n, m in 2..12, 2..64 { if n * m < 128 { composite[n * m / 32] |= 1u << (n * m); } } } run sieve; dump composite;",
        0,
        "grid 1 4\n0 1601558352\n1 3621746143\n2 4260855159\n3 2147342173\n",
    ),
    (
        "layout Sheet(i) { pointer(i: 4) cap 4; dense(i: 4); field x: i32; } layout Shadow(i) { dense(i: 16); field y: i32; } kernel drop { for i in 5..6 { x[i] = 7; } } kernel shade { for i in 0..16 { if active(x[i]) { y[i] = 1; } } } run drop; run shade; dump y;",
        0,
        "grid 1 16\n0 0\n1 0\n2 0\n3 0\n4 1\n5 1\n6 1\n7 1\n8 0\n9 0\n10 0\n11 0\n12 0\n13 0\n14 0\n15 0\n",
    ),
    (
        "layout A(i) { dense(i: 16); field x: i32; } kernel k { for i in 5..6 { x[i] = 7; } } run k; dump x;",
        0,
        "grid 1 16\n0 0\n1 0\n2 0\n3 0\n4 0\n5 7\n6 0\n7 0\n8 0\n9 0\n10 0\n11 0\n12 0\n13 0\n14 0\n15 0\n",
    ),
    (
        "layout A(i) { pointer(i: 4) cap 2; dense(i: 4); field x: i32; } kernel k { for i in 5..6 { x[i] = 7; } } run k; dump x;",
        0,
        "grid 1 4\n4 0\n5 7\n6 0\n7 0\n",
    ),
    (
        "layout A(i) { bitmasked(i: 4); dense(i: 4); field x: i32; } kernel k { for i in 5..6 { x[i] = 7; } } run k; dump x;",
        0,
        "grid 1 4\n4 0\n5 7\n6 0\n7 0\n",
    ),
    (
        "layout A(i) { pointer(i: 4) cap 2; bitmasked(i: 4); field x: i32; } kernel k { for i in 5..6 { x[i] = 7; } } run k; dump x;",
        0,
        "grid 1 1\n5 7\n",
    ),
    (
        "layout A(i) { bitmasked(i: 16); field x: i32; } kernel k { for i in 5..6 { x[i] = 7; } } run k; dump x;",
        0,
        "grid 1 1\n5 7\n",
    ),
    (
        "layout A(i) { pointer(i: 4) cap 4; dense(i: 4); field x: i32; } kernel first { for i in 5..6 { x[i] = 7; } } kernel more { for i in A { x[i] = x[i] + 1; } } run first; run more; dump x;",
        0,
        "grid 1 4\n4 1\n5 8\n6 1\n7 1\n",
    ),
    (
        "layout A(i) { dense(i: 1); field x: i32; } kernel k { for i in A { x[i] = 1; x[i] = x[i] + 10; } } run k; dump x;",
        0,
        "grid 1 1\n0 11\n",
    ),
    (
        "layout A(i) { dense(i: 8); field x: i32; field y: i32; } layout V(i) { dense(i: 16); field v: i32; } kernel a { for i in A { x[i] += 1; } } kernel b { for i in A { x[i] max= 5; } } run a; run b;",
        0,
        "",
    ),
    (
        "layout A(i) { dense(i: 8); field x: i32; field y: i32; } layout V(i) { dense(i: 16); field v: i32; } kernel a { for i in A { x[i] = y[i]; } } run a;",
        0,
        "",
    ),
    (
        "layout A(i) { dense(i: 8); field x: i32; field y: i32; } layout V(i) { dense(i: 16); field v: i32; } kernel a { for i in 1..8 { y[i] = x[i - 1]; } } kernel b { for i in 1..8 { x[i] = y[i]; } } run a; run b;",
        0,
        "",
    ),
    (
        "layout A(i) { dense(i: 8); field x: i32; field y: i32; } layout V(i) { dense(i: 16); field v: i32; } kernel a { for i in A { x[i] = y[i - 1]; } } run a;",
        0,
        "",
    ),
    (
        "layout A(i) { dense(i: 8); field x: i32; field y: i32; } layout V(i) { dense(i: 16); field v: i32; } kernel a { for i in 0..7 { x[i + 1] += y[i]; } } run a;",
        0,
        "",
    ),
    (
        "layout A(i) { dense(i: 8); field x: i32; field y: i32; } layout V(i) { dense(i: 16); field v: i32; } kernel a { for i in 0..8 { if i % 2 == 0 { x[i] = 1; } } } run a;",
        0,
        "",
    ),
    (
        "layout A(i) { dense(i: 8); field x: i32; field y: i32; } layout V(i) { dense(i: 16); field v: i32; } kernel a { for i in A { x[i] = 2 * x[i]; } } run a;",
        0,
        "",
    ),
    (
        "layout A(i) { dense(i: 8); field x: i32; field y: i32; } layout V(i) { dense(i: 16); field v: i32; } kernel a { for i in A { if x[i] > 0 { v[i + 1] += 1; } } } kernel b { for i in A { if x[i] > 0 { x[i] = 0; } } } run a; run b;",
        0,
        "",
    ),
    (
        "layout A(i) { dense(i: 8); field x: i32; field y: i32; } layout V(i) { dense(i: 16); field v: i32; } kernel a { for i in A { if x[i] > 3 { x[i] = 3; } } } run a;",
        0,
        "",
    ),
    (
        "layout A(i) { dense(i: 8); field x: i32; field y: i32; } layout V(i) { dense(i: 16); field v: i32; } kernel a { for i in 0..8 { x[i] = min(x[i], 3); } } run a;",
        0,
        "",
    ),
    (
        "layout A(i) { dense(i: 8); field x: i32; field y: i32; } layout V(i) { dense(i: 16); field v: i32; } kernel k { for i in A { x[i] = y[i] + 1; v[i & 7] += x[i]; } } run k;",
        0,
        "",
    ),
    (
        "layout A(i) { dense(i: 8); field x: i32; field y: i32; } layout V(i) { dense(i: 16); field v: i32; } kernel a { for i in A { for k in 0..8 { if k < i { x[i] = k; } } } } run a;",
        0,
        "",
    ),
    (
        "layout A(i) { dense(i: 8); field x: i32; field y: i32; } layout V(i) { dense(i: 16); field v: i32; } kernel a { for i, k in 0..16, 0..64 { for l in 0..65 { v[0] += 1; } } }",
        0,
        "",
    ),
    (
        "layout A(i) { dense(i: 8); field x: i32; field y: i32; } layout V(i) { dense(i: 16); field v: i32; } kernel a { for i in 0..8 { if i < x[0] { v[i] += 1; } } } run a;",
        0,
        "",
    ),
    ("", 0, ""),
    (
        "layout A(i) { dense(i: 1); field x: i32; } kernel a { for i in A { x[i] = x[i] + 1; } } kernel b { for i in A { x[i] = x[i] * 10; } } times 2 { run a; run b; } dump x;",
        0,
        "grid 1 1\n0 110\n",
    ),
    (
        "layout A(i) { dense(i: 8); field x: i32; field y: i32; } layout V(i) { dense(i: 16); field v: i32; }         kernel k {                        // statement 0 is the loop over A\nfor i in A {\nlet a = x[i];                 // 1\nif a > 3 {                    // 2\nfor n in 0..2 { a = a + n; }  // 3, and 4 inside\n} else {\nx[i] = 0;                   // 5\n}\ny[i] = a;                     // 6\n}\n}\n\n",
        0,
        "",
    ),
    (
        "const N = 4; layout A(i) { dense(i: 4); field x: i32; } kernel k { for i in A { if i + 1 < N { x[i + 1] += 1; } } } run k; dump x;",
        0,
        "grid 1 4\n0 0\n1 1\n2 1\n3 1\n",
    ),
    (
        "layout A(i) { dense(i: 1); field x: i32; } kernel k { for i in A { x[i] = 2147483647 + 1; } } run k; dump x;",
        0,
        "grid 1 1\n0 -2147483648\n",
    ),
    (
        "layout A(i) { dense(i: 1); field x: i32; } kernel k { for i in A { x[i] = -7 / 2; } } run k; dump x;",
        0,
        "grid 1 1\n0 -3\n",
    ),
    (
        "layout A(i) { dense(i: 1); field x: i32; } kernel k { for i in A { x[i] = -7 % 2; } } run k; dump x;",
        0,
        "grid 1 1\n0 -1\n",
    ),
    (
        "layout A(i) { dense(i: 1); field x: i32; } kernel k { for i in A { x[i] = 7 / 0; } } run k; dump x;",
        0,
        "grid 1 1\n0 0\n",
    ),
    (
        "layout A(i) { dense(i: 1); field x: i32; } kernel k { for i in A { x[i] = 7 % 0; } } run k; dump x;",
        0,
        "grid 1 1\n0 7\n",
    ),
    (
        "layout A(i) { dense(i: 1); field x: i32; } kernel k { for i in A { x[i] = -2147483648 / -1; } } run k; dump x;",
        0,
        "grid 1 1\n0 -2147483648\n",
    ),
    (
        "layout A(i) { dense(i: 1); field x: i32; } kernel k { for i in A { x[i] = -2147483648 % -1; } } run k; dump x;",
        0,
        "grid 1 1\n0 0\n",
    ),
    (
        "layout A(i) { dense(i: 1); field x: i32; } kernel k { for i in A { x[i] = 1 << 33; } } run k; dump x;",
        0,
        "grid 1 1\n0 2\n",
    ),
    (
        "layout A(i) { dense(i: 1); field x: i32; } kernel k { for i in A { x[i] = 1 << -1; } } run k; dump x;",
        0,
        "grid 1 1\n0 -2147483648\n",
    ),
    (
        "layout A(i) { dense(i: 1); field x: i32; } kernel k { for i in A { x[i] = -8 >> 1; } } run k; dump x;",
        0,
        "grid 1 1\n0 -4\n",
    ),
    (
        "layout A(i) { dense(i: 1); field x: i32; } kernel k { for i in A { x[i] = i32(u32(-8) >> 1); } } run k; dump x;",
        0,
        "grid 1 1\n0 2147483644\n",
    ),
    (
        "layout A(i) { dense(i: 1); field x: i32; } kernel k { for i in A { x[i] = min(-1, 1); } } run k; dump x;",
        0,
        "grid 1 1\n0 -1\n",
    ),
    (
        "layout A(i) { dense(i: 1); field x: i32; } kernel k { for i in A { x[i] = i32(min(u32(-1), 1u)); } } run k; dump x;",
        0,
        "grid 1 1\n0 1\n",
    ),
    (
        "layout A(i) { dense(i: 1); field x: i32; } kernel k { for i in A { x[i] = 10 - 3 - 2; } } run k; dump x;",
        0,
        "grid 1 1\n0 5\n",
    ),
    (
        "layout A(i) { dense(i: 1); field x: i32; } kernel k { for i in A { x[i] = 2 + 3 * 4; } } run k; dump x;",
        0,
        "grid 1 1\n0 14\n",
    ),
    (
        "layout A(i) { dense(i: 1); field x: i32; } kernel k { for i in A { x[i] = mulq(-3, 1, 1); } } run k; dump x;",
        0,
        "grid 1 1\n0 -2\n",
    ),
    (
        "layout A(i) { dense(i: 1); field x: i32; } kernel k { for i in A { x[i] = mulq(98304, 16384, 16); } } run k; dump x;",
        0,
        "grid 1 1\n0 24576\n",
    ),
];

#[test]
fn examples_of_the_page(rt: HostRuntime) -> Result<(), Fail> {
    compare(&rt, rt.alloc(), RUNS)
}

/// The declarations that the page shows whole, with a write at the last place of the layout and one after it on each axis; then the programs
/// of its tour.
static DECLARED: &[(&str, u8, &str)] = &[
    (
        "const N = 64; const LOW = -5; const S = 2654435761u; layout G(i, j) { dense(i: 8, j: N); field mass: i32; field flags: u32; } layout D(i) { dense(i: 1); field x: i32; field y: u32; } kernel last { for i, j in 7..8, 63..64 { mass[i, j] = LOW; flags[i, j] = S; } } kernel show { for i in D { x[i] = mass[7, 63]; y[i] = flags[7, 63]; } } run last; run show; dump x; dump y;",
        0,
        "grid 1 1\n0 -5\ngrid 1 1\n0 2654435761\n",
    ),
    (
        "const N = 64; layout G(i, j) { dense(i: 8, j: N); field mass: i32; field flags: u32; } kernel k { for i, j in 7..8, 63..65 { mass[i, j] = 1; } } run k;",
        7,
        "refused: write outside: kernel k statement 1 at 7 64\n",
    ),
    (
        "const N = 64; layout G(i, j) { dense(i: 8, j: N); field mass: i32; field flags: u32; } kernel k { for i, j in 7..9, 63..64 { flags[i, j] = 1u; } } run k;",
        7,
        "refused: write outside: kernel k statement 1 at 8 63\n",
    ),
    (
        "layout Line(i) { dense(i: 8); field ink: i32; }
kernel drop { for i in 2..4 { ink[i] = 100; } }
run drop;
dump ink;
",
        0,
        "grid 1 8\n0 0\n1 0\n2 100\n3 100\n4 0\n5 0\n6 0\n7 0\n",
    ),
    (
        "layout Line(i) { dense(i: 8); field ink: i32; field next: i32; }
kernel drop { for i in 2..4 { ink[i] = 100; } }
kernel spread { for i in 0..8 { next[i] = (ink[i - 1] + 2 * ink[i] + ink[i + 1]) / 4; } }
kernel keep { for i in 0..8 { ink[i] = next[i]; } }
run drop;
times 2 { run spread; run keep; }
dump ink;
",
        0,
        "grid 1 8\n0 6\n1 31\n2 62\n3 62\n4 31\n5 6\n6 0\n7 0\n",
    ),
    (
        "layout Sheet(row, column) {
  pointer(row: 256, column: 256) cap 64; // at most 64 blocks
  dense(row: 4, column: 4);              // of 4 by 4 points
  field ink: i32; field next: i32;
}
kernel drop { for row, column in 9..11, 9..11 { ink[row, column] = 800; } }
kernel grow {
  for row, column in Sheet {
    if ink[row, column] > 0 { for a in -1..2 { for b in -1..2 { next[row + a, column + b] += 0; } } }
  }
}
kernel spread {
  for row, column in Sheet {
    let beside = ink[row, column - 1] + ink[row, column + 1];
    next[row, column] = (ink[row - 1, column] + beside + ink[row + 1, column] + 4 * ink[row, column]) / 8;
  }
}
kernel keep { for row, column in Sheet { ink[row, column] = next[row, column]; } }
run drop;
times 2 { run grow; run spread; run keep; }
stats Sheet;

layout Total(t) { dense(t: 1); field all: i32; }
kernel sum { for row, column in Sheet { all[0] += ink[row, column]; } }
run sum;
dump all;

layout View(row, column) { dense(row: 4, column: 8); field grey: i32; }
kernel look { for row, column in View { grey[row, column] = ink[row + 8, column + 6]; } }
run look;
image grey 0 800;
",
        0,
        "stats Sheet active 80 node 1 live 5\ngrid 1 1\n0 3192\nP2\n8 4\n255\n0 0 7 43 43 7 0 0\n0 3 43 151 151 43 3 0\n0 3 43 151 151 43 3 0\n0 0 7 43 43 7 0 0\n",
    ),
];

#[test]
fn declarations_of_the_page(rt: HostRuntime) -> Result<(), Fail> {
    compare(&rt, rt.alloc(), DECLARED)
}
