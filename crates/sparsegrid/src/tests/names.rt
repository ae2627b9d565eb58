//! Refusals of names, over source text.

use super::setting::compare;
use std::test::Fail;

/// Sources with their status and their line: what names are unknown or declared twice.
static NAMES: &[(&str, u8, &str)] = &[
    (
        "layout B(i) { dense(i: 4); field f: i32; } kernel k { for i in B { let t = active(B[i]); } }",
        5,
        "refused: unknown name: item 2\n",
    ),
    (
        "const N = 4; layout B(i) { dense(i: 4); field f: i32; } kernel k { for i in B { let t = active(f[i]) && active(N[i]); } }",
        5,
        "refused: unknown name: item 3\n",
    ),
    (
        "layout B(i) { dense(i: 4); field f: i32; } kernel k { for i in B { let t = active(f[g[i]]); } } layout D(i) { dense(i: 4); field g: i32; }",
        5,
        "refused: unknown name: item 2\n",
    ),
    (
        "layout B(i) { dense(i: N); field f: i32; } const N = 4;",
        5,
        "refused: unknown name: item 1\n",
    ),
    (
        "layout B(i) { dense(i: B); field f: i32; }",
        5,
        "refused: unknown name: item 1\n",
    ),
    (
        "layout B(i) { dense(i: f); field f: i32; }",
        5,
        "refused: unknown name: item 1\n",
    ),
    (
        "const N = 4u; layout B(i) { dense(i: N); field f: i32; }",
        5,
        "refused: unknown name: item 2\n",
    ),
    (
        "layout B(i) { dense(i: 4); field f: i32; field g: i32; } layout D(i) { pointer(i: 4) cap B; field h: i32; }",
        5,
        "refused: unknown name: item 2\n",
    ),
    (
        "layout B(i) { dense(i: 4); field f: i32; field g: i32; } layout D(i) { dynamic(i: 4) chunk f cap 2; field h: i32; }",
        5,
        "refused: unknown name: item 2\n",
    ),
    (
        "layout B(i) { dense(i: 4); field f: i32; field g: i32; } kernel k { for i in f { let t = 0; } }",
        5,
        "refused: unknown name: item 2\n",
    ),
    (
        "layout B(i) { dense(i: 4); field f: i32; field g: i32; } kernel k { for i in k { let t = 0; } }",
        5,
        "refused: unknown name: item 2\n",
    ),
    (
        "kernel k { for i in B { let t = 0; } } layout B(i) { dense(i: 4); field f: i32; field g: i32; }",
        5,
        "refused: unknown name: item 1\n",
    ),
    (
        "kernel k { for i in 0..1 { f[i] = 0; } } layout B(i) { dense(i: 4); field f: i32; field g: i32; }",
        5,
        "refused: unknown name: item 1\n",
    ),
    (
        "layout B(i) { dense(i: 4); field f: i32; field g: i32; } kernel k { for i in 0..1 { h[i] = 0; } }",
        5,
        "refused: unknown name: item 2\n",
    ),
    (
        "layout B(i) { dense(i: 4); field f: i32; field g: i32; } kernel k { for i in 0..1 { f[h[i]] = 0; } }",
        5,
        "refused: unknown name: item 2\n",
    ),
    (
        "layout B(i) { dense(i: 4); field f: i32; field g: i32; } kernel k { for i in 0..1 { f[i] = h[i]; } }",
        5,
        "refused: unknown name: item 2\n",
    ),
    (
        "layout B(i) { dense(i: 4); field f: i32; field g: i32; } kernel k { for i in 0..1 { f[i] += h[i]; } }",
        5,
        "refused: unknown name: item 2\n",
    ),
    (
        "layout B(i) { dense(i: 4); field f: i32; field g: i32; } kernel k { for i in 0..1 { let t = -h[i]; } }",
        5,
        "refused: unknown name: item 2\n",
    ),
    (
        "layout B(i) { dense(i: 4); field f: i32; field g: i32; } kernel k { for i in 0..1 { let t = (1 + h[i]) * 2; } }",
        5,
        "refused: unknown name: item 2\n",
    ),
    (
        "layout B(i) { dense(i: 4); field f: i32; field g: i32; } kernel k { for i in 0..1 { let t = min(1, h[i]); } }",
        5,
        "refused: unknown name: item 2\n",
    ),
    (
        "layout B(i) { dense(i: 4); field f: i32; field g: i32; } kernel k { for i in 0..1 { let t = f[h[i]]; } }",
        5,
        "refused: unknown name: item 2\n",
    ),
    (
        "layout B(i) { dense(i: 4); field f: i32; field g: i32; } kernel k { for i in 0..1 { if h[i] == 0 { } } }",
        5,
        "refused: unknown name: item 2\n",
    ),
    (
        "layout B(i) { dense(i: 4); field f: i32; field g: i32; } kernel k { for i in 0..1 { if true { f[i] = h[i]; } } }",
        5,
        "refused: unknown name: item 2\n",
    ),
    (
        "layout B(i) { dense(i: 4); field f: i32; field g: i32; } kernel k { for i in 0..1 { if true { } else { f[i] = h[i]; } } }",
        5,
        "refused: unknown name: item 2\n",
    ),
    (
        "layout B(i) { dense(i: 4); field f: i32; field g: i32; } kernel k { for i in 0..1 { for p in h[i]..2 { } } }",
        5,
        "refused: unknown name: item 2\n",
    ),
    (
        "layout B(i) { dense(i: 4); field f: i32; field g: i32; } kernel k { for i in 0..1 { for p in 0..h[i] { } } }",
        5,
        "refused: unknown name: item 2\n",
    ),
    (
        "layout B(i) { dense(i: 4); field f: i32; field g: i32; } kernel k { for i in 0..1 { for p in 0..2 { f[i] = h[p]; } } }",
        5,
        "refused: unknown name: item 2\n",
    ),
    (
        "layout B(i) { dense(i: 4); field f: i32; field g: i32; } kernel k { for i in h[0]..1 { let t = 0; } }",
        5,
        "refused: unknown name: item 2\n",
    ),
    (
        "layout B(i) { dense(i: 4); field f: i32; field g: i32; } kernel k { for i in 0..h[0] { let t = 0; } }",
        5,
        "refused: unknown name: item 2\n",
    ),
    (
        "layout B(i) { dense(i: 4); field f: i32; field g: i32; } load B;",
        5,
        "refused: unknown name: item 2\n",
    ),
    (
        "layout B(i) { dense(i: 4); field f: i32; field g: i32; } load h;",
        5,
        "refused: unknown name: item 2\n",
    ),
    (
        "layout B(i) { dense(i: 4); field f: i32; field g: i32; } dump B;",
        5,
        "refused: unknown name: item 2\n",
    ),
    (
        "layout B(i) { dense(i: 4); field f: i32; field g: i32; } image B 0 9;",
        5,
        "refused: unknown name: item 2\n",
    ),
    (
        "layout B(i) { dense(i: 4); field f: i32; field g: i32; } run B;",
        5,
        "refused: unknown name: item 2\n",
    ),
    (
        "layout B(i) { dense(i: 4); field f: i32; field g: i32; } run f;",
        5,
        "refused: unknown name: item 2\n",
    ),
    (
        "layout B(i) { dense(i: 4); field f: i32; field g: i32; } stats f;",
        5,
        "refused: unknown name: item 2\n",
    ),
    (
        "layout B(i) { dense(i: 4); field f: i32; field g: i32; } prune f;",
        5,
        "refused: unknown name: item 2\n",
    ),
    (
        "layout B(i) { dense(i: 4); field f: i32; field g: i32; } clear f;",
        5,
        "refused: unknown name: item 2\n",
    ),
    (
        "layout B(i) { dense(i: 4); field f: i32; field g: i32; } times 2 { run f; }",
        5,
        "refused: unknown name: item 2\n",
    ),
    (
        "layout B(i) { dense(i: 4); field f: i32; field g: i32; } times 2 { dump f; load B; }",
        5,
        "refused: unknown name: item 2\n",
    ),
    (
        "dump f; layout B(i) { dense(i: 4); field f: i32; field g: i32; }",
        5,
        "refused: unknown name: item 1\n",
    ),
    (
        "layout B(i) { dense(i: 4); field f: i32; field g: i32; } run k; kernel k { for i in B { let t = 0; } }",
        5,
        "refused: unknown name: item 2\n",
    ),
    (
        "const N = 4; const N = 4;",
        5,
        "refused: name twice: item 2\n",
    ),
    (
        "const B = 4; layout B(i) { dense(i: 4); field f: i32; field g: i32; }",
        5,
        "refused: name twice: item 2\n",
    ),
    (
        "const g = 4; layout B(i) { dense(i: 4); field f: i32; field g: i32; }",
        5,
        "refused: name twice: item 2\n",
    ),
    (
        "layout B(i) { dense(i: 4); field f: i32; field g: i32; } layout B(i) { dense(i: 4); field f: i32; field g: i32; }",
        5,
        "refused: name twice: item 2\n",
    ),
    (
        "layout B(i) { dense(i: 4); field f: i32; field g: i32; } layout f(i) { dense(i: 4); field h: i32; }",
        5,
        "refused: name twice: item 2\n",
    ),
    (
        "layout B(i) { dense(i: 4); field f: i32; field g: i32; } layout D(i) { dense(i: 4); field g: i32; }",
        5,
        "refused: name twice: item 2\n",
    ),
    (
        "layout B(i) { dense(i: 4); field f: i32; field g: i32; } kernel g { for i in B { let t = 0; } }",
        5,
        "refused: name twice: item 2\n",
    ),
    (
        "layout B(i) { dense(i: 4); field f: i32; field g: i32; } kernel k { for i in B { let t = 0; } } const k = 1;",
        5,
        "refused: name twice: item 3\n",
    ),
    (
        "layout D(i) { dense(i: 4); field D: i32; }",
        5,
        "refused: name twice: item 1\n",
    ),
    (
        "layout D(i) { dense(i: 4); field h: i32; field p: i32; field h: i32; }",
        5,
        "refused: name twice: item 1\n",
    ),
    (
        "layout D(i, j, i) { dense(i: 4); field h: i32; }",
        5,
        "refused: name twice: item 1\n",
    ),
    (
        "const B = 4; layout B(i, i) { dense(i: N); field f: i32; }",
        5,
        "refused: unknown name: item 2\n",
    ),
    (
        "const N = 1; const N = 2; dump h;",
        5,
        "refused: name twice: item 2\n",
    ),
    (
        "dump h; const N = 1; const N = 2;",
        5,
        "refused: unknown name: item 1\n",
    ),
    (
        "const i = 4; layout D(i, j) { dense(i: i, j: 2); field h: i32; } layout j(i) { dense(i: 4); field p: i32; }",
        0,
        "",
    ),
];

#[test]
fn names_that_do_not_fit(rt: HostRuntime) -> Result<(), Fail> {
    compare(&rt, rt.alloc(), NAMES)
}
