//! The refused examples of the language page, each with its line.

use super::setting::compare;
use std::test::Fail;

static OTHERS: &[(&str, u8, &str)] = &[
    (
        "layout A(i) { pointer(i: 4) cap 1; dense(i: 4); field x: i32; } kernel k { for i in 5..7 { x[i] = 1; } } kernel l { for i in 12..13 { x[i] = 1; } } run k; run l;",
        7,
        "refused: pool full: A node 1 cap 1\n",
    ),
    (
        "layout A(i) { dense(i: 0); field x: i32; }",
        5,
        "refused: layout: A node 1 rule 1\n",
    ),
    (
        "layout A(i) { dense(j: 4); field x: i32; }",
        5,
        "refused: layout: A node 1 rule 3\n",
    ),
    (
        "layout A(i) { pointer(i: 4) cap 0; field x: i32; }",
        5,
        "refused: layout: A node 1 rule 5\n",
    ),
    (
        "layout A(i) { pointer(i: 4) cap 65537; field x: i32; }",
        5,
        "refused: layout: A node 1 rule 5\n",
    ),
    (
        "const N = 4; layout A(i) { dense(i: 4); field x: i32; } kernel k { for i in A { x[i + 1] = 2; } } layout H(i) { hash(i: 4) cap 4; field h: i32; }",
        5,
        "refused: admission: kernel k statement 1 rule 2\n",
    ),
    (
        "const N = 4; layout A(i) { dense(i: 4); field x: i32; } kernel k { for i in A { x[i + 1] = 2; } } layout H(i) { dynamic(i: 4) chunk 2 cap 4; field h: i32; }",
        5,
        "refused: admission: kernel k statement 1 rule 2\n",
    ),
    (
        "const N = 4; layout A(i) { dense(i: 4); field x: i32; } kernel k { for i in A { x[i + 1] = 2; } } image x 0 9;",
        5,
        "refused: admission: kernel k statement 1 rule 2\n",
    ),
    (
        "const N = 4; layout A(i) { dense(i: 4); field x: i32; } kernel k { for i in A { x[i + 1] = 2; } } stats A;",
        5,
        "refused: admission: kernel k statement 1 rule 2\n",
    ),
    (
        "const N = 4; layout A(i) { dense(i: 4); field x: i32; } kernel k { for i in A { x[i + 1] = 2; } } prune A;",
        5,
        "refused: admission: kernel k statement 1 rule 2\n",
    ),
    (
        "const N = 4; layout A(i) { dense(i: 4); field x: i32; } kernel k { for i in A { x[i + 1] = 2; } } clear A;",
        5,
        "refused: admission: kernel k statement 1 rule 2\n",
    ),
    (
        "const N = 4; layout A(i) { dense(i: 4); field x: i32; } kernel k { for i in A { x[i + 1] = 2; } } times 2 { run k; clear A; }",
        5,
        "refused: admission: kernel k statement 1 rule 2\n",
    ),
    (
        "const N = 4; layout A(i) { dense(i: 4); field x: i32; } kernel k { for i in A { } } times 0 { run k; }",
        5,
        "refused: command: item 4\n",
    ),
    (
        "const N = 4; layout A(i) { dense(i: 4); field x: i32; } kernel k { for i in A { } } times 1001 { run k; }",
        8,
        "refused: limit: times\n",
    ),
    (
        "const N = 4; layout A(i) { dense(i: 4); field x: i32; } kernel k { for i in A { x[i + 1] += 1; } } run k;",
        7,
        "refused: write outside: kernel k statement 1 at 3\n",
    ),
];

#[test]
fn refused_by_layouts_and_commands(rt: HostRuntime) -> Result<(), Fail> {
    compare(&rt, rt.alloc(), OTHERS)
}

static ADMISSIONS: &[(&str, u8, &str)] = &[
    (
        "layout A(i) { dense(i: 8); field x: i32; field y: i32; } layout V(i) { dense(i: 16); field v: i32; } kernel k { for i in A { x[i] += 1; x[i] max= 5; } }",
        5,
        "refused: admission: kernel k statement 2 rule 1\n",
    ),
    (
        "layout A(i) { dense(i: 8); field x: i32; field y: i32; } layout V(i) { dense(i: 16); field v: i32; } kernel k { for i in A { x[i] = 0; x[i] += y[i]; } }",
        5,
        "refused: admission: kernel k statement 2 rule 1\n",
    ),
    (
        "layout A(i) { dense(i: 8); field x: i32; field y: i32; } layout V(i) { dense(i: 16); field v: i32; } kernel k { for i in 1..8 { x[i] = x[i - 1]; } }",
        5,
        "refused: admission: kernel k statement 1 rule 2\n",
    ),
    (
        "layout A(i) { dense(i: 8); field x: i32; field y: i32; } layout V(i) { dense(i: 16); field v: i32; } kernel k { for i in A { x[i + 1] = y[i]; } }",
        5,
        "refused: admission: kernel k statement 1 rule 2\n",
    ),
    (
        "layout A(i) { dense(i: 8); field x: i32; field y: i32; } layout V(i) { dense(i: 16); field v: i32; } kernel k { for i in 0..4 { x[2 * i] = 1; } }",
        5,
        "refused: admission: kernel k statement 1 rule 2\n",
    ),
    (
        "layout A(i) { dense(i: 8); field x: i32; field y: i32; } layout V(i) { dense(i: 16); field v: i32; } kernel k { for i, j in 0..4, 0..4 { x[i] = 1; } }",
        5,
        "refused: admission: kernel k statement 1 rule 2\n",
    ),
    (
        "layout A(i) { dense(i: 8); field x: i32; field y: i32; } layout V(i) { dense(i: 16); field v: i32; } kernel k { for i in A { x[(i)] = 1; } }",
        5,
        "refused: admission: kernel k statement 1 rule 2\n",
    ),
    (
        "layout A(i) { dense(i: 8); field x: i32; field y: i32; } layout V(i) { dense(i: 16); field v: i32; } kernel k { for i in A { if v[0] < 9 { v[0] += x[i]; } } }",
        5,
        "refused: admission: kernel k statement 1 rule 3\n",
    ),
    (
        "layout A(i) { dense(i: 8); field x: i32; field y: i32; } layout V(i) { dense(i: 16); field v: i32; } kernel k { for i in A { x[i] += x[i]; } }",
        5,
        "refused: admission: kernel k statement 1 rule 3\n",
    ),
    (
        "layout A(i) { dense(i: 8); field x: i32; field y: i32; } layout V(i) { dense(i: 16); field v: i32; } kernel k { for i in A { if x[i] > 0 { v[i + 1] += 1; x[i] = 0; } } }",
        5,
        "refused: admission: kernel k statement 2 rule 4\n",
    ),
    (
        "layout A(i) { dense(i: 8); field x: i32; field y: i32; } layout V(i) { dense(i: 16); field v: i32; } kernel k { for i in 0..8 { if x[i] > 3 { x[i] = 3; } } }",
        5,
        "refused: admission: kernel k statement 2 rule 4\n",
    ),
    (
        "layout A(i) { dense(i: 8); field x: i32; field y: i32; } layout V(i) { dense(i: 16); field v: i32; } kernel k { for i in A { let at = x[i]; x[i] = 0; v[at] += 1; } }",
        5,
        "refused: admission: kernel k statement 3 rule 4\n",
    ),
    (
        "layout A(i) { dense(i: 8); field x: i32; field y: i32; } layout V(i) { dense(i: 16); field v: i32; } kernel k { for i in A { for k in 0..i { x[i] = k; } } }",
        5,
        "refused: admission: kernel k statement 1 rule 5\n",
    ),
    (
        "layout A(i) { dense(i: 8); field x: i32; field y: i32; } layout V(i) { dense(i: 16); field v: i32; } kernel k { for i in A { for k in 0..64 { for l in 0..65 { v[0] += 1; } } } }",
        5,
        "refused: admission: kernel k statement 2 rule 5\n",
    ),
    (
        "layout A(i) { dense(i: 8); field x: i32; field y: i32; } layout V(i) { dense(i: 16); field v: i32; } kernel k { for i in 0..x[0] { v[i] += 1; } }",
        5,
        "refused: admission: kernel k statement 0 rule 5\n",
    ),
];

#[test]
fn refused_by_admission(rt: HostRuntime) -> Result<(), Fail> {
    compare(&rt, rt.alloc(), ADMISSIONS)
}

static NAMES: &[(&str, u8, &str)] = &[
    (
        "layout A(i) { dense(i: 8); field x: i32; field y: i32; } layout V(i) { dense(i: 16); field v: i32; }         kernel k {                        // statement 0 is the loop over A\nfor i in A {\nlet a = x[i];                 // 1\nif a > 3 {                    // 2\nfor n in 0..2 { a = nope; }  // 3, and 4 inside\n} else {\nx[i] = 0;                   // 5\n}\ny[i] = a;                     // 6\n}\n}\n\n",
        5,
        "refused: type: kernel k statement 4 code 4\n",
    ),
    (
        "layout A(i) { dense(i: 8); field x: i32; field y: i32; } layout V(i) { dense(i: 16); field v: i32; }         kernel k {                        // statement 0 is the loop over A\nfor i in A {\nlet a = nope;                 // 1\nif a > 3 {                    // 2\nfor n in 0..2 { a = a + n; }  // 3, and 4 inside\n} else {\nx[i] = 0;                   // 5\n}\ny[i] = a;                     // 6\n}\n}\n\n",
        5,
        "refused: type: kernel k statement 1 code 4\n",
    ),
    (
        "layout A(i) { dense(i: 8); field x: i32; field y: i32; } layout V(i) { dense(i: 16); field v: i32; }         kernel k {                        // statement 0 is the loop over A\nfor i in A {\nlet a = x[i];                 // 1\nif nope > 3 {                    // 2\nfor n in 0..2 { a = a + n; }  // 3, and 4 inside\n} else {\nx[i] = 0;                   // 5\n}\ny[i] = a;                     // 6\n}\n}\n\n",
        5,
        "refused: type: kernel k statement 2 code 4\n",
    ),
    (
        "layout A(i) { dense(i: 8); field x: i32; field y: i32; } layout V(i) { dense(i: 16); field v: i32; }         kernel k {                        // statement 0 is the loop over A\nfor i in A {\nlet a = x[i];                 // 1\nif a > 3 {                    // 2\nfor n in 0..nope { a = a + n; }  // 3, and 4 inside\n} else {\nx[i] = 0;                   // 5\n}\ny[i] = a;                     // 6\n}\n}\n\n",
        5,
        "refused: type: kernel k statement 3 code 4\n",
    ),
    (
        "layout A(i) { dense(i: 8); field x: i32; field y: i32; } layout V(i) { dense(i: 16); field v: i32; }         kernel k {                        // statement 0 is the loop over A\nfor i in A {\nlet a = x[i];                 // 1\nif a > 3 {                    // 2\nfor n in 0..2 { a = a + n; }  // 3, and 4 inside\n} else {\nx[i] = nope;                   // 5\n}\ny[i] = a;                     // 6\n}\n}\n\n",
        5,
        "refused: type: kernel k statement 5 code 4\n",
    ),
    (
        "layout A(i) { dense(i: 8); field x: i32; field y: i32; } layout V(i) { dense(i: 16); field v: i32; }         kernel k {                        // statement 0 is the loop over A\nfor i in A {\nlet a = x[i];                 // 1\nif a > 3 {                    // 2\nfor n in 0..2 { a = a + n; }  // 3, and 4 inside\n} else {\nx[i] = 0;                   // 5\n}\ny[i] = nope;                     // 6\n}\n}\n\n",
        5,
        "refused: type: kernel k statement 6 code 4\n",
    ),
    ("run k;", 5, "refused: unknown name: item 1\n"),
    (
        "layout A(i) { dense(i: 4); field height: i32; } kernel k { for i in A { height[i] = hieght[i]; } }",
        5,
        "refused: unknown name: item 2\n",
    ),
    (
        "layout A(i) { dense(i: 4); field x: i32; } dump A;",
        5,
        "refused: unknown name: item 2\n",
    ),
    (
        "layout A(i) { dense(i: 4); field x: i32; } kernel k { for i in x { } }",
        5,
        "refused: unknown name: item 2\n",
    ),
    (
        "const N = 4u; layout A(i) { dense(i: N); field x: i32; }",
        5,
        "refused: unknown name: item 2\n",
    ),
    (
        "layout A(i) { dense(i: 4); field x: i32; } layout B(i) { dense(i: 4); field x: i32; }",
        5,
        "refused: name twice: item 2\n",
    ),
    (
        "layout A(i) { dense(i: 4); field x: i32; } kernel x { for i in A { } }",
        5,
        "refused: name twice: item 2\n",
    ),
    (
        "const N = 4; layout A(i) { dense(i: 4); field x: i32; } kernel k { for i in A { let height = 1; x[i] = hieght; } } ",
        5,
        "refused: type: kernel k statement 2 code 4\n",
    ),
    (
        "const N = 4; layout A(i) { dense(i: 4); field x: i32; } kernel k { for i in A { x = 1; } } ",
        5,
        "refused: type: kernel k statement 1 code 4\n",
    ),
    (
        "const N = 4; layout A(i) { dense(i: 4); field x: i32; } kernel k { for i in A { let h = 1; let h = 2; } } ",
        5,
        "refused: type: kernel k statement 2 code 5\n",
    ),
    (
        "const N = 4; layout A(i) { dense(i: 4); field x: i32; } kernel k { for i in A { let i = 1; } } ",
        5,
        "refused: type: kernel k statement 1 code 5\n",
    ),
    (
        "const N = 4; layout A(i) { dense(i: 4); field x: i32; } kernel k { for i in A { let N = 1; } } ",
        5,
        "refused: type: kernel k statement 1 code 5\n",
    ),
    (
        "const N = 4; layout A(i) { dense(i: 4); field x: i32; } kernel k { for i in A { i = i + 1; } } ",
        5,
        "refused: type: kernel k statement 1 code 3\n",
    ),
    (
        "const N = 4; layout A(i) { dense(i: 4); field x: i32; } kernel k { for i in A { x[i, i] = 1; } } ",
        5,
        "refused: type: kernel k statement 1 code 2\n",
    ),
    (
        "const N = 4; layout A(i) { dense(i: 4); field x: i32; } kernel k { for i in A { x[i] = x[i] + 1u; } } ",
        5,
        "refused: type: kernel k statement 1 code 1\n",
    ),
    (
        "const N = 4; layout A(i) { dense(i: 4); field x: i32; } kernel k { for i in A { x[i] = i32(i < 1); } } ",
        5,
        "refused: type: kernel k statement 1 code 1\n",
    ),
    (
        "const N = 4; layout A(i) { dense(i: 4); field x: i32; } kernel k { for i in A { if i { } } } ",
        5,
        "refused: type: kernel k statement 1 code 1\n",
    ),
    (
        "const N = 4; layout A(i) { dense(i: 4); field x: i32; } kernel k { for i in A { x[u32(i)] = 1; } } ",
        5,
        "refused: type: kernel k statement 1 code 1\n",
    ),
    (
        "kernel k { for i in 0..4, 0..4 { } }",
        5,
        "refused: type: kernel k statement 0 code 2\n",
    ),
    (
        "kernel k { for i in 0..i { } }",
        5,
        "refused: type: kernel k statement 0 code 4\n",
    ),
    (
        "layout A(i) { dense(i: 4); field x: i32; } kernel k { for i in 0..4 { let a = 1; if a > i { x[i] = a; } x[i] = b; } }",
        5,
        "refused: type: kernel k statement 4 code 4\n",
    ),
];

#[test]
fn refused_by_names_and_types(rt: HostRuntime) -> Result<(), Fail> {
    compare(&rt, rt.alloc(), NAMES)
}

static TEXTS: &[(&str, u8, &str)] = &[
    (
        "const N = 4; layout A(i) { dense(i: 4); field x: i32; } kernel k { for i in A { x[i] = 1.5; } } ",
        4,
        "refused: bad byte: line 1\n",
    ),
    (
        "const N = 4; layout A(i) { dense(i: 4); field x: i32; } kernel k { for i in A { x[i] = é; } } ",
        4,
        "refused: bad byte: line 1\n",
    ),
    (
        "const N = 4; layout A(i) { dense(i: 4); field x: i32; } kernel k { for i in A { x[i] = #; } } ",
        4,
        "refused: bad byte: line 1\n",
    ),
    (
        "const N = 4; layout A(i) { dense(i: 4); field x: i32; } kernel k { for i in A { x[i] = \"a\"; } } ",
        4,
        "refused: bad byte: line 1\n",
    ),
    (
        "const N = 4; layout A(i) { dense(i: 4); field x: i32; } kernel k { for i in A { x[i] = 07; } } ",
        4,
        "refused: bad number: line 1\n",
    ),
    (
        "const N = 4; layout A(i) { dense(i: 4); field x: i32; } kernel k { for i in A { x[i] = 0x10; } } ",
        4,
        "refused: bad number: line 1\n",
    ),
    (
        "const N = 4; layout A(i) { dense(i: 4); field x: i32; } kernel k { for i in A { x[i] = 1e5; } } ",
        4,
        "refused: bad number: line 1\n",
    ),
    (
        "const N = 4; layout A(i) { dense(i: 4); field x: i32; } kernel k { for i in A { x[i] = 1_000; } } ",
        4,
        "refused: bad number: line 1\n",
    ),
    (
        "const N = 4; layout A(i) { dense(i: 4); field x: i32; } kernel k { for i in A { x[i] = 2147483649; } } ",
        4,
        "refused: bad number: line 1\n",
    ),
    (
        "const N = 4; layout A(i) { dense(i: 4); field x: i32; } kernel k { for i in A {  } }\n\nrun k dump x;",
        4,
        "refused: syntax: item 4 line 3\n",
    ),
    (
        "const N = 4; layout A(i) { dense(i: 4); field x: i32; } kernel k { for i in A { let cap = 1; } } ",
        4,
        "refused: syntax: item 3 line 1\n",
    ),
    (
        "const N = 4; layout A(i) { dense(i: 4); field x: i32; } kernel k { for i in A { let hash = 1; } } ",
        4,
        "refused: syntax: item 3 line 1\n",
    ),
    (
        "const N = 4; layout A(i) { dense(i: 4); field x: i32; } kernel k { for i in A { let min = 1; } } ",
        4,
        "refused: syntax: item 3 line 1\n",
    ),
    (
        "const N = 4; layout A(i) { dense(i: 4); field x: i32; } kernel k { for i in A { let load = 1; } } ",
        4,
        "refused: syntax: item 3 line 1\n",
    ),
    (
        "const N = 4; layout A(i) { dense(i: 4); field x: i32; } kernel k { for i in A { if 0 < i < 3 { } } } ",
        4,
        "refused: syntax: item 3 line 1\n",
    ),
    (
        "const N = 4; layout A(i) { dense(i: 4); field x: i32; } kernel k { for i in A { if i > 1 { } else if i > 2 { } } } ",
        4,
        "refused: syntax: item 3 line 1\n",
    ),
    (
        "const N = 4; layout A(i) { dense(i: 4); field x: i32; } kernel k { for i in A { x[i] -= 1; } } ",
        4,
        "refused: syntax: item 3 line 1\n",
    ),
    (
        "const N = 4; layout A(i) { dense(i: 4); field x: i32; } kernel k { for i in A { let x: i32 = 1; } } ",
        4,
        "refused: syntax: item 3 line 1\n",
    ),
    (
        "const N = 4; layout A(i) { dense(i: 4); field x: i32; } kernel k { for i in A { /* .. */ } } ",
        4,
        "refused: syntax: item 3 line 1\n",
    ),
    (
        "const N = 4; layout A(i) { dense(i: 4); field x: i32; } kernel k { for i in A { if i > 1 x[i] = 1; } } ",
        4,
        "refused: syntax: item 3 line 1\n",
    ),
    (
        "const N = 1; const M = 2 * N;",
        4,
        "refused: syntax: item 2 line 1\n",
    ),
    (
        "layout A(i) { field x: i32; dense(i: 4); }",
        4,
        "refused: syntax: item 1 line 1\n",
    ),
];

#[test]
fn refused_by_tokens_and_syntax(rt: HostRuntime) -> Result<(), Fail> {
    compare(&rt, rt.alloc(), TEXTS)
}
