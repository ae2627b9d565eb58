use super::setting::compare;
use std::test::Fail;

static REFUSALS: &[(&str, u8, &str)] = &[
    // tokens and syntax
    ("const N = 07;", 4, "refused: bad number: line 1\n"),
    ("const N = 3;\n@", 4, "refused: bad byte: line 2\n"),
    ("const N = 3", 4, "refused: syntax: item 1 line 1\n"),
    ("const N = 3; ;", 4, "refused: syntax: item 2 line 1\n"),
    ("const N = 3;\n}", 4, "refused: syntax: item 2 line 2\n"),
    (
        "const abcdefghijklmnopqrstuvwxyz0123456 = 1;",
        8,
        "refused: limit: name bytes\n",
    ),
    ("const abcdefghijklmnopqrstuvwxyz012345 = 1;", 0, ""),
    // a program that is cut before its last sign, and behind its kernel
    (
        "layout A(i) { dense(i: 4); field x: i32; } kernel k { for i in 0..4 { x[i] = i * i; } } run k; dump x",
        4,
        "refused: syntax: item 4 line 1\n",
    ),
    (
        "layout A(i) { dense(i: 4); field x: i32; } kernel k { for i in 0..4 { x[i] = i * i; } }",
        0,
        "",
    ),
    // names
    (
        "const N = 1; const N = 2;",
        5,
        "refused: name twice: item 2\n",
    ),
    ("run k;", 5, "refused: unknown name: item 1\n"),
    (
        "layout A(i) { dense(i: N); field x: i32; } const N = 4;",
        5,
        "refused: unknown name: item 1\n",
    ),
    (
        "const N = 4u; layout A(i) { dense(i: N); field x: i32; }",
        5,
        "refused: unknown name: item 2\n",
    ),
    (
        "layout A(i, i) { dense(i: 4); field x: i32; }",
        5,
        "refused: name twice: item 1\n",
    ),
    // types
    (
        "layout A(i) { dense(i: 1); field x: i32; } kernel k { for i in A { x[i] = true; } }",
        5,
        "refused: type: kernel k statement 1 code 1\n",
    ),
    (
        "layout A(i) { dense(i: 1); field x: i32; } kernel k { for i in 0..1 { x[i] = 1; } } kernel m { for i in 0..1 { x[i, 0] = 1; } }",
        5,
        "refused: type: kernel m statement 1 code 2\n",
    ),
    (
        "layout A(i) { dense(i: 1); field x: i32; } kernel k { for i in 0..1 { let a = 1; i = a; } }",
        5,
        "refused: type: kernel k statement 2 code 3\n",
    ),
    (
        "layout A(i) { dense(i: 1); field x: i32; } kernel k { for i in 0..i { x[i] = 1; } }",
        5,
        "refused: type: kernel k statement 0 code 4\n",
    ),
    (
        "layout A(i) { dense(i: 1); field x: i32; } kernel k { for i in 0..1 { let a = 1; if a == 1 { x[i] = 1; } else { let a = 2; } } }",
        5,
        "refused: type: kernel k statement 4 code 5\n",
    ),
    (
        "layout A(i, j) { dense(i: 1, j: 1); field x: i32; } kernel k { for i in A { x[i, i] = 1; } }",
        5,
        "refused: type: kernel k statement 0 code 2\n",
    ),
    // the earlier step first, whatever the items
    (
        "const N = 1; const N = 2; const M = 07;",
        4,
        "refused: bad number: line 1\n",
    ),
    ("run k; const N = ;", 4, "refused: syntax: item 2 line 1\n"),
    (
        "layout A(i) { dense(i: 1); field x: i32; } kernel k { for i in 0..1 { x[i] = true; } } run m;",
        5,
        "refused: unknown name: item 3\n",
    ),
    // a write outside
    (
        "layout A(i) { dense(i: 4); field x: i32; } kernel k { for i in 2..6 { let a = i; x[i] = a; } } run k; dump x;",
        7,
        "refused: write outside: kernel k statement 2 at 4\n",
    ),
    (
        "layout A(i) { dense(i: 4); field x: i32; } kernel k { for i in -1..9 { x[i] = i; } } dump x; run k; dump x;",
        7,
        "grid 1 4\n0 0\n1 0\n2 0\n3 0\nrefused: write outside: kernel k statement 1 at -1\n",
    ),
    (
        "layout A(i, j) { dense(i: 4, j: 4); field x: i32; } kernel k { for i, j in 2..6, 3..5 { x[i, j] = 1; } } run k;",
        7,
        "refused: write outside: kernel k statement 1 at 2 4\n",
    ),
    (
        "layout A(i, j, k) { dense(i: 2, j: 2, k: 2); field x: i32; } layout B(i, j, k) { dense(i: 2, j: 4, k: 1); field y: i32; } \
         kernel n { for a, b, c in 0..2, 1..3, 0..1 { y[a, b, c] = 1; x[a, b, c] = 1; } } run n;",
        7,
        "refused: write outside: kernel n statement 2 at 0 2 0\n",
    ),
    (
        "layout A(i, j) { dense(i: 4, j: 4); field x: i32; } kernel k { for i, j in 1..3, -1..2 { let a = i; let b = j; x[i, j] = a + b; } } \
         run k; dump x;",
        7,
        "refused: write outside: kernel k statement 3 at 1 -1\n",
    ),
    (
        "layout A(i, j, k) { dense(i: 4, j: 4, k: 2); field x: i32; } kernel n { for i, j, k in 1..3, 2..4, 1..3 { x[i, j, k] = 1; } } run n;",
        7,
        "refused: write outside: kernel n statement 1 at 1 2 2\n",
    ),
    // of two writes outside the first in order of execution, and of two iterations the first in row order
    (
        "layout A(i) { dense(i: 2); field x: i32; } layout B(i) { dense(i: 1); field y: i32; } \
         kernel k { for i in 0..4 { y[i] = 1; x[i] = 2; y[i] = 3; } } run k;",
        7,
        "refused: write outside: kernel k statement 1 at 1\n",
    ),
    // what ran before is written, and what stands after the refused command is not run
    (
        "layout A(i) { dense(i: 1); field x: i32; field y: u32; } kernel one { for i in 0..1 { x[i] = x[i] - 1; } } \
         kernel two { for i in 0..1 { y[i] = u32(x[i]); } } kernel bad { for i in 0..2 { x[i] = 5; } } \
         run one; dump x; run two; dump y; run bad; dump x; run bad;",
        7,
        "grid 1 1\n0 -1\ngrid 1 1\n0 4294967295\nrefused: write outside: kernel bad statement 1 at 1\n",
    ),
];

#[test]
fn refusals(rt: HostRuntime) -> Result<(), Fail> {
    compare(&rt, rt.alloc(), REFUSALS)
}
