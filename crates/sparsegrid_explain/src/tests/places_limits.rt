//! Refused texts of names, bytes, numbers and commands, and runs that write outside: each with its last line, and the line, the column and the
//! length of what is shown.

use super::shown;
use std::test::Fail;

/// Names, bytes, numbers and commands that are refused, and runs that write outside.
static MISTAKES: &[(&str, &str, u32, u32, u32)] = &[
    (
        "const N = 4; layout A(i) { dense(i: 4); field x: i32; } kernel k { for i in A { } } times 0 { run k; }",
        "refused: command: item 4",
        1,
        85,
        18,
    ),
    (
        "const N = 4; layout A(i) { dense(i: 4); field x: i32; } kernel k { for i in A { } } times 1001 { run k; }",
        "refused: limit: times",
        1,
        91,
        4,
    ),
    ("run k;", "refused: unknown name: item 1", 1, 5, 1),
    (
        "layout A(i) { dense(i: 4); field height: i32; } kernel k { for i in A { height[i] = hieght[i]; } }",
        "refused: unknown name: item 2",
        1,
        85,
        6,
    ),
    (
        "layout A(i) { dense(i: 4); field x: i32; } dump A;",
        "refused: unknown name: item 2",
        1,
        49,
        1,
    ),
    (
        "layout A(i) { dense(i: 4); field x: i32; } kernel k { for i in x { } }",
        "refused: unknown name: item 2",
        1,
        64,
        1,
    ),
    (
        "layout A(i) { dense(i: 4); field x: i32; } kernel x { for i in A { } }",
        "refused: name twice: item 2",
        1,
        51,
        1,
    ),
    (
        "const N = 4; layout A(i) { dense(i: 4); field x: i32; } kernel k { for i in A { x[i] = 1.5; } } ",
        "refused: bad byte: line 1",
        1,
        89,
        1,
    ),
    (
        "const N = 4; layout A(i) { dense(i: 4); field x: i32; } kernel k { for i in A { x[i] = é; } } ",
        "refused: bad byte: line 1",
        1,
        88,
        2,
    ),
    (
        "const N = 4; layout A(i) { dense(i: 4); field x: i32; } kernel k { for i in A { x[i] = #; } } ",
        "refused: bad byte: line 1",
        1,
        88,
        1,
    ),
    (
        "const N = 4; layout A(i) { dense(i: 4); field x: i32; } kernel k { for i in A { x[i] = \"a\"; } } ",
        "refused: bad byte: line 1",
        1,
        88,
        1,
    ),
    (
        "const N = 4; layout A(i) { dense(i: 4); field x: i32; } kernel k { for i in A { x[i] = 07; } } ",
        "refused: bad number: line 1",
        1,
        88,
        2,
    ),
    (
        "const N = 4; layout A(i) { dense(i: 4); field x: i32; } kernel k { for i in A { x[i] = 0x10; } } ",
        "refused: bad number: line 1",
        1,
        88,
        4,
    ),
    (
        "const N = 4; layout A(i) { dense(i: 4); field x: i32; } kernel k { for i in A { x[i] = 1e5; } } ",
        "refused: bad number: line 1",
        1,
        88,
        3,
    ),
    (
        "const N = 4; layout A(i) { dense(i: 4); field x: i32; } kernel k { for i in A { x[i] = 1_000; } } ",
        "refused: bad number: line 1",
        1,
        88,
        5,
    ),
    (
        "const N = 4; layout A(i) { dense(i: 4); field x: i32; } kernel k { for i in A { x[i] = 2147483649; } } ",
        "refused: bad number: line 1",
        1,
        88,
        10,
    ),
    ("const N = 07;", "refused: bad number: line 1", 1, 11, 2),
    ("const N = 3;\n@", "refused: bad byte: line 2", 2, 1, 1),
    ("const N = 3;\n}", "refused: syntax: item 2 line 2", 2, 1, 1),
    (
        "const abcdefghijklmnopqrstuvwxyz0123456 = 1;",
        "refused: limit: name bytes",
        1,
        7,
        33,
    ),
    (
        "layout A(i) { dense(i: 4); field x: i32; } kernel k { for i in 0..4 { x[i] = i * i; } } run k; dump x",
        "refused: syntax: item 4 line 1",
        1,
        102,
        0,
    ),
    (
        "const N = 1; const N = 2;",
        "refused: name twice: item 2",
        1,
        20,
        1,
    ),
    (
        "layout A(i) { dense(i: N); field x: i32; } const N = 4;",
        "refused: unknown name: item 1",
        1,
        24,
        1,
    ),
    (
        "const N = 1; const N = 2; const M = 07;",
        "refused: bad number: line 1",
        1,
        37,
        2,
    ),
    (
        "run k; const N = ;",
        "refused: syntax: item 2 line 1",
        1,
        18,
        1,
    ),
    (
        "layout A(i) { dense(i: 1); field x: i32; } kernel k { for i in 0..1 { x[i] = true; } } run m;",
        "refused: unknown name: item 3",
        1,
        92,
        1,
    ),
    (
        "layout A(i, j, k) { dense(i: 2, j: 2, k: 2); field x: i32; } layout B(i, j, k) { dense(i: 2, j: 4, k: 1); field y: i32; } kernel n { for a, b, c in 0..2, 1..3, 0..1 { y[a, b, c] = 1; x[a, b, c] = 1; } } run n;",
        "refused: write outside: kernel n statement 2 at 0 2 0",
        1,
        184,
        14,
    ),
    (
        "layout A(i, j) { dense(i: 4, j: 4); field x: i32; } kernel k { for i, j in 1..3, -1..2 { let a = i; let b = j; x[i, j] = a + b; } } run k; dump x;",
        "refused: write outside: kernel k statement 3 at 1 -1",
        1,
        112,
        15,
    ),
    (
        "layout A(i) { dense(i: 2); field x: i32; } layout B(i) { dense(i: 1); field y: i32; } kernel k { for i in 0..4 { y[i] = 1; x[i] = 2; y[i] = 3; } } run k;",
        "refused: write outside: kernel k statement 1 at 1",
        1,
        114,
        8,
    ),
    (
        "layout A(i) { dense(i: 1); field x: i32; field y: u32; } kernel one { for i in 0..1 { x[i] = x[i] - 1; } } kernel two { for i in 0..1 { y[i] = u32(x[i]); } } kernel bad { for i in 0..2 { x[i] = 5; } } run one; dump x; run two; dump y; run bad; dump x; run bad;",
        "refused: write outside: kernel bad statement 1 at 1",
        1,
        188,
        8,
    ),
];

#[test]
fn mistakes_are_shown_in_their_order(rt: HostRuntime) -> Result<(), Fail> {
    let alloc = rt.alloc();
    for (text, last, line, column, length) in MISTAKES {
        assert_eq!(rt;
            shown(alloc, *text, *last),
            Some((*line, *column, *length)),
            "{text}"
        );
    }
    Ok(())
}
