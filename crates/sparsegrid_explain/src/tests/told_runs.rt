//! Runs that are refused: a file, the last line of a run of it, the begin of what is told, and how many carets are below the place.

/// Runs that are refused, each with its last line.
pub(super) static RUNS: &[(&str, &str, &str, usize)] = &[
    (
        "layout S(i) { pointer(i: 64) cap 4; dense(i: 16); field a: i32; }\nkernel k { for i in 0..512 { a[i] += i; } }\nrun k; dump a;\n",
        "refused: pool full: S node 1 cap 4",
        "p.sg:1:30: more are needed than this cap allows: at most 64",
        5,
    ),
    (
        "layout L(i) { dynamic(i: 8) chunk 4 cap 1; field a: i32; }\nkernel k { for i in 0..8 { a[i] += i; } }\nrun k;\n",
        "refused: pool full: L node 1 cap 1",
        "p.sg:1:37: more are needed than this cap allows: at most 2",
        5,
    ),
    (
        "layout A(i) { dense(i: 4); field x: i32; field y: i32; }\nkernel push { for i in 0..4 { y[i + 1] += x[i] + 1; } }\nrun push;\n",
        "refused: write outside: kernel push statement 1 at 3",
        "p.sg:2:31: this writes outside the extents in the iteration i = 3",
        20,
    ),
    (
        "layout B(y, x) { dense(y: 4, x: 4); field b: i32; field c: u32; }\nkernel k { for y, x0 in 2..6, 3..5 { let a = 1; b[y, x0] = a; } }\nrun k;\n",
        "refused: write outside: kernel k statement 2 at 4 3",
        "p.sg:2:49: this writes outside the extents in the iteration y = 4 x0 = 3",
        12,
    ),
    (
        "layout A(i) { dense(i: 4); field x: i32; field y: i32; }\nload x;\ndump x;\n",
        "refused: no file for x",
        "p.sg:2:1: no word binds a file to `x`",
        6,
    ),
    (
        "layout A(i) { dense(i: 4); field x: i32; field y: i32; }\nload x;\ndump x;\n",
        "refused: grid: x line 2",
        "p.sg:2:1: line 2 of the file that is bound to `x`",
        6,
    ),
    (
        "layout A(i) { dense(i: 4); field x: i32; field y: i32; }\nload x;\ndump x;\n",
        "refused: limit: grid rows x",
        "p.sg:2:1: a grid text has at most 1,048,576 rows",
        6,
    ),
    (
        "layout A(i) { dense(i: 4); field x: i32; field y: i32; }\nload x;\ndump x;\n",
        "refused: limit: grid bytes x",
        "p.sg:2:1: a grid text has at most 16,777,216 bytes",
        6,
    ),
    (
        "layout A(i) { dense(i: 4); field x: i32; field y: i32; }\ndump x;\n",
        "refused: read x.grid",
        "p.sg: each file that is named",
        0,
    ),
    (
        "layout A(i) { dense(i: 4); field x: i32; field y: i32; }\ndump x;\n",
        "refused: words",
        "p.sg: the words are a file",
        0,
    ),
    (
        "layout A(i) { dense(i: 4); field x: i32; field y: i32; }\ndump x;\n",
        "refused: snapshot",
        "p.sg: a snapshot is whole, and of a file",
        0,
    ),
    (
        "layout A(i) { dense(i: 4); field x: i32; field y: i32; }\ndump x;\n",
        "refused: limit: snapshot bytes",
        "p.sg: a snapshot has at most 67,108,864 bytes",
        0,
    ),
    (
        "layout A(i) { dense(i: 4); field x: i32; field y: i32; }\ndump x;\n",
        "refused: limit: journal bytes",
        "p.sg: a journal has at most 16,777,216 bytes",
        0,
    ),
    (
        "layout A(i) { dense(i: 4); field x: i32; field y: i32; }\ndump x;\n",
        "refused: write outside: kernel nope statement 1 at 3",
        "p.sg: nothing is refused before the first command, and this line is of another file",
        0,
    ),
    (
        "layout A(i) { dense(i: 4); field x: i32; field y: i32; }\ndump x;\n",
        "refused: syntax: item 3 line 3",
        "p.sg: nothing is refused before the first command, and this line is of another file",
        0,
    ),
    (
        "layout A(i) { dense(i: 4); field x: i32; field y: i32; }\ndump x;\n",
        "refused: type: kernel k statement 3 code 1",
        "p.sg: nothing is refused before the first command, and this line is of another file",
        0,
    ),
    (
        "layout A(i) { dense(i: 4); field x: i32; field y: i32; }\ndump x;\n",
        "refused: nonsense",
        "p.sg: nothing is refused before the first command, and this line is of another file",
        0,
    ),
];

/// What may be a mistake: a file, the fields that are bound, each with a blank behind it, and the begin of a line that is told.
pub(super) static WARNINGS: &[(&str, &str, &str)] = &[
    (
        "layout A(i) { dense(i: 4); field x: i32; field y: i32; }\nkernel k { for i in A { x[i] = y[i]; } }\nload y; dump x;\n",
        "y ",
        "p.sg:2:8: warning: kernel `k` is never run",
    ),
    (
        "layout A(i) { dense(i: 4); field x: i32; field y: i32; }\nkernel k { for i in A { x[i] = y[i]; } }\nrun k; dump x;\n",
        "",
        "p.sg:1:48: warning: field `y` is never written",
    ),
    (
        "layout A(i) { dense(i: 4); field x: i32; field y: i32; }\nkernel k { for i in A { x[i] = 1; y[i] = 2; } }\nrun k; dump x;\n",
        "",
        "p.sg:1:48: warning: field `y` is never read and never shown",
    ),
    (
        "layout S(i) { pointer(i: 64) cap 65; dense(i: 16); field a: i32; }\nload a; dump a;\n",
        "a ",
        "p.sg:1:30: warning: this cap can't be reached, and counts in full: at most 64 are ever needed",
    ),
    (
        "layout S(i) { pointer(i: 4) cap 4; dynamic(i: 8) chunk 4 cap 9; field a: i32; }\nload a; dump a;\n",
        "a ",
        "p.sg:1:58: warning: this cap can't be reached, and counts in full: at most 8 are ever needed",
    ),
    (
        "layout A(i) { dense(i: 4); field x: i32; field y: i32; }\nload x; load x;\nkernel k { for i in A { y[i] = x[i]; } }\nrun k; dump y;\n",
        "",
        "p.sg:2:1: warning: no word binds a file to `x`: x=NAME",
    ),
];
