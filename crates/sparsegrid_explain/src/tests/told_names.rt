//! Mistakes in bytes and names: a file, the last line of a run of it, the begin of what is told, and how many carets are below the place.

/// Bytes that are no tokens.
pub(super) static BYTES: &[(&str, &str, &str, usize)] = &[
    (
        "layout A(i) { dense(i: 4); field x: i32; field y: i32; }\nkernel k { for i in A { x[i] = y[i] * 0.5; } }\nrun k;\n",
        "",
        "p.sg:2:40: there are no fractions",
        1,
    ),
    (
        "layout A(i) { dense(i: 4); field x: i32; field y: i32; }\nkernel k { for i in A { x[i] = 1.5; } }\nrun k;\n",
        "",
        "p.sg:2:33: there are no fractions",
        1,
    ),
    (
        "layout A(i) { dense(i: 4); field x: i32; field y: i32; }\n# a comment\n",
        "",
        "p.sg:2:1: a comment is `//`",
        1,
    ),
    (
        "layout A(i) { dense(i: 4); field x: i32; field y: i32; }\nconst café = 1;\n",
        "",
        "p.sg:2:10: this byte may stand",
        1,
    ),
    (
        "layout A(i) { dense(i: 4); field x: i32; field y: i32; }\ndump \"x\";\n",
        "",
        "p.sg:2:6: this byte may stand",
        1,
    ),
    (
        "layout A(i) { dense(i: 4); field x: i32; field y: i32; }\nkernel k { for i in A { x[i] = 07; } }\nrun k;\n",
        "",
        "p.sg:2:32: a number is `0`",
        2,
    ),
    (
        "layout A(i) { dense(i: 4); field x: i32; field y: i32; }\nkernel k { for i in A { x[i] = 0x10; } }\nrun k;\n",
        "",
        "p.sg:2:32: a number is `0`",
        4,
    ),
    (
        "layout A(i) { dense(i: 4); field x: i32; field y: i32; }\nkernel k { for i in A { x[i] = 1e5; } }\nrun k;\n",
        "",
        "p.sg:2:32: a number is `0`",
        3,
    ),
    (
        "layout A(i) { dense(i: 4); field x: i32; field y: i32; }\nkernel k { for i in A { x[i] = 1_000; } }\nrun k;\n",
        "",
        "p.sg:2:32: a number is `0`",
        5,
    ),
    (
        "layout A(i) { dense(i: 4); field x: i32; field y: i32; }\nkernel k { for i in A { x[i] = 2147483649; } }\nrun k;\n",
        "",
        "p.sg:2:32: a number is `0`",
        10,
    ),
    (
        "layout A(i) { dense(i: 4); field x: i32; field y: i32; }\nkernel k { for i in A { x[i] = 4294967296u; } }\nrun k;\n",
        "",
        "p.sg:2:32: a number is `0`",
        11,
    ),
    (
        "const a_name_of_more_than_32_bytes_in_all = 1;\n",
        "",
        "p.sg:1:7: a name has at most 32",
        35,
    ),
    (
        "// é # 0.5 07\nconst N = 5x;\n",
        "",
        "p.sg:2:11: a number is `0`",
        2,
    ),
];

/// Names that stand for nothing.
pub(super) static NAMES: &[(&str, &str, &str, usize)] = &[
    (
        "layout A(i) { dense(i: 4); field x: i32; field y: i32; }\nrun k;\nkernel k { for i in A { x[i] = 1; } }\n",
        "",
        "p.sg:2:5: `k` is declared in line 3",
        1,
    ),
    (
        "layout L(i) { dense(i: 16); field height: i32; }\nkernel k { for i in L { height[i] = heigth[i]; } }\nrun k;\n",
        "",
        "p.sg:2:37: `heigth` is not known here as a field: the nearest name is `height`",
        6,
    ),
    (
        "layout A(i) { dense(i: 4); field x: i32; field y: i32; }\ndump A;\n",
        "",
        "p.sg:2:6: `A` is a layout, and here stands a field",
        1,
    ),
    (
        "layout A(i) { dense(i: 4); field x: i32; field y: i32; }\nkernel k { for i in x { x[i] = 1; } }\nrun k;\n",
        "",
        "p.sg:2:21: `x` is a field, and here stands a layout",
        1,
    ),
    (
        "const N = 4u;\nlayout A(i) { dense(i: N); field x: i32; }\n",
        "",
        "p.sg:2:24: `N` is a u32 constant, and here stands an i32 constant",
        1,
    ),
    (
        "layout A(i) { dense(i: 4); field x: i32; }\nlayout B(i) { dense(i: 4); field x: i32; }\n",
        "",
        "p.sg:2:34: `x` is declared in line 1 already",
        1,
    ),
    (
        "layout A(i) { dense(i: 4); field x: i32; field y: i32; }\nkernel x { for i in A { x[i] = 1; } }\n",
        "",
        "p.sg:2:8: `x` is declared in line 1 already",
        1,
    ),
    (
        "layout A(i, i) { dense(i: 4); field x: i32; }\n",
        "",
        "p.sg:1:13: `i` is declared in line 1 already",
        1,
    ),
    (
        "const A = 1;\nlayout A(i) { dense(i: 4); field x: i32; }\n",
        "",
        "p.sg:2:8: `A` is declared in line 1 already",
        1,
    ),
    (
        "layout A(i) { dense(i: 4); field x: i32; field y: i32; }\nstats B;\n",
        "",
        "p.sg:2:7: `B` is not known here as a layout",
        1,
    ),
    (
        "layout A(i) { dense(i: 4); field x: i32; field y: i32; }\nkernel k { for i in A { let height = 1; x[i] = hieght; } }\nrun k;\n",
        "",
        "p.sg:2:48: `hieght` is not known here as a local",
        6,
    ),
    (
        "layout A(i) { dense(i: 4); field x: i32; field y: i32; }\nkernel k { for i in A { if i > 1 { let h = 1; } x[i] = h; } }\nrun k;\n",
        "",
        "p.sg:2:56: `h` is not known here as a local",
        1,
    ),
    (
        "layout A(i) { dense(i: 4); field x: i32; field y: i32; }\nkernel k { for i in A { x = 1; } }\nrun k;\n",
        "",
        "p.sg:2:25: `x` is a field, and here stands a local",
        1,
    ),
    (
        "layout A(i) { dense(i: 4); field x: i32; field y: i32; }\nkernel k { for i in A { let h = x; } }\nrun k;\n",
        "",
        "p.sg:2:33: `x` is a field, and here stands a local",
        1,
    ),
    (
        "layout A(i) { dense(i: 4); field x: i32; field y: i32; }\nkernel k { for i in 0..i { x[i] = 1; } }\n",
        "",
        "p.sg:2:24: `i` is not known here as a local",
        1,
    ),
    (
        "layout A(i) { dense(i: 4); field x: i32; field y: i32; }\nkernel k { for i in A { for n in 0..n { x[i] = 1; } } }\nrun k;\n",
        "",
        "p.sg:2:37: `n` is not known here as a local",
        1,
    ),
    (
        "layout A(i) { dense(i: 4); field x: i32; field y: i32; }\nkernel k { for i in A { for n in 0..2 { y[i] = n; } x[i] = n; } }\nrun k;\n",
        "",
        "p.sg:2:60: `n` is not known here as a local",
        1,
    ),
];
