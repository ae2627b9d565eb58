//! Names that stand for nothing, or are declared twice, and bytes that are no tokens: each text with the line, the column and the length of what
//! is shown.

use super::shown;
use std::test::Fail;

/// Names that are unknown in a layout or a kernel.
static IN_ITEMS: &[(&str, u32, u32, u32)] = &[
    (
        "layout B(i) { dense(i: N); field f: i32; } const N = 4;",
        1,
        24,
        1,
    ),
    ("layout B(i) { dense(i: B); field f: i32; }", 1, 24, 1),
    ("layout B(i) { dense(i: f); field f: i32; }", 1, 24, 1),
    (
        "const N = 4u; layout B(i) { dense(i: N); field f: i32; }",
        1,
        38,
        1,
    ),
    (
        "layout B(i) { dense(i: 4); field f: i32; field g: i32; } layout D(i) { pointer(i: 4) cap B; field h: i32; }",
        1,
        90,
        1,
    ),
    (
        "layout B(i) { dense(i: 4); field f: i32; field g: i32; } layout D(i) { dynamic(i: 4) chunk f cap 2; field h: i32; }",
        1,
        92,
        1,
    ),
    (
        "layout B(i) { dense(i: 4); field f: i32; field g: i32; } kernel k { for i in f { let t = 0; } }",
        1,
        78,
        1,
    ),
    (
        "layout B(i) { dense(i: 4); field f: i32; field g: i32; } kernel k { for i in k { let t = 0; } }",
        1,
        78,
        1,
    ),
    (
        "kernel k { for i in B { let t = 0; } } layout B(i) { dense(i: 4); field f: i32; field g: i32; }",
        1,
        21,
        1,
    ),
    (
        "kernel k { for i in 0..1 { f[i] = 0; } } layout B(i) { dense(i: 4); field f: i32; field g: i32; }",
        1,
        28,
        1,
    ),
    (
        "layout B(i) { dense(i: 4); field f: i32; field g: i32; } kernel k { for i in 0..1 { h[i] = 0; } }",
        1,
        85,
        1,
    ),
    (
        "layout B(i) { dense(i: 4); field f: i32; field g: i32; } kernel k { for i in 0..1 { f[h[i]] = 0; } }",
        1,
        87,
        1,
    ),
    (
        "layout B(i) { dense(i: 4); field f: i32; field g: i32; } kernel k { for i in 0..1 { f[i] = h[i]; } }",
        1,
        92,
        1,
    ),
    (
        "layout B(i) { dense(i: 4); field f: i32; field g: i32; } kernel k { for i in 0..1 { f[i] += h[i]; } }",
        1,
        93,
        1,
    ),
    (
        "layout B(i) { dense(i: 4); field f: i32; field g: i32; } kernel k { for i in 0..1 { let t = -h[i]; } }",
        1,
        94,
        1,
    ),
    (
        "layout B(i) { dense(i: 4); field f: i32; field g: i32; } kernel k { for i in 0..1 { let t = (1 + h[i]) * 2; } }",
        1,
        98,
        1,
    ),
    (
        "layout B(i) { dense(i: 4); field f: i32; field g: i32; } kernel k { for i in 0..1 { let t = min(1, h[i]); } }",
        1,
        100,
        1,
    ),
    (
        "layout B(i) { dense(i: 4); field f: i32; field g: i32; } kernel k { for i in 0..1 { let t = f[h[i]]; } }",
        1,
        95,
        1,
    ),
    (
        "layout B(i) { dense(i: 4); field f: i32; field g: i32; } kernel k { for i in 0..1 { if h[i] == 0 { } } }",
        1,
        88,
        1,
    ),
    (
        "layout B(i) { dense(i: 4); field f: i32; field g: i32; } kernel k { for i in 0..1 { if true { f[i] = h[i]; } } }",
        1,
        102,
        1,
    ),
    (
        "layout B(i) { dense(i: 4); field f: i32; field g: i32; } kernel k { for i in 0..1 { if true { } else { f[i] = h[i]; } } }",
        1,
        111,
        1,
    ),
    (
        "layout B(i) { dense(i: 4); field f: i32; field g: i32; } kernel k { for i in 0..1 { for p in h[i]..2 { } } }",
        1,
        94,
        1,
    ),
    (
        "layout B(i) { dense(i: 4); field f: i32; field g: i32; } kernel k { for i in 0..1 { for p in 0..h[i] { } } }",
        1,
        97,
        1,
    ),
    (
        "layout B(i) { dense(i: 4); field f: i32; field g: i32; } kernel k { for i in 0..1 { for p in 0..2 { f[i] = h[p]; } } }",
        1,
        108,
        1,
    ),
    (
        "layout B(i) { dense(i: 4); field f: i32; field g: i32; } kernel k { for i in h[0]..1 { let t = 0; } }",
        1,
        78,
        1,
    ),
    (
        "layout B(i) { dense(i: 4); field f: i32; field g: i32; } kernel k { for i in 0..h[0] { let t = 0; } }",
        1,
        81,
        1,
    ),
];

/// Names that are unknown in commands, or in the first item of two.
static IN_COMMANDS: &[(&str, u32, u32, u32)] = &[
    (
        "layout B(i) { dense(i: 4); field f: i32; field g: i32; } load B;",
        1,
        63,
        1,
    ),
    (
        "layout B(i) { dense(i: 4); field f: i32; field g: i32; } load h;",
        1,
        63,
        1,
    ),
    (
        "layout B(i) { dense(i: 4); field f: i32; field g: i32; } dump B;",
        1,
        63,
        1,
    ),
    (
        "layout B(i) { dense(i: 4); field f: i32; field g: i32; } image B 0 9;",
        1,
        64,
        1,
    ),
    (
        "layout B(i) { dense(i: 4); field f: i32; field g: i32; } run B;",
        1,
        62,
        1,
    ),
    (
        "layout B(i) { dense(i: 4); field f: i32; field g: i32; } run f;",
        1,
        62,
        1,
    ),
    (
        "layout B(i) { dense(i: 4); field f: i32; field g: i32; } stats f;",
        1,
        64,
        1,
    ),
    (
        "layout B(i) { dense(i: 4); field f: i32; field g: i32; } prune f;",
        1,
        64,
        1,
    ),
    (
        "layout B(i) { dense(i: 4); field f: i32; field g: i32; } clear f;",
        1,
        64,
        1,
    ),
    (
        "layout B(i) { dense(i: 4); field f: i32; field g: i32; } times 2 { run f; }",
        1,
        72,
        1,
    ),
    (
        "layout B(i) { dense(i: 4); field f: i32; field g: i32; } times 2 { dump f; load B; }",
        1,
        81,
        1,
    ),
    (
        "dump f; layout B(i) { dense(i: 4); field f: i32; field g: i32; }",
        1,
        6,
        1,
    ),
    (
        "layout B(i) { dense(i: 4); field f: i32; field g: i32; } run k; kernel k { for i in B { let t = 0; } }",
        1,
        62,
        1,
    ),
    (
        "const B = 4; layout B(i, i) { dense(i: N); field f: i32; }",
        1,
        40,
        1,
    ),
    ("dump h; const N = 1; const N = 2;", 1, 6, 1),
];

/// Names that are declared twice.
static TWICE: &[(&str, u32, u32, u32)] = &[
    ("const N = 4; const N = 4;", 1, 20, 1),
    (
        "const B = 4; layout B(i) { dense(i: 4); field f: i32; field g: i32; }",
        1,
        21,
        1,
    ),
    (
        "const g = 4; layout B(i) { dense(i: 4); field f: i32; field g: i32; }",
        1,
        61,
        1,
    ),
    (
        "layout B(i) { dense(i: 4); field f: i32; field g: i32; } layout B(i) { dense(i: 4); field f: i32; field g: i32; }",
        1,
        65,
        1,
    ),
    (
        "layout B(i) { dense(i: 4); field f: i32; field g: i32; } layout f(i) { dense(i: 4); field h: i32; }",
        1,
        65,
        1,
    ),
    (
        "layout B(i) { dense(i: 4); field f: i32; field g: i32; } layout D(i) { dense(i: 4); field g: i32; }",
        1,
        91,
        1,
    ),
    (
        "layout B(i) { dense(i: 4); field f: i32; field g: i32; } kernel g { for i in B { let t = 0; } }",
        1,
        65,
        1,
    ),
    (
        "layout B(i) { dense(i: 4); field f: i32; field g: i32; } kernel k { for i in B { let t = 0; } } const k = 1;",
        1,
        103,
        1,
    ),
    ("layout D(i) { dense(i: 4); field D: i32; }", 1, 34, 1),
    (
        "layout D(i) { dense(i: 4); field h: i32; field p: i32; field h: i32; }",
        1,
        62,
        1,
    ),
    ("layout D(i, j, i) { dense(i: 4); field h: i32; }", 1, 16, 1),
    ("const N = 1; const N = 2; dump h;", 1, 20, 1),
];

/// Bytes and numbers that are no tokens.
static TOKENS: &[(&str, u32, u32, u32)] = &[
    ("1u2", 1, 1, 3),
    ("00", 1, 1, 2),
    ("07", 1, 1, 2),
    ("0x1", 1, 1, 3),
    ("1_000", 1, 1, 5),
    ("1uu", 1, 1, 3),
    ("2147483649", 1, 1, 10),
    ("4294967296u", 1, 1, 11),
    ("123456789012345678901234567890123456", 1, 1, 36),
    ("const N = 3;\n@", 2, 1, 1),
    ("//@\n\n@", 3, 1, 1),
    ("é", 1, 1, 2),
    ("\0", 1, 1, 1),
    ("\x0c", 1, 1, 1),
    ("\"", 1, 1, 1),
    (".", 1, 1, 1),
    ("...", 1, 3, 1),
    ("a.b", 1, 2, 1),
    ("abcdefghijklmnopqrstuvwxyz_234567", 1, 1, 33),
    ("x//\n\n7x", 3, 1, 2),
    ("const N = 2147483649 ;", 1, 11, 10),
    ("image F 0 2147483649 ;", 1, 11, 10),
    ("kernel K { for i in L { x = 2147483649 ; } }", 1, 29, 10),
    ("a\tb §", 1, 5, 2),
    ("// é\n\tconst N = 1.5;", 2, 13, 1),
];

/// Faults behind as many fields or kernels as there may be.
static BEHIND_MANY: &[(&str, u32, u32, u32)] = &[
    (
        "layout L0(i) { dense(i: 1); field f0_0: i32; field f0_1: i32; field f0_2: i32; }layout L1(i) { dense(i: 1); field f1_0: i32; field f1_1: i32; field f1_2: i32; }layout L2(i) { dense(i: 1); field f2_0: i32; field f2_1: i32; field f2_2: i32; }layout L3(i) { dense(i: 1); field f3_0: i32; field f3_1: i32; field f3_2: i32; }layout L4(i) { dense(i: 1); field f4_0: i32; field f4_1: i32; field f4_2: i32; }layout M(i) { dense(i: 1); field b: i32; field c: i32; }",
        1,
        442,
        5,
    ),
    (
        "kernel k0 { for i in 0..1 { let t = 0; } } kernel k1 { for i in 0..1 { let t = 0; } } kernel k2 { for i in 0..1 { let t = 0; } } kernel k3 { for i in 0..1 { let t = 0; } } kernel k4 { for i in 0..1 { let t = 0; } } kernel k5 { for i in 0..1 { let t = 0; } } kernel k6 { for i in 0..1 { let t = 0; } } kernel k7 { for i in 0..1 { let t = 0; } } kernel k8 { for i in 0..1 { let t = 0; } } kernel k9 { for i in 0..1 { let t = 0; } } kernel k10 { for i in 0..1 { let t = 0; } } kernel k11 { for i in 0..1 { let t = 0; } } kernel k12 { for i in 0..1 { let t = 0; } } kernel k13 { for i in 0..1 { let t = 0; } } kernel k14 { for i in 0..1 { let t = 0; } } kernel k15 { for i in 0..1 { let t = 0; } } kernel k3 { for i in 0..1 { } }",
        1,
        702,
        2,
    ),
    (
        "kernel k0 { for i in 0..1 { let t = 0; } } kernel k1 { for i in 0..1 { let t = 0; } } kernel k2 { for i in 0..1 { let t = 0; } } kernel k3 { for i in 0..1 { let t = 0; } } kernel k4 { for i in 0..1 { let t = 0; } } kernel k5 { for i in 0..1 { let t = 0; } } kernel k6 { for i in 0..1 { let t = 0; } } kernel k7 { for i in 0..1 { let t = 0; } } kernel k8 { for i in 0..1 { let t = 0; } } kernel k9 { for i in 0..1 { let t = 0; } } kernel k10 { for i in 0..1 { let t = 0; } } kernel k11 { for i in 0..1 { let t = 0; } } kernel k12 { for i in 0..1 { let t = 0; } } kernel k13 { for i in 0..1 { let t = 0; } } kernel k14 { for i in 0..1 { let t = 0; } } kernel k15 { for i in 0..1 { let t = 0; } } kernel m { for i in Z { } }",
        1,
        715,
        1,
    ),
];

#[test]
fn names_and_tokens_are_shown(rt: HostRuntime) -> Result<(), Fail> {
    let alloc = rt.alloc();
    for (text, line, column, length) in IN_ITEMS {
        assert_eq!(rt;
            shown(alloc, *text, ""),
            Some((*line, *column, *length)),
            "{text}"
        );
    }
    for (text, line, column, length) in IN_COMMANDS {
        assert_eq!(rt;
            shown(alloc, *text, ""),
            Some((*line, *column, *length)),
            "{text}"
        );
    }
    for (text, line, column, length) in TWICE {
        assert_eq!(rt;
            shown(alloc, *text, ""),
            Some((*line, *column, *length)),
            "{text}"
        );
    }
    for (text, line, column, length) in TOKENS {
        assert_eq!(rt;
            shown(alloc, *text, ""),
            Some((*line, *column, *length)),
            "{text}"
        );
    }
    for (text, line, column, length) in BEHIND_MANY {
        assert_eq!(rt;
            shown(alloc, *text, ""),
            Some((*line, *column, *length)),
            "{text}"
        );
    }
    Ok(())
}
