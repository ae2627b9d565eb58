//! Loops of kernels, expressions that are none, and statements that aren't admitted: each with the column, from its first byte on, and the length
//! of what is shown.

use super::places_inside::{Frame, shown_inside};
use std::test::Fail;

/// A constant above the kernel and one below it, and a layout with fields of both types.
const LOOPED: Frame = Frame {
    before: "const C = 1; layout A(i, j) { dense(i: 2, j: 2); field f: i32; field g: u32; } ",
    behind: " const Z = 1;",
    front: 79,
};

/// Kernels whose loop doesn't fit.
static LOOPS: &[(&str, u32, u32)] = &[
    ("kernel k { for i, i in 0..1, 0..1 { } }", 12, 22),
    ("kernel k { for C in 0..1 { } }", 12, 13),
    ("kernel k { for i in A { } }", 12, 10),
    ("kernel k { for i, j in 0..1 { } }", 12, 16),
    ("kernel k { for i in 0..1, 0..1 { } }", 12, 19),
    ("kernel k { for i in 0..i { } }", 24, 1),
    ("kernel k { for i in 0..Z { } }", 24, 1),
    ("kernel k { for i in 0..1u { } }", 12, 14),
    ("kernel k { for i in 0..f[0] { } }", 12, 16),
    ("kernel k { for i, i in y..1u { } }", 24, 1),
    ("kernel k { for i, i in 0..1u { } }", 12, 17),
];

/// An item above, and a statement on the third line.
const SPELLED: Frame = Frame {
    before: "run K ;\nkernel K { for i in L {\nx = ",
    behind: " ; } }",
    front: 4,
};

/// No expressions.
static EXPRESSIONS: &[(&str, u32, u32)] = &[
    ("", 2, 1),
    ("1 2", 3, 1),
    ("1 +", 5, 1),
    ("+ 1", 1, 1),
    ("1 == 2 == 3", 8, 2),
    ("1 < 2 >= 3", 7, 2),
    ("1 + - ", 8, 1),
    ("( 1", 5, 1),
    ("1 )", 3, 1),
    ("( )", 3, 1),
    ("F [ ]", 5, 1),
    ("F [ 1 , ]", 9, 1),
    ("F ( 1 )", 3, 1),
    ("min ( 1 )", 9, 1),
    ("min ( 1 , 2 , 3 )", 13, 1),
    ("mulq ( 1 , 2 )", 14, 1),
    ("i32 ( 1 , 2 )", 9, 1),
    ("max ( 1 , 2 , )", 13, 1),
    ("min = 1", 5, 1),
    ("active", 8, 1),
    ("active F [ 1 ]", 8, 1),
    ("active ( 1 )", 10, 1),
    ("active ( F )", 12, 1),
    ("active ( F [ 1 ] , 2 )", 18, 1),
    ("active ( F [ 1 ] > 0 )", 18, 1),
    ("1 .. 2", 3, 2),
];

/// A kernel that walks the first of two layouts.
const ADMITTED: Frame = Frame {
    before: "layout A(i) { dense(i: 8); field x: i32; field y: i32; } layout V(i) { pointer(i: 8) cap 8; field v: i32; } kernel k { for i in A { ",
    behind: " } }",
    front: 132,
};

/// Statements that break a rule of admission, two of which may be broken.
static RULES: &[(&str, u32, u32)] = &[
    ("x[i] = 0; x[i] += 1;", 11, 9),
    ("x[i] += 0; x[i] max= 1;", 12, 11),
    ("x[i] = x[i - 1];", 1, 15),
    ("x[i + 1] = 0;", 1, 12),
    ("x[(i)] = 0;", 1, 10),
    ("x[i] += x[i];", 1, 12),
    ("if x[i] > 0 { v[i] += 1; } x[i] = 0;", 15, 9),
    (
        "if 0 == i { y[i] = 1; } else { v[x[i]] += 1; } x[i] = 0;",
        32,
        12,
    ),
    (
        "let at = 0; if x[i] > 0 { at = 1; } x[i] = 0; v[at] += 1;",
        47,
        10,
    ),
    (
        "let a = 0; let b = 0; v[a] += 1; a = b; b = x[i]; x[i] = 0;",
        23,
        9,
    ),
    ("for p in 0..i { y[i] = p; }", 1, 13),
    ("for p in 0..64 { for q in 0..65 { v[0] += 1; } }", 18, 14),
    ("for p in 0..17 { for q in 0..241 { v[0] += 1; } }", 18, 15),
    ("for p in 0..4097 { for q in 0..0 { v[0] += 1; } }", 1, 16),
    (
        "for a in 0..1 { for b in 0..1 { for c in 0..1 { for d in 0..1 { for e in 0..1 { v[0] += 1; } } } } }",
        65,
        13,
    ),
    ("x[i] += 1; x[i + 1] = 0;", 12, 12),
    ("x[i] = 0; x[i] += x[i];", 11, 12),
    ("v[i] += 1; v[x[i]] max= 2; x[i] = 0;", 12, 14),
    ("x[i + 1] = y[i]; y[i] += 1;", 1, 15),
    ("v[i + x[i - 1]] += 1; x[i] = 0;", 1, 20),
    ("for p in 0..x[i - 1] { y[i] = p; } x[i] = 0;", 1, 20),
    ("v[x[i]] += 1; x[i] += 1;", 1, 12),
    ("for p in 0..x[i] { y[i] = p; } x[i] += 1;", 1, 16),
    ("x[i] = x[i - 1]; y[i] = 0; y[i] += 1;", 1, 15),
    ("y[i] += y[i]; x[i] = 0; x[i] += 1;", 1, 12),
    ("v[x[i]] += 1; x[i] = 0; y[i] = 0; y[i] += 1;", 1, 12),
    ("for p in 0..i { y[i] = p; } x[i] = 0; x[i] += 1;", 1, 13),
    ("y[i] += y[i]; x[i + 1] = 0;", 1, 12),
    ("v[x[i]] += 1; x[i] = 0; y[i + 1] = 0;", 1, 12),
    ("for p in 0..i { y[i] = p; } x[i + 1] = 0;", 1, 13),
    ("v[x[i]] += 1; x[i] = 0; y[i] += y[i];", 1, 12),
    ("for p in 0..i { y[i] = p; } x[i] += x[i];", 1, 13),
    ("for p in 0..i { y[i] = p; } v[x[i]] += 1; x[i] = 0;", 1, 13),
    ("if active(v[i]) { v[i] += 1; }", 1, 15),
    (
        "if i == 0 && !active(v[i + 1]) { y[i] = 1; } v[0] += 1;",
        1,
        30,
    ),
    ("v[x[i]] += 1; let seen = active(v[i]);", 15, 23),
    ("x[i] = 0; if active(v[x[i - 1]]) { v[0] += 1; }", 11, 22),
];

#[test]
fn loops_expressions_and_rules_are_shown(rt: HostRuntime) -> Result<(), Fail> {
    let alloc = rt.alloc();
    for (text, column, length) in LOOPS {
        assert_eq!(rt;
            shown_inside(alloc, LOOPED, *text)?,
            Some((*column, *length)),
            "{text}"
        );
    }
    for (text, column, length) in EXPRESSIONS {
        assert_eq!(rt;
            shown_inside(alloc, SPELLED, *text)?,
            Some((*column, *length)),
            "{text}"
        );
    }
    for (text, column, length) in RULES {
        assert_eq!(rt;
            shown_inside(alloc, ADMITTED, *text)?,
            Some((*column, *length)),
            "{text}"
        );
    }
    Ok(())
}
