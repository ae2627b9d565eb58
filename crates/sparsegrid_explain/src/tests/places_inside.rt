//! Statements and expressions that are refused within a kernel: each with the column, from its first byte on, and the length of what is shown.

use super::shown;
use std::alloc::{AllocError, Global};
use std::test::Fail;

/// The text that stands before and behind each of a table's, and how many bytes of the line stand before.
#[derive(Clone, Copy)]
pub(super) struct Frame {
    pub before: &'static str,
    pub behind: &'static str,
    pub front: u32,
}

/// Where a text between the two of a frame is refused: the column from its first byte on, and the length of what is shown.
pub(super) fn shown_inside(
    alloc: Global,
    frame: Frame,
    text: &str,
) -> Result<Option<(u32, u32)>, AllocError> {
    let Frame {
        before,
        behind,
        front,
    } = frame;
    let whole = format!(in alloc; "{before}{text}{behind}")?;
    match shown(alloc, whole.as_str(), "") {
        Some((_, column, length)) => Ok(Some((column.saturating_sub(front), length))),
        None => Ok(None),
    }
}

/// A constant above the kernel and one below it, and a layout with fields of both types.
const TYPED: Frame = Frame {
    before: "const C = 1; layout A(i, j) { dense(i: 2, j: 2); field f: i32; field g: u32; } kernel k { for i, j in 0..1, 0..1 { ",
    behind: " } } const Z = 1;",
    front: 115,
};

/// Plain names that are unknown: each is shown alone.
static UNKNOWN: &[(&str, u32, u32)] = &[
    ("let t = y;", 9, 1),
    ("y = 1;", 1, 1),
    ("f = 1;", 1, 1),
    ("let t = f;", 9, 1),
    ("let t = t;", 9, 1),
    ("let t = Z;", 9, 1),
    ("f[y, j] = 1;", 3, 1),
    ("let t = f[i, y];", 14, 1),
    ("let i = y;", 9, 1),
    ("i = y;", 5, 1),
    ("f[i] = y;", 8, 1),
    ("f[1u, j] = y;", 12, 1),
    ("let t = f[i] + y;", 16, 1),
    ("let t = (1 + 1u) + y;", 20, 1),
    ("for i in 0..y { }", 13, 1),
    ("if true { let a = 1; } let b = a;", 32, 1),
    ("for p in 0..2 { let a = p; } let b = p;", 38, 1),
    ("for p in 0..p { }", 13, 1),
];

/// Statements that break another rule of types: the head of each is shown.
static CODES: &[(&str, u32, u32)] = &[
    ("let i = 1;", 1, 9),
    ("let C = 1;", 1, 9),
    ("for i in 0..1 { }", 1, 13),
    ("for C in 0..1 { }", 1, 13),
    ("i = 1;", 1, 5),
    ("C = 1;", 1, 5),
    ("f[i] = 1;", 1, 8),
    ("f[i, j, 0] = 1;", 1, 14),
    ("let t = f[i];", 1, 12),
    ("f[i, j] += g[i];", 1, 15),
    ("f[i, 1u] = 1;", 1, 12),
    ("f[i, j] = 1u;", 1, 12),
    ("g[i, j] = 1;", 1, 11),
    ("f[i, j] = true;", 1, 14),
    ("f[i, j] min= 1u;", 1, 15),
    ("let t = f[1u, j];", 1, 16),
    ("if 1 { }", 1, 4),
    ("for p in 0..2u { }", 1, 14),
    ("for p in true..2 { }", 1, 16),
    ("let i = f[i];", 1, 12),
    ("let i = 1 + 1u;", 1, 14),
    ("i = f[i];", 1, 8),
    ("i = 1u;", 1, 6),
    ("C = true;", 1, 8),
    ("let t = f[i] + 1u;", 1, 17),
    ("f[i] = 1u;", 1, 9),
    ("for i in f[i]..2 { }", 1, 16),
    ("for p in f[i]..2u { }", 1, 17),
    (
        "if true { let a = 1; } else { let b = 1; b = true; }",
        42,
        8,
    ),
    ("for p in 0..2 { p = 1; }", 17, 5),
    ("let a = 1; if true { let a = 2; }", 22, 9),
    ("let a = 1; for a in 0..2 { }", 12, 13),
    ("for p in 0..2 { for p in 0..2 { } }", 17, 13),
    ("let t = 1; t = 2u; t = y;", 12, 6),
    ("let t = 1 + 1; t = true;", 16, 8),
    ("let t = 1u << 1; t = 1;", 18, 5),
    ("let t = 1 < 2; t = 1;", 16, 5),
    ("let t = i32(1u); t = 1u;", 18, 6),
    ("let t = g[i, j]; t = 1;", 18, 5),
];

/// Operators between operands that don't fit.
static OPERATORS: &[(&str, u32, u32)] = &[
    ("let t = 1 + 1u;", 1, 14),
    ("let t = 1 + true;", 1, 16),
    ("let t = 1u + 1;", 1, 14),
    ("let t = 1u + true;", 1, 17),
    ("let t = true + 1;", 1, 16),
    ("let t = true + 1u;", 1, 17),
    ("let t = true + true;", 1, 19),
    ("let t = 1 - 1u;", 1, 14),
    ("let t = 1 - true;", 1, 16),
    ("let t = 1u - 1;", 1, 14),
    ("let t = 1u - true;", 1, 17),
    ("let t = true - 1;", 1, 16),
    ("let t = true - 1u;", 1, 17),
    ("let t = true - true;", 1, 19),
    ("let t = true * true;", 1, 19),
    ("let t = true / true;", 1, 19),
    ("let t = true % true;", 1, 19),
    ("let t = true & true;", 1, 19),
    ("let t = true | true;", 1, 19),
    ("let t = 1 ^ 1u;", 1, 14),
    ("let t = 1 ^ true;", 1, 16),
    ("let t = 1u ^ 1;", 1, 14),
    ("let t = 1u ^ true;", 1, 17),
    ("let t = true ^ 1;", 1, 16),
    ("let t = true ^ 1u;", 1, 17),
    ("let t = true ^ true;", 1, 19),
    ("let t = min(true, true);", 1, 23),
    ("let t = min(1, 1u);", 1, 18),
    ("let t = min(1u, true);", 1, 21),
    ("let t = max(true, true);", 1, 23),
    ("let t = max(1, 1u);", 1, 18),
    ("let t = max(1u, true);", 1, 21),
    ("let t = 1 << true;", 1, 17),
    ("let t = 1u << true;", 1, 18),
    ("let t = true << 1;", 1, 17),
    ("let t = true << 1u;", 1, 18),
    ("let t = true << true;", 1, 20),
    ("let t = 1 >> true;", 1, 17),
    ("let t = 1u >> true;", 1, 18),
    ("let t = true >> 1;", 1, 17),
    ("let t = true >> 1u;", 1, 18),
];

/// More of them, and calls.
static OPERATORS_TOO: &[(&str, u32, u32)] = &[
    ("let t = true >> true;", 1, 20),
    ("let t = true == true;", 1, 20),
    ("let t = 1 == 1u;", 1, 15),
    ("let t = 1u == 1;", 1, 15),
    ("let t = 1 == true;", 1, 17),
    ("let t = true != true;", 1, 20),
    ("let t = 1 != 1u;", 1, 15),
    ("let t = 1u != 1;", 1, 15),
    ("let t = 1 != true;", 1, 17),
    ("let t = true < true;", 1, 19),
    ("let t = 1 < 1u;", 1, 14),
    ("let t = 1u < 1;", 1, 14),
    ("let t = 1 < true;", 1, 16),
    ("let t = true <= true;", 1, 20),
    ("let t = 1 <= 1u;", 1, 15),
    ("let t = 1u <= 1;", 1, 15),
    ("let t = 1 <= true;", 1, 17),
    ("let t = true > true;", 1, 19),
    ("let t = 1 > 1u;", 1, 14),
    ("let t = 1u > 1;", 1, 14),
    ("let t = 1 > true;", 1, 16),
    ("let t = true >= true;", 1, 20),
    ("let t = 1 >= 1u;", 1, 15),
    ("let t = 1u >= 1;", 1, 15),
    ("let t = 1 >= true;", 1, 17),
    ("let t = 1 && 1;", 1, 14),
    ("let t = true && 1;", 1, 17),
    ("let t = 1u && true;", 1, 18),
    ("let t = 1 || 1;", 1, 14),
    ("let t = true || 1;", 1, 17),
    ("let t = 1u || true;", 1, 18),
    ("let t = -true;", 1, 13),
    ("let t = ~true;", 1, 13),
    ("let t = !1;", 1, 10),
    ("let t = !1u;", 1, 11),
    ("let t = mulq(1u, 1, 1);", 1, 22),
    ("let t = mulq(1, 1u, 1);", 1, 22),
    ("let t = mulq(1, 1, 1u);", 1, 22),
    ("let t = mulq(true, 1, 1);", 1, 24),
    ("let t = i32(true);", 1, 17),
    ("let t = u32(true);", 1, 17),
];

#[test]
fn statements_that_do_not_fit_are_shown(rt: HostRuntime) -> Result<(), Fail> {
    let alloc = rt.alloc();
    for (text, column, length) in UNKNOWN {
        assert_eq!(rt;
            shown_inside(alloc, TYPED, *text)?,
            Some((*column, *length)),
            "{text}"
        );
    }
    for (text, column, length) in CODES {
        assert_eq!(rt;
            shown_inside(alloc, TYPED, *text)?,
            Some((*column, *length)),
            "{text}"
        );
    }
    for (text, column, length) in OPERATORS {
        assert_eq!(rt;
            shown_inside(alloc, TYPED, *text)?,
            Some((*column, *length)),
            "{text}"
        );
    }
    for (text, column, length) in OPERATORS_TOO {
        assert_eq!(rt;
            shown_inside(alloc, TYPED, *text)?,
            Some((*column, *length)),
            "{text}"
        );
    }
    Ok(())
}
