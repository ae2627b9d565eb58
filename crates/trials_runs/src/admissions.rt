//! Files that are refused, and for which cause; kernels that are admitted, and which of them are neutral.

use crate::setting::{has_lines, refusal};
use sg_admit::AdmitFault;
use sg_layout::LayoutFault;
use sg_lexer::LexFault;
use sg_names::NameFault;
use sg_parser::ParseFault;
use sg_session::Refusal;
use sg_words::Memory;
use std::alloc::{AllocError, Global};
use std::test::Fail;

/// The program whose kernel walks the first of two layouts with this body.
fn program(alloc: Global, body: &str) -> Result<String, AllocError> {
    let mut text = String::from_str(
        alloc,
        "layout A(i) { dense(i: 8); field x: i32; field y: i32; } layout V(i) { pointer(i: 8) cap 8; field v: i32; } kernel k { for i in A { ",
    )?;
    text.push_str(body)?;
    text.push_str(" } }")?;
    Ok(text)
}

/// Whether the kernel with this body is refused by this statement and rule.
fn breaks(alloc: Global, body: &str, stmt: u32, rule: u32) -> Result<bool, Memory> {
    let file = program(alloc, body)?;
    let found = refusal(alloc, file.as_str())?;
    let fault = AdmitFault::Rule { stmt, rule };
    Ok(found == Some(Refusal::Admit { kernel: 0, fault }))
}

/// A body, and the statement and rule by which it is refused.
static RULES: &[(&str, u32, u32)] = &[
    // each rule alone
    ("x[i] = 0; x[i] += 1;", 2, 1),
    ("x[i] += 0; x[i] max= 1;", 2, 1),
    ("x[i] = x[i - 1];", 1, 2),
    ("x[i + 1] = 0;", 1, 2),
    ("x[(i)] = 0;", 1, 2),
    ("x[i] += x[i];", 1, 3),
    ("if x[i] > 0 { v[i] += 1; } x[i] = 0;", 2, 4),
    (
        "if 0 == i { y[i] = 1; } else { v[x[i]] += 1; } x[i] = 0;",
        3,
        4,
    ),
    (
        "let at = 0; if x[i] > 0 { at = 1; } x[i] = 0; v[at] += 1;",
        5,
        4,
    ),
    (
        "let a = 0; let b = 0; v[a] += 1; a = b; b = x[i]; x[i] = 0;",
        3,
        4,
    ),
    ("for p in 0..i { y[i] = p; }", 1, 5),
    ("for p in 0..64 { for q in 0..65 { v[0] += 1; } }", 2, 5),
    ("for p in 0..17 { for q in 0..241 { v[0] += 1; } }", 2, 5),
    ("for p in 0..4097 { for q in 0..0 { v[0] += 1; } }", 1, 5),
    (
        "for a in 0..1 { for b in 0..1 { for c in 0..1 { for d in 0..1 { for e in 0..1 { v[0] += 1; } } } } }",
        5,
        5,
    ),
    // two in one statement: the smaller
    ("x[i] += 1; x[i + 1] = 0;", 2, 1),
    ("x[i] = 0; x[i] += x[i];", 2, 1),
    ("v[i] += 1; v[x[i]] max= 2; x[i] = 0;", 2, 1),
    ("x[i + 1] = y[i]; y[i] += 1;", 1, 2),
    ("v[i + x[i - 1]] += 1; x[i] = 0;", 1, 2),
    ("for p in 0..x[i - 1] { y[i] = p; } x[i] = 0;", 1, 2),
    ("v[x[i]] += 1; x[i] += 1;", 1, 3),
    ("for p in 0..x[i] { y[i] = p; } x[i] += 1;", 1, 3),
    // two in two statements: the first
    ("x[i] = x[i - 1]; y[i] = 0; y[i] += 1;", 1, 2),
    ("y[i] += y[i]; x[i] = 0; x[i] += 1;", 1, 3),
    ("v[x[i]] += 1; x[i] = 0; y[i] = 0; y[i] += 1;", 1, 4),
    ("for p in 0..i { y[i] = p; } x[i] = 0; x[i] += 1;", 1, 5),
    ("y[i] += y[i]; x[i + 1] = 0;", 1, 3),
    ("v[x[i]] += 1; x[i] = 0; y[i + 1] = 0;", 1, 4),
    ("for p in 0..i { y[i] = p; } x[i + 1] = 0;", 1, 5),
    ("v[x[i]] += 1; x[i] = 0; y[i] += y[i];", 1, 4),
    ("for p in 0..i { y[i] = p; } x[i] += x[i];", 1, 5),
    ("for p in 0..i { y[i] = p; } v[x[i]] += 1; x[i] = 0;", 1, 5),
];

#[test]
fn rules_of_admission(rt: HostRuntime) -> Result<(), Fail> {
    let alloc = rt.alloc();
    for (body, stmt, rule) in RULES {
        assert!(rt; breaks(alloc, body, *stmt, *rule)?, "{body}");
    }
    Ok(())
}

/// Programs and why each is refused, in the one order.
static REFUSED: &[(&str, Refusal)] = &[
    ("@", Refusal::Lex(LexFault::BadByte { line: 1 })),
    (
        "const N = 3",
        Refusal::Parse(ParseFault::Syntax { item: 1, line: 1 }),
    ),
    ("run k;", Refusal::Name(NameFault::Unknown { item: 1 })),
    (
        "layout A(i) { dense(i: 4); field x: i32; } layout B(i) { dense(i: 0); field y: i32; } kernel k { for i in A { x[i] = true; } }",
        Refusal::Layout {
            layout: 1,
            fault: LayoutFault::BadExtent { node: 1 },
        },
    ),
    (
        "layout A(i, j) { dense(i: 32768, j: 32768); field x: i32; }",
        Refusal::Words,
    ),
    (
        "layout A(i) { dense(i: 4); field x: i32; } times 2 { stats A; image x 0 9; }",
        Refusal::Command { item: 2 },
    ),
    (
        "layout A(i, j) { dense(i: 4, j: 4); field x: i32; } image x 9 9; times 0 { prune A; }",
        Refusal::Command { item: 2 },
    ),
    (
        "layout A(i, j) { dense(i: 2048, j: 1024); field x: i32; } times 2 { clear A; image x 0 9; }",
        Refusal::Image,
    ),
    (
        "kernel k { for i in 0..1048577 { let t = i; } } times 0 { run k; }",
        Refusal::Admit {
            kernel: 0,
            fault: AdmitFault::BoxTooLarge,
        },
    ),
    (
        "kernel k { for i, j, l in -1..16, 0..61681, 0..1 { let t = i; } }",
        Refusal::Admit {
            kernel: 0,
            fault: AdmitFault::BoxTooLarge,
        },
    ),
    (
        "kernel k { for i, j, l in -1..2147483647, 0..2147483647, 0..2147483647 { let t = i; } }",
        Refusal::Admit {
            kernel: 0,
            fault: AdmitFault::BoxTooLarge,
        },
    ),
    (
        "kernel k { for i in 0..1 { let a = i; } } times 0 { run k; }",
        Refusal::Command { item: 2 },
    ),
    (
        "kernel k { for i in 0..1 { let a = i; } } times 1001 { run k; }",
        Refusal::Times,
    ),
];

#[test]
fn the_first_cause_refuses(rt: HostRuntime) -> Result<(), Fail> {
    let alloc = rt.alloc();
    for (file, why) in REFUSED {
        let found = refusal(alloc, file)?;
        assert!(rt; found == Some(*why), "{file}");
    }
    Ok(())
}

/// Programs that are admitted, and their lines.
static ADMITTED: &[(&str, &str)] = &[
    ("", ""),
    (
        "kernel k { for i in 0..1048576 { let t = i; } }",
        "kernel k neutral\n",
    ),
    (
        "kernel k { for i, j, l in 0..32768, 0..32768, 7..7 { let t = i; } }",
        "kernel k neutral\n",
    ),
    (
        "kernel k { for i, j, l in -1..63, 0..128, 0..128 { let t = i; } } kernel m { for i, j, l in -1..2147483647, 0..2147483647, 0..0 { let t = i; } }",
        "kernel k neutral\nkernel m neutral\n",
    ),
    (
        "layout A(i) { dense(i: 8); field x: i32; } kernel k { for i in A { for p in 0..64 { for q in 0..64 { x[i] += 1; } } } }",
        "kernel k layout-bound\n",
    ),
    (
        "layout A(i) { dense(i: 8); field x: i32; } kernel k { for i in A { if x[i] != 0 { x[i] = 1; } } } kernel m { for i in A { if x[i] != 0 && i > 2 { x[i] = 1; } } }",
        "kernel k neutral\nkernel m neutral\n",
    ),
    (
        "layout A(i) { dense(i: 8); field x: i32; } kernel k { for i in A { if (x[i] != 0) { x[i] = 1; } } } kernel m { for i in A { if x[i] > 0 { x[i] = 1; } } }",
        "kernel k layout-bound\nkernel m layout-bound\n",
    ),
    (
        "layout A(i) { dense(i: 8); field x: i32; } kernel k { for i in A { if x[i] != 0 { x[i] = 1; } else { x[i] = 2; } } }",
        "kernel k layout-bound\n",
    ),
];

#[test]
fn kernels_are_neutral_or_layout_bound(rt: HostRuntime) -> Result<(), Fail> {
    let alloc = rt.alloc();
    for (file, lines) in ADMITTED {
        assert!(rt; has_lines(alloc, file, lines)?, "{file}");
    }
    Ok(())
}

/// Adds the declarations of 300 locals.
fn push_locals(alloc: Global, body: &mut String) -> Result<(), AllocError> {
    for local in 0..300_u32 {
        let piece = format!(in alloc; "let l{local} = 0; ")?;
        body.push_str(piece.as_str())?;
    }
    Ok(())
}

/// Adds, for each local but the last, that it gets the next one's word.
fn push_links(alloc: Global, body: &mut String) -> Result<(), AllocError> {
    for local in 0..299_u32 {
        let piece = format!(in alloc; "l{local} = l{}; ", local + 1)?;
        body.push_str(piece.as_str())?;
    }
    Ok(())
}

/// The body of 300 locals, each of which gets the next one's word, and the last one that of `last`; the first says where a write is.
fn chain(alloc: Global, last: &str) -> Result<String, AllocError> {
    let mut body = String::new(alloc);
    push_locals(alloc, &mut body)?;
    push_links(alloc, &mut body)?;
    body.push_str("l299 = ")?;
    body.push_str(last)?;
    body.push_str("; v[l0] += 1; x[i] = 0;")?;
    Ok(body)
}

#[test]
fn locals_are_dirty_from_the_last_to_the_first(rt: HostRuntime) -> Result<(), Fail> {
    let alloc = rt.alloc();
    let dirty = chain(alloc, "x[i]")?;
    assert!(rt; breaks(alloc, dirty.as_str(), 601, 4)?);
    let clean = chain(alloc, "i")?;
    let file = program(alloc, clean.as_str())?;
    assert!(rt; has_lines(alloc, file.as_str(), "kernel k layout-bound\n")?);
    Ok(())
}
