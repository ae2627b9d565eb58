//! The examples of the language page for words and for mode check.

use super::setting::Setting;
use std::test::Fail;

/// Programs, with the status and the text of mode check.
static CHECKS: &[(&str, u8, &str)] = &[
    (
        "layout A(i) { dense(i: 8); field x: i32; field y: i32; } layout V(i) { dense(i: 16); field v: i32; } kernel k { for i in 0..4 { x[i] = 1; } }",
        0,
        "kernel k neutral\n",
    ),
    (
        "layout A(i) { dense(i: 8); field x: i32; field y: i32; } layout V(i) { dense(i: 16); field v: i32; } kernel k { for i in A { if x[i] != 0 { x[i] = x[i] * 2; } } }",
        0,
        "kernel k neutral\n",
    ),
    (
        "layout A(i) { dense(i: 8); field x: i32; field y: i32; } layout V(i) { dense(i: 16); field v: i32; } kernel k { for i in A { if x[i] != 0 && i > 2 { x[i] = 9; } } }",
        0,
        "kernel k neutral\n",
    ),
    (
        "layout A(i) { dense(i: 8); field x: i32; field y: i32; } layout V(i) { dense(i: 16); field v: i32; } kernel k { for i in A { x[i] = x[i] * 2; } }",
        0,
        "kernel k layout-bound\n",
    ),
    (
        "layout A(i) { dense(i: 8); field x: i32; field y: i32; } layout V(i) { dense(i: 16); field v: i32; } kernel k { for i in A { if (x[i] != 0) { x[i] = 2; } } }",
        0,
        "kernel k layout-bound\n",
    ),
    (
        "layout A(i) { dense(i: 8); field x: i32; field y: i32; } layout V(i) { dense(i: 16); field v: i32; } kernel k { for i in A { if x[i] > 0 { x[i] = 2; } } }",
        0,
        "kernel k layout-bound\n",
    ),
    (
        "layout A(i) { dense(i: 8); field x: i32; field y: i32; } layout V(i) { dense(i: 16); field v: i32; } kernel k { for i in A { if 0 != x[i] { x[i] = 2; } } }",
        0,
        "kernel k layout-bound\n",
    ),
    (
        "layout A(i) { dense(i: 8); field x: i32; field y: i32; } layout V(i) { dense(i: 16); field v: i32; } kernel k { for i in A { if i > 2 && x[i] != 0 { x[i] = 2; } } }",
        0,
        "kernel k layout-bound\n",
    ),
    (
        "layout A(i) { dense(i: 8); field x: i32; field y: i32; } layout V(i) { dense(i: 16); field v: i32; } kernel k { for i in A { if x[i] != 0 { x[i] = 2; } else { } } }",
        0,
        "kernel k layout-bound\n",
    ),
    (
        "layout A(i) { dense(i: 8); field x: i32; field y: i32; } layout V(i) { dense(i: 16); field v: i32; } kernel k { for i in 0..4 { if active(v[i]) { x[i] = 1; } } }",
        0,
        "kernel k layout-bound\n",
    ),
];

#[test]
fn kernels_of_the_page_are_neutral_or_not(rt: HostRuntime) -> Result<(), Fail> {
    for (source, status, text) in CHECKS {
        let setting = Setting {
            words: &["--mode", "check", "p.sg"],
            ..Setting::of(source)
        };
        setting.ends(&rt, rt.alloc(), *status, text)?;
    }
    Ok(())
}

/// Words over an empty file, the status, and what is written.
static WORDS: &[(&[&str], u8, &str)] = &[
    (&["--workers=2", "--", "p.sg"], 0, ""),
    (&["p.sg", "x=a.txt", "--mode=check"], 0, ""),
    (&["--mode", "lower", "p.sg"], 0, ""),
    (&[], 1, "refused: words\n"),
    (&["-"], 1, "refused: words\n"),
    (&["--help"], 1, "refused: words\n"),
    (&["--workers", "17", "p.sg"], 1, "refused: words\n"),
    (&["--workers", "04", "p.sg"], 1, "refused: words\n"),
    (&["--mode=go", "p.sg"], 1, "refused: words\n"),
    (
        &["--mode", "run", "--mode", "run", "p.sg"],
        1,
        "refused: words\n",
    ),
    (&["p.sg", "x"], 1, "refused: words\n"),
    (&["p.sg", "x="], 1, "refused: words\n"),
    (&["p.sg", "load=a"], 1, "refused: words\n"),
    (&["p.sg", "x=a", "x=b"], 1, "refused: words\n"),
    (&["--mode=gen", "07"], 1, "refused: words\n"),
];

#[test]
fn words_of_the_page(rt: HostRuntime) -> Result<(), Fail> {
    for (words, status, text) in WORDS {
        let setting = Setting {
            words,
            ..Setting::of("")
        };
        setting.ends(&rt, rt.alloc(), *status, text)?;
    }
    Ok(())
}
