use super::setting::{Setting, compare};
use crate::examples::EXAMPLES;
use crate::gallery::GALLERY;
use crate::larger_examples::LARGER_EXAMPLES;
use crate::loading_examples::LOADING_EXAMPLES;
use std::test::Fail;

static RUNS: &[(&str, u8, &str)] = &[
    (" // nothing\n", 0, ""),
    ("const N = 3;", 0, ""),
    (
        "layout A(i) { dense(i: 2); field x: i32; } kernel k { for i in 0..2 { x[i] = i - 1; } } run k; dump x;\n",
        0,
        "grid 1 2\n0 -1\n1 0\n",
    ),
    (
        "layout A(i) { dense(i: 2); field x: i32; } kernel k { for i in 2..1 { x[i] = 7; } } run k; dump x;",
        0,
        "grid 1 2\n0 0\n1 0\n",
    ),
    (
        "layout A(i) { dense(i: 1); field x: i32; } kernel k { for i in 0..1 { x[i] = 2147483647 + 1; } } run k; dump x;",
        0,
        "grid 1 1\n0 -2147483648\n",
    ),
    // dumps before a run, between runs and after them
    (
        "layout A(i) { dense(i: 2); field x: i32; field y: u32; } kernel a { for i in 0..2 { x[i] = i - 1; } } \
         kernel b { for p in 0..1 { y[p] = u32(x[p] + x[p + 1]) - x[p - 1] * 0u; } } dump y; run a; dump x; run b; dump y;",
        5,
        "refused: type: kernel b statement 1 code 1\n",
    ),
    (
        "layout A(i) { dense(i: 2); field x: i32; field y: u32; } kernel a { for i in 0..2 { x[i] = i - 1; } } \
         kernel b { for p in 0..1 { y[p] = u32(x[p] + x[p + 1] - x[p + 2]); } } dump y; run a; dump x; run b; dump y; dump x;",
        0,
        "grid 1 2\n0 0\n1 0\ngrid 1 2\n0 -1\n1 0\ngrid 1 2\n0 4294967295\n1 0\ngrid 1 2\n0 -1\n1 0\n",
    ),
    // a kernel that reads what it writes: twice run, it goes on from its own state
    (
        "layout A(i) { dense(i: 1); field x: u32; } kernel k { for i in 0..1 { x[i] = x[i] * 2u + 1u; } } run k; run k; run k; dump x;",
        0,
        "grid 1 1\n0 7\n",
    ),
    // a kernel that reads what another wrote, at other points of other layouts
    (
        "layout A(i) { dense(i: 4); field x: i32; } layout B(i, j) { dense(i: 2, j: 2); field y: i32; } \
         kernel a { for i in 0..4 { x[i] = 10 - i * 4; } } kernel b { for i, j in 0..2, 0..2 { y[i, j] = x[i * 2 + j] - x[j - 1]; } } \
         run b; run a; dump y; run b; dump y;",
        0,
        "grid 2 4\n0 0 0\n0 1 0\n1 0 0\n1 1 0\ngrid 2 4\n0 0 10\n0 1 -4\n1 0 2\n1 1 -12\n",
    ),
    // an own write is seen later in its iteration, and by no other iteration
    (
        "layout A(i) { dense(i: 2); field x: i32; field y: i32; } kernel k { for i in 0..2 { y[i] = x[i]; x[i] = 7; x[i] = x[i] + 1; \
         let a = x[i]; x[i] = a * 2; } } run k; dump x; dump y;",
        0,
        "grid 1 2\n0 16\n1 16\ngrid 1 2\n0 0\n1 0\n",
    ),
    (
        "layout A(i) { dense(i: 4); field x: i32; field y: i32; } kernel k { for i in 0..4 { let a = y[i]; y[i] = 5; x[i] = y[i] + a; a = a + 1; y[i] = a; } } \
         run k; run k; dump x; dump y;",
        0,
        "grid 1 4\n0 6\n1 6\n2 6\n3 6\ngrid 1 4\n0 2\n1 2\n2 2\n3 2\n",
    ),
    // locals, assignments, blocks of one name, a field of another layout
    (
        "const N = -2; const U = 3u; layout A(a, b) { dense(b: 2, a: 2); field x: i32; } layout B(i) { dense(i: 4); field y: u32; } \
         kernel f { for i in 0..4 { y[i] = u32(i) * U; } } \
         kernel g { for a, b in 0..2, N..2 { let s = a * 2 + b; s = s + 0; let x = s; x[a, max(b, 0)] = x; } } run f; run g;",
        5,
        "refused: admission: kernel g statement 4 rule 2\n",
    ),
    (
        "const N = 2; const U = 3u; layout A(a, b) { dense(b: 2, a: 2); field x: i32; } layout B(i) { dense(i: 4); field y: u32; } \
         kernel f { for i in 0..4 { y[i] = u32(i) * U; } } \
         kernel g { for a, b in 0..N, 0..2 { let s = a * 2 + b; s = s + 1; let x = s; x[a, b] = x + i32(y[x - 1]); } } run f; run g; dump x;",
        0,
        "grid 2 4\n0 0 1\n0 1 5\n1 0 9\n1 1 13\n",
    ),
    // an empty range leaves no points, whatever the others are
    (
        "layout A(i, j) { dense(i: 1, j: 1); field x: i32; } kernel k { for i, j in 0..2147483647, 5..5 { x[i, j] = 1; } } run k; dump x;",
        0,
        "grid 2 1\n0 0 0\n",
    ),
    (
        "layout A(i, j, k) { dense(i: 1, j: 1, k: 1); field x: i32; } \
         kernel n { for i, j, k in -2147483648..2147483647, -2147483648..2147483647, 2..1 { x[i, j, k] = 1; } } run n; dump x;",
        0,
        "grid 3 1\n0 0 0 0\n",
    ),
];

/// Expressions, with the value that they give at coordinate 0.
static VALUES: &[(&str, &str)] = &[
    ("0", "0"),
    ("M / -1", "-2147483648"),
    ("M % -1", "0"),
    ("7 / 0", "0"),
    ("7 % 0", "7"),
    ("1 << 33", "2"),
    ("-7 / 2", "-3"),
    ("10 - 3 - 2", "5"),
    ("2 + 3 * 4", "14"),
    ("mulq(-3, 1, 1)", "-2"),
    ("M", "-2147483648"),
    ("-M", "-2147483648"),
    ("-8 >> 1", "-4"),
    ("i32(4294967288u >> 1)", "2147483644"),
    ("i32(u32(-1) / 2u)", "2147483647"),
    ("min(-1, 1)", "-1"),
    ("i32(min(u32(-1), 1u))", "1"),
    ("max(3, i) % 2", "1"),
    ("~5 & 7 | 8 ^ 1", "11"),
    ("(1 + 2) * 3", "9"),
    ("mulq(65536, 65536, 16)", "65536"),
    ("x[i] + x[i] - 4", "-4"),
    ("y[i + 9] + y[-1]", "0"),
    ("-7 % 2", "-1"),
    ("7 % -2", "1"),
    ("-7 / -2", "3"),
    ("i32(7u / 0u)", "0"),
    ("i32(7u % 0u)", "7"),
    ("i32(u32(-7) % 4u)", "1"),
    ("M >> 31", "-1"),
    ("i32(2147483648u >> 31)", "1"),
    ("M >> 31u", "-1"),
    ("1 << -1", "-2147483648"),
    ("3 << 31", "-2147483648"),
    ("8 >> 33", "4"),
    ("mulq(2147483647, 2, 0)", "-2"),
    ("mulq(-1, 1, 40)", "-1"),
    ("mulq(3, 3, -31)", "4"),
    ("2147483647 + 1", "-2147483648"),
    ("M - 1", "2147483647"),
    ("65536 * 65536", "0"),
    ("M * -1", "-2147483648"),
    ("~M", "2147483647"),
    ("i32(-1u)", "-1"),
    ("max(-1, 1)", "1"),
    ("i32(max(u32(-1), 1u))", "-1"),
    ("-8 & 12 ^ -1", "-9"),
    ("y[i + 1] + 4 * (i + 2) - -3", "11"),
];

#[test]
fn examples_write_their_output(rt: HostRuntime) -> Result<(), Fail> {
    let alloc = rt.alloc();
    for (name, source, text) in EXAMPLES {
        let left = Setting::of(source).run(&rt, alloc)?;
        assert_eq!(rt; left.status, 0, "{name}");
        assert_eq!(rt; left.text.as_slice(), text.as_bytes(), "{name}");
    }
    Ok(())
}

#[test]
fn examples_that_load_write_their_output(rt: HostRuntime) -> Result<(), Fail> {
    for example in LOADING_EXAMPLES {
        let setting = Setting {
            words: example.words,
            others: example.others,
            ..Setting::of(example.source)
        };
        setting.ends(&rt, rt.alloc(), 0, example.output)?;
    }
    Ok(())
}

#[test]
fn larger_examples_write_their_output(rt: HostRuntime) -> Result<(), Fail> {
    for example in LARGER_EXAMPLES {
        let setting = Setting {
            words: example.words,
            others: example.others,
            ..Setting::of(example.source)
        };
        setting.ends(&rt, rt.alloc(), 0, example.output)?;
    }
    Ok(())
}

#[test]
fn gallery_programs_write_their_sums(rt: HostRuntime) -> Result<(), Fail> {
    for program in GALLERY {
        let setting = Setting {
            words: program.words,
            others: program.others,
            ..Setting::of(program.source)
        };
        setting.ends(&rt, rt.alloc(), 0, program.output)?;
    }
    Ok(())
}

#[test]
fn runs(rt: HostRuntime) -> Result<(), Fail> {
    compare(&rt, rt.alloc(), RUNS)
}

#[test]
fn values(rt: HostRuntime) -> Result<(), Fail> {
    let alloc = rt.alloc();
    for (expression, value) in VALUES {
        let source = format!(in alloc;
            "const M = -2147483648; layout A(i) {{ dense(i: 8); field x: i32; field y: i32; }} kernel k {{ for i in 0..1 {{ x[i] = {expression}; }} }} run k; dump x;"
        )?;
        let text = format!(in alloc; "grid 1 8\n0 {value}\n1 0\n2 0\n3 0\n4 0\n5 0\n6 0\n7 0\n")?;
        Setting::of(source.as_str()).ends_on_workers(&rt, alloc, 0, text.as_str())?;
    }
    Ok(())
}

/// Kernels over 2^16 points with a few reads.
#[test]
fn a_large_box(rt: HostRuntime) -> Result<(), Fail> {
    let alloc = rt.alloc();
    let source = "layout A(i, j) { dense(i: 256, j: 256); field x: i32; field y: i32; } \
         kernel a { for i, j in 0..256, 0..256 { x[i, j] = i * 256 + j; } } \
         kernel b { for i, j in 0..256, 0..256 { y[i, j] = x[i - 1, j] + x[i + 1, j] + x[i, j - 1] + x[i, j + 1] - 4 * x[i, j]; } } run a; run b;";
    let left = Setting::of(source).run(&rt, alloc)?;
    assert_eq!(rt; left.status, 0);
    Ok(())
}
