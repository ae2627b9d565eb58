//! What mode check writes.

use super::setting::Setting;
use std::test::Fail;

static CHECKS: &[(&str, u8, &str)] = &[
    ("", 0, ""),
    (
        "layout A(i) { dense(i: 4); field x: i32; } kernel k { for i in 0..4 { x[i] = i; } } kernel m { for i in A { x[i] = 1; } } \
         kernel n { for i in A { if x[i] != 0 { x[i] = x[i] * 2; } } } kernel o { for i in A { if (x[i] != 0) { x[i] = x[i] * 2; } } } run k; dump x;",
        0,
        "kernel k neutral\nkernel m layout-bound\nkernel n neutral\nkernel o layout-bound\n",
    ),
    (
        "layout A(i, j) { dense(i: 8, j: 8); field x: i32; } kernel k { for i, j in A { if x[i, j] != 0 { x[i, j] = x[i, j] * 2; } } } load x; run k;",
        0,
        "kernel k neutral\n",
    ),
    (
        "layout A(i, j) { pointer(i: 2, j: 2) cap 4; dense(i: 4, j: 4); field x: i32; } kernel k { for i, j in A { if x[i, j] != 0 { x[i, j] = x[i, j] * 2; } } } load x; run k;",
        0,
        "kernel k neutral\n",
    ),
    (
        "layout A(i, j) { dense(i: 8, j: 8); field x: i32; } kernel k { for i, j in A { x[i, j] = x[i, j] * 2; } } load x; run k;",
        0,
        "kernel k layout-bound\n",
    ),
    // a kernel that asks what is active isn't neutral, by whatever loop
    (
        "layout A(i) { pointer(i: 4) cap 4; dense(i: 4); field x: i32; } layout C(i) { dense(i: 16); field y: i32; } kernel w { for i in 5..6 { x[i] = 7; } } \
         kernel c { for i in 0..16 { if active(x[i]) { y[i] = 1; } } } kernel d { for i in A { if x[i] != 0 && active(x[i]) { y[i] = 1; } } } run w; run c; dump y;",
        0,
        "kernel w neutral\nkernel c layout-bound\nkernel d layout-bound\n",
    ),
    // wherever it asks: behind other statements, in an `else`, in an inner loop, in an assignment
    (
        "layout A(i) { pointer(i: 4) cap 4; dense(i: 4); field x: i32; } layout C(i) { dense(i: 16); field y: i32; } \
         kernel a { for i in 0..4 { y[i] = 1; let t = active(x[i]); } } kernel b { for i in 0..4 { if i > 1 { y[i] = 1; } else { let t = active(x[i]); } } } \
         kernel c { for i in 0..4 { for n in 0..2 { if n < i || !active(x[y[n]]) { } } } } \
         kernel d { for i in A { if x[i] != 0 { let t = true; t = active(y[i - x[i]]); } } } kernel e { for i in A { if x[i] != 0 { y[i] = x[i]; } } }",
        0,
        "kernel a layout-bound\nkernel b layout-bound\nkernel c layout-bound\nkernel d layout-bound\nkernel e neutral\n",
    ),
    ("@", 4, "refused: bad byte: line 1\n"),
    (
        "layout A(i) { dense(i: 1); field x: i32; } kernel k { for i in A { x[i] += x[i]; } }",
        5,
        "refused: admission: kernel k statement 1 rule 3\n",
    ),
];

#[test]
fn checks(rt: HostRuntime) -> Result<(), Fail> {
    for (source, status, text) in CHECKS {
        let setting = Setting {
            words: &["--mode=check", "p.sg"],
            ..Setting::of(source)
        };
        setting.ends(&rt, rt.alloc(), *status, text)?;
    }
    Ok(())
}

#[test]
fn a_check_whose_put_fails(rt: HostRuntime) -> Result<(), Fail> {
    let setting = Setting {
        words: &["--mode=check", "p.sg"],
        failing_puts: &[1],
        take: 6,
        ..Setting::of("kernel k { for i in 0..4 { let a = i; } }")
    };
    setting.ends(&rt, rt.alloc(), 3, "kernel")
}
