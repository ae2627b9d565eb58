//! Programs that are refused by layouts, admission and commands.

use super::setting::compare;
use std::test::Fail;

static LAYOUTS: &[(&str, u8, &str)] = &[
    (
        "layout A(i) { dense(i: 0); field x: i32; }",
        5,
        "refused: layout: A node 1 rule 1\n",
    ),
    (
        "layout A(i) { dense(i: 4); dense(i: 0); field x: i32; }",
        5,
        "refused: layout: A node 2 rule 1\n",
    ),
    (
        "layout A(i) { dense(i: 4); hash(i: 4) cap 2; field x: i32; }",
        5,
        "refused: layout: A node 2 rule 2\n",
    ),
    (
        "layout A(i) { dense(j: 4); field x: i32; }",
        5,
        "refused: layout: A node 1 rule 3\n",
    ),
    (
        "layout A(i) { pointer(i: 4) cap 0; field x: i32; }",
        5,
        "refused: layout: A node 1 rule 5\n",
    ),
    (
        "layout A(i) { dense(i: 32768); dense(i: 2); field x: i32; }",
        8,
        "refused: limit: layout A\n",
    ),
    (
        "layout A(i, j) { dense(i: 32768, j: 32768); field x: i32; }",
        8,
        "refused: limit: words\n",
    ),
    // the first layout, and layouts before types
    (
        "layout A(i) { dense(i: 4); field x: i32; } layout B(i) { dense(i: 32769); field y: i32; } layout C(i) { pointer(i: 4) cap 0; field z: i32; } \
         kernel k { for i in A { x[i] = true; } }",
        5,
        "refused: layout: B node 1 rule 1\n",
    ),
];

#[test]
fn layouts_that_break_rules(rt: HostRuntime) -> Result<(), Fail> {
    compare(&rt, rt.alloc(), LAYOUTS)
}

/// Programs that are refused since a kernel asks what is active in a layout into which it writes.
static ASKS: &[(&str, u8, &str)] = &[
    (
        "layout A(i) { pointer(i: 4) cap 4; dense(i: 4); field x: i32; } kernel c { for i in A { if active(x[i]) { x[i] = 1; } } }",
        5,
        "refused: admission: kernel c statement 1 rule 6\n",
    ),
    (
        "layout A(i) { dense(i: 8); field x: i32; field y: i32; } layout V(i) { dense(i: 16); field v: i32; } kernel k { for i in A { v[i] += 1; if active(v[i + 1]) { x[i] = 1; } } }",
        5,
        "refused: admission: kernel k statement 2 rule 6\n",
    ),
    // by another field of the layout, behind the write, and where nothing ever runs
    (
        "layout A(i) { pointer(i: 4) cap 4; field x: i32; field v: i32; } kernel c { for i in 0..4 { v[i] += 1; if false { let t = active(x[i]); } } }",
        5,
        "refused: admission: kernel c statement 3 rule 6\n",
    ),
    // in an index, in a bound and in the value of the write itself
    (
        "layout A(i) { dense(i: 4); field x: i32; } layout B(i) { pointer(i: 4) cap 4; field v: i32; } kernel c { for i in A { v[0] += 1; if !active(x[i]) && x[i] > 0 || active(v[x[i]]) { } } }",
        5,
        "refused: admission: kernel c statement 2 rule 6\n",
    ),
    (
        "layout A(i) { dense(i: 4); field x: u32; } kernel c { for i in A { let t = active(x[i]); x[i] = 1u; } }",
        5,
        "refused: admission: kernel c statement 1 rule 6\n",
    ),
    // a rule with a smaller number goes before it
    (
        "layout A(i) { dense(i: 4); field x: i32; } kernel c { for i in A { x[i] = 0; if active(x[i]) && x[i - 1] > 0 { } } }",
        5,
        "refused: admission: kernel c statement 2 rule 2\n",
    ),
    // what a write may activate depends on an index that is read where it is written
    (
        "layout A(i) { pointer(i: 4) cap 4; field x: i32; } layout D(i) { dense(i: 4); field y: i32; } layout Z(i) { pointer(i: 4) cap 4; field z: i32; } \
         kernel c { for i in 0..4 { y[i] = 3; if active(x[y[i]]) { z[i] += 1; } } }",
        5,
        "refused: admission: kernel c statement 3 rule 4\n",
    ),
    // another layout with the same nodes is none into which the kernel writes
    (
        "layout A(i) { dense(i: 4); field x: i32; } layout B(i) { dense(i: 4); field y: i32; } kernel c { for i in A { if active(y[i]) { x[i] = 1; } } } run c; dump x;",
        0,
        "grid 1 4\n0 1\n1 1\n2 1\n3 1\n",
    ),
];

#[test]
fn kernels_that_ask_where_they_write(rt: HostRuntime) -> Result<(), Fail> {
    compare(&rt, rt.alloc(), ASKS)
}

static KERNELS: &[(&str, u8, &str)] = &[
    (
        "layout A(i) { dense(i: 1); field x: i32; } kernel k { for i in A { x[i] = 1; x[i] += 1; } }",
        5,
        "refused: admission: kernel k statement 2 rule 1\n",
    ),
    (
        "layout A(i) { dense(i: 1); field x: i32; } kernel k { for i in A { x[i] |= 1; x[i] |= 2; x[i] ^= 1; } }",
        5,
        "refused: admission: kernel k statement 3 rule 1\n",
    ),
    (
        "layout A(i) { dense(i: 1); field x: i32; } kernel k { for i in A { x[i] |= 1; x[i] ^= 2; } }",
        5,
        "refused: admission: kernel k statement 2 rule 1\n",
    ),
    (
        "layout A(i) { dense(i: 8); field x: i32; } kernel k { for i in 0..1 { x[i] = x[i - 1] + 4; } }",
        5,
        "refused: admission: kernel k statement 1 rule 2\n",
    ),
    (
        "layout A(i, j) { dense(i: 1, j: 1); field x: i32; } kernel k { for i, j in A { let a = 1; x[j, i] = a; } }",
        5,
        "refused: admission: kernel k statement 2 rule 2\n",
    ),
    (
        "layout A(i) { dense(i: 1); field x: i32; } kernel k { for i in A { x[i] += x[i]; } }",
        5,
        "refused: admission: kernel k statement 1 rule 3\n",
    ),
    (
        "layout B(i) { pointer(i: 4) cap 2; dense(i: 4); field x: i32; } layout C(i) { dense(i: 32); field y: i32; } \
         kernel k { for i in B { if x[i] > 0 { y[i + 1] += 1; x[i] = 0; } } }",
        5,
        "refused: admission: kernel k statement 2 rule 4\n",
    ),
    (
        "layout A(i) { dense(i: 1); field x: i32; } kernel k { for i in A { for p in 0..i { let a = p; } } }",
        5,
        "refused: admission: kernel k statement 1 rule 5\n",
    ),
    (
        "layout A(i) { dense(i: 1); field x: i32; } kernel k { for i in 0..1048577 { x[i] = 1; } }",
        8,
        "refused: limit: box k\n",
    ),
    // the first kernel
    (
        "layout A(i) { dense(i: 1); field x: i32; } kernel a { for i in A { x[i] = 1; } } kernel b { for i in A { x[i + 0] = 1; } } kernel c { for i in A { x[i] += x[i]; } }",
        5,
        "refused: admission: kernel b statement 1 rule 2\n",
    ),
];

#[test]
fn kernels_that_are_not_admitted(rt: HostRuntime) -> Result<(), Fail> {
    compare(&rt, rt.alloc(), KERNELS)
}

static COMMANDS: &[(&str, u8, &str)] = &[
    (
        "kernel k { for i in 0..1 { let a = i; } } times 0 { run k; }",
        5,
        "refused: command: item 2\n",
    ),
    (
        "kernel k { for i in 0..1 { let a = i; } } times 1001 { run k; }",
        8,
        "refused: limit: times\n",
    ),
    // admission comes first, and of two commands the first
    (
        "layout A(i) { dense(i: 1); field x: i32; } kernel k { for i in A { x[i] += x[i]; } } times 0 { run k; }",
        5,
        "refused: admission: kernel k statement 1 rule 3\n",
    ),
    (
        "kernel k { for i in 0..1 { let a = i; } } times 1001 { run k; } times 0 { run k; }",
        8,
        "refused: limit: times\n",
    ),
];

#[test]
fn commands_that_break_rules(rt: HostRuntime) -> Result<(), Fail> {
    compare(&rt, rt.alloc(), COMMANDS)
}
