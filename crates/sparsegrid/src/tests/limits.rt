//! Files at their limits, and one past them.

use super::setting::{compare, ends, repeated};
use std::alloc::{AllocError, Global};
use std::test::Fail;

/// A text, how often it stands in the file, the status, and the last line.
static TOKENS: &[(&str, u32, u8, &str)] = &[
    (" ", 65536, 0, ""),
    (" ", 65537, 8, "refused: limit: file bytes\n"),
    (";", 16384, 4, "refused: syntax: item 1 line 1\n"),
    (";", 16385, 8, "refused: limit: tokens\n"),
    ("(", 16384, 4, "refused: syntax: item 1 line 1\n"),
];

#[test]
fn limits_of_bytes_and_tokens(rt: HostRuntime) -> Result<(), Fail> {
    let alloc = rt.alloc();
    for (piece, count, status, text) in TOKENS {
        let source = repeated(alloc, piece, *count)?;
        ends(&rt, alloc, source.as_str(), *status, text)?;
    }
    Ok(())
}

/// How many layouts with how many fields each, what stands after them, the status, and the last line.
static LAYOUTS: &[(u32, u32, &str, u8, &str)] = &[
    (8, 2, "", 0, ""),
    (1, 16, "", 0, ""),
    (9, 1, "", 8, "refused: limit: layouts\n"),
    (1, 17, "", 8, "refused: limit: fields\n"),
    // one layout and one field too many: the layouts count first
    (
        8,
        2,
        "layout M(i) { dense(i: 1); field b: i32; }",
        8,
        "refused: limit: layouts\n",
    ),
    (
        5,
        3,
        "layout M(i) { dense(i: 1); field b: i32; field c: i32; }",
        8,
        "refused: limit: fields\n",
    ),
];

fn fields(alloc: Global, layout: u32, count: u32) -> Result<String, AllocError> {
    let mut source = String::new(alloc);
    for n in 0..count {
        let field = format!(in alloc; "field f{layout}_{n}: i32; ")?;
        source.push_str(field.as_str())?;
    }
    Ok(source)
}

fn layouts(alloc: Global, count: u32, each: u32) -> Result<String, AllocError> {
    let mut source = String::new(alloc);
    for n in 0..count {
        let fields = fields(alloc, n, each)?;
        let layout = format!(in alloc; "layout L{n}(i) {{ dense(i: 1); {fields} }}")?;
        source.push_str(layout.as_str())?;
    }
    Ok(source)
}

#[test]
fn limits_of_layouts_and_fields(rt: HostRuntime) -> Result<(), Fail> {
    let alloc = rt.alloc();
    for (count, each, behind, status, text) in LAYOUTS {
        let mut source = layouts(alloc, *count, *each)?;
        source.push_str(behind)?;
        ends(&rt, alloc, source.as_str(), *status, text)?;
    }
    Ok(())
}

/// How many kernels, what stands after them, the status, and the last line.
static KERNELS: &[(u32, &str, u8, &str)] = &[
    (16, "", 0, ""),
    (17, "", 8, "refused: limit: kernels\n"),
    // another fault of the kernel that is one too many comes first
    (
        16,
        "kernel k3 { for i in 0..1 { } }",
        5,
        "refused: name twice: item 17\n",
    ),
    (
        16,
        "kernel m { for i in Z { } }",
        5,
        "refused: unknown name: item 17\n",
    ),
];

fn kernels(alloc: Global, count: u32) -> Result<String, AllocError> {
    let mut source = String::new(alloc);
    for n in 0..count {
        let kernel = format!(in alloc; "kernel k{n} {{ for i in 0..1 {{ let t = 0; }} }} ")?;
        source.push_str(kernel.as_str())?;
    }
    Ok(source)
}

#[test]
fn limit_of_kernels(rt: HostRuntime) -> Result<(), Fail> {
    let alloc = rt.alloc();
    for (count, behind, status, text) in KERNELS {
        let mut source = kernels(alloc, *count)?;
        source.push_str(behind)?;
        ends(&rt, alloc, source.as_str(), *status, text)?;
    }
    Ok(())
}

/// How many runs of a kernel, what stands after them, the status, and the last line.
static COMMANDS: &[(u32, &str, u8, &str)] = &[
    (64, "", 0, ""),
    (65, "", 8, "refused: limit: commands\n"),
    // a `times` is a command, and those in it are
    (
        62,
        "times 2 { run k0; run k0; }",
        8,
        "refused: limit: commands\n",
    ),
    (61, "times 2 { run k0; run k0; }", 0, ""),
];

#[test]
fn limit_of_commands(rt: HostRuntime) -> Result<(), Fail> {
    let alloc = rt.alloc();
    for (count, behind, status, text) in COMMANDS {
        let mut source = kernels(alloc, 1)?;
        let runs = repeated(alloc, "run k0; ", *count)?;
        source.push_str(runs.as_str())?;
        source.push_str(behind)?;
        ends(&rt, alloc, source.as_str(), *status, text)?;
    }
    Ok(())
}

/// As many dumps as there may be write all their texts, and one more writes none.
#[test]
fn limit_of_dumps(rt: HostRuntime) -> Result<(), Fail> {
    let alloc = rt.alloc();
    let mut source = String::from_str(alloc, "layout L(i) { dense(i: 1); field f: i32; }")?;
    let dumps = repeated(alloc, "dump f; ", 64)?;
    source.push_str(dumps.as_str())?;
    let text = repeated(alloc, "grid 1 1\n0 0\n", 64)?;
    ends(&rt, alloc, source.as_str(), 0, text.as_str())?;
    source.push_str("dump f; ")?;
    ends(&rt, alloc, source.as_str(), 8, "refused: limit: commands\n")
}

/// What stands before and after a number, one inside the other, how often, and the value.
static NESTED: &[(&str, &str, u32, &str)] = &[
    ("(", ")", 63, "3"),
    ("-", "", 63, "-3"),
    ("~", "", 63, "-4"),
    ("i32(u32(", "))", 31, "3"),
    ("min(", ", 5)", 63, "3"),
    ("max(5, ", ")", 63, "5"),
    ("1 + (", ")", 31, "34"),
    ("y[", "]", 63, "0"),
];

/// A deep expression takes time in proportion to its length.
#[test]
fn deep_expressions(rt: HostRuntime) -> Result<(), Fail> {
    let alloc = rt.alloc();
    for (open, close, count, value) in NESTED {
        let before = repeated(alloc, open, *count)?;
        let behind = repeated(alloc, close, *count)?;
        let source = format!(in alloc;
            "layout L(i) {{ dense(i: 1); field x: i32; field y: i32; }} kernel k {{ for i in 0..1 {{ x[i] = {before}3{behind}; }} }} run k; dump x;"
        )?;
        let text = format!(in alloc; "grid 1 1\n0 {value}\n")?;
        ends(&rt, alloc, source.as_str(), 0, text.as_str())?;
    }
    Ok(())
}

/// A file of 16,381 tokens, nearly all of them in one kernel.
#[test]
fn a_long_kernel(rt: HostRuntime) -> Result<(), Fail> {
    let alloc = rt.alloc();
    let steps = repeated(alloc, "a = a + i; ", 2722)?;
    let source = format!(in alloc;
        "layout L(i) {{ dense(i: 2); field x: i32; }} kernel k {{ for i in 0..2 {{ let a = 7; {steps}x[i] = a; }} }} run k; dump x;"
    )?;
    ends(&rt, alloc, source.as_str(), 0, "grid 1 2\n0 7\n1 2729\n")
}

/// Programs at a limit of turns, storage words, an axis, a cap, a box or an image, and one past it, with the status and the text.
static SIZES: &[(&str, u8, &str)] = &[
    (
        "layout A(i) { dense(i: 1); field x: i32; } kernel k { for p in 0..1 { x[0] += 1; } } times 1000 { run k; } dump x;",
        0,
        "grid 1 1\n0 1000\n",
    ),
    (
        "layout A(i) { dense(i: 1); field x: i32; } kernel k { for p in 0..1 { x[0] += 1; } } times 1001 { run k; } dump x;",
        8,
        "refused: limit: times\n",
    ),
    (
        "layout A(i, j) { dense(i: 32768, j: 128); field x: i32; }",
        0,
        "",
    ),
    (
        "layout A(i, j) { dense(i: 32768, j: 256); field x: i32; }",
        8,
        "refused: limit: words\n",
    ),
    ("layout A(i) { dense(i: 32768); field x: i32; }", 0, ""),
    (
        "layout A(i) { dense(i: 32769); field x: i32; }",
        5,
        "refused: layout: A node 1 rule 1\n",
    ),
    (
        "layout A(i) { dense(i: 181); dense(i: 182); field x: i32; }",
        8,
        "refused: limit: layout A\n",
    ),
    (
        "layout A(i) { dense(i: 32768); dense(i: 2); field x: i32; }",
        8,
        "refused: limit: layout A\n",
    ),
    (
        "layout A(i) { pointer(i: 1) cap 65536; field x: i32; }",
        0,
        "",
    ),
    (
        "layout A(i) { pointer(i: 1) cap 65537; field x: i32; }",
        5,
        "refused: layout: A node 1 rule 5\n",
    ),
    (
        "layout A(i) { dense(i: 1); field x: i32; } kernel k { for p in 0..1048576 { x[0] += 1; } } run k; dump x;",
        0,
        "grid 1 1\n0 1048576\n",
    ),
    (
        "layout A(i) { dense(i: 1); field x: i32; } kernel k { for p in 0..1048577 { x[0] += 1; } } run k; dump x;",
        8,
        "refused: limit: box k\n",
    ),
    (
        "layout A(i, j) { dense(i: 2048, j: 1024); field x: i32; } image x 0 9;",
        8,
        "refused: limit: image\n",
    ),
];

#[test]
fn limits_of_sizes(rt: HostRuntime) -> Result<(), Fail> {
    compare(&rt, rt.alloc(), SIZES)
}
