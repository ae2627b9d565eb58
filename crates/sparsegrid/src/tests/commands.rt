use super::setting::{Setting, ends};
use crate::picture_examples::PICTURES;
use std::test::Fail;

/// Programs without loads, with the status and the text.
static RUNS: &[(&str, u8, &str)] = &[
    // texts of commands in a `times`, and a dense layout that stays active
    (
        "layout A(i) { dense(i: 2); field x: i32; } kernel k { for i in A { x[i] = x[i] + 1; } } times 2 { run k; stats A; prune A; dump x; clear A; }",
        0,
        "stats A active 2\ngrid 1 2\n0 1\n1 1\nstats A active 2\ngrid 1 2\n0 1\n1 1\n",
    ),
    // pruning over three axes, under keys, pointers and bits, of lists, and below a node that names the axes in another order
    (
        "layout A(i, j, k) { hash(i: 4, j: 4) cap 4; pointer(k: 4) cap 8; bitmasked(i: 2, j: 2, k: 2); field x: i32; field y: u32; } \
         kernel w { for i, j, k in 1..3, 2..4, 3..5 { x[i, j, k] = i * 100 + j * 10 + k; } } kernel z { for i, j, k in 1..2, 2..4, 3..5 { x[i, j, k] = 0; } } \
         run w; stats A; prune A; stats A; run z; prune A; stats A; dump x;",
        0,
        "stats A active 8 node 1 live 2 node 2 live 4\nstats A active 8 node 1 live 2 node 2 live 4\nstats A active 4 node 1 live 1 node 2 live 2\n\
         grid 3 4\n2 2 3 223\n2 2 4 224\n2 3 3 233\n2 3 4 234\n",
    ),
    (
        "layout A(i, j) { dense(i: 4); dynamic(j: 8) chunk 2 cap 8; field x: i32; } kernel w { for i, j in 0..3, 0..3 { x[i, j] = i * 10 + j; } } \
         kernel y { for i, j in 0..3, 2..3 { x[i, j] = 0; } } kernel z { for i, j in 1..2, 0..2 { x[i, j] = 0; } } \
         run w; prune A; stats A; run y; run z; prune A; stats A; dump x;",
        0,
        "stats A active 9 node 2 live 6\nstats A active 4 node 2 live 2\ngrid 2 4\n0 0 0\n0 1 1\n2 0 20\n2 1 21\n",
    ),
    (
        "layout A(i, j, k) { pointer(k: 4, i: 2, j: 2) cap 8; dense(k: 2, j: 2); dynamic(i: 2) chunk 1 cap 16; field x: i32; } \
         kernel w { for i, j, k in 1..3, 2..4, 3..5 { x[i, j, k] = i * 100 + j * 10 + k; } } kernel z { for i, j, k in 1..2, 2..4, 3..5 { x[i, j, k] = 0; } } \
         run w; prune A; stats A; run z; prune A; stats A; dump x;",
        0,
        "stats A active 12 node 1 live 4 node 3 live 12\nstats A active 4 node 1 live 2 node 3 live 4\ngrid 3 4\n2 2 3 223\n2 2 4 224\n2 3 3 233\n2 3 4 234\n",
    ),
    // greys of words that stand for large numbers in one type and for negative ones in the other
    (
        "layout A(i, j) { dense(i: 1, j: 2); field x: i32; field y: u32; } kernel k { for i, j in A { x[i, j] = -1; y[i, j] = 4294967295u; } } run k; image x -2 0; image y 0 4294967295u;",
        0,
        "P2\n2 1\n255\n127 127\nP2\n2 1\n255\n255 255\n",
    ),
    (
        "layout A(i) { dense(i: 1); field x: i32; } image x 0 9;",
        5,
        "refused: command: item 2\n",
    ),
    (
        "layout A(i, j) { dense(i: 1, j: 1); field x: i32; } times 2 { clear A; image x 9 9; }",
        5,
        "refused: command: item 2\n",
    ),
    (
        "layout A(i, j) { dense(i: 2048, j: 1024); field x: i32; } image x 0 9;",
        8,
        "refused: limit: image\n",
    ),
    ("stats A;", 5, "refused: unknown name: item 1\n"),
    (
        "layout A(i) { dense(i: 1); field x: i32; } prune x;",
        5,
        "refused: unknown name: item 2\n",
    ),
];

#[test]
fn commands_without_loads(rt: HostRuntime) -> Result<(), Fail> {
    let alloc = rt.alloc();
    for (source, status, text) in RUNS {
        ends(&rt, alloc, source, *status, text)?;
    }
    Ok(())
}

#[test]
fn examples_that_draw(rt: HostRuntime) -> Result<(), Fail> {
    let alloc = rt.alloc();
    for (name, source, text) in PICTURES {
        let left = Setting::of(source).run(&rt, alloc)?;
        assert_eq!(rt; left.status, 0, "{name}");
        assert_eq!(rt; left.text.as_slice(), text.as_bytes(), "{name}");
    }
    Ok(())
}
