//! Races for links, keys, bits, lengths and the bits of cells: what they leave is the same for any number of workers, however they come.

use super::setting::Setting;
use std::alloc::Global;
use std::process::Abort;
use std::test::Fail;
use std::thread::Threads;

/// A program, with the status and the text of its run.
type Row = (&'static str, u8, &'static str);

/// Lists that grow to the greatest index that is wanted, and no further.
static LISTS: &[Row] = &[
    (
        "layout A(i) { dynamic(i: 8) chunk 4 cap 2; field x: i32; } kernel k { for i in 5..6 { x[i] = 7; } } run k; dump x; stats A;",
        0,
        "grid 1 6\n0 0\n1 0\n2 0\n3 0\n4 0\n5 7\nstats A active 6 node 1 live 2\n",
    ),
    (
        "layout A(i) { dynamic(i: 8) chunk 4 cap 2; field x: i32; } kernel k { for i in 3..4 { x[i] = 7; } } run k; dump x; stats A;",
        0,
        "grid 1 4\n0 0\n1 0\n2 0\n3 7\nstats A active 4 node 1 live 1\n",
    ),
    (
        "layout A(i) { dynamic(i: 4096) chunk 4 cap 1024; field x: i32; } kernel k { for i in 0..4096 { x[4095 - i] += i; } } run k; stats A;",
        0,
        "stats A active 4096 node 1 live 1024\n",
    ),
];

/// All keys of a table in one run, and one key more than there is room for.
static KEYS: &[Row] = &[
    (
        "layout A(i) { hash(i: 2048) cap 2048; field x: i32; } kernel k { for i in 0..2048 { x[i] += 1; } } run k; stats A;",
        0,
        "stats A active 2048 node 1 live 2048\n",
    ),
    (
        "layout A(i) { hash(i: 2048) cap 2047; field x: i32; } kernel k { for i in 0..2048 { x[i] += 1; } } run k; stats A;",
        7,
        "refused: pool full: A node 1 cap 2047\n",
    ),
    (
        "layout A(i) { hash(i: 4096) cap 2048; field x: i32; } kernel k { for i in 0..4096 { x[(i & 2047) * 2] += 1; } } run k; stats A;",
        0,
        "stats A active 2048 node 1 live 2048\n",
    ),
];

/// Many that want the same few places.
static FEW_PLACES: &[Row] = &[
    (
        "layout A(i) { pointer(i: 4) cap 1; dense(i: 4); field x: i32; } kernel k { for p in 0..4096 { x[0] += 1; } } run k; dump x;",
        0,
        "grid 1 4\n0 4096\n1 0\n2 0\n3 0\n",
    ),
    (
        "layout A(i) { pointer(i: 4) cap 1; dense(i: 4); field x: i32; } kernel k { for p in 0..256 { x[(p & 1) * 4] += 1; } } run k;",
        7,
        "refused: pool full: A node 1 cap 1\n",
    ),
    (
        "layout A(i) { hash(i: 64) cap 3; field x: i32; } kernel k { for p in 0..4096 { x[(p & 3) * 8] += 1; } } run k;",
        7,
        "refused: pool full: A node 1 cap 3\n",
    ),
    (
        "layout A(i) { hash(i: 64) cap 4; field x: i32; } kernel k { for p in 0..4096 { x[(p & 3) * 8] += 1; } } run k; dump x;",
        0,
        "grid 1 4\n0 1024\n8 1024\n16 1024\n24 1024\n",
    ),
    (
        "layout A(i) { bitmasked(i: 64); field x: i32; } kernel k { for p in 0..256 { x[(p & 3) * 9] += 1; } } run k; dump x;",
        0,
        "grid 1 4\n0 64\n9 64\n18 64\n27 64\n",
    ),
];

/// Bits that many set, keep or flip in one cell: the old value takes part, and one that is new is 0.
static BITS: &[Row] = &[
    (
        "layout A(i) { dense(i: 1); field x: i32; } kernel k { for p in 0..8 { x[0] |= 1 << p; } } run k; dump x;",
        0,
        "grid 1 1\n0 255\n",
    ),
    (
        "layout A(i) { dense(i: 1); field x: i32; } kernel k { for p in 0..7 { x[0] ^= p; } } run k; dump x;",
        0,
        "grid 1 1\n0 7\n",
    ),
    (
        "layout A(i) { dense(i: 1); field x: i32; } kernel k { for p in 0..8 { x[0] &= -1; } } run k; dump x;",
        0,
        "grid 1 1\n0 0\n",
    ),
    (
        "layout A(i) { pointer(i: 4) cap 1; bitmasked(i: 4); field x: i32; field y: u32; } kernel w { for i in 1..2 { x[i] = -1; y[i] = 3u; } } \
         kernel k { for p in 0..4096 { x[1] &= ~(1 << (p & 15)); y[1] |= 1u << p; } } run w; run k; dump x; dump y;",
        0,
        "grid 1 1\n1 -65536\ngrid 1 1\n1 4294967295\n",
    ),
    (
        "layout A(i) { dense(i: 1); field x: i32; field y: u32; } kernel k { for p in 0..4095 { x[0] ^= p; y[0] ^= u32(p) << 20; } } run k; dump x; dump y;",
        0,
        "grid 1 1\n0 4095\ngrid 1 1\n0 4293918720\n",
    ),
];

/// As many contributions as a box has points, to one cell, and to 65,537, which are more than a part of a pass.
static MANY_BITS: &[Row] = &[
    (
        "layout A(i) { dense(i: 1); field x: i32; field y: i32; field z: u32; } kernel w { for i in A { y[i] = -1; } } \
         kernel k { for p in 0..1048576 { x[0] |= p; y[0] &= ~p; z[0] ^= u32(p) * 2654435761u; } } run w; run k; dump x; dump y; dump z;",
        0,
        "grid 1 1\n0 1048575\ngrid 1 1\n0 -1048576\ngrid 1 1\n0 2680160256\n",
    ),
    (
        "layout A(i, j) { dense(i: 256, j: 512); field x: u32; field y: u32; field z: u32; } layout T(k) { dense(k: 4); field t: u32; } \
         kernel w { for p in 0..65537 { y[p / 512, p % 512] |= 4294967295u; } } \
         kernel k { for p in 0..1048576 { let q = p % 65537; let a = q / 512; let b = q % 512; \
           x[a, b] |= u32(p); y[a, b] &= u32(p); z[a, b] ^= u32(p) * 2654435761u; } } \
         kernel s { for i, j in A { t[0] += x[i, j]; t[1] += y[i, j]; t[2] += z[i, j]; } } run w; run k; run s; dump t;",
        0,
        "grid 1 4\n0 2154823695\n1 2141126640\n2 3763284216\n3 0\n",
    ),
];

/// Blocks whose second run has no room.
static BLOCKS: &[Row] = &[(
    "layout A(i) { pointer(i: 4) cap 1; dense(i: 4); field x: i32; } kernel one { for i in 0..1 { x[i] = 1; } } \
     kernel two { for i in 4..5 { x[i] = 2; } } run one; dump x; run two; dump x;",
    7,
    "grid 1 4\n0 1\n1 0\n2 0\n3 0\nrefused: pool full: A node 1 cap 1\n",
)];

/// The words on one worker, on two and on sixteen.
static WORDS: &[&[&str]] = &[
    &["--workers", "1", "p.sg"],
    &["--workers", "2", "p.sg"],
    &["--workers", "16", "p.sg"],
];

/// Each program so many times, with the words on one worker, on two and on sixteen.
fn compare<R: Threads + Sync + Abort>(
    rt: &R,
    alloc: Global,
    rows: &[Row],
    times: u32,
) -> Result<(), Fail> {
    for _ in 0..times {
        for words in WORDS {
            for (source, status, text) in rows {
                let setting = Setting {
                    words,
                    ..Setting::of(source)
                };
                setting.ends(rt, alloc, *status, text)?;
            }
        }
    }
    Ok(())
}

#[test]
fn lists_are_raced(rt: HostRuntime) -> Result<(), Fail> {
    compare(&rt, rt.alloc(), LISTS, 100)
}

#[test]
fn all_keys_are_raced(rt: HostRuntime) -> Result<(), Fail> {
    compare(&rt, rt.alloc(), KEYS, 10)
}

#[test]
fn few_places_are_raced(rt: HostRuntime) -> Result<(), Fail> {
    compare(&rt, rt.alloc(), FEW_PLACES, 100)
}

#[test]
fn bits_are_raced(rt: HostRuntime) -> Result<(), Fail> {
    compare(&rt, rt.alloc(), BITS, 100)
}

#[test]
fn many_bits_are_raced(rt: HostRuntime) -> Result<(), Fail> {
    compare(&rt, rt.alloc(), MANY_BITS, 1)
}

#[test]
fn a_full_pool_is_raced(rt: HostRuntime) -> Result<(), Fail> {
    compare(&rt, rt.alloc(), BLOCKS, 100)
}

/// Three keys that all begin at the first place of a table of eight.
static FIRST_PLACE: &[(&str, &str)] = &[("g", "grid 1 3\n0 1\n8 1\n16 1\n")];

/// Where a fourth such key has no room.
#[test]
fn a_full_table_is_raced(rt: HostRuntime) -> Result<(), Fail> {
    for count in ["1", "2", "16"] {
        let words = ["--workers", count, "p.sg", "x=g"];
        let setting = Setting {
            words: &words,
            others: FIRST_PLACE,
            ..Setting::of(
                "layout A(i) { hash(i: 64) cap 3; field x: i32; } kernel k { for i in 24..25 { x[i] = 1; } } load x; dump x; run k;",
            )
        };
        for _ in 0..100 {
            setting.ends(
                &rt,
                rt.alloc(),
                7,
                "grid 1 3\n0 1\n8 1\n16 1\nrefused: pool full: A node 1 cap 3\n",
            )?;
        }
    }
    Ok(())
}

/// Four particles, two of them in one cell.
static PARTICLES: &[(&str, &str)] = &[
    ("a", "grid 1 4\n0 5\n1 300\n2 5\n3 17\n"),
    ("b", "grid 1 4\n0 8\n1 40\n2 8\n3 17\n"),
    ("c", "grid 1 4\n0 2\n1 3\n2 5\n3 7\n"),
];

/// They are scattered into cells under keys, pointers and bits.
#[test]
fn particles_are_raced(rt: HostRuntime) -> Result<(), Fail> {
    for count in ["1", "2", "16"] {
        let words = ["--workers", count, "p.sg", "px=a", "py=b", "m=c"];
        let setting = Setting {
            words: &words,
            others: PARTICLES,
            ..Setting::of(
                "layout P(p) { dense(p: 4); field px: i32; field py: i32; field m: i32; } \
                 layout G(i, j) { hash(i: 4, j: 4) cap 16; pointer(i: 2, j: 2) cap 64; bitmasked(i: 8, j: 8); field g: i32; } \
                 kernel scatter { for p in P { g[px[p] >> 4, py[p] >> 4] += m[p]; } } \
                 load px; load py; load m; run scatter; dump g; stats G;",
            )
        };
        for _ in 0..100 {
            setting.ends(
                &rt,
                rt.alloc(),
                0,
                "grid 2 3\n0 0 7\n1 1 7\n18 2 3\nstats G active 3 node 1 live 2 node 2 live 2\n",
            )?;
        }
    }
    Ok(())
}
