//! Snapshots: what mode save writes, and what a run does that begins with such bytes.

use super::setting::{Setting, beside, repeated};
use std::alloc::Global;
use std::process::Abort;
use std::test::Fail;
use std::thread::Threads;

/// A line of four blocks of four, with room for two of them; its kernel sets the second cell of block 1 to 7.
const SETS: &str =
    "layout A(i) { pointer(i: 4) cap 2; dense(i: 4); field x: i32; } kernel k { for i in 5..6 { x[i] = 7; } } run k;";

const SETS_AND_TELLS: &str =
    "layout A(i) { pointer(i: 4) cap 2; dense(i: 4); field x: i32; } kernel k { for i in 5..6 { x[i] = 7; } } run k; dump x; stats A;";

const SETS_OUTSIDE: &str =
    "layout A(i) { pointer(i: 4) cap 2; dense(i: 4); field x: i32; } kernel k { for i in 15..17 { x[i] = 7; } } dump x; run k;";

const TELLS: &str = "layout A(i) { pointer(i: 4) cap 2; dense(i: 4); field x: i32; } dump x;";

const TELLS_IN_ONE: &str =
    "layout A(i) { pointer(i: 4) cap 1; dense(i: 4); field x: i32; } dump x;";

const LOADS: &str =
    "layout A(i) { pointer(i: 4) cap 2; dense(i: 4); field x: i32; } load x; dump x;";

/// Two fields in each of two layouts.
const SETS_FOUR_FIELDS: &str =
    "layout A(i) { bitmasked(i: 4); field x: i32; field y: u32; } layout B(i) { bitmasked(i: 4); field v: i32; field w: u32; } \
     kernel a { for i in 1..4 { if i != 2 { x[i] = (i + 13) / 2; y[i] = u32((i + 9) / 2); } } } \
     kernel b { for i in 2..3 { v[i] = 9; w[i] = 10u; } } run a; run b;";

const TELLS_FOUR_FIELDS: &str =
    "layout A(i) { bitmasked(i: 4); field x: i32; field y: u32; } layout B(i) { bitmasked(i: 4); field v: i32; field w: u32; } \
     dump x; dump y; dump v; dump w;";

/// The image of the state that `SETS_FOUR_FIELDS` leaves: the words of a field stand together.
const FOUR_FIELDS: &str =
    "SGS1\x02\0\0\0\x02\0\0\0\x01\0\0\0\x03\0\0\0\x07\0\0\0\x08\0\0\0\x05\0\0\0\x06\0\0\0\
     \x01\0\0\0\x02\0\0\0\x09\0\0\0\x0a\0\0\0";

/// The image of the state that `SETS` leaves.
const ONE_BLOCK: &str =
    "SGS1\x01\0\0\0\x04\0\0\0\x04\0\0\0\x05\0\0\0\x06\0\0\0\x07\0\0\0\0\0\0\0\x07\0\0\0\0\0\0\0\0\0\0\0";

const BLOCKS_0_AND_1: &str =
    "SGS1\x01\0\0\0\x08\0\0\0\0\0\0\0\x01\0\0\0\x02\0\0\0\x03\0\0\0\x04\0\0\0\x05\0\0\0\x06\0\0\0\x07\0\0\0\
     \0\0\0\0\0\0\0\0\0\0\0\0\0\0\0\0\0\0\0\0\0\0\0\0\0\0\0\0\0\0\0\0";

const FIVE_ALONE: &str = "SGS1\x01\0\0\0\x01\0\0\0\x05\0\0\0\x07\0\0\0";

const A_BYTE_LESS: &str =
    "SGS1\x01\0\0\0\x04\0\0\0\x04\0\0\0\x05\0\0\0\x06\0\0\0\x07\0\0\0\0\0\0\0\x07\0\0\0\0\0\0\0\0\0\0";

static FILES: &[(&str, &str)] = &[
    ("s", ONE_BLOCK),
    ("two", BLOCKS_0_AND_1),
    ("five", FIVE_ALONE),
    ("less", A_BYTE_LESS),
    ("-", ONE_BLOCK),
    ("four", FOUR_FIELDS),
    ("g", "grid 1 1\n0 3\n"),
];

/// The words, the source, the reads and puts that fail, the status, and what is written.
static RUNS: &[(&[&str], &str, &[u64], &[u64], u8, &str)] = &[
    (&["--mode=save", "p.sg"], SETS, &[], &[], 0, ONE_BLOCK),
    (
        &["--mode", "save", "p.sg"],
        SETS_AND_TELLS,
        &[],
        &[],
        0,
        ONE_BLOCK,
    ),
    (
        &["--mode=save", "p.sg"],
        SETS_FOUR_FIELDS,
        &[],
        &[],
        0,
        FOUR_FIELDS,
    ),
    (
        &["--from=four", "p.sg"],
        TELLS_FOUR_FIELDS,
        &[],
        &[],
        0,
        "grid 1 2\n1 7\n3 8\ngrid 1 2\n1 5\n3 6\ngrid 1 1\n2 9\ngrid 1 1\n2 10\n",
    ),
    (&["--mode=save", "p.sg"], "", &[], &[], 0, "SGS1\0\0\0\0"),
    (
        &["--mode=save", "p.sg"],
        SETS_OUTSIDE,
        &[],
        &[],
        7,
        "refused: write outside: kernel k statement 1 at 16\n",
    ),
    (&["--mode=save", "p.sg"], SETS, &[], &[1], 3, "SGS1\x01"),
    (
        &["--mode=save", "--from=s", "p.sg"],
        TELLS,
        &[],
        &[],
        0,
        ONE_BLOCK,
    ),
    (
        &["--from=s", "p.sg"],
        TELLS,
        &[],
        &[],
        0,
        "grid 1 4\n4 0\n5 7\n6 0\n7 0\n",
    ),
    (
        &["p.sg", "--from=-"],
        TELLS,
        &[],
        &[],
        0,
        "grid 1 4\n4 0\n5 7\n6 0\n7 0\n",
    ),
    (
        &["--from", "s", "p.sg", "x=g"],
        LOADS,
        &[],
        &[],
        0,
        "grid 1 8\n0 3\n1 0\n2 0\n3 0\n4 0\n5 7\n6 0\n7 0\n",
    ),
    (
        &["--from=two", "p.sg"],
        TELLS_IN_ONE,
        &[],
        &[],
        7,
        "refused: pool full: A node 1 cap 1\n",
    ),
    (
        &["--from=five", "p.sg"],
        TELLS,
        &[],
        &[],
        6,
        "refused: snapshot\n",
    ),
    (
        &["--from=less", "p.sg"],
        TELLS,
        &[],
        &[],
        6,
        "refused: snapshot\n",
    ),
    (
        &["--from=-x", "p.sg"],
        TELLS,
        &[],
        &[],
        2,
        "refused: read -x\n",
    ),
    (
        &["--from=s", "p.sg"],
        TELLS,
        &[2],
        &[],
        2,
        "refused: read s\n",
    ),
    (
        &["--from=s", "p.sg", "x=g"],
        LOADS,
        &[3],
        &[],
        2,
        "refused: read g\n",
    ),
    (
        &["--from=nowhere", "p.sg"],
        LOADS,
        &[],
        &[],
        1,
        "refused: no file for x\n",
    ),
    (
        &["--from", "-", "p.sg"],
        TELLS,
        &[],
        &[],
        1,
        "refused: words\n",
    ),
    (
        &["--from=s", "--mode=check", "p.sg"],
        TELLS,
        &[],
        &[],
        1,
        "refused: words\n",
    ),
];

fn runs_end<R: Threads + Sync + Abort>(rt: &R, alloc: Global) -> Result<(), Fail> {
    for (words, source, failing_reads, failing_puts, status, text) in RUNS {
        let setting = Setting {
            words,
            source,
            others: FILES,
            failing_reads,
            failing_puts,
            take: 5,
        };
        setting.ends(rt, alloc, *status, text)?;
    }
    Ok(())
}

#[test]
fn saved_and_begun(rt: HostRuntime) -> Result<(), Fail> {
    runs_end(&rt, rt.alloc())
}

/// A run that begins with an image has this status and text.
fn begun_ends<R: Threads + Sync + Abort>(
    rt: &R,
    alloc: Global,
    image: &str,
    status: u8,
    text: &str,
) -> Result<(), Fail> {
    let others = beside(alloc, "s", image)?;
    let setting = Setting {
        words: &["--from=s", "p.sg"],
        others: others.as_slice(),
        ..Setting::of(TELLS)
    };
    setting.ends(rt, alloc, status, text)
}

#[test]
fn longest_snapshots(rt: HostRuntime) -> Result<(), Fail> {
    let alloc = rt.alloc();
    let piece = repeated(alloc, "                ", 1 << 12)?;
    let mut long = repeated(alloc, piece.as_str(), 1 << 10)?;
    begun_ends(&rt, alloc, long.as_str(), 6, "refused: snapshot\n")?;
    long.push_str(" ")?;
    let last = "refused: limit: snapshot bytes\n";
    begun_ends(&rt, alloc, long.as_str(), 8, last)
}
