//! Journals of runs: each is audited, and so is what was written of one that was refused or cut short.

use super::setting::{Setting, beside};
use std::alloc::Global;
use std::process::Abort;
use std::str::from_utf8;
use std::test::Fail;
use std::thread::Threads;

/// Four particles are scattered into cells under keys, pointers and bits.
const SCATTERED: &str = "layout P(p) { dense(p: 4); field px: i32; field py: i32; field m: i32; } \
     layout G(i, j) { hash(i: 4, j: 4) cap 16; pointer(i: 2, j: 2) cap 64; bitmasked(i: 8, j: 8); field g: i32; } \
     kernel scatter { for p in P { g[px[p] >> 4, py[p] >> 4] += m[p]; } } \
     load px; load py; load m; run scatter; dump g;";

/// A block is taken, kept by one field, freed with the other, and another one taken.
const PRUNED: &str =
    "layout A(i) { pointer(i: 4) cap 1; dense(i: 2); field x: i32; field y: i32; } \
     kernel w { for i in 0..1 { x[i] = 1; y[i] = 2; } } kernel zx { for i in A { x[i] = 0; } } \
     kernel zy { for i in A { y[i] = 0; } } kernel far { for i in 6..7 { x[i] = 5; } } \
     run w; run zx; prune A; run zy; prune A; run far;";

/// A list of chunks under each of two containers, which grow and are cleared.
const LISTS: &str =
    "layout A(j, i) { pointer(j: 2) cap 2; dynamic(i: 8) chunk 2 cap 8; field x: i32; } \
     kernel a { for p in 0..1 { x[0, 3] += 1; x[1, 7] += 2; } } kernel b { for p in 0..1 { x[0, 7] += 3; } } \
     run a; dump x; run b; times 2 { clear A; run a; }";

/// The same block is taken, freed and taken again.
const CLEARED: &str =
    "layout A(i) { pointer(i: 4) cap 2; dense(i: 4); field x: i32; } kernel k { for i in 5..6 { x[i] = 7; } } run k; clear A; run k;";

const FULL: &str =
    "layout A(i) { pointer(i: 4) cap 1; dense(i: 4); field x: i32; } kernel one { for i in 0..1 { x[i] = 1; } } \
     kernel two { for i in 4..5 { x[i] = 2; } } run one; dump x; run two;";

const LOADS: &str =
    "layout A(i) { pointer(i: 4) cap 2; dense(i: 4); field x: i32; } kernel k { for i in 0..1 { x[i] = 1; } } run k; load x;";

/// The image of block 1 of the layout of `LOADS`, and that of blocks 0 and 1.
const ONE_BLOCK: &str =
    "SGS1\x01\0\0\0\x04\0\0\0\x04\0\0\0\x05\0\0\0\x06\0\0\0\x07\0\0\0\0\0\0\0\x07\0\0\0\0\0\0\0\0\0\0\0";

const TWO_BLOCKS: &str =
    "SGS1\x01\0\0\0\x08\0\0\0\0\0\0\0\x01\0\0\0\x02\0\0\0\x03\0\0\0\x04\0\0\0\x05\0\0\0\x06\0\0\0\x07\0\0\0\
     \0\0\0\0\0\0\0\0\0\0\0\0\0\0\0\0\0\0\0\0\0\0\0\0\0\0\0\0\0\0\0\0";

static FILES: &[(&str, &str)] = &[
    ("a", "grid 1 4\n0 5\n1 300\n2 5\n3 17\n"),
    ("b", "grid 1 4\n0 8\n1 40\n2 8\n3 17\n"),
    ("c", "grid 1 4\n0 2\n1 3\n2 5\n3 7\n"),
    ("g", "grid 1 1\n5 3\n"),
    ("bad", "grid 1 1\n5 3"),
    ("one", ONE_BLOCK),
    ("two", TWO_BLOCKS),
];

/// The words before and behind the file, the source, the reads that fail, the status, the last line, and how many lines take and free.
static RUNS: &[(&str, &[&str], &str, &[u64], u8, &str, (usize, usize))] = &[
    (
        "--workers=1",
        &["px=a", "py=b", "m=c"],
        SCATTERED,
        &[],
        0,
        "end\n",
        (4, 0),
    ),
    (
        "--workers=16",
        &["px=a", "py=b", "m=c"],
        SCATTERED,
        &[],
        0,
        "end\n",
        (4, 0),
    ),
    ("--workers=16", &[], PRUNED, &[], 0, "end\n", (2, 1)),
    ("--workers=16", &[], LISTS, &[], 0, "end\n", (26, 18)),
    ("--workers=2", &[], CLEARED, &[], 0, "end\n", (2, 1)),
    (
        "--workers=2",
        &[],
        FULL,
        &[],
        7,
        "refused: pool full: A node 1 cap 1\n",
        (1, 0),
    ),
    ("--workers=2", &["x=g"], LOADS, &[], 0, "end\n", (2, 0)),
    (
        "--workers=2",
        &["x=bad"],
        LOADS,
        &[],
        6,
        "refused: grid: x line 2\n",
        (1, 0),
    ),
    (
        "--workers=2",
        &["x=g"],
        LOADS,
        &[2],
        2,
        "refused: read g\n",
        (1, 0),
    ),
    ("--from=one", &["x=g"], LOADS, &[], 0, "end\n", (2, 0)),
    ("--from=two", &["x=g"], LOADS, &[], 0, "end\n", (2, 0)),
    (
        "--from=two",
        &[],
        FULL,
        &[],
        7,
        "refused: pool full: A node 1 cap 1\n",
        (0, 0),
    ),
    (
        "--from=g",
        &["x=g"],
        LOADS,
        &[],
        6,
        "refused: snapshot\n",
        (0, 0),
    ),
    (
        "--workers=2",
        &[],
        LOADS,
        &[],
        1,
        "refused: no file for x\n",
        (0, 0),
    ),
    ("--workers=2", &[], "", &[], 0, "end\n", (0, 0)),
];

/// The audit of a journal over the layouts of a source is yes.
fn is_sound<R: Threads + Sync + Abort>(
    rt: &R,
    alloc: Global,
    source: &str,
    journal: &str,
) -> Result<(), Fail> {
    let others = beside(alloc, "j", journal)?;
    let setting = Setting {
        words: &["--mode=audit", "p.sg", "journal=j"],
        others: others.as_slice(),
        ..Setting::of(source)
    };
    setting.ends(rt, alloc, 0, "yes\n")
}

/// The lines before the last one, with the end behind them.
fn closed(alloc: Global, lines: &str) -> Result<String, Fail> {
    let mut journal = String::from_str(alloc, lines)?;
    journal.push_str("end\n")?;
    Ok(journal)
}

/// The whole lines of a text, with the end behind them.
fn closed_lines(alloc: Global, text: &str) -> Result<String, Fail> {
    let mut journal = String::new(alloc);
    if let Some((lines, _cut)) = text.rsplit_once('\n') {
        journal.push_str(lines)?;
        journal.push_str("\n")?;
    }
    journal.push_str("end\n")?;
    Ok(journal)
}

fn journal_of<R: Threads + Sync + Abort>(
    rt: &R,
    alloc: Global,
    setting: &Setting,
    status: u8,
    last: &str,
    counts: (usize, usize),
) -> Result<(), Fail> {
    let left = setting.run(rt, alloc)?;
    let source = setting.source;
    assert_eq!(rt; left.status, status, "{source}");
    let text = from_utf8(left.text.as_slice())?;
    match text.strip_suffix(last) {
        Some(lines) => {
            let found = (
                lines.matches("take ").count(),
                lines.matches("free ").count(),
            );
            assert_eq!(rt; found, counts, "{source}");
            is_sound(rt, alloc, source, closed(alloc, lines)?.as_str())
        }
        None => {
            assert_eq!(rt; text, last, "{source}");
            Ok(())
        }
    }
}

#[test]
fn runs_are_journaled(rt: HostRuntime) -> Result<(), Fail> {
    let alloc = rt.alloc();
    for (first, binds, source, failing_reads, status, last, counts) in RUNS {
        let mut words = Vec::new(alloc);
        words.push("--mode=journal")?;
        words.push(*first)?;
        words.push("p.sg")?;
        for bind in *binds {
            words.push(*bind)?;
        }
        let setting = Setting {
            words: words.as_slice(),
            others: FILES,
            failing_reads,
            ..Setting::of(source)
        };
        journal_of(&rt, alloc, &setting, *status, last, *counts)?;
    }
    Ok(())
}

/// The put of this number fails, and takes so many bytes: the whole lines that were written, with the end, are sound.
fn cut_is_sound<R: Threads + Sync + Abort>(
    rt: &R,
    alloc: Global,
    put: u64,
    take: usize,
) -> Result<(), Fail> {
    let failing = [put];
    let setting = Setting {
        words: &["--mode=journal", "p.sg"],
        failing_puts: failing.as_slice(),
        take,
        ..Setting::of(LISTS)
    };
    let left = setting.run(rt, alloc)?;
    assert_eq!(rt; left.status, 3);
    let text = from_utf8(left.text.as_slice())?;
    is_sound(rt, alloc, LISTS, closed_lines(alloc, text)?.as_str())
}

#[test]
fn cut_journals_are_sound(rt: HostRuntime) -> Result<(), Fail> {
    let alloc = rt.alloc();
    for put in 1..6u64 {
        for take in 0..40usize {
            cut_is_sound(&rt, alloc, put, take)?;
        }
    }
    Ok(())
}
