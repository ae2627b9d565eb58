//! Journals that are audited.

use super::setting::{Setting, beside, repeated};
use std::alloc::Global;
use std::process::Abort;
use std::test::Fail;
use std::thread::Threads;

/// A line of four blocks of four, with room for two of them. Its load has no file, and its kernel isn't run.
const BLOCKS: &str =
    "layout A(i) { pointer(i: 4) cap 2; dense(i: 4); field x: i32; } kernel k { for i in A { x[i] = 1; } } load x; run k;";

/// The journal, the reads that fail, the status, and what is written.
static JOURNALS: &[(&str, &[u64], u8, &str)] = &[
    (
        "take 0 1 3 0 0\ntake 0 1 3 0 1\nend\n",
        &[],
        0,
        "no line 2\n",
    ),
    (
        "take 0 1 3 0 0\nfree 0 1 3\ntake 0 1 3 0 1\nend\n",
        &[],
        0,
        "yes\n",
    ),
    ("take 0 1 3 0 0\n", &[], 0, "no line 2\n"),
    ("take 0 1 19 0 0\nend\n", &[], 0, "no line 1\n"),
    (
        "take 0 1 0 0 0\ntake 0 1 1 0 1\ntake 0 1 2 0 2\nend\n",
        &[],
        0,
        "no line 3\n",
    ),
    ("end\n", &[], 0, "yes\n"),
    ("", &[], 0, "no line 1\n"),
    ("end\n", &[1], 2, "refused: read p.sg\n"),
    ("end\n", &[2], 2, "refused: read j\n"),
    ("end\n", &[3], 0, "yes\n"),
];

/// The words, the source, the status, and what is written, where the journal is `end` alone.
static WORDS: &[(&[&str], &str, u8, &str)] = &[
    (&["p.sg", "--mode=audit", "journal=j"], BLOCKS, 0, "yes\n"),
    (
        &["--mode=audit", "--workers=16", "p.sg", "journal=j"],
        "",
        0,
        "yes\n",
    ),
    (
        &["--mode=audit", "p.sg", "journal=nowhere"],
        BLOCKS,
        2,
        "refused: read nowhere\n",
    ),
    (
        &["--mode=audit", "p.sg", "journal=j"],
        "run k;",
        5,
        "refused: unknown name: item 1\n",
    ),
    (&["--mode=audit", "p.sg"], BLOCKS, 1, "refused: words\n"),
    (
        &["--mode=audit", "p.sg", "x=j"],
        BLOCKS,
        1,
        "refused: words\n",
    ),
    (
        &["--mode=audit", "p.sg", "journal=j", "x=j"],
        BLOCKS,
        1,
        "refused: words\n",
    ),
    (
        &["--mode=audit", "--from=j", "p.sg", "journal=j"],
        BLOCKS,
        1,
        "refused: words\n",
    ),
];

static ENDED: &[(&str, &str)] = &[("j", "end\n")];

fn journal_ends<R: Threads + Sync + Abort>(
    rt: &R,
    alloc: Global,
    journal: &str,
    failing_reads: &[u64],
    status: u8,
    text: &str,
) -> Result<(), Fail> {
    let others = beside(alloc, "j", journal)?;
    let setting = Setting {
        words: &["--mode=audit", "p.sg", "journal=j"],
        others: others.as_slice(),
        failing_reads,
        ..Setting::of(BLOCKS)
    };
    setting.ends(rt, alloc, status, text)
}

#[test]
fn audited(rt: HostRuntime) -> Result<(), Fail> {
    let alloc = rt.alloc();
    for (journal, failing_reads, status, text) in JOURNALS {
        journal_ends(&rt, alloc, journal, failing_reads, *status, text)?;
    }
    for (words, source, status, text) in WORDS {
        let setting = Setting {
            words,
            others: ENDED,
            ..Setting::of(source)
        };
        setting.ends(&rt, alloc, *status, text)?;
    }
    Ok(())
}

#[test]
fn longest_journals(rt: HostRuntime) -> Result<(), Fail> {
    let alloc = rt.alloc();
    let piece = repeated(alloc, "\n               ", 1 << 12)?;
    let mut long = repeated(alloc, piece.as_str(), 1 << 8)?;
    journal_ends(&rt, alloc, long.as_str(), &[], 0, "no line 1\n")?;
    long.push_str(" ")?;
    let last = "refused: limit: journal bytes\n";
    journal_ends(&rt, alloc, long.as_str(), &[], 8, last)
}
