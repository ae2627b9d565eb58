//! When a run writes: the text of a command goes out before the reads of the next.

ghost use Rattle.std.specs.Prelude.{None};

use super::setting::{EveryWorker, named, owned};
use crate::run;
use sg_outside::{Files, Got, MemFiles, Put, Sink};
use std::alloc::{AllocError, Global};
use std::process::Abort;
use std::sync::atomic::{AtomicU64, Ordering};
use std::test::Fail;
use std::thread::Threads;

/// Files in memory whose reads are counted where a sink sees the count.
#[derive(Drop)]
struct CountedFiles<'a> {
    files: MemFiles,
    count: &'a AtomicU64,
}

impl<'a> Files for CountedFiles<'a> {
    ghost holds = { λ it. ⟦<MemFiles as Files>⟧.holds it.files };

    ghost asked = { λ it. ⟦<MemFiles as Files>⟧.asked it.files };

    ghost faults = { λ it. ⟦<MemFiles as Files>⟧.faults it.files };

    ghost reads = { λ it. ⟦<MemFiles as Files>⟧.reads it.files };

    fn read(&mut self, name: &str, limit: u64, into: &mut Vec<u8>) -> Got {
        self.count.fetch_add(1, Ordering::SeqCst);
        self.files.read(name, limit, into)
    }
}

/// A sink that notes for each put how many reads there were before it, and how long the piece is.
#[derive(Drop)]
struct WatchingSink<'a> {
    count: &'a AtomicU64,
    puts: Vec<(u64, usize)>,
}

impl<'a> Sink for WatchingSink<'a> {
    ghost has = { λ _. None };

    ghost pieces = { λ _. None };

    ghost faults = { λ _. 0 };

    fn put(&mut self, piece: &[u8]) -> Put {
        let reads = self.count.load(Ordering::SeqCst);
        match self.puts.push((reads, piece.len())) {
            Ok(()) => Put::All,
            Err(_) => Put::Memory,
        }
    }
}

const LOADS_AND_DUMPS: &str =
    "layout A(i) { dense(i: 1); field x: i32; field y: i32; } load x; dump x; prune A; load y; dump y; dump x;";

const REFUSED: &str =
    "layout A(i) { dense(i: 1); field x: i32; field y: i32; } load x; dump x; dump x; load y;";

/// A source, the file of `y`, the status, and for each put the reads before it with the length of its piece. The second file is no grid.
static PUTS: &[(&str, &str, u8, &[(u64, usize)])] = &[
    (
        LOADS_AND_DUMPS,
        "grid 1 1\n0 77\n",
        0,
        &[(2, 13), (3, 14), (3, 13)],
    ),
    (REFUSED, "grid", 6, &[(2, 13), (2, 13), (3, 24)]),
];

fn two_files(alloc: Global, source: &str, second: &str) -> Result<MemFiles, AllocError> {
    let mut list = Vec::new(alloc);
    list.push(named(alloc, "p.sg", source)?)?;
    list.push(named(alloc, "a", "grid 1 1\n0 7\n")?)?;
    list.push(named(alloc, "b", second)?)?;
    Ok(MemFiles::new(list, Vec::new(alloc)))
}

/// The status of a run over such files and such a sink.
fn run_watched<R: Threads + Sync>(
    rt: &R,
    alloc: Global,
    words: &[String],
    files: &mut CountedFiles,
    out: &mut WatchingSink,
) -> u8 {
    run(rt, alloc, words, files, out, &EveryWorker).status
}

fn puts_are<R: Threads + Sync + Abort>(
    rt: &R,
    alloc: Global,
    source: &str,
    second: &str,
    status: u8,
    puts: &[(u64, usize)],
) -> Result<(), Fail> {
    let count = AtomicU64::new(0);
    let words = owned(alloc, &["p.sg", "x=a", "y=b"])?;
    let mut files = CountedFiles {
        files: two_files(alloc, source, second)?,
        count: &count,
    };
    let mut out = WatchingSink {
        count: &count,
        puts: Vec::new(alloc),
    };
    let ended = run_watched(rt, alloc, words.as_slice(), &mut files, &mut out);
    assert_eq!(rt; ended, status, "{source}");
    assert_eq!(rt; out.puts.as_slice(), puts, "{source}");
    Ok(())
}

/// One put for each text that isn't empty, before the next read.
#[test]
fn texts_go_out_before_the_next_read(rt: HostRuntime) -> Result<(), Fail> {
    for (source, second, status, puts) in PUTS {
        puts_are(&rt, rt.alloc(), source, second, *status, puts)?;
    }
    Ok(())
}
