ghost use Rattle.std.specs.Prelude.{None};

use super::setting::Setting;
use sg_outside::{Put, Sink};
use std::test::Fail;

static SQUARES: Setting = Setting {
    words: &["p.sg"],
    source: "layout A(i) { dense(i: 4); field x: i32; } kernel k { for i in 0..4 { x[i] = i * i; } } run k; dump x;",
    others: &[],
    failing_reads: &[],
    failing_puts: &[],
    take: 0,
};

/// Bad words, and the name of a file that there isn't, with the status and the last line.
static WORDS: &[(&[&str], u8, &str)] = &[
    (&[], 1, "refused: words\n"),
    (&["--workers", "17", "p.sg"], 1, "refused: words\n"),
    (&["--workers", "04", "p.sg"], 1, "refused: words\n"),
    (&["--mode=go", "p.sg"], 1, "refused: words\n"),
    (
        &["--mode", "run", "--mode", "run", "p.sg"],
        1,
        "refused: words\n",
    ),
    (&["p.sg", "x"], 1, "refused: words\n"),
    (&["p.sg", "x=a", "x=b"], 1, "refused: words\n"),
    (&["-"], 1, "refused: words\n"),
    (&[""], 1, "refused: words\n"),
    (&["--help"], 1, "refused: words\n"),
    (&["q.sg"], 2, "refused: read q.sg\n"),
];

#[test]
fn words_that_run_nothing(rt: HostRuntime) -> Result<(), Fail> {
    for (words, status, text) in WORDS {
        let setting = Setting { words, ..SQUARES };
        setting.ends(&rt, rt.alloc(), *status, text)?;
    }
    Ok(())
}

/// The words, the reads and puts that fail, how many bytes a failed put takes, the status, and what was written.
static FAULTS: &[(&[&str], &[u64], &[u64], usize, u8, &str)] = &[
    (&["p.sg"], &[1], &[], 0, 2, "refused: read p.sg\n"),
    (&["p.sg"], &[], &[1], 0, 3, ""),
    (&["p.sg"], &[], &[1], 1, 3, "g"),
    (&["p.sg"], &[], &[1], 5, 3, "grid "),
    (&["q.sg"], &[], &[1], 9, 3, "refused: "),
    (&["p.sg"], &[1], &[1], 3, 3, "ref"),
];

#[test]
fn reads_and_puts_that_fail(rt: HostRuntime) -> Result<(), Fail> {
    for (words, failing_reads, failing_puts, take, status, text) in FAULTS {
        let setting = Setting {
            words,
            failing_reads,
            failing_puts,
            take: *take,
            ..SQUARES
        };
        setting.ends(&rt, rt.alloc(), *status, text)?;
    }
    Ok(())
}

const TWO_DUMPS: &str =
    "layout A(i) { dense(i: 1); field x: i32; field y: u32; } kernel k { for i in 0..1 { x[i] = 7; } } dump y; run k; dump x;";

const DUMP_AND_REFUSAL: &str =
    "layout A(i) { dense(i: 1); field x: i32; } kernel bad { for i in 0..2 { x[i] = 7; } } dump x; run bad; dump x;";

const TWICE: &str =
    "layout A(i) { dense(i: 1); field x: u32; } kernel k { for i in A { x[i] = x[i] * 2u + 1u; } } times 3 { run k; } dump x; clear A; dump x;";

const DUMP_AND_FULL_POOL: &str =
    "layout A(i) { pointer(i: 4) cap 1; dense(i: 4); field x: i32; } kernel one { for i in 0..1 { x[i] = 1; } } \
     kernel two { for i in 4..5 { x[i] = 2; } } run one; dump x; run two; dump x;";

/// A source, the put that fails, how many bytes it takes, the status, and what was written.
static PUTS: &[(&str, &[u64], usize, u8, &str)] = &[
    (TWICE, &[1], 0, 3, ""),
    (TWICE, &[1], 1, 3, "g"),
    (TWICE, &[1], 5, 3, "grid "),
    (TWICE, &[2], 0, 3, "grid 1 1\n0 7\n"),
    (TWICE, &[2], 1, 3, "grid 1 1\n0 7\ng"),
    (TWICE, &[2], 3, 3, "grid 1 1\n0 7\ngri"),
    (TWICE, &[2], 5, 3, "grid 1 1\n0 7\ngrid "),
    (
        DUMP_AND_FULL_POOL,
        &[2],
        4,
        3,
        "grid 1 4\n0 1\n1 0\n2 0\n3 0\nrefu",
    ),
    (TWO_DUMPS, &[2], 99, 3, "grid 1 1\n0 0\ngrid 1 1\n0 7"),
    (TWO_DUMPS, &[3], 3, 0, "grid 1 1\n0 0\ngrid 1 1\n0 7\n"),
    (DUMP_AND_REFUSAL, &[2], 4, 3, "grid 1 1\n0 0\nrefu"),
    (
        DUMP_AND_REFUSAL,
        &[3],
        4,
        7,
        "grid 1 1\n0 0\nrefused: write outside: kernel bad statement 1 at 1\n",
    ),
];

/// Each text goes out by one put, and after a put that failed there is none.
#[test]
fn puts_one_after_the_other(rt: HostRuntime) -> Result<(), Fail> {
    for (source, failing_puts, take, status, text) in PUTS {
        let setting = Setting {
            source,
            failing_puts,
            take: *take,
            ..SQUARES
        };
        setting.ends(&rt, rt.alloc(), *status, text)?;
    }
    Ok(())
}

/// A sink that has room for a few puts.
#[derive(Drop)]
struct NarrowSink {
    left: u32,
}

impl Sink for NarrowSink {
    ghost has = { λ _. None };

    ghost pieces = { λ _. None };

    ghost faults = { λ _. 0 };

    fn put(&mut self, _piece: &[u8]) -> Put {
        if self.left == 0 {
            return Put::Memory;
        }
        self.left -= 1;
        Put::All
    }
}

const RUN: &[&str] = &["p.sg"];

const LOWER: &[&str] = &["--mode", "lower", "p.sg"];

/// The words, a source, how many puts there is room for, and the status. In mode lower there is one put.
static ROOMS: &[(&[&str], &str, u32, u8)] = &[
    (RUN, TWO_DUMPS, 0, 9),
    (RUN, TWO_DUMPS, 1, 9),
    (RUN, TWO_DUMPS, 2, 0),
    (RUN, DUMP_AND_REFUSAL, 1, 9),
    (RUN, DUMP_AND_REFUSAL, 2, 7),
    (LOWER, TWO_DUMPS, 0, 9),
    (LOWER, TWO_DUMPS, 1, 0),
    (LOWER, "kernel", 0, 9),
    (LOWER, "kernel", 1, 4),
];

#[test]
fn a_sink_with_no_room(rt: HostRuntime) -> Result<(), Fail> {
    for (words, source, room, status) in ROOMS {
        let mut out = NarrowSink { left: *room };
        let setting = Setting {
            words,
            source,
            ..SQUARES
        };
        let (ended, session) = setting.run_into(&rt, rt.alloc(), &mut out)?;
        assert_eq!(rt; ended, *status, "{source}");
        assert_eq!(rt; session, *status == 0 || *status == 7, "{source}");
    }
    Ok(())
}
