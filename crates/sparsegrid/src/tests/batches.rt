//! Neighbouring runs of kernels that don't touch each other, at the same time: what is left is as if they came one after the other.

use super::setting::{EveryWorker, Setting};
use super::values::Counter;
use sg_outside::{FreeGate, Gate, HoldGate, MemSink, Phase};
use std::alloc::Global;
use std::process::Abort;
use std::sync::atomic::{AtomicU64, Ordering};
use std::test::Fail;
use std::thread::Threads;

/// A program, with the status and the text of its run.
type Row = (&'static str, u8, &'static str);

/// The second of three runs is refused, and the third isn't begun.
const REFUSED: &str =
    "layout A(i) { dense(i: 1); field x: i32; } layout B(i) { pointer(i: 1) cap 1; field y: i32; } \
     kernel a { for p in 0..1 { x[0] += 1; } } kernel b { for i in 1..2 { y[i] = 1; } } run a; run b; run a;";

static ROWS: &[Row] = &[
    (
        REFUSED,
        7,
        "refused: write outside: kernel b statement 1 at 1\n",
    ),
    // both are done
    (
        "layout A(i) { dense(i: 1); field x: i32; } layout B(i) { pointer(i: 1) cap 1; field y: i32; } \
         kernel a { for p in 0..1 { x[0] += 1; } } kernel b { for i in 0..1 { y[i] = 1; } } run a; run b; run a; dump x; dump y;",
        0,
        "grid 1 1\n0 2\ngrid 1 1\n0 1\n",
    ),
    // the third reads what the first wrote, so the group ends before it
    (
        "layout A(i) { pointer(i: 4) cap 4; field x: i32; } layout B(i) { pointer(i: 4) cap 4; field y: i32; } layout C(i) { pointer(i: 4) cap 4; field z: i32; } \
         kernel a { for i in 0..4 { x[i] = i + 1; } } kernel b { for i in 0..4 { y[i] = 10 * i; } } kernel c { for i in 0..4 { z[i] = x[i] + y[i]; } } \
         run a; run b; run c; dump z;",
        0,
        "grid 1 4\n0 1\n1 12\n2 23\n3 34\n",
    ),
    // the second walks what the first activates
    (
        "layout A(i) { pointer(i: 4) cap 4; field x: i32; } layout B(i) { pointer(i: 4) cap 4; field y: i32; } \
         kernel a { for i in 0..3 { x[i] = 5; } } kernel b { for i in A { y[i] = 7; } } run a; run b; dump y;",
        0,
        "grid 1 3\n0 7\n1 7\n2 7\n",
    ),
    // groups over the turns of a `times`
    (
        "layout A(i) { dense(i: 1); field x: i32; } layout B(i) { pointer(i: 2) cap 2; field y: i32; } layout C(i) { hash(i: 4) cap 2; field z: i32; } \
         kernel a { for p in 0..1 { x[0] += 1; } } kernel b { for p in 0..2 { y[p] += 2; } } kernel c { for p in 0..1 { z[3] += 3; } } \
         times 5 { run a; run b; run c; run c; run a; } dump x; dump y; dump z;",
        0,
        "grid 1 1\n0 10\ngrid 1 2\n0 10\n1 10\ngrid 1 1\n3 30\n",
    ),
    // the first has no room, though the second was prepared
    (
        "layout A(i) { pointer(i: 2) cap 1; field x: i32; } layout B(i) { pointer(i: 2) cap 1; field y: i32; } \
         kernel a { for i in 0..2 { x[i] = 1; } } kernel b { for i in 0..1 { y[i] = 1; } } run a; run b; dump y;",
        7,
        "refused: pool full: A node 1 cap 1\n",
    ),
    // of two refusals the first in order counts
    (
        "layout A(i) { pointer(i: 2) cap 1; field x: i32; } layout B(i) { pointer(i: 2) cap 1; field y: i32; } layout C(i) { dense(i: 1); field z: i32; } \
         kernel a { for i in 0..2 { x[i] = 1; } } kernel b { for i in 0..2 { y[i] = 1; } } kernel c { for p in 0..1 { z[0] += 1; } } run c; run b; run a;",
        7,
        "refused: pool full: B node 1 cap 1\n",
    ),
    // what both only read they share
    (
        "layout C(i) { dense(i: 4); field z: i32; } layout A(i) { dense(i: 4); field x: i32; } layout B(i) { pointer(i: 4) cap 4; field y: i32; } \
         kernel w { for i in 0..4 { z[i] = i; } } kernel a { for i in 0..4 { x[i] = z[i] + 1; } } kernel b { for i in C { y[i] = 2 * z[i]; } } \
         run w; run a; run b; dump x; dump y;",
        0,
        "grid 1 4\n0 1\n1 2\n2 3\n3 4\ngrid 1 4\n0 0\n1 2\n2 4\n3 6\n",
    ),
    // one that writes nothing goes beside itself, and not beside what writes the layout that it walks
    (
        "layout A(i) { pointer(i: 4) cap 4; field x: i32; } kernel n { for i in A { let v = x[i]; } } kernel a { for i in 1..3 { x[i] = 4; } } \
         run n; run n; run a; run n; dump x;",
        0,
        "grid 1 2\n1 4\n2 4\n",
    ),
];

/// Words, a program, and what is written, in the modes whose commands' texts aren't.
static QUIET: &[(&[&str], &str, &str)] = &[
    (
        &["--mode", "save", "p.sg"],
        "layout A(i) { dense(i: 1); field x: i32; } layout B(i) { pointer(i: 2) cap 2; field y: i32; } \
         kernel a { for p in 0..1 { x[0] += 1; } } kernel b { for i in 1..2 { y[i] = 7; } } run a; run b; dump y;",
        "SGS1\x02\0\0\0\x01\0\0\0\0\0\0\0\x01\0\0\0\x01\0\0\0\x01\0\0\0\x07\0\0\0",
    ),
    (
        &["--mode", "advise", "p.sg"],
        "layout A(i) { dense(i: 4); field x: i32; } layout B(i) { hash(i: 8) cap 2; field y: i32; } \
         kernel a { for i in 0..1 { x[i] = 1; } } kernel b { for i in 0..1 { y[3] += 5; } } run a; run b;",
        "advise A A 4\nbest A A 4\nstats A active 4\nadvise B B 9\nbest B B 9\nstats B active 1 node 1 live 1\n",
    ),
];

#[test]
fn runs_beside_each_other_leave_what_runs_in_order_do(rt: HostRuntime) -> Result<(), Fail> {
    for (source, status, text) in ROWS {
        Setting::of(source).ends_on_workers(&rt, rt.alloc(), *status, text)?;
    }
    Ok(())
}

#[test]
fn groups_in_the_other_modes(rt: HostRuntime) -> Result<(), Fail> {
    for (words, source, text) in QUIET {
        let setting = Setting {
            words: *words,
            ..Setting::of(source)
        };
        setting.ends_on_workers(&rt, rt.alloc(), 0, text)?;
    }
    Ok(())
}

/// Two long kernels that go at the same time for what they have to do, a refusal among kernels that are done one by one, and a long one beside a short
/// one.
static OPEN: &[Row] = &[
    (
        "layout A(i) { dense(i: 1); field x: i32; } layout B(i) { dense(i: 1); field y: i32; } \
         kernel a { for p in 0..32768 { x[0] += p; } } kernel b { for p in 0..32768 { y[0] max= p; } } run a; run b; dump x; dump y;",
        0,
        "grid 1 1\n0 536854528\ngrid 1 1\n0 32767\n",
    ),
    (
        REFUSED,
        7,
        "refused: write outside: kernel b statement 1 at 1\n",
    ),
    (
        "layout A(i) { dense(i: 1); field x: i32; } layout B(i) { dense(i: 1); field y: i32; } \
         kernel a { for p in 0..32768 { x[0] += p; } } kernel b { for p in 0..1 { y[0] += 1; } } run b; run a; run b; dump x; dump y;",
        0,
        "grid 1 1\n0 536854528\ngrid 1 1\n0 2\n",
    ),
];

/// With a gate that holds nobody.
#[test]
fn as_in_a_run_of_the_program(rt: HostRuntime) -> Result<(), Fail> {
    let alloc = rt.alloc();
    for (source, status, text) in OPEN {
        for count in ["1", "2", "4", "16"] {
            let words = ["--workers", count, "p.sg"];
            let setting = Setting {
                words: &words,
                ..Setting::of(source)
            };
            let mut out = MemSink::new(alloc, Vec::new(alloc), 0);
            let seen = setting.gated(&rt, alloc, &mut out, &FreeGate)?;
            assert_eq!(rt; seen.status, *status, "{source}");
            assert_eq!(rt; out.bytes(), text.as_bytes(), "{source}");
        }
    }
    Ok(())
}

/// Two kernels each, and whether they are worth running at the same time: two long ones, two of a point each, a long one beside a short one, and one
/// that has four times as much to do as the other.
static WORTH: &[(&str, bool)] = &[
    (
        "layout A(i) { dense(i: 1); field x: i32; } layout B(i) { dense(i: 1); field y: i32; } \
         kernel a { for p, q in 0..1024, 0..1024 { x[0] += p; } } kernel b { for p, q in 0..1024, 0..1024 { y[0] += p; } }",
        true,
    ),
    (
        "layout A(i) { dense(i: 1); field x: i32; } layout B(i) { dense(i: 1); field y: i32; } \
         kernel a { for p, q in 0..1, 0..1 { x[0] += p; } } kernel b { for p, q in 0..1, 0..1 { y[0] += p; } }",
        false,
    ),
    (
        "layout A(i) { dense(i: 1); field x: i32; } layout B(i) { dense(i: 1); field y: i32; } \
         kernel a { for p, q in 0..1024, 0..1024 { x[0] += p; } } kernel b { for p, q in 0..1, 0..1 { y[0] += p; } }",
        false,
    ),
    (
        "layout A(i) { dense(i: 1); field x: i32; } layout B(i) { dense(i: 1); field y: i32; } \
         kernel a { for p, q in 0..1024, 0..1024 { x[0] += p; } } kernel b { for p, q in 0..512, 0..512 { y[0] += p; } }",
        false,
    ),
];

#[test]
fn worth_running_at_the_same_time(rt: HostRuntime) -> Result<(), Fail> {
    let alloc = rt.alloc();
    for (source, free) in WORTH {
        let mut out = MemSink::new(alloc, Vec::new(alloc), 0);
        let seen = Setting::of(source).gated(&rt, alloc, &mut out, &FreeGate)?;
        assert_eq!(rt; seen.status, 0);
        assert_eq!(rt; seen.worth, (*free, true), "{source}");
    }
    Ok(())
}

/// Counts, and says that it holds nobody: as many workers start as in a run of the program, and groups form where they do there.
#[derive(Drop)]
struct Unheld {
    counter: Counter,
}

impl Gate for Unheld {
    fn before(&self, phase: Phase, worker: u32, turn: u32) {
        self.counter.before(phase, worker, turn);
    }

    fn may_hold(&self) -> bool {
        false
    }
}

/// Workers, a program, how many turns they have, and the sums of their numbers and of those of the turns, each as often as there are turns. Four
/// workers of one kernel have 8,192 turns each, and two of them 16,384. The first worker of the second of two kernels in a group has the number 2.
static FORMED: &[(&str, &str, (u64, u64, u64))] = &[
    // a group of two, which have two workers each
    (
        "4",
        "layout A(i) { dense(i: 1); field x: i32; } layout B(i) { dense(i: 1); field y: i32; } \
         kernel a { for p in 0..32768 { x[0] += p; } } kernel b { for p in 0..32768 { y[0] += p; } } run a; run b;",
        (65536, 98304, 536838144),
    ),
    // with one worker each
    (
        "2",
        "layout A(i) { dense(i: 1); field x: i32; } layout B(i) { dense(i: 1); field y: i32; } \
         kernel a { for p in 0..32768 { x[0] += p; } } kernel b { for p in 0..32768 { y[0] += p; } } run a; run b;",
        (65536, 32768, 1073709056),
    ),
    // three would leave a worker without work: the first has all, and the others are a group
    (
        "4",
        "layout A(i) { dense(i: 1); field x: i32; } layout B(i) { dense(i: 1); field y: i32; } layout C(i) { dense(i: 1); field z: i32; } \
         kernel a { for p in 0..32768 { x[0] += p; } } kernel b { for p in 0..32768 { y[0] += p; } } kernel c { for p in 0..32768 { z[0] += p; } } \
         run a; run b; run c;",
        (98304, 147456, 671039488),
    ),
    // the second adds to the same cell: all four workers run one, and then the other
    (
        "4",
        "layout A(i) { dense(i: 1); field x: i32; } kernel a { for p in 0..32768 { x[0] += p; } } kernel b { for p in 0..32768 { x[0] += 1; } } run a; run b;",
        (65536, 98304, 268402688),
    ),
    // of a long and a short one each has all workers, of which the short one takes one
    (
        "4",
        "layout A(i) { dense(i: 1); field x: i32; } layout B(i) { dense(i: 1); field y: i32; } \
         kernel a { for p in 0..32768 { x[0] += p; } } kernel b { for p in 0..16 { y[0] += p; } } run a; run b;",
        (32784, 49152, 134201464),
    ),
    // two short ones, one after the other
    (
        "4",
        "layout A(i) { dense(i: 1); field x: i32; } layout B(i) { dense(i: 1); field y: i32; } \
         kernel a { for p in 0..16 { x[0] += p; } } kernel b { for p in 0..16 { y[0] += p; } } run a; run b;",
        (32, 0, 240),
    ),
];

/// The turns of so many workers in which a program's values are made, and the sums of their numbers.
fn formed<R: Threads + Sync + Abort>(
    rt: &R,
    alloc: Global,
    count: &'static str,
    source: &'static str,
) -> Result<(u64, u64, u64), Fail> {
    let words = ["--workers", count, "p.sg"];
    let setting = Setting {
        words: &words,
        ..Setting::of(source)
    };
    let counter = Counter {
        phase: Phase::Values,
        turns: AtomicU64::new(0),
        sum: AtomicU64::new(0),
    };
    let gate = Unheld { counter };
    let mut out = MemSink::new(alloc, Vec::new(alloc), 0);
    let seen = setting.gated(rt, alloc, &mut out, &gate)?;
    assert_eq!(rt; seen.status, 0);
    let turns = gate.counter.turns.load(Ordering::SeqCst);
    let sum = gate.counter.sum.load(Ordering::SeqCst);
    Ok((turns, sum >> 32, sum & 0xFFFF_FFFF))
}

/// Which kernels go at the same time in a run of the program is told by the workers that they have.
#[test]
fn groups_form_in_a_run_of_the_program(rt: HostRuntime) -> Result<(), Fail> {
    for (count, source, told) in FORMED {
        let seen = formed(&rt, rt.alloc(), *count, *source)?;
        assert_eq!(rt; seen, *told, "{source}");
    }
    Ok(())
}

/// The status of a run on so many workers, how many of the coordinates from 0 to 3 of the first layout are active after it, and the word of its
/// first field at 0.
fn left<R: Threads + Sync>(
    rt: &R,
    alloc: Global,
    count: &'static str,
    source: &'static str,
) -> Result<(u8, Option<(u32, u32)>, Option<u32>), Fail> {
    let words = ["--workers", count, "p.sg"];
    let setting = Setting {
        words: &words,
        ..Setting::of(source)
    };
    let mut out = MemSink::new(alloc, Vec::new(alloc), 0);
    let seen = setting.gated(rt, alloc, &mut out, &EveryWorker)?;
    Ok((seen.status, seen.active, seen.value))
}

/// What came before the refused run of a group stays in the session.
#[test]
fn a_refused_member_leaves_those_before_it(rt: HostRuntime) -> Result<(), Fail> {
    for count in ["1", "2", "16"] {
        let one = left(
            &rt,
            rt.alloc(),
            count,
            "layout A(i) { pointer(i: 4) cap 4; field x: i32; } layout B(i) { pointer(i: 1) cap 1; field y: i32; } \
             kernel a { for i in 0..3 { x[i] = 1; } } kernel b { for i in 1..2 { y[i] = 1; } } run a; run b; run a;",
        )?;
        assert_eq!(rt; one, (7, Some((3, 3)), Some(1)));
        let refused = left(&rt, rt.alloc(), count, REFUSED)?;
        assert_eq!(rt; refused, (7, Some((1, 1)), Some(1)));
        let none = left(
            &rt,
            rt.alloc(),
            count,
            "layout A(i) { pointer(i: 4) cap 4; field x: i32; } layout B(i) { pointer(i: 1) cap 1; field y: i32; } \
             kernel a { for i in 0..3 { x[i] = 1; } } kernel b { for i in 1..2 { y[i] = 1; } } run b; run a;",
        )?;
        assert_eq!(rt; none, (7, Some((0, 0)), None));
    }
    Ok(())
}

/// More looks than another worker needs to come.
const LOOKS: u32 = 100_000_000;

/// Two kernels of one iteration each, into layouts of their own; also where both read a third one.
static TWO: &[&str] = &[
    "layout A(i) { pointer(i: 1) cap 1; field x: i32; } layout B(i) { pointer(i: 1) cap 1; field y: i32; } \
     kernel a { for p in 0..1 { x[0] += 1; } } kernel b { for p in 0..1 { y[0] += 2; } } run a; run b; dump x; dump y;",
    "layout C(i) { dense(i: 2); field z: i32; } layout A(i) { pointer(i: 1) cap 1; field x: i32; } layout B(i) { pointer(i: 1) cap 1; field y: i32; } \
     kernel a { for p in 0..1 { x[0] += z[0] + 1; } } kernel b { for p in 0..1 { y[0] += z[1] + 2; } } run a; run b; dump x; dump y;",
];

/// On two workers: the gate holds the first of each kernel until the other one is there.
#[test]
fn two_kernels_meet(rt: HostRuntime) -> Result<(), Fail> {
    let alloc = rt.alloc();
    for source in TWO {
        for phase in [Phase::Activate, Phase::Values] {
            let setting = Setting {
                words: &["--workers", "2", "p.sg"],
                ..Setting::of(source)
            };
            let gate = HoldGate::new(phase, LOOKS);
            let mut out = MemSink::new(alloc, Vec::new(alloc), 0);
            let seen = setting.gated(&rt, alloc, &mut out, &gate)?;
            assert_eq!(rt; seen.status, 0);
            assert!(rt; gate.met());
            assert_eq!(rt; out.bytes(), b"grid 1 1\n0 1\ngrid 1 1\n0 2\n".as_slice());
        }
    }
    Ok(())
}

/// Three kernels of 16 iterations each, on 16 workers: they have 6, 5 and 5 of them, which pass the gate with their numbers among all.
#[test]
fn members_have_the_workers_of_their_slices(rt: HostRuntime) -> Result<(), Fail> {
    let alloc = rt.alloc();
    let gate = Counter {
        phase: Phase::Values,
        turns: AtomicU64::new(0),
        sum: AtomicU64::new(0),
    };
    let setting = Setting {
        words: &["--workers", "16", "p.sg"],
        ..Setting::of(
            "layout A(i) { dense(i: 16); field x: i32; } layout B(i) { dense(i: 16); field y: i32; } layout C(i) { dense(i: 16); field z: i32; } \
             kernel a { for i in 0..16 { x[i] = i; } } kernel b { for i in 0..16 { y[i] = i; } } kernel c { for i in 0..16 { z[i] = i; } } run a; run b; run c;",
        )
    };
    let mut out = MemSink::new(alloc, Vec::new(alloc), 0);
    let seen = setting.gated(&rt, alloc, &mut out, &gate)?;
    assert_eq!(rt; seen.status, 0);
    assert_eq!(rt; gate.turns.load(Ordering::SeqCst), 48);
    // the numbers of the workers, each as often as it has turns, and those of the turns
    assert_eq!(rt; gate.sum.load(Ordering::SeqCst), (368 << 32) + 50);
    Ok(())
}
