//! Values that workers make side by side: contributions to few cells, by each operator and at the ends of each type, and own writes.

use super::setting::Setting;
use sg_outside::{Gate, HoldGate, MemSink, Phase};
use std::alloc::Global;
use std::process::Abort;
use std::sync::atomic::{AtomicU64, Ordering};
use std::test::Fail;
use std::thread::Threads;

/// Programs, the texts of the files `g` and `h`, which their fields `x` and `y` are loaded from, and the text of their run.
static VALUES: &[(&str, &[(&str, &str)], &str)] = &[
    // sums that pass the ends of their types, up and down
    (
        "const M = -2147483648; layout A(i) { dense(i: 1); field x: i32; field y: u32; } \
         kernel k { for p in 0..33 { x[0] += M; y[0] += 4294967295u; } } load x; load y; run k; dump x; dump y;",
        &[("g", "grid 1 1\n0 -1\n"), ("h", "grid 1 1\n0 16\n")],
        "grid 1 1\n0 2147483647\ngrid 1 1\n0 4294967279\n",
    ),
    // the least: signed and unsigned words are ordered otherwise
    (
        "const M = -2147483648; layout A(i) { dense(i: 2); field x: i32; field y: u32; } \
         kernel k { for p in 0..32 { x[0] min= p; x[1] min= M + p; y[0] min= 2147483648u + u32(p); y[1] min= 4294967295u - u32(p); } } \
         load x; load y; run k; dump x; dump y;",
        &[
            ("g", "grid 1 2\n0 -2147483648\n1 2147483647\n"),
            ("h", "grid 1 2\n0 4294967295\n1 2147483647\n"),
        ],
        "grid 1 2\n0 -2147483648\n1 -2147483648\ngrid 1 2\n0 2147483648\n1 2147483647\n",
    ),
    // the most
    (
        "const M = -2147483648; layout A(i) { dense(i: 2); field x: i32; field y: u32; } \
         kernel k { for p in 0..32 { x[0] max= -1 - p; x[1] max= M + p; y[0] max= 2147483647u - u32(p); y[1] max= 4294967295u - u32(p); } } \
         load x; load y; run k; dump x; dump y;",
        &[
            ("g", "grid 1 2\n0 -2147483648\n1 2147483647\n"),
            ("h", "grid 1 2\n0 2147483648\n1 0\n"),
        ],
        "grid 1 2\n0 -1\n1 2147483647\ngrid 1 2\n0 2147483648\n1 4294967295\n",
    ),
    // own writes beside contributions: an iteration reads its own last one
    (
        "layout A(i) { dense(i: 8); field x: i32; field y: i32; } layout B(i) { pointer(i: 4) cap 4; field s: i32; field t: i32; } \
         kernel k { for i in A { y[i] = x[i - 1]; y[i] = y[i] + i; s[i & 3] += y[i]; t[i & 1] max= x[7 - i]; } } \
         load x; run k; dump y; dump s; dump t;",
        &[
            (
                "g",
                "grid 1 8\n0 5\n1 -2\n2 9\n3 0\n4 7\n5 100\n6 -50\n7 3\n",
            ),
            ("h", "grid 1 0\n"),
        ],
        "grid 1 8\n0 0\n1 6\n2 0\n3 12\n4 4\n5 12\n6 106\n7 -43\n\
         grid 1 4\n0 4\n1 18\n2 106\n3 -31\ngrid 1 4\n0 100\n1 9\n2 0\n3 0\n",
    ),
];

#[test]
fn values_on_any_number_of_workers(rt: HostRuntime) -> Result<(), Fail> {
    for (source, others, text) in VALUES {
        let setting = Setting {
            words: &["p.sg", "x=g", "y=h"],
            others,
            ..Setting::of(source)
        };
        setting.ends_on_workers(&rt, rt.alloc(), 0, text)?;
    }
    Ok(())
}

/// Each run adds to the same cells from all workers, 100 times.
const CONTENDED: &str =
    "layout A(i) { dense(i: 2); field x: i32; field y: u32; } layout B(i) { dense(i: 1); field lo: i32; field hi: u32; } \
     kernel k { for p in 0..256 { x[p & 1] += p - 127; y[0] += 16909320u; lo[0] min= 100 - p; hi[0] max= u32(p) * 3u; } } \
     times 100 { run k; } dump x; dump y; dump lo; dump hi;";

#[test]
fn no_contribution_is_lost(rt: HostRuntime) -> Result<(), Fail> {
    let setting = Setting {
        words: &["--workers", "16", "p.sg"],
        ..Setting::of(CONTENDED)
    };
    setting.ends(
        &rt,
        rt.alloc(),
        0,
        "grid 1 2\n0 0\n1 12800\ngrid 1 2\n0 3381862400\n1 0\ngrid 1 1\n0 -155\ngrid 1 1\n0 765\n",
    )
}

/// Counts what workers pass before their turns of a phase.
#[derive(Drop)]
pub(super) struct Counter {
    pub(super) phase: Phase,
    pub(super) turns: AtomicU64,
    pub(super) sum: AtomicU64,
}

impl Gate for Counter {
    fn before(&self, phase: Phase, worker: u32, turn: u32) {
        if phase == self.phase {
            self.turns.fetch_add(1, Ordering::SeqCst);
            let number = u64::from(worker) << 32 | u64::from(turn);
            self.sum.fetch_add(number, Ordering::SeqCst);
        }
    }
}

/// The turns that so many workers pass in a phase of a run over 40 points, and the sum of their numbers, each with its worker's.
fn passed<R: Threads + Sync + Abort>(
    rt: &R,
    alloc: Global,
    count: &'static str,
    phase: Phase,
) -> Result<(u64, u64), Fail> {
    let gate = Counter {
        phase,
        turns: AtomicU64::new(0),
        sum: AtomicU64::new(0),
    };
    let setting = Setting {
        words: &["--workers", count, "p.sg"],
        ..Setting::of(
            "layout A(i) { dense(i: 64); field x: i32; } kernel k { for i in 3..43 { x[i] = i; } } run k;",
        )
    };
    let mut out = MemSink::new(alloc, Vec::new(alloc), 0);
    let seen = setting.gated(rt, alloc, &mut out, &gate)?;
    assert_eq!(rt; seen.status, 0);
    Ok((
        gate.turns.load(Ordering::SeqCst),
        gate.sum.load(Ordering::SeqCst),
    ))
}

/// Each worker passes the gate before what each iteration of its slice contributes, which it counts from 0.
#[test]
fn each_iteration_passes_the_gate(rt: HostRuntime) -> Result<(), Fail> {
    let alloc = rt.alloc();
    assert_eq!(rt; passed(&rt, alloc, "1", Phase::Values)?, (40, 780));
    assert_eq!(rt;
        passed(&rt, alloc, "2", Phase::Values)?,
        (40, (20 << 32) + 380)
    );
    assert_eq!(rt;
        passed(&rt, alloc, "4", Phase::Values)?,
        (40, (60 << 32) + 180)
    );
    Ok(())
}

/// More looks than another worker needs to come.
const LOOKS: u32 = 100_000_000;

#[test]
fn two_workers_meet(rt: HostRuntime) -> Result<(), Fail> {
    let alloc = rt.alloc();
    for phase in [Phase::Activate, Phase::Values] {
        let setting = Setting {
            words: &["--workers", "2", "p.sg"],
            ..Setting::of(
                "layout A(i) { dense(i: 4); field x: i32; } kernel k { for i in 0..4 { x[i] = i * i; } } run k; dump x;",
            )
        };
        let gate = HoldGate::new(phase, LOOKS);
        let mut out = MemSink::new(alloc, Vec::new(alloc), 0);
        let seen = setting.gated(&rt, alloc, &mut out, &gate)?;
        assert_eq!(rt; seen.status, 0);
        assert!(rt; gate.met());
        assert_eq!(rt; out.bytes(), b"grid 1 4\n0 0\n1 1\n2 4\n3 9\n".as_slice());
    }
    Ok(())
}

/// Both want the same block, one of them activates it, and each contributes to its first cell.
#[test]
fn two_workers_meet_under_a_pointer(rt: HostRuntime) -> Result<(), Fail> {
    let alloc = rt.alloc();
    for phase in [Phase::Activate, Phase::Values] {
        let setting = Setting {
            words: &["--workers", "2", "p.sg"],
            ..Setting::of(
                "layout A(i) { pointer(i: 4) cap 1; dense(i: 4); field x: i32; } kernel k { for p in 0..2 { x[0] += 1; } } run k; dump x;",
            )
        };
        let gate = HoldGate::new(phase, LOOKS);
        let mut out = MemSink::new(alloc, Vec::new(alloc), 0);
        let seen = setting.gated(&rt, alloc, &mut out, &gate)?;
        assert_eq!(rt; seen.status, 0);
        assert!(rt; gate.met());
        assert_eq!(rt; out.bytes(), b"grid 1 4\n0 2\n1 0\n2 0\n3 0\n".as_slice());
        assert_eq!(rt; seen.active, Some((4, 4)));
    }
    Ok(())
}
