use sg_outside::{Gate, HoldGate, OrderGate, Phase};
use std::thread::{Threads, join};

/// More looks than another thread needs to begin.
const LOOKS: u32 = 100_000_000;

/// A worker comes to its first turns of a phase.
fn work<G: Gate + Sync>(gate: &G, phase: Phase, worker: u32) {
    for turn in 0..3 {
        gate.before(phase, worker, turn);
    }
}

/// Workers 0 and 1 beside each other.
fn work_together<R: Threads + Sync, G: Gate + Sync>(rt: &R, gate: &G, phase: Phase) {
    join(rt, || work(gate, phase, 0), || work(gate, phase, 1));
}

/// Three workers, one after the other, come to their turns of an activation.
fn work_in_turn<G: Gate + Sync>(gate: &G) {
    work(gate, Phase::Activate, 0);
    work(gate, Phase::Activate, 1);
    work(gate, Phase::Activate, 2);
}

#[test]
fn two_workers_meet(rt: HostRuntime) {
    let gate = HoldGate::new(Phase::Values, LOOKS);
    work_together(&rt, &gate, Phase::Activate);
    assert!(rt; !gate.met());
    work_together(&rt, &gate, Phase::Values);
    assert!(rt; gate.met());
}

#[test]
fn the_first_worker_comes_first(rt: HostRuntime) {
    for first in [0, 1] {
        let gate = OrderGate::new(first, LOOKS);
        work_together(&rt, &gate, Phase::Values);
        assert!(rt; !gate.kept());
        work_together(&rt, &gate, Phase::Activate);
        assert!(rt; gate.kept());
    }
}

#[test]
fn workers_after_each_other_dont_meet(rt: HostRuntime) {
    let gate = HoldGate::new(Phase::Activate, 10);
    work_in_turn(&gate);
    assert!(rt; !gate.met());
    let gate = OrderGate::new(1, 10);
    work_in_turn(&gate);
    assert!(rt; !gate.kept());
}
