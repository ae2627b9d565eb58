//! Gates for tests: they show that workers run beside each other, and they choose which of two comes first.

ghost use Rattle.std.specs.Prelude.{◌≤◌};

use crate::gate::{Gate, Phase};
use std::hint::spin_loop;
use std::sync::atomic::AtomicBool;
use std::sync::atomic::Ordering::SeqCst;

/// Holds workers 0 and 1 at their first turn of a phase until both have come there, or one has looked often enough.
#[derive(Drop)]
pub struct HoldGate {
    phase: Phase,
    limit: u32,
    zero: Arrival,
    one: Arrival,
}

/// Whether a worker has come to its first turn, and whether it saw there that the other one has come too.
#[derive(Drop)]
struct Arrival {
    came: AtomicBool,
    saw: AtomicBool,
}

impl HoldGate {
    /// A gate that holds in this phase, where each of the two looks at most so many times for the other.
    pub fn new(phase: Phase, limit: u32) -> HoldGate {
        HoldGate {
            phase,
            limit,
            zero: nobody(),
            one: nobody(),
        }
    }

    /// Whether both workers came to their first turn of the phase, and neither ran out of looks.
    pub fn met(&self) -> bool {
        self.zero.saw.load(SeqCst) && self.one.saw.load(SeqCst)
    }

    // One of the two comes to its first turn, and looks for the other.
    fn meet(&self, mine: &Arrival, other: &Arrival) {
        mine.came.store(true, SeqCst);
        if comes(&other.came, self.limit) {
            mine.saw.store(true, SeqCst);
        }
    }
}

impl Gate for HoldGate {
    fn before(&self, phase: Phase, worker: u32, turn: u32) {
        if phase != self.phase || turn != 0 {
            return;
        }
        if worker == 0 {
            self.meet(&self.zero, &self.one);
        }
        if worker == 1 {
            self.meet(&self.one, &self.zero);
        }
    }

    fn may_hold(&self) -> bool {
        true
    }
}

/// Lets one of the workers 0 and 1 pass its first turn of an activation before the other begins.
#[derive(Drop)]
pub struct OrderGate {
    first: u32,
    limit: u32,
    passed: AtomicBool,
    saw: AtomicBool,
}

impl OrderGate {
    /// A gate at which this worker, 0 or 1, is the first, and the other one looks at most so many times for it.
    pub fn new(first: u32, limit: u32) -> OrderGate
        requires { first ≤ 1 }
    {
        OrderGate {
            first,
            limit,
            passed: AtomicBool::new(false),
            saw: AtomicBool::new(false),
        }
    }

    /// Whether the other worker looked at its first turn, and saw that the first one had come to its second turn.
    pub fn kept(&self) -> bool {
        self.saw.load(SeqCst)
    }
}

impl Gate for OrderGate {
    fn before(&self, phase: Phase, worker: u32, turn: u32) {
        if phase != Phase::Activate || worker > 1 {
            return;
        }
        if worker == self.first {
            if turn == 1 {
                self.passed.store(true, SeqCst);
            }
        } else if turn == 0 && comes(&self.passed, self.limit) {
            self.saw.store(true, SeqCst);
        }
    }

    fn may_hold(&self) -> bool {
        true
    }
}

fn nobody() -> Arrival {
    Arrival {
        came: AtomicBool::new(false),
        saw: AtomicBool::new(false),
    }
}

/// Whether one of so many looks at a word finds it true.
fn comes(word: &AtomicBool, limit: u32) -> bool {
    for _look in 0..limit {
        if word.load(SeqCst) {
            return true;
        }
        spin_loop();
    }
    false
}
