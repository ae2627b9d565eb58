ghost use Rattle.std.specs.Prelude.{◌≡◌, false};

/// The two parts of a parallel run: activation, and the computing of values.
#[derive(Clone, Copy, Debug, PartialEq, Eq)]
pub enum Phase {
    Activate,
    Values,
}

/// What a worker passes before each piece of its slice of the work. It promises nothing.
pub trait Gate {
    /// Called by a worker before its turn, both counted from 0.
    fn before(&self, phase: Phase, worker: u32, turn: u32);

    /// Whether passing it may hold a worker, or is counted. Where the answer is no, passing does nothing: it may be left out, and little
    /// work takes fewer workers. Yes promises nothing.
    fn may_hold(&self) -> bool {
        true
    }
}

/// The gate that is always open.
#[derive(Clone, Copy, Debug)]
pub struct FreeGate;

impl Gate for FreeGate {
    fn before(&self, _phase: Phase, _worker: u32, _turn: u32) {}

    fn may_hold(&self) -> bool
        ensures { result ≡ false }
    {
        false
    }
}
