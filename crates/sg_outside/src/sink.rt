ghost use Rattle.std.specs.Prelude.{◌≡◌, ℕ, ◌<◌, ◌≤◌, List, Option, length};
ghost use Rattle.sg_outside.specs.Sink.{Puts, PutCause, faults_after, pieces_after};

/// How a put of a piece ended.
#[derive(Clone, Copy, Debug, PartialEq, Eq)]
pub enum Put {
    /// The whole piece was written.
    All,
    /// The first `taken` bytes of the piece were written, fewer than all of them.
    Failed { taken: usize },
    /// There was no memory for the piece, and nothing of it was written.
    Memory,
}

impl Put {
    /// The count of faults after this answer.
    pub(crate) fn faults_after(self, faults: u64) -> u64
        ensures value { result ≡ faults_after self faults }
        ensures never_falls { faults ≤ result }
    {
        match self {
            Put::Failed { .. } => faults.saturating_add(1),
            Put::All | Put::Memory => faults,
        }
    }
}

/// Where output is written, a piece at a time.
///
/// `has` is what was written so far, and `pieces` are the pieces that were put whole, in order, where
/// these are told; `faults` counts the puts that failed, staying at its last value, 2^64 - 1.
pub trait Sink {
    ghost has: { Self → Option (List ℕ) };

    ghost pieces: { Self → Option (List (List ℕ)) };

    ghost faults: { Self → ℕ };

    /// Writes the piece after what was written so far.
    fn put(&mut self, piece: &[u8]) -> Put
        requires { 0 < length piece.now }
        ensures bytes { Puts result (has self.old) (has self.new) piece.now }
        ensures pieces { pieces self.new ≡ pieces_after result (pieces self.old) piece.now }
        ensures cause { PutCause result (faults self.old) (faults self.new) }
        ensures never_falls { faults self.old ≤ faults self.new };
}
