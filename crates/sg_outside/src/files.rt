ghost use Rattle.std.specs.Prelude.{◌≡◌, ℕ, ◌≤◌, List, Option, Some};
ghost use Rattle.sg_outside.specs.Counts.{one_more};
ghost use Rattle.sg_outside.specs.Files.{Held, reading, Reads, FitsLimit, ReadCause, asked_too, faults_after};

/// How a read of a file ended.
#[derive(Clone, Copy, Debug, PartialEq, Eq)]
pub enum Got {
    /// The file's bytes were read.
    All,
    /// The file has more bytes than the limit.
    TooLong,
    /// The read failed, for another cause than running out of memory.
    Failed,
    /// There was no memory for the bytes.
    Memory,
}

impl Got {
    /// The count of faults after this answer.
    pub(crate) fn faults_after(self, faults: u64) -> u64
        ensures value { result ≡ faults_after self faults }
        ensures never_falls { faults ≤ result }
    {
        match self {
            Got::Failed => faults.saturating_add(1),
            Got::All | Got::TooLong | Got::Memory => faults,
        }
    }
}

/// Files that are read whole, by name.
///
/// `holds` is what the files hold, and `asked` the names that were read so far in order, where these
/// are told; `faults` counts the reads that failed, and `reads` counts all reads. Both counts stay at
/// their last value, 2^64 - 1.
pub trait Files {
    ghost holds: { Self → Option Held };

    ghost asked: { Self → Option (List (List ℕ)) };

    ghost faults: { Self → ℕ };

    ghost reads: { Self → ℕ };

    /// Reads the file of this name into `into`, if it has at most `limit` bytes.
    /// After an answer other than `All`, what `into` has is left open.
    fn read(&mut self, name: &str, limit: u64, into: &mut Vec<u8>) -> Got
        ensures bytes { (held : Held) → holds self.old ≡ Some held →
            Reads result into.new.items (reading held name.now limit) }
        ensures fits { FitsLimit result into.new.items limit }
        ensures holds { holds self.new ≡ holds self.old }
        ensures asked { asked self.new ≡ asked_too (asked self.old) name.now }
        ensures reads { reads self.new ≡ one_more (reads self.old) }
        ensures cause { ReadCause result (faults self.old) (faults self.new) }
        ensures never_falls { faults self.old ≤ faults self.new };
}
