ghost use Rattle.std.specs.Prelude.{◌≡◌, ◌≢◌, ℕ, ◌<◌, ◌≤◌, List, IfOk, Some, None, length};
ghost use Rattle.sg_outside.specs.Counts.{one_more};
ghost use Rattle.sg_outside.specs.Files.{Reads, reading_at, FitsLimit, faults_after};

use super::files::{Files, Got};
use std::io::{ErrorKind, Read};
use std::{fs, io, rt};

/// The files of the system. No bytes are told.
#[derive(Drop)]
pub struct RealFiles<'a, R: rt::Files> {
    rt: &'a R,
    faults: u64,
    reads: u64,
}

impl<'a, R: rt::Files> RealFiles<'a, R> {
    /// The files that the runtime reaches.
    pub fn new(rt: &'a R) -> RealFiles<'a, R>
        ensures faults { ⟦<RealFiles<'a, R> as Files>⟧.faults result ≡ 0 }
        ensures reads { ⟦<RealFiles<'a, R> as Files>⟧.reads result ≡ 0 }
    {
        RealFiles {
            rt,
            faults: 0,
            reads: 0,
        }
    }

    /// How many reads failed.
    pub fn faults(&self) -> u64
        ensures { result ≡ ⟦<RealFiles<'a, R> as Files>⟧.faults self.now }
    {
        self.faults
    }

    /// How many reads there were.
    pub fn reads(&self) -> u64
        ensures { result ≡ ⟦<RealFiles<'a, R> as Files>⟧.reads self.now }
    {
        self.reads
    }

    /// A read, with its counts. After `TooLong` the buffer shows that there are more bytes than the limit.
    fn read_counted(&mut self, name: &str, limit: u64, into: &mut Vec<u8>) -> Got
        ensures fits { FitsLimit result into.new.items limit }
        ensures past_limit { result ≡ Got.TooLong → limit < length into.new.items }
        ensures counted { self.new ≡ record self.old {
          faults = faults_after result self.old.faults;
          reads = one_more self.old.reads;
        } }
        ensures never_falls { self.old.faults ≤ self.new.faults }
    {
        self.reads = self.reads.saturating_add(1);
        let got = match read_named(self.rt, name, limit, into) {
            Ok(got) => got,
            Err(error) if error.kind() == ErrorKind::OutOfMemory => Got::Memory,
            Err(_) => Got::Failed,
        };
        self.faults = got.faults_after(self.faults);
        got
    }
}

impl<'a, R: rt::Files> Files for RealFiles<'a, R> {
    ghost holds = { λ _. None };

    ghost asked = { λ _. None };

    ghost faults = { λ files. files.faults };

    ghost reads = { λ files. files.reads };

    /// Reads at most one byte past the limit.
    fn read(&mut self, name: &str, limit: u64, into: &mut Vec<u8>) -> Got {
        self.read_counted(name, limit, into)
    }
}

fn read_named<R: rt::Files>(rt: &R, name: &str, limit: u64, into: &mut Vec<u8>) -> io::Result<Got>
    ensures fits { IfOk result (λ got. FitsLimit got into.new.items limit) }
    ensures past_limit { IfOk result (λ got. got ≡ Got.TooLong → limit < length into.new.items) }
{
    read_whole(fs::open(rt, name)?, limit, into)
}

/// Reads all bytes of a file, or one more than the limit, instead of what the buffer has.
fn read_whole<F: Read + Drop>(file: F, limit: u64, into: &mut Vec<u8>) -> io::Result<Got>
    ensures told { IfOk result (λ got. (bytes : List ℕ) → F.remaining file ≡ Some bytes →
        Reads got into.new.items (reading_at (Some bytes) limit)) }
    ensures fits { IfOk result (λ got. FitsLimit got into.new.items limit) }
    ensures past_limit { IfOk result (λ got. got ≡ Got.TooLong → limit < length into.new.items) }
    ensures answered { IfOk result (λ got. (got ≢ Got.Failed) × (got ≢ Got.Memory)) }
{
    into.clear();
    let count = file.take(limit.saturating_add(1)).read_to_end(into)?;
    if count as u64 > limit {
        Ok(Got::TooLong)
    } else {
        Ok(Got::All)
    }
}
