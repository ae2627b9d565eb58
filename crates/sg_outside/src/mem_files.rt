ghost use Rattle.std.specs.Prelude.{◌≡◌, ℕ, ◌≤◌, ◌↔◌, ◌⊎◌, List, Option, Some, None, true, map, option_map, IfSome, vec_capacity};
ghost use Rattle.std.specs.FinMap.{get};
ghost use Rattle.sg_outside.specs.Counts.{one_more, is_listed};
ghost use Rattle.sg_outside.specs.Files.{Held, Bytes, reading, reading_at, Reads, FitsLimit, ReadCause, asked_too};
ghost use Rattle.sg_outside.specs.MemFiles.{entry_of, bytes_named, held_of, next_reading, ReadsExactly, after_read};

use super::files::{Files, Got};
use std::marker::Model;

/// A file in memory.
#[derive(Drop)]
pub struct NamedBytes {
    pub name: String,
    pub bytes: Vec<u8>,
}

/// Files in memory, of which chosen reads fail. Of files of one name the first counts.
#[derive(Drop)]
pub struct MemFiles {
    names: Vec<NamedBytes>,
    failing: Vec<u64>,
    faults: u64,
    reads: u64,
}

impl Model for MemFiles {
    ghost use Rattle.std.specs.Prelude.{map};
    ghost use Rattle.sg_outside.specs.MemFiles.{FilesInMemory, entry_of};

    ghost Value = { FilesInMemory };

    ghost view = { λ files. record {
      files = map entry_of files.names.items;
      failing = files.failing.items;
      faults = files.faults;
      reads = files.reads;
    } };
}

impl MemFiles {
    /// The reads whose numbers are in `failing`, counted from 1, fail, and so do those of an absent name.
    #[tactic(auto, using(crate::proofs::Names::get_named))]
    pub fn new(names: Vec<NamedBytes>, failing: Vec<u64>) -> MemFiles
        ensures made { result ≡ record { files = map entry_of names.items; failing = failing.items; faults = 0; reads = 0 } }
        ensures told { IfSome (⟦<MemFiles as Files>⟧.holds result)
            (λ held. (name : List ℕ) → get held name ≡ bytes_named (map entry_of names.items) name) }
    {
        MemFiles {
            names,
            failing,
            faults: 0,
            reads: 0,
        }
    }

    /// How many reads failed.
    pub fn faults(&self) -> u64
        ensures { result ≡ ⟦<MemFiles as Files>⟧.faults self.now }
    {
        self.faults
    }

    /// How many reads there were.
    pub fn reads(&self) -> u64
        ensures { result ≡ ⟦<MemFiles as Files>⟧.reads self.now }
    {
        self.reads
    }
}

#[tactic(auto, using(crate::proofs::Names::get_named))]
impl Files for MemFiles {
    ghost holds = { λ files. Some (held_of files) };

    ghost asked = { λ _. None };

    ghost faults = { λ files. files.faults };

    ghost reads = { λ files. files.reads };

    fn read(&mut self, name: &str, limit: u64, into: &mut Vec<u8>) -> Got
        ensures bytes { (held : Held) → Some (held_of self.old) ≡ Some held →
            Reads result into.new.items (reading held name.now limit) }
        ensures fits { FitsLimit result into.new.items limit }
        ensures holds { Some (held_of self.new) ≡ Some (held_of self.old) }
        ensures asked { None ≡ asked_too None name.now }
        ensures reads { self.new.reads ≡ one_more self.old.reads }
        ensures cause { ReadCause result self.old.faults self.new.faults }
        ensures never_falls { self.old.faults ≤ self.new.faults }

        // The reads that fail are just those listed and those of an absent name.
        ensures fails { (result ≡ Got.Failed) ↔ ((is_listed (one_more self.old.reads) self.old.failing ≡ true)
            ⊎ (get (held_of self.old) name.now ≡ None)) }
        ensures exact { ReadsExactly result into.new.items (vec_capacity into.old) (next_reading self.old name.now limit) }
        ensures after { self.new ≡ after_read result self.old }
    {
        self.reads = self.reads.saturating_add(1);
        let got = if self.failing.contains(&self.reads) {
            Got::Failed
        } else {
            read_named(self.names.as_slice(), name, limit, into)
        };
        self.faults = got.faults_after(self.faults);
        got
    }
}

/// The first file of this name.
fn find_file<'a>(files: &'a [NamedBytes], name: &str) -> Option<&'a NamedBytes>
    ensures { option_map (λ file. file.now.bytes.items) result ≡ bytes_named (map entry_of files.now) name.now }
{
    for file in files {
        if name == file.name.as_str() {
            return Some(file);
        }
    }
    None
}

/// Reads the first file of this name, under the limit.
fn read_named(files: &[NamedBytes], name: &str, limit: u64, into: &mut Vec<u8>) -> Got
    ensures { ReadsExactly result into.new.items (vec_capacity into.old)
        (reading_at (bytes_named (map entry_of files.now) name.now) limit) }
{
    match find_file(files, name) {
        None => Got::Failed,
        Some(file) if file.bytes.len() as u64 > limit => Got::TooLong,
        Some(file) => copy_into(file.bytes.as_slice(), into),
    }
}

/// Puts the bytes into the buffer, instead of what it has.
fn copy_into(bytes: &[u8], into: &mut Vec<u8>) -> Got
    ensures { ReadsExactly result into.new.items (vec_capacity into.old) (Bytes bytes.now) }
{
    into.clear();
    match into.extend_from_slice(bytes) {
        Ok(()) => Got::All,
        Err(_) => Got::Memory,
    }
}
