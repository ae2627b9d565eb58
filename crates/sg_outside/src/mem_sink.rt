ghost use Rattle.std.specs.Prelude.{◌≡◌, ◌-◌, ◌<◌, ◌≤◌, [], ◌∷◌, ◌++◌, Some, length, map, min, OnOk, OnErr};
ghost use Rattle.sg_outside.specs.Counts.{one_more, is_listed};
ghost use Rattle.sg_outside.specs.Sink.{Puts, PutCause, pieces_after};
ghost use Rattle.sg_outside.specs.MemSink.{SinkInMemory, PutsExactly, after_put};

use super::sink::{Put, Sink};
use std::alloc::{AllocError, Global};
use std::marker::Model;

/// A sink that keeps its bytes and its pieces in memory, and at which chosen puts fail.
#[derive(Drop)]
pub struct MemSink {
    alloc: Global,
    bytes: Vec<u8>,
    pieces: Vec<Vec<u8>>,
    failing: Vec<u64>,
    most: usize,
    puts: u64,
    faults: u64,
}

impl Model for MemSink {
    ghost use Rattle.std.specs.Prelude.{map};
    ghost use Rattle.sg_outside.specs.MemSink.{SinkInMemory};

    ghost Value = { SinkInMemory };

    ghost view = { λ sink. record {
      bytes = sink.bytes.items;
      pieces = map (λ piece. piece.items) sink.pieces.items;
      failing = sink.failing.items;
      most = sink.most;
      puts = sink.puts;
      faults = sink.faults;
    } };
}

impl MemSink {
    /// The puts whose numbers are in `failing`, counted from 1, fail: they take at most `take`
    /// bytes of their piece, and never all of it.
    pub fn new(alloc: Global, failing: Vec<u64>, take: usize) -> MemSink
        ensures made { result ≡ record { bytes = []; pieces = []; failing = failing.items; most = take; puts = 0; faults = 0 } }
        ensures told { ⟦<MemSink as Sink>⟧.has result ≡ Some [] }
        ensures no_pieces { ⟦<MemSink as Sink>⟧.pieces result ≡ Some [] }
    {
        MemSink {
            alloc,
            bytes: Vec::new(alloc),
            pieces: Vec::new(alloc),
            failing,
            most: take,
            puts: 0,
            faults: 0,
        }
    }

    /// What was written so far.
    pub fn bytes(&self) -> &[u8]
        ensures { ⟦<MemSink as Sink>⟧.has self.now ≡ Some result.now }
    {
        self.bytes.as_slice()
    }

    /// The pieces that were put whole so far, in order.
    pub fn pieces(&self) -> &[Vec<u8>]
        ensures { ⟦<MemSink as Sink>⟧.pieces self.now ≡ Some (map (λ piece. piece.items) result.now) }
    {
        self.pieces.as_slice()
    }

    /// How many puts failed.
    pub fn faults(&self) -> u64
        ensures { result ≡ ⟦<MemSink as Sink>⟧.faults self.now }
    {
        self.faults
    }

    /// Keeps a piece, or leaves all as it is.
    fn keep(&mut self, piece: &[u8]) -> Result<(), AllocError>
        ensures kept { OnOk result (self.new ≡ record self.old {
          bytes = self.old.bytes ++ piece.now;
          pieces = self.old.pieces ++ piece.now ∷ [];
        }) }
        ensures stays { OnErr result (self.new ≡ self.old) }
    {
        let kept = Vec::from_slice(self.alloc, piece)?;
        let len = self.bytes.len();
        self.bytes.extend_from_slice(piece)?;
        match self.pieces.push(kept) {
            Ok(()) => Ok(()),
            Err(_) => {
                self.bytes.truncate(len);
                Err(AllocError)
            }
        }
    }
}

impl Sink for MemSink {
    ghost has = { λ sink. Some sink.bytes };

    ghost pieces = { λ sink. Some sink.pieces };

    ghost faults = { λ sink. sink.faults };

    fn put(&mut self, piece: &[u8]) -> Put
        requires { 0 < length piece.now }
        ensures bytes { Puts result (Some self.old.bytes) (Some self.new.bytes) piece.now }
        ensures pieces { Some self.new.pieces ≡ pieces_after result (Some self.old.pieces) piece.now }
        ensures cause { PutCause result self.old.faults self.new.faults }
        ensures never_falls { self.old.faults ≤ self.new.faults }

        // The puts that fail are just those listed.
        ensures exact { PutsExactly result (is_listed (one_more self.old.puts) self.old.failing)
            (min self.old.most (length piece.now - 1)) }
        ensures after { self.new ≡ after_put result piece.now self.old }
    {
        self.puts = self.puts.saturating_add(1);
        if !self.failing.contains(&self.puts) {
            return match self.keep(piece) {
                Ok(()) => Put::All,
                Err(_) => Put::Memory,
            };
        }
        let taken = self.most.min(piece.len() - 1);
        if self.bytes.extend_from_slice(&piece[..taken]).is_err() {
            return Put::Memory;
        }
        self.faults = self.faults.saturating_add(1);
        Put::Failed { taken }
    }
}
