ghost use Rattle.std.specs.Prelude.{◌≡◌, ℕ, ◌<◌, List, Some, None, length};
ghost use Rattle.sg_outside.specs.Sink.{Puts};

use super::sink::{Put, Sink};
use std::io;
use std::io::{ErrorKind, Write};

/// The standard output. Neither bytes nor pieces are told.
#[derive(Drop)]
pub struct RealOut<'a, R: Print> {
    rt: &'a R,
    faults: u64,
}

impl<'a, R: Print> RealOut<'a, R> {
    /// The output of the runtime.
    pub fn new(rt: &'a R) -> RealOut<'a, R>
        ensures { ⟦<RealOut<'a, R> as Sink>⟧.faults result ≡ 0 }
    {
        RealOut { rt, faults: 0 }
    }

    /// How many puts failed.
    pub fn faults(&self) -> u64
        ensures { result ≡ ⟦<RealOut<'a, R> as Sink>⟧.faults self.now }
    {
        self.faults
    }
}

impl<'a, R: Print> Sink for RealOut<'a, R> {
    ghost has = { λ _. None };

    ghost pieces = { λ _. None };

    ghost faults = { λ out. out.faults };

    fn put(&mut self, piece: &[u8]) -> Put {
        let put = write_piece(&mut io::writer(self.rt), piece);
        self.faults = put.faults_after(self.faults);
        put
    }
}

/// Writes the piece, as often as the writer takes a part of it. The turns are counted, since a writer may be interrupted
/// forever and this call has to return.
fn write_piece<W: Write>(out: &mut W, piece: &[u8]) -> Put
    requires { 0 < length piece.now }
    ensures told { (written : List ℕ) → W.contents out.old ≡ Some written →
        Puts result (Some written) (W.contents out.new) piece.now }
    ensures front { Puts result None None piece.now }
{
    let mut taken = 0;
    for _ in 0..u64::MAX {
        match out.write(&piece[taken..]) {
            Ok(0) => break,
            Ok(count) => {
                taken += count;
                if taken == piece.len() {
                    return Put::All;
                }
            }
            Err(error) if error.kind() == ErrorKind::Interrupted => {}
            Err(error) if taken == 0 && error.kind() == ErrorKind::OutOfMemory =>
                return Put::Memory,
            Err(_) => break,
        }
    }
    Put::Failed { taken }
}
