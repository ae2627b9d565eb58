//! What the program writes.

use sg_outside::{Put, Sink};

/// How output ended, if not well: the status of the program.
#[derive(Clone, Copy, Debug, PartialEq, Eq)]
pub enum Failed {
    /// Nothing more can be written.
    Output,
    /// Memory ran out.
    Memory,
    /// Standard input can't be read.
    Input,
}

impl Failed {
    /// The status of a run that ends so.
    pub fn status(self) -> u8 {
        match self {
            Failed::Input => 2,
            Failed::Output => 3,
            Failed::Memory => 9,
        }
    }
}

/// Writes bytes.
pub(crate) fn put_all<S: Sink>(out: &mut S, bytes: &[u8]) -> Result<(), Failed> {
    if bytes.is_empty() {
        return Ok(());
    }
    match out.put(bytes) {
        Put::All => Ok(()),
        Put::Failed { taken: _ } => Err(Failed::Output),
        Put::Memory => Err(Failed::Memory),
    }
}
