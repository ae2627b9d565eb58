//! What the program reads and writes: files, a sink for its output, and the gate before each piece of work.
#![tactic(auto)]

pub mod files;
pub mod gate;
pub mod mem_files;
pub mod mem_sink;
pub mod real_files;
pub mod real_out;
pub mod sink;
pub mod test_gates;

pub use files::{Files, Got};
pub use gate::{FreeGate, Gate, Phase};
pub use mem_files::{MemFiles, NamedBytes};
pub use mem_sink::MemSink;
pub use real_files::RealFiles;
pub use real_out::RealOut;
pub use sink::{Put, Sink};
pub use test_gates::{HoldGate, OrderGate};
