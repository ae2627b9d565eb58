//! Chains of chunks, one for each length, that grow to fit the lengths; and racing lengths, which workers raise side by side.
#![tactic(auto)]

pub mod chunks;
pub mod laws;
pub mod pass;
pub mod rule;
pub mod seat;

pub use chunks::{ChunkFull, fit_chunks, fit_front};
pub use seat::{LengthPass, RaiseSeat};
