//! Racing bits: workers set bits of mask words side by side, and none is lost.
#![tactic(auto)]

pub mod laws;
pub mod pass;
pub mod rule;
pub mod seat;

pub use seat::{MarkSeat, MaskPass};
