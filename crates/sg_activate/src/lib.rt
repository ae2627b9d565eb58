//! Activation: workers race for what pieces of work want, and the store becomes active there.
#![tactic(auto)]

pub mod activation;
mod asking;
mod caps;
mod descend;
pub mod descent;
pub mod fault;
mod few;
mod found;
pub mod gates;
mod keys;
mod lengths;
mod look;
mod notes;
mod pass;
mod race;
pub mod wanted;

pub use activation::{activate, activated};
pub use descent::{DescentPass, DescentSeat, Reach};
pub use fault::ActFault;
pub use gates::{pass_gate, workers_at, workers_for};
pub use wanted::Wanted;
