//! From admitted kernels to access code: what an iteration writes, and where it may activate.
#![tactic(auto)]

mod constants;
mod domains;
mod expressions;
mod kernel;
pub mod lowering;
mod owned;
mod places;
mod statements;

pub use kernel::lower;
