//! The flat state: for each layout its active coordinates and the words of its fields, and what a kernel run makes of it.
#![tactic(auto)]

mod blocks;
mod closed;
mod closure;
mod cutting;
pub mod effects;
pub mod field;
pub mod kernel;
mod landing;
pub mod laws;
mod lengths;
mod need;
pub mod state;

pub use closed::is_closed;
pub use effects::{Domain, Effects, RunFault, Turn, Way, Write};
pub use field::FlatField;
pub use state::{FlatLayout, FlatState};
