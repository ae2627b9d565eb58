//! The same values under another layout, and which layout needs the fewest words for them.
#![tactic(auto)]

pub mod advising;
pub mod converting;
mod kept;
pub mod laws;
mod likeness;
mod moving;
mod parts;
#[cfg(test)]
mod tests;
mod used;

pub use advising::{Advice, Count, advise};
pub use converting::convert;
pub use likeness::alike;
