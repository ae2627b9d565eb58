//! The points of a run, and the workers that share them.

pub(crate) mod effort;
pub(crate) mod points;
pub(crate) mod race;
pub(crate) mod region;
pub(crate) mod state;
