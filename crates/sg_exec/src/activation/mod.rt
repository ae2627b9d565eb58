//! The first pass and what it activates.

pub(crate) mod activate;
pub(crate) mod ahead;
pub(crate) mod alike;
pub(crate) mod first_pass;
pub(crate) mod limits;
pub(crate) mod requests;
pub(crate) mod turns;
