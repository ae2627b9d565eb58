//! Loads of runs of rows.

pub(crate) mod blocks;
pub(crate) mod copies;
pub(crate) mod expanding;
pub(crate) mod heads;
pub(crate) mod landing_runs;
pub mod row_run;
pub(crate) mod spans;
