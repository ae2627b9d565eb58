//! Runs of kernels over stores, and loads.
#![tactic(auto)]

mod activation;
mod lanes;
mod loads;
mod results;
pub mod run;
mod workers;

pub use loads::row_run::RowRun;
pub use results::commit::land;
pub use results::made::Made;
pub use run::{load_rows, load_runs, prepare, run_kernel};
pub use workers::effort::effort;
