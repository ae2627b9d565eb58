//! Kernels that don't touch each other, run at the same time.
#![tactic(auto)]

mod batch;
pub mod fault;
mod grouping;
mod landing;
mod readying;
mod shifted;
mod touching;
mod worth;

pub use batch::run_batch;
pub use fault::BatchFault;
pub use grouping::group_of;
pub use worth::is_worth;
