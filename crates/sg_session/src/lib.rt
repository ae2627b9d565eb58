//! Compiling a file, and performing its commands over stores.
#![tactic(auto)]

pub mod binds;
mod check;
pub mod compilation;
pub mod compiled;
mod freeing;
mod grids;
mod kernels;
pub mod laws;
mod layouts;
mod lowered;
mod opening;
mod perform;
pub mod refusal;
mod rules;
pub mod session;
pub mod spelled;
mod stages;
mod step;
pub mod tasks;
mod views;

pub use binds::{Bind, Binds, file_bound};
pub use check::check_text;
pub use compilation::compile;
pub use compiled::Compiled;
pub use lowered::lower_text;
pub use refusal::{Refusal, RunRefusal};
pub use session::Session;
pub use spelled::spell;
pub use tasks::{Stage, Task};
