//! Access code: what a kernel's iteration does, in single instructions over registers, places and variables, and its meaning.
#![tactic(auto)]

mod arms;
mod before;
pub mod code;
pub mod emit;
mod kinds;
pub mod laws;
pub mod lines;
pub mod names;
pub mod op;
mod operators;
pub mod place;
mod scope;
mod settings;
pub mod span;
mod typing;

pub use code::{Code, Inst, KernelCode};
pub use laws::{places_tell, words_lie_in_spans};
pub use lines::text;
pub use names::Names;
pub use op::{Descent, Op, Step};
pub use span::Span;
pub use typing::well_typed;
