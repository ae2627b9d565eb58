//! Words of 32 bits and their arithmetic, and what every crate shares: running out of memory, refusals, lists.
#![tactic(auto)]

pub mod arithmetic;
pub mod asking;
pub mod laws;
pub mod links;
pub mod memory;
pub mod operators;
pub mod race;
pub mod spreads;
pub mod text;

pub use arithmetic::{apply, apply_un, fold, mulq, number, rank, unrank, word_of};
pub use asking::Ask;
pub use memory::{Memory, Stop};
pub use operators::{AccOp, BinOp, Ty, UnOp};
pub use race::Worker;
pub use sqlite_items::{Boxed, Items};
pub use text::Text;
