//! From bytes to tokens, with spans, lines and limits.
#![tactic(auto)]

pub mod fault;
pub mod laws;
pub mod lexer;
mod name;
mod pieces;
mod runs;
mod spelling;

pub use fault::LexFault;
pub use lexer::lex;
pub use name::is_name;
