//! Kernels with numbers for names and a type for each expression, and what their iterations write.
#![tactic(auto)]

mod domain;
mod expression;
pub mod fault;
mod kernel;
mod known;
mod known_names;
pub mod laws;
mod make;
mod part;
mod reached;
mod scope;
mod statement;
mod type_table;
pub mod typed;
pub mod typing;
mod wrongs;

pub use fault::TypeFault;
pub use typed::{
    Form, Typed, TypedDomain, TypedExpr, TypedKernel, TypedKind, TypedRange, TypedStmt,
};
pub use typing::type_program;
