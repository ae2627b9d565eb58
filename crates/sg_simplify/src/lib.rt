//! Sharing and check removal over access code: the same writes, wants and values, with nothing computed twice in a scope, and with
//! exactly the checks that the spans of indices ask for.
#![tactic(auto)]

mod acts;
mod given;
mod identities;
mod insts;
mod lean;
mod made;
mod needs;
mod pass;
mod places;
mod roots;
mod setters;
mod simple;
mod words;

pub use simple::simplify;
