//! Racing links: workers ask for the slots of one node side by side, and each empty slot that is asked for gets a number of a stock.
#![tactic(auto)]

pub mod ask;
pub mod finish;
pub mod laws;
pub mod rule;
pub mod seat;

pub use finish::Linked;
pub use seat::{AskSeat, PointerPass};
pub use sg_words::Ask;
