//! Tables of keys with links beside them, by linear probing.
#![tactic(auto)]

pub mod ask;
pub mod finish;
pub mod laws;
pub mod paged;
pub mod row_table;
pub mod rule;
pub mod seat;
pub mod table;

pub use finish::HashLinked;
pub use paged::PagedRow;
pub use row_table::{find_in, place_in, put_in};
pub use seat::{HashPass, HashSeat};
pub use sg_words::Ask;
pub use table::{find, place_of, put};
