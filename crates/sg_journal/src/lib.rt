//! What has changed in the containers of stores, as lines of a journal.
#![tactic(auto)]

mod between;
pub mod laws;
mod lines;
mod placing;
mod rooms;

pub use between::{changes, changes_between};
pub use lines::{Line, Link};
pub use placing::{NodeLinks, Placed};
pub use rooms::{Room, rooms_in};
