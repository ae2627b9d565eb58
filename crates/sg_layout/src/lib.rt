//! Layouts: the shape of a tree of nodes over named axes, its rules, and what of it a list of coordinates activates.
#![tactic(auto)]

mod axes;
pub mod laws;
pub mod layout;
mod measures;
mod rules;
pub mod shape;
pub mod words;

pub use axes::extent_in;
pub use laws::{
    closure_closes, closure_members, dense_is_full, last_sparse_decides, live_absorbs, live_grows,
    need_absorbs, need_counts_live, need_grows, paths_tell, points_in_order, rules_decide,
    slots_numbered,
};
pub use layout::{Layout, LayoutFault, Layouts, check_layout};
pub use shape::{Kind, NodeShape, Shape, Size};
pub use words::{TooLarge, check_total};
