//! Coordinates and extents: what is inside, row numbers and row order, and the slices of workers.
#![tactic(auto)]

pub mod coord;
pub mod digits;
pub mod extents;
pub mod laws;
pub mod rows;
pub mod slices;

pub use coord::{Coord, coord_of, count, rises};
pub use digits::{Digits, digit, quotient, remainder, wide_quotient, wide_remainder};
pub use extents::Extents;
pub use laws::{numbering, row_order, slices_partition, strict_order};
pub use rows::{coord_after, coord_at, first_coord, inside, row};
pub use slices::slice_of;
