//! Grid texts: the values of a field as lines of text, in both directions.
#![tactic(auto)]

pub mod dumping;
pub mod grid;
pub mod laws;
mod lines;
mod numbers;
pub mod reading;
pub mod runs;
pub mod writing;

pub use dumping::dump;
pub use grid::{Grid, GridFault, GridRow, GridRun};
pub use reading::read_grid;
pub use runs::row_of_run;
pub use writing::{grid_text, push_coordinate};
