use crate::results::shared::{Accumulated, Owned};
use sg_accum::AccSeat;

/// The fields that code writes, with the first seat of each pass.
#[derive(Drop)]
pub struct WrittenFields {
    pub accumulated: Vec<Accumulated>,
    pub seats: Vec<AccSeat>,
    pub owned: Vec<Owned>,
}
