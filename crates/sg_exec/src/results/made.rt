use crate::results::own_writes::Puts;
use crate::results::sums::Sum;
use sg_store::Store;

/// What workers leave: the values of accumulated fields, and the own writes that are kept.
#[derive(Drop)]
pub struct Ended {
    pub sums: Vec<Sum>,
    pub puts: Puts,
}

/// What a run makes of some stores: copies in which what it wants is active, what lands in them, and room for all stores.
#[derive(Drop)]
pub struct Made {
    pub copies: Vec<Option<Store>>,
    pub ended: Ended,
    pub room: Vec<Store>,
}
