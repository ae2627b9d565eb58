/// The cell of an iteration's own coordinate in a layout's store, as it was found.
#[derive(Clone, Copy)]
pub struct OwnCell {
    pub layout: u32,
    pub cell: Option<u32>,
}
