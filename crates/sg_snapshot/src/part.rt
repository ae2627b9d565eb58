use sg_words::Items;

/// What a snapshot has of a layout: the row numbers of its active coordinates, in order, and for each field their words
/// in that order.
#[derive(Debug, Drop)]
pub struct Part {
    pub rows: Items<u32>,
    pub words: Items<Items<u32>>,
}
