//! What is answered to an ask for a number of a stock.

/// What an ask answers: the number that stands in a slot, or that there is none for it.
#[derive(Clone, Copy, Debug, PartialEq, Eq)]
pub enum Ask {
    Node(u32),
    Dry,
}
