use sg_flat::RunFault;

/// The first kernel of a batch that is refused, by its place in the batch, from 0, and why.
#[derive(Clone, Copy, Debug, PartialEq, Eq)]
pub struct BatchFault {
    pub at: u32,
    pub fault: RunFault,
}
