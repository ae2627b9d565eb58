/// Why activation is refused.
#[derive(Clone, Copy, Debug, PartialEq, Eq)]
pub enum ActFault {
    /// The first node from the root, from 1, whose need passes its cap, and that cap.
    PoolFull { node: u32, cap: u32 },
}
