/// Where a list begins and ends, and how many numbers it has. An empty list begins at the number of numbers.
#[derive(Clone, Copy, Debug)]
pub struct Head {
    pub first: u32,
    pub last: u32,
    pub len: u32,
}
