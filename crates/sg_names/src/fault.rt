/// What is wrong with the names of a program, at the first item where something is. Items are counted from 1.
#[derive(Clone, Copy, Debug, PartialEq, Eq)]
pub enum NameFault {
    /// A name is used that no earlier item declares as what the use needs.
    Unknown { item: u32 },
    /// A name is declared that an earlier item declares, or this one a second time; or an axis stands twice in a layout's list.
    Twice { item: u32 },
    /// With this item there are too many of a kind.
    TooMany { which: Which },
}

/// What there may be too many of: more than 8 layouts, 16 fields, 16 kernels or 64 commands.
#[derive(Clone, Copy, Debug, PartialEq, Eq)]
pub enum Which {
    Layouts,
    Fields,
    Kernels,
    Commands,
}
