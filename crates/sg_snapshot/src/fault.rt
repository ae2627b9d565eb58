/// Why bytes are no snapshot of layouts: their form, coordinates that aren't their own closure, or a node without room
/// for them. The first such layout is named, from 0, and its first such node, from 1, with its cap.
#[derive(Clone, Copy, Debug, PartialEq, Eq)]
pub enum SnapFault {
    NotSnapshot,
    NotClosed { layout: u32 },
    Full { layout: u32, node: u32, cap: u32 },
}
