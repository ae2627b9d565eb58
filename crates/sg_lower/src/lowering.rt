ghost use Rattle.std.specs.Prelude.{◌≡◌};
ghost use Rattle.sg_lower.specs.steps.Basis.{is_owned};

use sg_words::Items;

/// A field, by its layout and its place there.
#[derive(Clone, Copy, Debug, PartialEq, Eq)]
pub struct Field {
    pub layout: u32,
    pub place: u32,
}

/// How a kernel is lowered: how many variables its loop has, the fields that it own-writes, and whether as a slice, where each write
/// is a want.
#[derive(Debug, Drop)]
pub struct Lowering {
    pub vars: u32,
    pub owned: Items<Field>,
    pub slicing: bool,
}

impl Lowering {
    /// Whether the kernel own-writes a field.
    pub(crate) fn is_owned(&self, layout: u32, place: u32) -> bool
        ensures { result ≡ is_owned self.now.owned layout place }
    {
        self.owned
            .as_slice()
            .iter()
            .any(|field| field.layout == layout && field.place == place)
    }
}
