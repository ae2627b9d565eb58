ghost use Rattle.std.specs.Prelude.{◌≡◌};
ghost use Rattle.sg_types.specs.Statements as spec;

/// What may be wrong with a statement before its types are looked at: an unknown name, a name given twice, an assignment to
/// what may not be assigned, a wrong number of indices or variables.
#[derive(Clone, Copy)]
pub(crate) struct Wrongs {
    pub unknown: bool,
    pub twice: bool,
    pub fixed: bool,
    pub miscounted: bool,
}

impl Wrongs {
    /// The first code that applies.
    pub fn first_code(self) -> Option<u32>
        ensures { result ≡ spec.first_code self }
    {
        if self.unknown {
            Some(4)
        } else if self.twice {
            Some(5)
        } else if self.fixed {
            Some(3)
        } else if self.miscounted {
            Some(2)
        } else {
            None
        }
    }
}
