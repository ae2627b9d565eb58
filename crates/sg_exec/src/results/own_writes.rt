//! The own values that workers keep, which land at the end.

ghost use Rattle.std.specs.Prelude.{◌≡◌, ◌++◌, ◌∷◌, [], IfOk, OnOk};
ghost use Rattle.sg_exec.specs.steps.Puts.{kept_writes};

use crate::lanes::cell_write::CellWrite;
use sg_words::Memory;
use std::alloc::{AllocError, Global};

/// Own writes that are kept: those of some workers, list after list, and after them those of the last one.
#[derive(Drop)]
pub struct Puts {
    pub before: Vec<Vec<CellWrite>>,
    pub last: Vec<CellWrite>,
}

impl Puts {
    /// No writes.
    pub(crate) fn new(alloc: Global) -> Puts
        ensures { kept_writes result ≡ [] }
    {
        Puts {
            before: Vec::new(alloc),
            last: Vec::new(alloc),
        }
    }

    /// Keeps one more write.
    #[inline(always)]
    pub(crate) fn push(&mut self, write: CellWrite) -> Result<(), AllocError>
        ensures { OnOk result (kept_writes self.new ≡ kept_writes self.old ++ write ∷ []) }
    {
        self.last.push(write)?;
        Ok(())
    }

    /// These writes, and others after them. No write is copied.
    pub(crate) fn with(self, later: Puts) -> Result<Puts, Memory>
        ensures { IfOk result (λ all. kept_writes all ≡ kept_writes self ++ kept_writes later) }
    {
        let Puts { mut before, last } = self;
        let Puts {
            before: mut others,
            last: end,
        } = later;
        before.push(last)?;
        before.append(&mut others)?;
        Ok(Puts { before, last: end })
    }
}
