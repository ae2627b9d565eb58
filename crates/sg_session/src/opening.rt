//! Opening a session.

ghost use Rattle.std.specs.Prelude.{IfOk};
ghost use Rattle.sg_flat.specs.State.{opening};
ghost use Rattle.sg_exec.specs.Standing.{StandForState};

use crate::compiled::Compiled;
use crate::session::Session;
use sg_store::{Store, Stores};
use sg_words::{Items, Memory};
use std::alloc::Global;

impl Session {
    ghost use Rattle.std.specs.Prelude.{IfOk};
    ghost use Rattle.sg_session.specs.Performed.{IsOpened};

    /// A session at its start: what is active without any write, and all values 0. It waits for nobody. Where memory runs out the
    /// compiled program is dropped.
    pub fn open(alloc: Global, compiled: Compiled) -> Result<Session, Memory>
        ensures { IfOk result (IsOpened compiled) }
    {
        let stores = opening_stores(alloc, &compiled)?;
        Ok(Session { compiled, stores })
    }
}

/// The stores of a program's layouts at its start.
pub(crate) fn opening_stores(alloc: Global, compiled: &Compiled) -> Result<Stores, Memory>
    ensures { IfOk result (λ stores. StandForState compiled.now.layouts stores.list (opening compiled.now.layouts)) }
{
    let mut list = Items::new(alloc);
    for layout in compiled.layouts.list.as_slice() {
        list.push(Store::make(alloc, layout)?)?;
    }
    Ok(Stores { list })
}
