use crate::compiled::Compiled;
use sg_store::Stores;
use std::marker::Model;

/// A compiled program, and the stores that its commands work on. The stores stand for a flat state of its layouts.
#[derive(Drop)]
pub struct Session {
    pub compiled: Compiled,
    pub stores: Stores,
}

impl Model for Session {
    ghost use Rattle.sg_session.specs.Performed.{SessionParts, HasState};
    ghost use Rattle.std.specs.Coded.{codes};
    ghost use Rattle.sg_ir.specs.contracts.code.Inst as inst;

    ghost Value = { SessionParts };

    ghost coded = { Prim.hlevel (codes, inst.the_row.coded) };

    ghost view = { λ s. record { compiled = s.compiled; stores = s.stores.list } };

    ghost invariant = { λ s. HasState s.compiled.layouts s.stores.list };
}
