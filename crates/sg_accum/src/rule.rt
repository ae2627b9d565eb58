//! What the table of a part is ruled by: the race invariant, and what an atomic step tells its seat.
use crate::begin::Start;
use atomic_table::{Join, Play, Split, TableRule};
use sg_words::Worker;

/// The words stand for the cells; the views are the workers.
pub struct AccRule;

impl TableRule<(), Worker, Start> for AccRule {
    ghost use Rattle.sg_accum.specs.AccRace.{Racing, first_worker};

    ghost holds = { λ start s. Racing start s.words s.views };

    ghost first = { λ _. first_worker };
}

/// A contribution, given as it is.
pub struct Plain;

impl Play<(), Worker> for Plain {
    ghost use Rattle.sg_words.specs.declared.operators.Ty.TheVariants as ty;
    ghost use Rattle.sg_accum.specs.AccRace.{gives};

    ghost then = { gives ty.U32 };
}

/// A contribution, given as its rank among signed numbers.
pub struct Signed;

impl Play<(), Worker> for Signed {
    ghost use Rattle.sg_words.specs.declared.operators.Ty.TheVariants as ty;
    ghost use Rattle.sg_accum.specs.AccRace.{gives};

    ghost then = { gives ty.I32 };
}

/// A seat cut in two, and two seats made one.
pub struct Half;

impl Split<Worker> for Half {
    ghost use Rattle.sg_words.specs.RaceMachine.{after_split, other_half};

    ghost left = { after_split };

    ghost right = { other_half };
}

impl Join<Worker> for Half {
    ghost use Rattle.sg_words.specs.RaceMachine.{after_join, nobody};

    ghost both = { after_join };

    ghost spent = { nobody };
}
