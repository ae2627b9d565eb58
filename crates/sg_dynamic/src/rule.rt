//! What a table of lengths is ruled by: the race invariant, and what an atomic step tells its seat.
use atomic_table::{Join, Play, Split, TableRule};
use sg_words::{Items, Worker};

/// The words are the lengths; the views are the workers.
pub struct LengthRule;

impl TableRule<(), Worker, Items<u64>> for LengthRule {
    ghost use Rattle.sg_dynamic.specs.LengthRace.{Racing, first_worker};

    ghost holds = { λ start s. Racing start s.words s.views };

    ghost first = { λ _. first_worker };
}

/// A length raised to one more than an index.
pub struct Raise;

impl Play<(), Worker> for Raise {
    ghost use Rattle.sg_dynamic.specs.LengthRace.{raises};

    ghost then = { raises };
}

/// A seat cut in two, and two seats made one.
pub struct Half;

impl Split<Worker> for Half {
    ghost use Rattle.sg_words.specs.RaceMachine.{after_split, other_half};

    ghost left = { after_split };

    ghost right = { other_half };
}

impl Join<Worker> for Half {
    ghost use Rattle.sg_words.specs.RaceMachine.{after_join, nobody};

    ghost both = { after_join };

    ghost spent = { nobody };
}
