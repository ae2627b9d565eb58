//! What a table of mask words is ruled by: the race invariant, and what an atomic step tells its seat.
use atomic_table::{Join, Play, Split, TableRule};
use sg_words::{Items, Worker};

/// The words are the masks; the views are the workers.
pub struct MaskRule;

impl TableRule<(), Worker, Items<u64>> for MaskRule {
    ghost use Rattle.sg_mask.specs.MaskRace.{Racing, first_worker};

    ghost holds = { λ start s. Racing start s.words s.views };

    ghost first = { λ _. first_worker };
}

/// An or of one bit into a word.
pub struct Mark;

impl Play<(), Worker> for Mark {
    ghost use Rattle.sg_mask.specs.MaskRace.{marks};

    ghost then = { marks };
}

/// A seat cut in two, and two seats made one.
pub struct Half;

impl Split<Worker> for Half {
    ghost use Rattle.sg_words.specs.RaceMachine.{after_split, other_half};

    ghost left = { after_split };

    ghost right = { other_half };
}

impl Join<Worker> for Half {
    ghost use Rattle.sg_words.specs.RaceMachine.{after_join, nobody};

    ghost both = { after_join };

    ghost spent = { nobody };
}
