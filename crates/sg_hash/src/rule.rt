//! What a table of keys and slots is ruled by: the race invariant, and what each kind of atomic step tells its seat.
use atomic_table::{Join, Play, Split, TableRule};
use sg_words::{Items, Worker};

/// What a pass starts with: the key words, each 0 or one more than a key, the slot words beside them, each 0 or one more than a number,
/// and the stock of numbers.
#[derive(Drop)]
pub struct Start {
    pub keys: Items<u64>,
    pub links: Items<u64>,
    pub stock: Items<u32>,
}

/// The words are the slots, the keys and the count of drawn tickets; the views are the workers.
pub struct HashRule;

impl TableRule<(), Worker, Start> for HashRule {
    ghost use Rattle.sg_hash.specs.HashRace.{Racing, first_worker};

    ghost holds = { λ start s. Racing start s.words s.views };

    ghost first = { first_worker };
}

/// A load of a slot.
pub struct Look;

impl Play<(), Worker> for Look {
    ghost use Rattle.sg_hash.specs.HashRace.{looks};

    ghost then = { looks };
}

/// An add to the count of tickets.
pub struct Draw;

impl Play<(), Worker> for Draw {
    ghost use Rattle.sg_hash.specs.HashRace.{draws};

    ghost then = { draws };
}

/// An exchange of 0 for a link.
pub struct Link;

impl Play<(), Worker> for Link {
    ghost use Rattle.sg_hash.specs.HashRace.{tries};

    ghost then = { tries };
}

/// A load of a key word.
pub struct LookKey;

impl Play<(), Worker> for LookKey {
    ghost use Rattle.sg_hash.specs.HashRace.{looks_key};

    ghost then = { looks_key };
}

/// An exchange of 0 for a key.
pub struct PutKey;

impl Play<(), Worker> for PutKey {
    ghost use Rattle.sg_hash.specs.HashRace.{tries_key};

    ghost then = { tries_key };
}

/// A seat cut in two, and two seats made one.
pub struct Half;

impl Split<Worker> for Half {
    ghost use Rattle.sg_words.specs.RaceMachine.{after_split, other_half};

    ghost left = { after_split };

    ghost right = { other_half };
}

impl Join<Worker> for Half {
    ghost use Rattle.sg_words.specs.RaceMachine.{after_join, nobody};

    ghost both = { after_join };

    ghost spent = { nobody };
}
