//! What the one table is ruled by: the race invariant, and what each kind of atomic step tells its seat.
use atomic_table::{Join, Play, Split, TableRule};
use sg_layout::Layout;
use sg_words::{Items, Worker};

/// The slots of one pointer node in the table: how many they are, how many child containers the node has places for,
/// how many numbers its stock has and where these begin, by which number the race knows the node whose containers hold
/// the slots, and how many of them one container has.
#[derive(Clone, Copy)]
pub struct SlotPart {
    pub slots: u64,
    pub places: u64,
    pub limit: u64,
    pub stock: u64,
    pub over: u64,
    pub width: u64,
}

/// The mask words of one bitmasked node in the table, 64 bits in each.
#[derive(Clone, Copy)]
pub struct MaskPart {
    pub words: u64,
    pub over: u64,
    pub width: u64,
}

/// What a descent starts with: the slot words and the mask words, node after node, and the stocks; the keys of a hash
/// node; the links that stand above all these nodes, each 0 or one more than a place, and how many places there are;
/// and the parts of the table.
#[derive(Drop)]
pub struct Start {
    pub layout: Layout,
    pub links: Items<u64>,
    pub masks: Items<u64>,
    pub stock: Items<u32>,
    pub keys: Items<u64>,
    pub heads: Items<u64>,
    pub head_places: u64,
    pub slot_parts: Items<SlotPart>,
    pub mask_parts: Items<MaskPart>,
}

/// The words are the slots, the masks and the counts of drawn tickets; the views are the workers.
pub struct DescentRule;

impl TableRule<(), Worker, Start> for DescentRule {
    ghost use Rattle.sg_activate.specs.DescentRace.{Racing, first_worker};

    ghost holds = { λ start s. Racing start s.words s.views };

    ghost first = { first_worker };
}

/// A load of a slot.
pub struct Look;

impl Play<(), Worker> for Look {
    ghost use Rattle.sg_activate.specs.DescentRace.{looks};

    ghost then = { looks };
}

/// An add to a count of tickets.
pub struct Draw;

impl Play<(), Worker> for Draw {
    ghost use Rattle.sg_activate.specs.DescentRace.{draws};

    ghost then = { draws };
}

/// An exchange of 0 for a link.
pub struct Link;

impl Play<(), Worker> for Link {
    ghost use Rattle.sg_activate.specs.DescentRace.{tries};

    ghost then = { tries };
}

/// An or of one bit into a mask word.
pub struct Mark;

impl Play<(), Worker> for Mark {
    ghost use Rattle.sg_activate.specs.DescentRace.{marks};

    ghost then = { marks };
}

/// A seat cut in two, and two seats made one.
pub struct Half;

impl Split<Worker> for Half {
    ghost use Rattle.sg_words.specs.RaceMachine.{after_split, other_half};

    ghost left = { after_split };

    ghost right = { other_half };
}

impl Join<Worker> for Half {
    ghost use Rattle.sg_words.specs.RaceMachine.{after_join, nobody};

    ghost both = { after_join };

    ghost spent = { nobody };
}
