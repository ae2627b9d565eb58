//! Room for the seats that are split off: it is taken when a pass starts, so that no split asks for memory.
ghost use Rattle.std.specs.Prelude.{◌≡◌, ℕ, ◌+◌, ◌≤◌, IfOk};
ghost use Rattle.sg_accum.specs.steps.Rooms.{IsRoom, AreRooms, splits_of, HasRooms};

use crate::part::PartSeat;
use sg_words::Memory;
use std::alloc::Global;

/// A list without seats yet, with room for one in each part.
#[derive(Drop)]
pub struct Room {
    pub(crate) list: Vec<PartSeat>,
}

/// Room for a split, and for one in each half.
#[derive(Drop)]
pub struct Three {
    pub(crate) first: Room,
    pub(crate) mine: Room,
    pub(crate) theirs: Room,
}

/// Room for a split, and for three in each half.
#[derive(Drop)]
pub struct Seven {
    pub(crate) first: Room,
    pub(crate) mine: Three,
    pub(crate) theirs: Three,
}

/// Room for a split, and for seven in each half.
#[derive(Drop)]
pub struct Fifteen {
    pub(crate) first: Room,
    pub(crate) mine: Seven,
    pub(crate) theirs: Seven,
}

/// Room for so many splits.
#[derive(Drop)]
pub enum Rooms {
    None,
    One(Room),
    Three(Three),
    Seven(Seven),
    Fifteen(Fifteen),
}

/// Room for one split, and what is left for either half.
pub(crate) struct Cut {
    pub(crate) first: Room,
    pub(crate) mine: Rooms,
    pub(crate) theirs: Rooms,
}

impl Rooms {
    /// Room for all splits of a share of 16, in a pass of so many parts.
    pub(crate) fn make(alloc: Global, parts: usize) -> Result<Rooms, Memory>
        ensures { IfOk result (HasRooms parts 16) }
    {
        let first = Room::make(alloc, parts)?;
        let mine = Seven::make(alloc, parts)?;
        let theirs = Seven::make(alloc, parts)?;
        Ok(Rooms::Fifteen(Fifteen {
            first,
            mine,
            theirs,
        }))
    }

    /// Room for one split, and what is left for either half.
    pub(crate) fn cut(self) -> Cut
        requires some { 2 ≤ splits_of self }
        ensures mine { splits_of self ≡ splits_of result.mine + splits_of result.mine }
        ensures theirs { splits_of result.theirs ≡ splits_of result.mine }
        ensures first { (parts : ℕ) → AreRooms parts self → IsRoom parts result.first }
        ensures left { (parts : ℕ) → AreRooms parts self → AreRooms parts result.mine }
        ensures right { (parts : ℕ) → AreRooms parts self → AreRooms parts result.theirs }
    {
        match self {
            Rooms::None => unreachable!(),
            Rooms::One(first) => Cut {
                first,
                mine: Rooms::None,
                theirs: Rooms::None,
            },
            Rooms::Three(three) => {
                let Three {
                    first,
                    mine,
                    theirs,
                } = three;
                Cut {
                    first,
                    mine: Rooms::One(mine),
                    theirs: Rooms::One(theirs),
                }
            }
            Rooms::Seven(seven) => {
                let Seven {
                    first,
                    mine,
                    theirs,
                } = seven;
                Cut {
                    first,
                    mine: Rooms::Three(mine),
                    theirs: Rooms::Three(theirs),
                }
            }
            Rooms::Fifteen(fifteen) => {
                let Fifteen {
                    first,
                    mine,
                    theirs,
                } = fifteen;
                Cut {
                    first,
                    mine: Rooms::Seven(mine),
                    theirs: Rooms::Seven(theirs),
                }
            }
        }
    }
}

impl Room {
    ghost use Rattle.std.specs.Prelude.{IfOk};

    fn make(alloc: Global, parts: usize) -> Result<Room, Memory>
        ensures { IfOk result (IsRoom parts) }
    {
        Ok(Room {
            list: Vec::with_capacity(alloc, parts)?,
        })
    }
}

impl Three {
    ghost use Rattle.std.specs.Prelude.{IfOk};
    ghost use Rattle.sg_accum.specs.steps.Rooms.{AreThree};

    fn make(alloc: Global, parts: usize) -> Result<Three, Memory>
        ensures { IfOk result (AreThree parts) }
    {
        let first = Room::make(alloc, parts)?;
        let mine = Room::make(alloc, parts)?;
        let theirs = Room::make(alloc, parts)?;
        Ok(Three {
            first,
            mine,
            theirs,
        })
    }
}

impl Seven {
    ghost use Rattle.std.specs.Prelude.{IfOk};
    ghost use Rattle.sg_accum.specs.steps.Rooms.{AreSeven};

    fn make(alloc: Global, parts: usize) -> Result<Seven, Memory>
        ensures { IfOk result (AreSeven parts) }
    {
        let first = Room::make(alloc, parts)?;
        let mine = Three::make(alloc, parts)?;
        let theirs = Three::make(alloc, parts)?;
        Ok(Seven {
            first,
            mine,
            theirs,
        })
    }
}
