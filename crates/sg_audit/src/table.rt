//! What is held of one node.

ghost use Rattle.std.specs.Prelude.{◌≡◌, ◌+◌, ◌^◌, ◌<◌, ℕ, true, IfOk, [], nat_lt, is_some, slice_index, slice_index_or, slice_set, Option, None};
ghost use Rattle.sg_journal.specs.declared.rooms.Room.{Room};
ghost use Rattle.sg_audit.specs.steps.Tables.{IsTable, LetsGo, Takes, is_open, places_in, put_in, slot_number, taken_out};

use sg_journal::Room;
use sg_words::{Items, Memory};
use std::alloc::Global;
use std::collections::BTreeSet;

/// Where a number stands.
#[derive(Clone, Copy, Debug, PartialEq, Eq)]
pub(crate) struct Standing {
    pub(crate) parent: u32,
    pub(crate) slot: u32,
}

/// A number of a node, and where it stands.
#[derive(Clone, Copy, Debug, PartialEq, Eq)]
pub(crate) struct NodeLink {
    pub(crate) number: u32,
    pub(crate) standing: Standing,
}

/// What is held of a node: where each of its numbers stands, which of its slots are taken, numbered over all copies, and how many
/// numbers each parent has. Nothing of a node without a cap.
#[derive(Debug, Drop)]
pub(crate) struct NodeTable {
    pub(crate) room: Option<Room>,
    pub(crate) standing: Items<Option<Standing>>,
    pub(crate) taken: BTreeSet<u64>,
    pub(crate) children: Items<u32>,
    pub(crate) count: u32,
}

impl NodeTable {
    /// The table of a node of which nothing is held, whose parents' numbers are below so many.
    pub(crate) fn make(
        alloc: Global,
        room: Option<Room>,
        parents: usize,
    ) -> Result<NodeTable, Memory>
        ensures { IfOk result (λ table. IsTable room parents table []) }
    {
        let places = places_in(room);
        Ok(NodeTable {
            room,
            standing: Items::from_vec(vec![in alloc; None; places]?),
            taken: BTreeSet::new(alloc),
            children: Items::from_vec(vec![in alloc; 0; parents]?),
            count: 0,
        })
    }

    /// Takes a link if the node has room for it, and says whether it has: a place and a slot that are free, and a number below the
    /// cap. Whether the parent is held isn't asked.
    pub(crate) fn take(&mut self, link: NodeLink) -> Result<bool, Memory>
        ensures { IfOk result (λ done. (room : Option Room) (parents : ℕ) → Takes room parents self.old self.new link done) }
    {
        let Some(room) = self.room else {
            return Ok(false);
        };
        if !self.is_open(room, link) {
            return Ok(false);
        }
        if !self.taken.insert(slot_number(link.standing, room.slots))? {
            return Ok(false);
        }
        self.put_in(link);
        Ok(true)
    }

    /// Lets a number go, and says whether it was held.
    pub(crate) fn free(&mut self, number: u32) -> bool
        ensures { (room : Option Room) (parents : ℕ) → LetsGo room parents self.old self.new number result }
    {
        let Some(room) = self.room else {
            return false;
        };
        let Some(standing) = self.standing_of(number) else {
            return false;
        };
        self.taken.remove(&slot_number(standing, room.slots));
        self.take_out(number, standing);
        true
    }

    /// Whether the number is held.
    pub(crate) fn holds(&self, number: u32) -> bool
        ensures { result ≡ is_some (slice_index_or self.now.standing number None) }
    {
        self.standing_of(number).is_some()
    }

    /// Whether numbers stand in the container with this number.
    pub(crate) fn has_children(&self, number: u32) -> bool
        ensures { result ≡ nat_lt 0 (slice_index self.now.children (number + 1)) }
    {
        count_at(&self.children, number as usize + 1) > 0
    }

    /// Where the number stands, if it is held.
    fn standing_of(&self, number: u32) -> Option<Standing>
        ensures { result ≡ slice_index_or self.now.standing number None }
    {
        let standing = self.standing.as_slice();
        let number = number as usize;
        if number < standing.len() {
            standing[number]
        } else {
            None
        }
    }

    /// Whether a link is within the table, the cap isn't reached, and the number isn't held.
    fn is_open(&self, room: Room, link: NodeLink) -> bool
        ensures value { result ≡ is_open self.now room link }
        ensures few { result ≡ true → self.now.count + 1 < 2 ^ 32 }
    {
        (link.number as usize) < self.standing.len()
            && link.standing.slot < room.slots
            && (link.standing.parent as usize) < self.children.len()
            && self.count < room.cap
            && !self.holds(link.number)
    }

    /// Notes a link, but for its slot.
    fn put_in(&mut self, link: NodeLink)
        ensures { self.new ≡ put_in self.old link }
    {
        let parent = link.standing.parent as usize;
        let children = count_at(&self.children, parent);
        set_standing(&mut self.standing, link.number, Some(link.standing));
        set_count(&mut self.children, parent, children.saturating_add(1));
        self.count = self.count.saturating_add(1);
    }

    /// Strikes out a number that stands there, but for its slot.
    fn take_out(&mut self, number: u32, standing: Standing)
        ensures { self.new ≡ taken_out self.old number standing }
    {
        let parent = standing.parent as usize;
        let children = count_at(&self.children, parent);
        set_standing(&mut self.standing, number, None);
        set_count(&mut self.children, parent, children.saturating_sub(1));
        self.count = self.count.saturating_sub(1);
    }
}

/// The count at a place; 0 past the last.
fn count_at(counts: &Items<u32>, at: usize) -> u32
    ensures { result ≡ slice_index counts.now at }
{
    let counts = counts.as_slice();
    if at < counts.len() { counts[at] } else { 0 }
}

/// Writes a count, if there is such a place.
fn set_count(counts: &mut Items<u32>, at: usize, count: u32)
    ensures { counts.new ≡ slice_set counts.old at count }
{
    if at < counts.len() {
        counts.set(at, count);
    }
}

/// Writes where a number stands, if it has a place.
fn set_standing(standing: &mut Items<Option<Standing>>, number: u32, place: Option<Standing>)
    ensures { standing.new ≡ slice_set standing.old number place }
{
    let at = number as usize;
    if at < standing.len() {
        standing.set(at, place);
    }
}

/// How many places a node has that may be there.
pub(crate) fn places_in(room: Option<Room>) -> usize
    ensures value { result ≡ places_in room }
    ensures few { result < 2 ^ 32 }
{
    match room {
        Some(room) => room.places as usize,
        None => 0,
    }
}

/// The number of a slot over all copies, each of which has so many.
fn slot_number(standing: Standing, slots: u32) -> u64
    ensures { result ≡ slot_number standing slots }
{
    u64::from(standing.parent) * u64::from(slots) + u64::from(standing.slot)
}
