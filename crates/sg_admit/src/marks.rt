ghost use Rattle.std.specs.Prelude.{◌≡◌};
ghost use Rattle.sg_admit.specs.Slices as slices;
ghost use Rattle.sg_admit.specs.steps.Marked.{unclean_of, marked_facts};

use crate::ways::{FieldWay, has_acc, has_own, is_noted, is_own};
use sg_flat::Way;
use sg_words::Items;
use sg_words::spreads::is_marked;

/// What the rules look at: each field that the kernel writes, once with its first own write and once with its first accumulation, in
/// the order of these; which variables are dirty; the number of the loop's variables; and the layout that the loop walks.
#[derive(Drop)]
pub(crate) struct Marks {
    pub ways: Items<FieldWay>,
    pub dirty: Items<bool>,
    pub vars: u32,
    pub walked: Option<u32>,
}

impl Marks {
    /// Whether the kernel writes a field.
    pub fn writes(&self, layout: u32, place: u32) -> bool
        ensures { result ≡ (unclean_of self.now).fields layout place }
    {
        is_noted(self.ways.as_slice(), layout, place)
    }

    pub fn is_dirty(&self, var: u32) -> bool
        ensures { result ≡ (unclean_of self.now).vars var }
    {
        is_marked(&self.dirty, var as usize)
    }

    pub fn first_way(&self, layout: u32, place: u32) -> Option<Way>
        ensures { result ≡ (marked_facts self.now).first layout place }
    {
        for it in self.ways.as_slice() {
            if it.is_of(layout, place) {
                return Some(it.way);
            }
        }
        None
    }

    pub fn has_own(&self, layout: u32, place: u32) -> bool
        ensures { result ≡ (marked_facts self.now).own layout place }
    {
        has_own(self.ways.as_slice(), layout, place)
    }

    pub fn has_acc(&self, layout: u32, place: u32) -> bool
        ensures { result ≡ (marked_facts self.now).acc layout place }
    {
        has_acc(self.ways.as_slice(), layout, place)
    }

    pub fn may_activate(&self, layout: u32, way: Way) -> bool
        ensures { result ≡ slices.may_activate self.now.walked layout way }
    {
        !(is_own(way) && self.is_walked(layout))
    }

    fn is_walked(&self, layout: u32) -> bool
        ensures { result ≡ slices.is_walked self.now.walked layout }
    {
        match self.walked {
            Some(walked) => walked == layout,
            None => false,
        }
    }
}
