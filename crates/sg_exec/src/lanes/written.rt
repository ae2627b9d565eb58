ghost use Rattle.std.specs.Prelude.{◌≡◌, ◌&&◌, ◌==◌, OnErr, OnOk};
ghost use Rattle.sg_ir.specs.Runs.{is_own};
ghost use Rattle.sg_exec.specs.steps.Written.{is_own_to, is_same_field, replaced};

use crate::lanes::cell_write::CellWrite;
use sg_flat::Way;
use sg_words::Memory;
use std::alloc::Global;
use std::marker::Model;

/// The writes of an iteration so far, with the last own write to each field at hand. Contracts see the list of the writes.
#[derive(Drop)]
pub struct Written {
    list: Vec<CellWrite>,
    own: Vec<CellWrite>,
}

impl Model for Written {
    ghost use Rattle.std.specs.Prelude.{List};
    ghost use Rattle.sg_exec.specs.declared.lanes.cell_write.CellWrite.{CellWrite};
    ghost use Rattle.sg_exec.specs.steps.Written.{IsLatest};

    ghost Value = { List CellWrite };

    ghost view = { λ written. written.list.items };

    ghost invariant = { λ written. IsLatest written.own.items written.list.items };
}

impl Written {
    ghost use Rattle.std.specs.Prelude.{◌≡◌, ◌++◌, ◌∷◌, [], OnErr, OnOk};
    ghost use Rattle.sg_exec.specs.steps.Written.{own_write};

    /// No writes.
    pub fn new(alloc: Global) -> Written
        ensures { result ≡ [] }
    {
        Written {
            list: Vec::new(alloc),
            own: Vec::new(alloc),
        }
    }

    /// Adds a write.
    #[inline(always)]
    pub fn push(&mut self, write: CellWrite) -> Result<(), Memory>
        ensures ok { OnOk result (self.new ≡ self.old ++ write ∷ []) }
        ensures err { OnErr result (self.new ≡ self.old) }
    {
        self.list.push(write)?;
        if is_own(write.way) {
            match remember(&mut self.own, write) {
                Ok(()) => {}
                Err(memory) => {
                    self.list.pop();
                    return Err(memory);
                }
            }
        }
        Ok(())
    }

    /// The last own write to a field.
    #[inline(always)]
    pub fn own_write(&self, layout: u32, place: u32) -> Option<CellWrite>
        ensures { result ≡ own_write layout place self.now }
    {
        for write in self.own.as_slice() {
            if is_own_to(write, layout, place) {
                return Some(*write);
            }
        }
        None
    }

    /// The writes, in order.
    pub fn as_slice(&self) -> &[CellWrite]
        ensures { result.now ≡ self.now }
    {
        self.list.as_slice()
    }

    /// Takes all writes out.
    pub fn clear(&mut self)
        ensures { self.new ≡ [] }
    {
        self.list.clear();
        self.own.clear();
    }
}

/// Puts an own write in the place of the one to the same field, or after all if there is none.
#[inline(always)]
fn remember(own: &mut Vec<CellWrite>, write: CellWrite) -> Result<(), Memory>
    ensures ok { OnOk result (own.new.items ≡ replaced write own.old.items) }
    ensures err { OnErr result (own.new.items ≡ own.old.items) }
{
    for place in 0..own.len() {
        if is_same_field(&own[place], &write) {
            own[place] = write;
            return Ok(());
        }
    }
    own.push(write)?;
    Ok(())
}

/// Whether a write is an own write to this field.
#[inline(always)]
fn is_own_to(write: &CellWrite, layout: u32, place: u32) -> bool
    ensures { result ≡ is_own_to layout place write.now }
{
    is_own(write.way) && write.layout == layout && write.place == place
}

/// Whether two writes are to one field.
#[inline(always)]
fn is_same_field(write: &CellWrite, other: &CellWrite) -> bool
    ensures { result ≡ is_same_field write.now other.now }
{
    write.layout == other.layout && write.place == other.place
}

#[inline(always)]
fn is_own(way: Way) -> bool
    ensures { result ≡ is_own way }
{
    match way {
        Way::Own => true,
        Way::Acc(_) => false,
    }
}
