//! What a kernel's text says at once: the fields that it writes, the variables of its inner loops and how many `if`s it has.

ghost use Rattle.std.specs.Prelude.{◌≡◌, ◌+◌, ◌++◌, ◌∷◌, [], OnOk, IfOk};
ghost use Rattle.sg_admit.specs.Lines.{block_lines, stmt_lines};
ghost use Rattle.sg_admit.specs.steps.Hanging as hanging;
ghost use Rattle.sg_admit.specs.steps.Noting as spec;

use crate::ways::{FieldWay, has_acc, has_own, is_noted, is_own};
use sg_types::{TypedKind, TypedStmt};
use sg_words::{Items, Memory};

/// Each field that is written, once with each kind of way in order of the first; the variables of the inner loops in the order of the
/// text; and how many `if`s there are, with one more for the kernel's loop.
#[derive(Drop)]
pub(crate) struct Text {
    pub writes: Items<FieldWay>,
    pub loops: Items<u32>,
    pub ifs: u32,
}

impl Text {
    /// Whether a field is written.
    pub fn writes_field(&self, layout: u32, place: u32) -> bool
        ensures { result ≡ hanging.is_noted_in self.now.writes layout place }
    {
        is_noted(self.writes.as_slice(), layout, place)
    }

    /// The place of a variable: those of the `if`s stand before it.
    pub fn place_of(&self, var: u32) -> usize
        ensures { result ≡ self.now.ifs + var }
    {
        self.ifs as usize + var as usize
    }

    fn has_noted(&self, it: FieldWay) -> bool
        ensures { result ≡ spec.has_noted self.now.writes it }
    {
        if is_own(it.way) {
            has_own(self.writes.as_slice(), it.layout, it.place)
        } else {
            has_acc(self.writes.as_slice(), it.layout, it.place)
        }
    }

    #[cycle(text)]
    pub fn block(&mut self, block: &[TypedStmt]) -> Result<(), Memory>
        ensures { OnOk result (spec.AreNoted (block_lines block.now) self.old self.new) }
    {
        for stmt in block {
            self.stmt(stmt)?;
        }
        Ok(())
    }

    #[cycle(text)]
    fn stmt(&mut self, stmt: &TypedStmt) -> Result<(), Memory>
        ensures { OnOk result (spec.AreNoted (stmt_lines stmt.now) self.old self.new) }
    {
        match &stmt.kind {
            TypedKind::Let {
                var: _var,
                value: _value,
            } => Ok(()),
            TypedKind::Assign {
                var: _var,
                value: _value,
            } => Ok(()),
            TypedKind::Write {
                layout,
                place,
                index: _index,
                way,
                value: _value,
            } => {
                let it = FieldWay {
                    layout: *layout,
                    place: *place,
                    way: *way,
                };
                self.note(it)
            }
            TypedKind::If {
                cond: _cond,
                yes,
                no,
                has_else: _has_else,
            } => {
                self.note_if()?;
                self.block(yes.as_slice())?;
                self.block(no.as_slice())
            }
            TypedKind::For {
                var,
                range: _range,
                body,
            } => {
                self.loops.push(*var)?;
                self.block(body.as_slice())
            }
        }
    }

    /// Notes a write, where its field isn't noted yet with a way of its kind.
    fn note(&mut self, it: FieldWay) -> Result<(), Memory>
        ensures writes { OnOk result (spec.AreAlike self.new.writes (self.old.writes ++ it ∷ [])) }
        ensures loops { OnOk result (self.new.loops ≡ self.old.loops) }
        ensures ifs { OnOk result (self.new.ifs ≡ self.old.ifs) }
    {
        if !self.has_noted(it) {
            self.writes.push(it)?;
        }
        Ok(())
    }

    fn note_if(&mut self) -> Result<(), Memory>
        ensures writes { OnOk result (self.new.writes ≡ self.old.writes) }
        ensures loops { OnOk result (self.new.loops ≡ self.old.loops) }
        ensures ifs { OnOk result (self.new.ifs ≡ self.old.ifs + 1) }
    {
        self.ifs = next(self.ifs)?;
        Ok(())
    }
}

/// The number after this one. No memory has room for so many things that there is none.
pub(crate) fn next(number: u32) -> Result<u32, Memory>
    ensures { IfOk result (λ next. next ≡ number + 1) }
{
    match number.checked_add(1) {
        Some(next) => Ok(next),
        None => Err(Memory),
    }
}
