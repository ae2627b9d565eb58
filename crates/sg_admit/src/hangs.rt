//! Which variables are dirty. Each `if` has a place and each variable has one: an `if` that isn't clean, or stands in one that isn't, is
//! marked at its place, and a dirty variable at its. Links lead from each variable that an expression reads, and from the `if` round it,
//! to the place that depends on them; so there are as many links as tokens.

ghost use Rattle.std.specs.Prelude.{◌≡◌, ℕ, ◌+◌, not, ◌||◌, length, IfOk, OnOk};
ghost use Rattle.sg_admit.specs.Lines.{block_lines, stmt_lines, nothing_round};
ghost use Rattle.sg_admit.specs.steps.Hanging as spec;
ghost use Rattle.sg_admit.specs.steps.Noting.{tests_in};
ghost use Rattle.sg_words.specs.Spread.{bears_mark};

use crate::text::{Text, next};
use sg_types::{Form, TypedExpr, TypedKind, TypedStmt};
use sg_words::spreads::{Link, spread};
use sg_words::{Items, Memory};
use std::alloc::Global;

/// The links along which places get marked, and the places that are marked by themselves.
#[derive(Drop)]
pub(crate) struct Links {
    pub links: Items<Link>,
    pub start: Items<usize>,
}

impl Links {
    /// One place depends on another.
    fn lead(&mut self, from: usize, to: usize) -> Result<(), Memory>
        ensures { OnOk result (spec.SpreadWhereTested (λ places. not (places from) || places to) self.old self.new) }
    {
        self.links.push(Link { from, to })?;
        Ok(())
    }

    /// A place is marked by itself.
    fn begin(&mut self, place: usize) -> Result<(), Memory>
        ensures { OnOk result (spec.SpreadWhereTested (λ places. places place) self.old self.new) }
    {
        self.start.push(place)?;
        Ok(())
    }

    /// A place depends on a read of a field, except for its indices.
    fn hang_on_field(
        &mut self,
        text: &Text,
        to: usize,
        layout: u32,
        place: u32,
    ) -> Result<(), Memory>
        ensures { OnOk result (spec.SpreadWhereTested (λ places. not (spec.is_noted_in text.now.writes layout place) || places to) self.old self.new) }
    {
        if text.writes_field(layout, place) {
            self.begin(to)
        } else {
            Ok(())
        }
    }

    /// A place depends on what an expression reads.
    #[cycle(reads)]
    fn hang(&mut self, text: &Text, to: usize, expr: &TypedExpr) -> Result<(), Memory>
        ensures { OnOk result (spec.SpreadWhereTested (λ places. spec.is_clean_by text.now places expr.now || places to) self.old self.new) }
    {
        match &expr.form {
            Form::Literal(_word) => Ok(()),
            Form::Constant(_word) => Ok(()),
            Form::Var(var) => self.lead(text.place_of(*var), to),
            Form::Read {
                layout,
                place,
                index,
            } => {
                self.hang_on_field(text, to, *layout, *place)?;
                self.hang_all(text, to, index.as_slice())
            }
            Form::Paren(inner) => self.hang(text, to, inner.get()),
            Form::Un { op: _op, of } => self.hang(text, to, of.get()),
            Form::Bin {
                op: _op,
                left,
                right,
            } => {
                self.hang(text, to, left.get())?;
                self.hang(text, to, right.get())
            }
            Form::Mulq { a, b, s } => {
                self.hang(text, to, a.get())?;
                self.hang(text, to, b.get())?;
                self.hang(text, to, s.get())
            }
            Form::Convert(inner) => self.hang(text, to, inner.get()),
            Form::Active {
                layout: _layout,
                index,
            } => self.hang_all(text, to, index.as_slice()),
        }
    }

    #[cycle(reads)]
    fn hang_all(&mut self, text: &Text, to: usize, exprs: &[TypedExpr]) -> Result<(), Memory>
        ensures { OnOk result (spec.SpreadWhereTested (λ places. spec.are_clean_by text.now places exprs.now || places to) self.old self.new) }
    {
        for expr in exprs {
            self.hang(text, to, expr)?;
        }
        Ok(())
    }

    /// A place depends on an expression and on the `if` round it.
    fn hang_within(
        &mut self,
        text: &Text,
        round: usize,
        to: usize,
        expr: &TypedExpr,
    ) -> Result<(), Memory>
        ensures { OnOk result (spec.SpreadWhereTested (λ places. spec.is_in_set text.now places round to expr.now) self.old self.new) }
    {
        self.hang(text, to, expr)?;
        self.lead(round, to)
    }
}

/// The links of statements, and the place of the next `if`.
#[derive(Drop)]
pub(crate) struct Hangs {
    pub links: Links,
    pub ifs: u32,
}

impl Hangs {
    /// Adds the links of a block, where the innermost `if` round it has this place.
    #[cycle(hangs)]
    fn block(&mut self, text: &Text, round: usize, block: &[TypedStmt]) -> Result<(), Memory>
        ensures { OnOk result (spec.AddsLinks text.now round (block_lines block.now) self.old self.new) }
    {
        for stmt in block {
            self.stmt(text, round, stmt)?;
        }
        Ok(())
    }

    #[cycle(hangs)]
    fn stmt(&mut self, text: &Text, round: usize, stmt: &TypedStmt) -> Result<(), Memory>
        ensures { OnOk result (spec.AddsLinks text.now round (stmt_lines stmt.now) self.old self.new) }
    {
        match &stmt.kind {
            TypedKind::Let { var, value } => {
                self.links
                    .hang_within(text, round, text.place_of(*var), value)
            }
            TypedKind::Assign { var, value } => {
                self.links
                    .hang_within(text, round, text.place_of(*var), value)
            }
            TypedKind::Write {
                layout: _layout,
                place: _place,
                index: _index,
                way: _way,
                value: _value,
            } => Ok(()),
            TypedKind::If {
                cond,
                yes,
                no,
                has_else: _has_else,
            } => {
                let here = self.ifs as usize;
                self.ifs = next(self.ifs)?;
                self.links.hang_within(text, round, here, cond)?;
                self.block(text, here, yes.as_slice())?;
                self.block(text, here, no.as_slice())
            }
            TypedKind::For {
                var,
                range: _range,
                body,
            } => {
                self.links.lead(round, text.place_of(*var))?;
                self.block(text, round, body.as_slice())
            }
        }
    }
}

/// For each variable whether a write of the kernel can change it, where the text is that of its body.
pub(crate) fn dirty_vars(
    alloc: Global,
    text: &Text,
    body: &[TypedStmt],
) -> Result<Items<bool>, Memory>
    requires { text.now.ifs ≡ 1 + length (tests_in (block_lines body.now nothing_round)) }
    ensures { IfOk result (λ dirty. spec.IsLeastGiven text.now.writes (block_lines body.now nothing_round) dirty) }
{
    let mut hangs = Hangs {
        links: Links {
            links: Items::new(alloc),
            start: Items::new(alloc),
        },
        ifs: 1,
    };
    hangs.block(text, 0, body)?;
    let marks = spread(
        alloc,
        hangs.links.links.as_slice(),
        hangs.links.start.as_slice(),
    )?;
    marks_from(alloc, &marks, text.ifs as usize)
}

/// The marks of the places from the given one.
fn marks_from(alloc: Global, marks: &Items<bool>, first: usize) -> Result<Items<bool>, Memory>
    ensures { IfOk result (λ rest. (place : ℕ) → bears_mark rest place ≡ bears_mark marks.now (first + place)) }
{
    match marks.as_slice().get(first..) {
        Some(rest) => Ok(Items::from_slice(alloc, rest)?),
        None => Ok(Items::new(alloc)),
    }
}
