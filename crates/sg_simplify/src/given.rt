//! What is given to the pass.
ghost use Rattle.std.specs.Prelude.{◌≡◌, [], Some, slice_get, option_copied};
ghost use Rattle.sg_ir.specs.Blocks.{block_of};
ghost use Rattle.sg_ir.specs.Span.{walk_span, box_span};
ghost use Rattle.sg_simplify.specs.steps.Pass.{roots_in};
ghost use Rattle.sg_simplify.specs.steps.Tally.{TellsSets};

use crate::roots::Roots;
use crate::setters::Setters;
use sg_coord::Coord;
use sg_flat::Domain;
use sg_ir::{Code, Op, Span};
use sg_layout::{Layout, Layouts};
use sg_words::Ty;
use std::alloc::Global;

/// Code with its domain and layouts, which variables it sets, and from which roots its places come.
#[derive(Drop)]
pub(crate) struct Given<'a> {
    pub alloc: Global,
    pub code: &'a Code,
    pub domain: Domain,
    pub layouts: &'a Layouts,
    pub setters: Setters,
    pub roots: Roots,
    pub ghost counted: { TellsSets (block_of code.now.regs code.now.body) setters.again.entries },
    pub ghost rooted: { roots.layouts.entries ≡ roots_in [] (block_of code.now.regs code.now.body) },
}

impl Given<'_> {
    ghost use Rattle.sg_ir.specs.Shared.{is_pure};
    ghost use Rattle.sg_simplify.specs.steps.Pass.{given_type, root_known};
    ghost use Rattle.sg_simplify.specs.steps.Made.{given_in};

    /// The type of a register; u32 if it isn't there.
    pub fn ty(&self, reg: u32) -> Ty
        ensures { result ≡ given_type (given_in self.now) reg }
    {
        match self.code.regs.get(reg as usize) {
            Some(ty) => *ty,
            None => Ty::U32,
        }
    }

    /// The layout from whose root a place of the code comes; 0 if nothing is known of it.
    pub fn root_of(&self, place: u32) -> u32
        ensures { result ≡ root_known (given_in self.now).roots place }
    {
        self.roots.layout_of(place)
    }

    pub fn layout(&self, layout: u32) -> Option<&Layout>
        ensures { option_copied result ≡ slice_get (given_in self.now).shapes layout }
    {
        self.layouts.list.get(layout as usize)
    }

    /// Whether the operation gives the same word wherever it stands in its block.
    pub fn is_pure(&self, op: Op) -> bool
        ensures { result ≡ is_pure (given_in self.now).single op }
    {
        match op {
            Op::Var { var } => self.setters.has_few(var),
            Op::OwnRead {
                layout: _layout,
                field: _field,
            } => false,
            _ => true,
        }
    }

    /// The span of a variable outside of inner loops of it: only one of the kernel's loop that nothing sets has a narrower one.
    pub fn var_span(&self, var: u32) -> Span
        ensures { result ≡ (given_in self.now).others var }
    {
        if !self.setters.has_none(var) {
            return Span::whole();
        }
        match self.domain {
            Domain::Walk { layout } => match self.layout(layout) {
                Some(layout) => extent_span(layout, var),
                None => Span::whole(),
            },
            Domain::Range { lo, hi } => box_span(lo, hi, var),
        }
    }
}

/// The parts that coordinates of a layout have on an axis, from 0.
fn extent_span(layout: &Layout, axis: u32) -> Span
    ensures { result ≡ walk_span (Some layout.now) axis }
{
    let extents = layout.extents();
    match axis {
        0 => Span::range(0, extents.a as i32),
        1 => Span::range(0, extents.b as i32),
        2 => Span::range(0, extents.c as i32),
        _ => Span::only(0),
    }
}

/// The parts that coordinates of a box have on an axis, from 0: 0 past its axes.
fn box_span(lo: Coord, hi: Coord, axis: u32) -> Span
    ensures { result ≡ box_span lo hi axis }
{
    if axis >= lo.n {
        return Span::only(0);
    }
    match axis {
        0 => Span::range(lo.a, hi.a),
        1 => Span::range(lo.b, hi.b),
        2 => Span::range(lo.c, hi.c),
        _ => Span::only(0),
    }
}
