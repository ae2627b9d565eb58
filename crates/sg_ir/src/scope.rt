//! What may be used at a point of code: registers, variables, fields and places.
ghost use Rattle.std.specs.Prelude.{◌≡◌, ◌&&◌, ◌==◌, false, slice_get};
ghost use Rattle.std.specs.List.{list_all};
ghost use Rattle.sg_ir.specs.WellTyped.{holds_of, reads, indexes, checkable, descends, is_cell, field_type_at, setters_in, is_i32};
ghost use Rattle.sg_ir.specs.steps.Scopes.{known_by_check};
ghost use Rattle.sg_ir.specs.steps.Frames.{frame_in, free_in, scope_in, way_of_step, has_extent, has_node, has_nodes};

use crate::before::{Before, Passed, was_set};
use crate::kinds::{StepKind, both, extent_of, is_extent, is_gone_down, is_i32, is_of};
use crate::settings::Target;
use crate::typing::{Typing, is_set_once};
use sg_words::Ty;

impl Typing<'_> {
    /// Whether a register is set.
    pub(crate) fn is_set(&self, before: &Before, r: u32) -> bool
        ensures { result ≡ (scope_in self.now before.now).regs r }
    {
        was_set(before, Target::Reg(r))
    }

    /// The type of a register that may be there.
    pub(crate) fn reg(&self, r: u32) -> Option<Ty>
        ensures { result ≡ slice_get self.now.regs.now r }
    {
        self.regs.get(r as usize).copied()
    }

    /// The type of a variable that may be there.
    pub(crate) fn var(&self, var: u32) -> Option<Ty>
        ensures { result ≡ slice_get self.now.vars.now var }
    {
        self.vars.get(var as usize).copied()
    }

    /// The type of a field that may be there.
    pub(crate) fn field(&self, layout: u32, field: u32) -> Option<Ty>
        ensures { result ≡ field_type_at (frame_in self.now) layout field }
    {
        match self.layouts.get(layout as usize) {
            Some(layout) => layout
                .shape()
                .fields
                .as_slice()
                .get(field as usize)
                .copied(),
            None => None,
        }
    }

    /// Whether a register may be read, as a truth value or not.
    pub(crate) fn reads(&self, before: &Before, truth: bool, r: u32) -> bool
        ensures { result ≡ reads (frame_in self.now) (scope_in self.now before.now) truth r }
    {
        both(self.is_set(before, r), is_of(truth, self.reg(r)))
    }

    /// Whether a variable may be used.
    pub(crate) fn can_use(&self, before: &Before, var: u32) -> bool
        ensures { result ≡ (scope_in self.now before.now).vars var }
    {
        self.is_free(var) || was_set(before, Target::Var(u64::from(var)))
    }

    /// Whether this is a variable of the kernel's loop.
    pub(crate) fn is_free(&self, var: u32) -> bool
        ensures { result ≡ free_in self.now var }
    {
        if var == 0 {
            self.a
        } else if var == 1 {
            self.b
        } else if var == 2 {
            self.c
        } else {
            false
        }
    }

    /// Whether this may be the variable of a `for`.
    pub(crate) fn is_loop_var(&self, var: u32) -> bool
        ensures { result ≡ (holds_of is_i32 (slice_get self.now.vars.now var) && (setters_in self.now.body.now var == 1)) }
    {
        both(
            is_i32(self.var(var)),
            is_set_once(self.body, u64::from(var)),
        )
    }

    /// Whether index registers may be read, one for each axis of a layout.
    pub(crate) fn indexes(&self, before: &Before, layout: u32, index: &[u32]) -> bool
        ensures { result ≡ holds_of (λ shape. indexes (frame_in self.now) (scope_in self.now before.now) shape index.now) (slice_get self.now.layouts.now layout) }
    {
        match self.layouts.get(layout as usize) {
            Some(layout) => {
                both(
                    index.len() == layout.shape().axes as usize,
                    self.all_read(before, index),
                )
            }
            None => false,
        }
    }

    /// Whether registers may be read, none as a truth value.
    pub(crate) fn all_read(&self, before: &Before, index: &[u32]) -> bool
        ensures { result ≡ list_all (reads (frame_in self.now) (scope_in self.now before.now) false) index.now }
    {
        for r in index {
            if !self.reads(before, false, *r) {
                return false;
            }
        }
        true
    }

    /// Whether a place may be checked on an axis against this extent.
    pub(crate) fn is_checkable(&self, place: Option<Passed>, axis: u32, extent: u32) -> bool
        ensures { result ≡ holds_of (checkable (frame_in self.now) axis extent) (known_by_check place) }
    {
        match place {
            Some(place) => both(
                place.passed == 0,
                self.has_extent(place.layout, axis, extent),
            ),
            None => false,
        }
    }

    /// Whether an axis of a layout has this extent.
    pub(crate) fn has_extent(&self, layout: u32, axis: u32, extent: u32) -> bool
        ensures { result ≡ has_extent self.now.layouts.now layout axis extent }
    {
        match self.layouts.get(layout as usize) {
            Some(layout) => {
                both(
                    axis < layout.shape().axes,
                    is_extent(extent_of(layout, axis), extent),
                )
            }
            None => false,
        }
    }

    /// Whether a node is the first that a place hasn't passed, and of the right kind.
    pub(crate) fn descends(&self, place: Option<Passed>, step: StepKind, node: u32) -> bool
        ensures { result ≡ holds_of (descends (frame_in self.now) (way_of_step step) node) (known_by_check place) }
    {
        match place {
            Some(place) => {
                both(
                    u64::from(node) == u64::from(place.passed) + 1,
                    self.has_node(place.layout, step, node),
                )
            }
            None => false,
        }
    }

    /// Whether a layout has a node with this number, from 1, of the kind that is gone down so.
    pub(crate) fn has_node(&self, layout: u32, step: StepKind, node: u32) -> bool
        ensures { result ≡ has_node self.now.layouts.now layout (way_of_step step) node }
    {
        match self.layouts.get(layout as usize) {
            Some(layout) => is_gone_down(layout.shape().nodes.as_slice(), step, node),
            None => false,
        }
    }

    /// Whether a place is at a cell of a layout.
    pub(crate) fn is_cell(&self, place: Option<Passed>, layout: u32) -> bool
        ensures { result ≡ holds_of (is_cell (frame_in self.now) layout) (known_by_check place) }
    {
        match place {
            Some(place) => both(place.layout == layout, self.has_nodes(layout, place.passed)),
            None => false,
        }
    }

    /// Whether a layout has this many nodes.
    pub(crate) fn has_nodes(&self, layout: u32, nodes: u32) -> bool
        ensures { result ≡ has_nodes self.now.layouts.now layout nodes }
    {
        match self.layouts.get(layout as usize) {
            Some(layout) => nodes as usize == layout.shape().nodes.len(),
            None => false,
        }
    }
}
