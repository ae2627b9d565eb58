//! What stands before a point of code, and what of it may be used there.
ghost use Rattle.std.specs.Prelude.{◌≡◌, MatchOption, false, Some};
ghost use Rattle.std.specs.List.{list_any};
ghost use Rattle.sg_ir.specs.steps.Targets.{leaves, is_setting, set_name_of};
ghost use Rattle.sg_ir.specs.steps.Scopes.{IsLast, origin, places_after, set_before, places_before};
ghost use Rattle.sg_ir.specs.declared.before.Origin.{Origin};

use crate::code::Inst;
use crate::settings::{Target, left_by};

/// What stands before a point of code.
#[derive(Drop)]
pub enum Before<'a> {
    /// Nothing: the code begins there.
    Start,
    /// These instructions of the same block, after what stands before the block.
    Block {
        done: &'a [Inst],
        outer: &'a Before<'a>,
    },
    /// The head of a `for` with this variable, whose body it is.
    Loop {
        var: u32,
        outer: &'a Before<'a>,
    },
}

/// Whether this was set before, in the same block or one round it.
pub(crate) fn was_set(before: &Before, what: Target) -> bool
    ensures { result ≡ set_before what before.now }
{
    match before {
        Before::Start => false,
        Before::Block { done, outer } => sets(*done, what) || was_set(*outer, what),
        Before::Loop { var, outer } => is_same(Target::Var(u64::from(*var)), what)
            || was_set(*outer, what),
    }
}

fn is_same(one: Target, what: Target) -> bool
    ensures { result ≡ is_setting what (set_name_of one) }
{
    one == what
}

/// Whether this is set after one of these instructions.
fn sets(done: &[Inst], what: Target) -> bool
    ensures { result ≡ list_any (leaves what) done.now }
{
    last_setter(done, what).is_some()
}

/// The index of the last instruction after which this is set.
fn last_setter(done: &[Inst], what: Target) -> Option<usize>
    ensures { MatchOption result (list_any (leaves what) done.now ≡ false) (λ at. IsLast what done.now at) }
{
    for back in 0..done.len() {
        let at = done.len() - 1 - back;
        if leaves(&done[at], what) {
            return Some(at);
        }
    }
    None
}

/// Whether this is set after an instruction.
fn leaves(inst: &Inst, what: Target) -> bool
    ensures { result ≡ leaves what inst.now }
{
    match left_by(inst) {
        Some(left) => is_same(left, what),
        None => false,
    }
}

/// What is known of a place: its layout, and how many nodes it has passed.
#[derive(Clone, Copy, Debug, PartialEq, Eq)]
pub struct Passed {
    pub layout: u32,
    pub passed: u32,
}

/// Where a place comes from: a layout's root, or another place, and how many nodes it has passed then.
#[derive(Clone, Copy, Debug, PartialEq, Eq)]
pub enum Origin {
    Root { layout: u32 },
    Place { place: u32, passed: u32 },
}

/// What is known of a place that was set before, in the same block or one round it.
#[cycle(passed)]
pub(crate) fn passed_by(before: &Before, place: u32) -> Option<Passed>
    ensures { result ≡ places_before before.now place }
{
    match before {
        Before::Start => None,
        Before::Block { done, outer } => passed_in(*done, *outer, place),
        Before::Loop { var: _var, outer } => passed_by(*outer, place),
    }
}

/// What is known of a place that these instructions set, or those before their block.
#[cycle(passed)]
fn passed_in(done: &[Inst], outer: &Before, place: u32) -> Option<Passed>
    ensures { result ≡ places_after (places_before outer.now) done.now place }
{
    let Some(at) = last_setter(done, Target::Place(place)) else {
        return passed_by(outer, place);
    };
    let earlier = &done[..at];
    match origin_of(&done[at]) {
        Some(Origin::Root { layout }) => Some(Passed { layout, passed: 0 }),
        Some(
            Origin::Place {
                place: from,
                passed,
            },
        ) => {
            match passed_in(earlier, outer, from) {
                Some(known) => {
                    Some(Passed {
                        layout: known.layout,
                        passed,
                    })
                }
                None => passed_in(earlier, outer, place),
            }
        }
        None => passed_in(earlier, outer, place),
    }
}

/// Where the place comes from that an instruction sets.
fn origin_of(inst: &Inst) -> Option<Origin>
    ensures { result ≡ origin inst.now }
{
    match inst {
        Inst::Root { to: _to, layout } => Some(Origin::Root { layout: *layout }),
        Inst::Check {
            to: _to,
            place,
            axis: _axis,
            extent: _extent,
            index: _index,
        } => {
            Some(Origin::Place {
                place: *place,
                passed: 0,
            })
        }
        Inst::Child {
            to: _to,
            place,
            node,
            offset: _offset,
        } => from_place(*place, *node),
        Inst::HashChild {
            to: _to,
            place,
            node,
            offset: _offset,
        } => from_place(*place, *node),
        Inst::MaskBit {
            to: _to,
            place,
            node,
            offset: _offset,
        } => from_place(*place, *node),
        Inst::DynCell {
            to: _to,
            place,
            node,
            offset: _offset,
        } => from_place(*place, *node),
        _ => None,
    }
}

fn from_place(place: u32, passed: u32) -> Option<Origin>
    ensures { result ≡ Some (Origin.Place place passed) }
{
    Some(Origin::Place { place, passed })
}
