//! What instructions set: registers, places and variables, by number.
ghost use Rattle.std.specs.Prelude.{◌≡◌, ◌+◌, ◌≤◌, min, OnSome, Some, true};
ghost use Rattle.std.specs.List.{list_all};
ghost use Rattle.sg_ir.specs.WellTyped.{settings};
ghost use Rattle.sg_ir.specs.steps.Targets.{left, inst_settings, settings_of, set_times, past, ascends, once_in, inst_once};

use crate::code::Inst;

/// A register, a place or a variable that is set.
#[derive(Clone, Copy, Debug, PartialEq, Eq)]
pub enum Target {
    Reg(u32),
    Place(u32),
    Var(u64),
}

/// What is set after an instruction: nothing after a block of its own.
pub(crate) fn left_by(inst: &Inst) -> Option<Target>
    ensures { result ≡ left inst.now }
{
    match inst {
        Inst::Const { to, word: _word } => Some(Target::Reg(*to)),
        Inst::Var { to, var: _var } => Some(Target::Reg(*to)),
        Inst::Set { var, from: _from } => Some(Target::Var(u64::from(*var))),
        Inst::Bin {
            to,
            op: _op,
            ty: _ty,
            a: _a,
            b: _b,
        } => Some(Target::Reg(*to)),
        Inst::Un {
            to,
            op: _op,
            ty: _ty,
            a: _a,
        } => Some(Target::Reg(*to)),
        Inst::Mulq {
            to,
            a: _a,
            b: _b,
            s: _s,
        } => Some(Target::Reg(*to)),
        Inst::Root {
            to,
            layout: _layout,
        } => Some(Target::Place(*to)),
        Inst::Check {
            to,
            place: _place,
            axis: _axis,
            extent: _extent,
            index: _index,
        } => Some(Target::Place(*to)),
        Inst::Extract {
            to,
            div: _div,
            size: _size,
            from: _from,
        } => Some(Target::Reg(*to)),
        Inst::Offset {
            to,
            high: _high,
            size: _size,
            low: _low,
        } => Some(Target::Reg(*to)),
        Inst::Child {
            to,
            place: _place,
            node: _node,
            offset: _offset,
        } => Some(Target::Place(*to)),
        Inst::HashChild {
            to,
            place: _place,
            node: _node,
            offset: _offset,
        } => Some(Target::Place(*to)),
        Inst::MaskBit {
            to,
            place: _place,
            node: _node,
            offset: _offset,
        } => Some(Target::Place(*to)),
        Inst::DynCell {
            to,
            place: _place,
            node: _node,
            offset: _offset,
        } => Some(Target::Place(*to)),
        Inst::ReadCell {
            to,
            place: _place,
            layout: _layout,
            field: _field,
            index: _index,
        } => Some(Target::Reg(*to)),
        Inst::IsActive {
            to,
            place: _place,
            index: _index,
        } => Some(Target::Reg(*to)),
        Inst::OwnRead {
            to,
            layout: _layout,
            field: _field,
        } => Some(Target::Reg(*to)),
        Inst::OwnWrite {
            layout: _layout,
            field: _field,
            from: _from,
            stmt: _stmt,
        } => None,
        Inst::Acc {
            op: _op,
            layout: _layout,
            field: _field,
            place: _place,
            from: _from,
            index: _index,
            stmt: _stmt,
        } => None,
        Inst::Want {
            layout: _layout,
            index: _index,
            stmt: _stmt,
        } => None,
        Inst::If {
            cond: _cond,
            yes: _yes,
            no: _no,
        } => None,
        Inst::For {
            var: _var,
            lo: _lo,
            hi: _hi,
            body: _body,
        } => None,
    }
}

/// How many instructions of a block, and of the blocks in it, set this: 2 stands for more too.
#[cycle(setters)]
pub(crate) fn setters(block: &[Inst], what: Target) -> u8
    ensures { result ≡ set_times what (settings block.now) }
{
    let mut count = 0;
    for inst in block {
        count = both(count, inst_setters(inst, what));
    }
    count
}

#[cycle(setters)]
fn inst_setters(inst: &Inst, what: Target) -> u8
    ensures { result ≡ set_times what (inst_settings inst.now) }
{
    match inst {
        Inst::If {
            cond: _cond,
            yes,
            no,
        } => both(setters(yes.as_slice(), what), setters(no.as_slice(), what)),
        Inst::For {
            var,
            lo: _lo,
            hi: _hi,
            body,
        } => both(
            one_if(Some(Target::Var(u64::from(*var))), what),
            setters(body.as_slice(), what),
        ),
        _ => one_if(left_by(inst), what),
    }
}

fn one_if(there: Option<Target>, what: Target) -> u8
    ensures { result ≡ set_times what (settings_of there) }
{
    match there {
        Some(there) => if there == what { 1 } else { 0 },
        None => 0,
    }
}

/// The sum of two counts, or 2 for more.
fn both(a: u8, b: u8) -> u8
    ensures { result ≡ min 2 (a + b) }
{
    a.saturating_add(b).min(2)
}

/// The numbers that no register and no place before has.
#[derive(Clone, Copy, Debug)]
pub(crate) struct Next {
    pub(crate) reg: u64,
    pub(crate) place: u64,
}

/// The numbers after a block that sets registers and places in order of their numbers, from these on. None if it doesn't.
#[cycle(ascend)]
pub(crate) fn ascend(block: &[Inst], from: Next) -> Option<Next>
    ensures { OnSome result (ascends from (settings block.now) ≡ result) }
{
    let mut next = from;
    for inst in block {
        next = ascend_inst(inst, next)?;
    }
    Some(next)
}

#[cycle(ascend)]
fn ascend_inst(inst: &Inst, from: Next) -> Option<Next>
    ensures { OnSome result (ascends from (inst_settings inst.now) ≡ result) }
{
    match inst {
        Inst::If {
            cond: _cond,
            yes,
            no,
        } => {
            let next = ascend(yes.as_slice(), from)?;
            ascend(no.as_slice(), next)
        }
        Inst::For {
            var: _var,
            lo: _lo,
            hi: _hi,
            body,
        } => ascend(body.as_slice(), from),
        _ => pass(left_by(inst), from),
    }
}

/// The numbers after what is set.
fn pass(set: Option<Target>, from: Next) -> Option<Next>
    ensures { OnSome result (ascends from (settings_of set) ≡ result) }
{
    match set {
        Some(Target::Reg(r)) => {
            Some(Next {
                reg: past(r, from.reg)?,
                place: from.place,
            })
        }
        Some(Target::Place(p)) => {
            Some(Next {
                reg: from.reg,
                place: past(p, from.place)?,
            })
        }
        Some(Target::Var(_v)) => Some(from),
        None => Some(from),
    }
}

/// The number after this one, which is to be at least the next.
fn past(number: u32, next: u64) -> Option<u64>
    ensures { result ≡ past number next }
{
    let number = u64::from(number);
    if number < next {
        None
    } else {
        Some(number + 1)
    }
}

/// Whether no register and no place that a block sets is set twice in the whole code.
#[cycle(once)]
pub(crate) fn are_once(block: &[Inst], whole: &[Inst]) -> bool
    ensures { result ≡ list_all (inst_once (settings whole.now)) block.now }
{
    for inst in block {
        if !is_once(inst, whole) {
            return false;
        }
    }
    true
}

#[cycle(once)]
fn is_once(inst: &Inst, whole: &[Inst]) -> bool
    ensures { result ≡ inst_once (settings whole.now) inst.now }
{
    match inst {
        Inst::If {
            cond: _cond,
            yes,
            no,
        } => are_once(yes.as_slice(), whole) && are_once(no.as_slice(), whole),
        Inst::For {
            var: _var,
            lo: _lo,
            hi: _hi,
            body,
        } => are_once(body.as_slice(), whole),
        _ => is_set_once(left_by(inst), whole),
    }
}

/// Whether this, if it is no variable, is set once.
fn is_set_once(set: Option<Target>, whole: &[Inst]) -> bool
    ensures { result ≡ list_all (once_in (settings whole.now)) (settings_of set) }
{
    match set {
        Some(Target::Reg(r)) => setters(whole, Target::Reg(r)) < 2,
        Some(Target::Place(p)) => setters(whole, Target::Place(p)) < 2,
        Some(Target::Var(_v)) => true,
        None => true,
    }
}
