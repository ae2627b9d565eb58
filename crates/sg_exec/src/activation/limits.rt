//! The greatest words that registers and variables of a slice may have, and whether by these all that it wants is inside layouts of
//! dense nodes, where everything is active.

ghost use Rattle.std.specs.Prelude.{◌≡◌, ◌<◌, ℕ, false, true, get_or, length, map};
ghost use Rattle.sg_coord.specs.Bounds.{bounds_of};
ghost use Rattle.sg_exec.specs.steps.Limiting.{most_of, binds, sets_past, BlockIsLimited, InstIsLimited, IsUpTo, StartsLimited, StayDense, StayInside, WantsIdle};

use crate::lanes::values::ONE_POINT;
use crate::workers::points::Most;
use sg_coord::{Extents, numbering};
use sg_ir::Inst;
use sg_layout::{dense_is_full, points_in_order};
use sg_store::laws::cells_are_active;
use sg_store::{Store, Stores};
use sg_words::Memory;
use std::alloc::Global;

/// From this word on a limit says nothing: the word may be a number below 0.
const FREE: u32 = 0x8000_0000;

/// Room for so many limits is made at once.
const FEW: usize = 64;

/// For each register, and for each variable, by its number, the greatest word that it may have. Past the end it may have any.
#[derive(Drop)]
pub struct Limits {
    pub regs: Vec<u32>,
    pub vars: Vec<u32>,
}

impl Limits {
    ghost use Rattle.std.specs.Prelude.{◌≡◌};
    ghost use Rattle.sg_exec.specs.steps.Limiting.{most_of};

    /// The greatest word of a register.
    fn reg(&self, reg: u32) -> u32
        ensures { result ≡ most_of self.now.regs.items reg }
    {
        most_of(self.regs.as_slice(), reg)
    }

    /// The greatest word of a variable.
    fn var(&self, var: u32) -> u32
        ensures { result ≡ most_of self.now.vars.items var }
    {
        most_of(self.vars.as_slice(), var)
    }
}

/// The limit with a number.
#[inline(always)]
fn most_of(limits: &[u32], number: u32) -> u32
    ensures { result ≡ most_of limits.now number }
{
    limits.get(number as usize).copied().unwrap_or(u32::MAX)
}

/// Limits for a slice whose point has parts of at most these. They are a guess, of which nothing is promised here.
pub(crate) fn limits_of(alloc: Global, most: Most, block: &[Inst]) -> Result<Limits, Memory> {
    let mut limits = Limits {
        regs: Vec::with_capacity(alloc, FEW)?,
        vars: Vec::with_capacity(alloc, FEW)?,
    };
    raise(&mut limits.vars, 0, most.a)?;
    raise(&mut limits.vars, 1, most.b)?;
    raise(&mut limits.vars, 2, most.c)?;
    // twice where there is a loop, since that may read what is set further down
    if raise_all(&mut limits, block)? {
        raise_all(&mut limits, block)?;
    }
    Ok(limits)
}

/// Raises limits to what instructions set. True if there is a loop among them.
#[cycle(raising)]
fn raise_all(limits: &mut Limits, block: &[Inst]) -> Result<bool, Memory> {
    let mut loops = false;
    for inst in block {
        if raise_by(limits, inst)? {
            loops = true;
        }
    }
    Ok(loops)
}

/// The same by one instruction.
#[cycle(raising)]
fn raise_by(limits: &mut Limits, inst: &Inst) -> Result<bool, Memory> {
    match inst {
        Inst::Set { var, from } => {
            let most = limits.reg(*from);
            raise(&mut limits.vars, *var, most)?;
            Ok(false)
        }
        Inst::If {
            cond: _cond,
            yes,
            no,
        } => {
            let loops = raise_all(limits, yes.as_slice())?;
            Ok(raise_all(limits, no.as_slice())? || loops)
        }
        Inst::For {
            var,
            lo: _lo,
            hi: _hi,
            body,
        } => {
            raise(&mut limits.vars, *var, u32::MAX)?;
            raise_all(limits, body.as_slice())?;
            Ok(true)
        }
        _ => {
            if let Some((to, most)) = word_of(limits, inst) {
                raise(&mut limits.regs, to, most)?;
            }
            Ok(false)
        }
    }
}

/// The register that an instruction sets, with the greatest word that it sets it to.
fn word_of(limits: &Limits, inst: &Inst) -> Option<(u32, u32)> {
    match inst {
        Inst::Const { to, word } => Some((*to, *word)),
        Inst::Var { to, var } => Some((*to, limits.var(*var))),
        Inst::Bin { to, .. } => Some((*to, u32::MAX)),
        Inst::Un { to, .. } => Some((*to, u32::MAX)),
        Inst::Mulq { to, .. } => Some((*to, u32::MAX)),
        Inst::Extract { to, .. } => Some((*to, u32::MAX)),
        Inst::Offset { to, .. } => Some((*to, u32::MAX)),
        Inst::ReadCell { to, .. } => Some((*to, u32::MAX)),
        Inst::IsActive { to, .. } => Some((*to, u32::MAX)),
        Inst::OwnRead { to, .. } => Some((*to, u32::MAX)),
        _ => None,
    }
}

/// Raises a limit to a word. A limit that isn't there yet is 0 before.
fn raise(limits: &mut Vec<u32>, number: u32, word: u32) -> Result<(), Memory> {
    let number = number as usize;
    for _more in limits.len()..number + 1 {
        limits.push(0)?;
    }
    if let Some(limit) = limits.get_mut(number) {
        if *limit < word {
            *limit = word;
        }
    }
    Ok(())
}

/// Whether parts of points up to these are within the limits of the first variables.
pub(crate) fn starts_limited(limits: &Limits, most: Most) -> bool
    ensures { result ≡ true → StartsLimited limits.now most }
{
    most.a <= limits.var(0) && most.b <= limits.var(1) && most.c <= limits.var(2)
}

/// Whether something in a block may set a word past its limit, or want what is outside a layout of dense nodes while words are within limits.
#[cycle(straying)]
pub(crate) fn block_strays(stores: &Stores, limits: &Limits, block: &[Inst]) -> bool
    ensures { result ≡ false → BlockIsLimited stores.now.list limits.now block.now }
{
    for inst in block {
        if inst_strays(stores, limits, inst) {
            return true;
        }
    }
    false
}

/// The same of one instruction.
#[cycle(straying)]
fn inst_strays(stores: &Stores, limits: &Limits, inst: &Inst) -> bool
    ensures { result ≡ false → InstIsLimited stores.now.list limits.now inst.now }
{
    match inst {
        Inst::Want {
            layout,
            index,
            stmt: _stmt,
        } => want_strays(stores, limits, *layout, index.as_slice()),
        Inst::If {
            cond: _cond,
            yes,
            no,
        } => {
            block_strays(stores, limits, yes.as_slice())
                || block_strays(stores, limits, no.as_slice())
        }
        Inst::For {
            var,
            lo: _lo,
            hi: _hi,
            body,
        } => binds(limits.var(*var)) || block_strays(stores, limits, body.as_slice()),
        _ => sets_past(limits, inst),
    }
}

/// Whether an instruction may set a word past its limit, or wants, or has a block that may.
fn sets_past(limits: &Limits, inst: &Inst) -> bool
    ensures { result ≡ sets_past limits.now inst.now }
{
    match inst {
        Inst::Const { to, word } => limits.reg(*to) < *word,
        Inst::Var { to, var } => limits.reg(*to) < limits.var(*var),
        Inst::Set { var, from } => limits.var(*var) < limits.reg(*from),
        Inst::Bin { to, .. } => binds(limits.reg(*to)),
        Inst::Un { to, .. } => binds(limits.reg(*to)),
        Inst::Mulq { to, .. } => binds(limits.reg(*to)),
        Inst::Extract { to, .. } => binds(limits.reg(*to)),
        Inst::Offset { to, .. } => binds(limits.reg(*to)),
        Inst::ReadCell { to, .. } => binds(limits.reg(*to)),
        Inst::IsActive { to, .. } => binds(limits.reg(*to)),
        Inst::OwnRead { to, .. } => binds(limits.reg(*to)),
        Inst::Want { .. } => true,
        Inst::If { .. } => true,
        Inst::For { .. } => true,
        _ => false,
    }
}

/// Whether a limit says something.
#[inline(always)]
fn binds(most: u32) -> bool
    ensures { result ≡ binds most }
{
    most < FREE
}

/// Whether a wanted coordinate may be outside a layout of dense nodes while words are within limits.
fn want_strays(stores: &Stores, limits: &Limits, layout: u32, index: &[u32]) -> bool
    ensures { result ≡ false → WantsIdle stores.now.list limits.now layout index.now }
{
    match stores.list.get(layout as usize) {
        Some(store) => {
            has_activity(store) || goes_outside(&store.layout().extents(), limits, index)
        }
        None => true,
    }
}

/// Whether a node of a store isn't dense.
fn has_activity(store: &Store) -> bool
    ensures { result ≡ false → StayDense store.now }
{
    // for the laws that they ensure
    cells_are_active();
    dense_is_full();
    points_in_order();
    numbering(&ONE_POINT);
    !store.layout().shape().is_dense()
}

/// Whether a coordinate may be outside while words are within limits.
fn goes_outside(extents: &Extents, limits: &Limits, index: &[u32]) -> bool
    ensures { result ≡ false → StayInside (bounds_of extents.now) limits.now index.now }
{
    // for the laws that it ensures
    numbering(extents);
    let a = most_at(limits, index, 0);
    let b = most_at(limits, index, 1);
    let c = most_at(limits, index, 2);
    if has_other_axes(index, extents) {
        return true;
    }
    if passes(a, extents.a) {
        return true;
    }
    if passes(b, extents.b) {
        return true;
    }
    passes(c, extents.c)
}

/// Whether a coordinate hasn't as many parts as there are axes.
fn has_other_axes(index: &[u32], extents: &Extents) -> bool
    ensures { result ≡ false → length index.now ≡ extents.now.n }
{
    index.len() != extents.n as usize
}

/// Whether a part may be past the last of an axis.
fn passes(most: u32, extent: u32) -> bool
    ensures { result ≡ false → most < extent }
{
    extent <= most
}

/// The greatest word of a coordinate's part, from 0; 0 past the last.
fn most_at(limits: &Limits, index: &[u32], axis: usize) -> u32
    ensures { (words : ℕ → ℕ) → ((reg : ℕ) → IsUpTo (most_of limits.now.regs.items reg) (words reg)) → IsUpTo result (get_or (map words index.now) axis 0) }
{
    match index.get(axis) {
        Some(reg) => limits.reg(*reg),
        None => 0,
    }
}
