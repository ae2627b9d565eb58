ghost use Rattle.std.specs.Prelude.{◌≡◌, ◌+◌, ◌*◌, ◌/◌, ◌%◌, ◌^◌, ◌<◌, [], Some, true, false, IfOk, List};
ghost use Rattle.sg_words.specs.declared.operators.Ty.TheVariants as ty;
ghost use Rattle.sg_words.specs.Words.{applied, applied_un, flag, mulq_of};
ghost use Rattle.sg_layout.specs.declared.shape.Shape.{Shape};
ghost use Rattle.sg_ir.specs.declared.code.Inst.TheVariants as v;
ghost use Rattle.sg_ir.specs.Runs.{check, down, at_of, cell_value, is_active_place, own_value, named_by};
ghost use Rattle.sg_ir.specs.Emits.{AtPlace, AtRoot, Computes, Reaches, Fetches, PutsReg, PutsPlace, StandInFront};
ghost use Rattle.sg_ir.specs.StepDown.{child_inst};

use crate::code::Inst;
use crate::names::Names;
use sg_layout::Kind;
use sg_words::{BinOp, Items, Memory, Ty, UnOp};

/// A register with a word.
pub fn constant(
    names: &mut Names,
    block: &mut Items<Inst>,
    ty: Ty,
    word: u32,
) -> Result<u32, Memory>
    ensures puts { IfOk result (λ to. PutsReg ty (λ reg. v.Const reg word) to names.old names.new block.old block.new) }
    ensures small { word < 2 ^ 32 }
    ensures computes { IfOk result (λ to. (shapes : List Shape) → Computes shapes (λ seen now. word) to names.old names.new block.old block.new) }
    ensures front { StandInFront names.old names.new block.old block.new }
{
    let to = names.reg(ty)?;
    block.push(Inst::Const { to, word })?;
    Ok(to)
}

/// A register with a variable's word.
pub fn variable(names: &mut Names, block: &mut Items<Inst>, ty: Ty, var: u32) -> Result<u32, Memory>
    ensures puts { IfOk result (λ to. PutsReg ty (λ reg. v.Var reg var) to names.old names.new block.old block.new) }
    ensures computes { IfOk result (λ to. (shapes : List Shape) → Computes shapes (λ seen now. now.vars var) to names.old names.new block.old block.new) }
    ensures front { StandInFront names.old names.new block.old block.new }
{
    let to = names.reg(ty)?;
    block.push(Inst::Var { to, var })?;
    Ok(to)
}

/// A register of type `result_ty` with what an operator gives on two words in a type.
pub fn binary(
    names: &mut Names,
    block: &mut Items<Inst>,
    result_ty: Ty,
    op: BinOp,
    ty: Ty,
    a: u32,
    b: u32,
) -> Result<u32, Memory>
    ensures puts { IfOk result (λ to. PutsReg result_ty (λ reg. v.Bin reg op ty a b) to names.old names.new block.old block.new) }
    ensures computes { IfOk result (λ to. (shapes : List Shape) → Computes shapes (λ seen now. applied op ty (now.regs a) (now.regs b)) to names.old names.new block.old block.new) }
    ensures front { StandInFront names.old names.new block.old block.new }
{
    let to = names.reg(result_ty)?;
    block.push(Inst::Bin { to, op, ty, a, b })?;
    Ok(to)
}

/// A register of type `result_ty` with what an operator gives on a word in a type.
pub fn unary(
    names: &mut Names,
    block: &mut Items<Inst>,
    result_ty: Ty,
    op: UnOp,
    ty: Ty,
    a: u32,
) -> Result<u32, Memory>
    ensures puts { IfOk result (λ to. PutsReg result_ty (λ reg. v.Un reg op ty a) to names.old names.new block.old block.new) }
    ensures computes { IfOk result (λ to. (shapes : List Shape) → Computes shapes (λ seen now. applied_un op (now.regs a)) to names.old names.new block.old block.new) }
    ensures front { StandInFront names.old names.new block.old block.new }
{
    let to = names.reg(result_ty)?;
    block.push(Inst::Un { to, op, ty, a })?;
    Ok(to)
}

/// A register with the product of two words, shifted down by a third.
pub fn product(
    names: &mut Names,
    block: &mut Items<Inst>,
    a: u32,
    b: u32,
    s: u32,
) -> Result<u32, Memory>
    ensures puts { IfOk result (λ to. PutsReg ty.I32 (λ reg. v.Mulq reg a b s) to names.old names.new block.old block.new) }
    ensures computes { IfOk result (λ to. (shapes : List Shape) → Computes shapes (λ seen now. mulq_of (now.regs a) (now.regs b) (now.regs s)) to names.old names.new block.old block.new) }
    ensures front { StandInFront names.old names.new block.old block.new }
{
    let to = names.reg(Ty::I32)?;
    block.push(Inst::Mulq { to, a, b, s })?;
    Ok(to)
}

/// A register with the part of a word at a node: divided by `div`, modulo `size`.
pub fn extract(
    names: &mut Names,
    block: &mut Items<Inst>,
    div: u32,
    size: u32,
    from: u32,
) -> Result<u32, Memory>
    ensures puts { IfOk result (λ to. PutsReg ty.U32 (λ reg. v.Extract reg div size from) to names.old names.new block.old block.new) }
    ensures computes { IfOk result (λ to. (shapes : List Shape) → Computes shapes (λ seen now. now.regs from / div % size) to names.old names.new block.old block.new) }
    ensures front { StandInFront names.old names.new block.old block.new }
{
    let to = names.reg(Ty::U32)?;
    block.push(Inst::Extract {
        to,
        div,
        size,
        from,
    })?;
    Ok(to)
}

/// A register with an offset that goes on by one more axis: `high` times `size` plus `low`.
pub fn offset(
    names: &mut Names,
    block: &mut Items<Inst>,
    high: u32,
    size: u32,
    low: u32,
) -> Result<u32, Memory>
    ensures puts { IfOk result (λ to. PutsReg ty.U32 (λ reg. v.Offset reg high size low) to names.old names.new block.old block.new) }
    ensures computes { IfOk result (λ to. (shapes : List Shape) → Computes shapes (λ seen now. (now.regs high * size + now.regs low) % 2 ^ 32) to names.old names.new block.old block.new) }
    ensures front { StandInFront names.old names.new block.old block.new }
{
    let to = names.reg(Ty::U32)?;
    block.push(Inst::Offset {
        to,
        high,
        size,
        low,
    })?;
    Ok(to)
}

/// A register with the value of a field, of type `ty`, in the iteration's own cell.
pub fn own_read(
    names: &mut Names,
    block: &mut Items<Inst>,
    ty: Ty,
    layout: u32,
    field: u32,
) -> Result<u32, Memory>
    ensures puts { IfOk result (λ to. PutsReg ty (λ reg. v.OwnRead reg layout field) to names.old names.new block.old block.new) }
    ensures computes { IfOk result (λ to. (shapes : List Shape) → Computes shapes (λ seen now. own_value seen layout field now) to names.old names.new block.old block.new) }
    ensures front { StandInFront names.old names.new block.old block.new }
{
    let to = names.reg(ty)?;
    block.push(Inst::OwnRead { to, layout, field })?;
    Ok(to)
}

/// The root of a layout.
pub fn root(names: &mut Names, block: &mut Items<Inst>, layout: u32) -> Result<u32, Memory>
    ensures puts { IfOk result (λ to. PutsPlace (λ place_to. v.Root place_to layout) to names.old names.new block.old block.new) }
    ensures reaches { IfOk result (λ to. (shapes : List Shape) → Reaches shapes (λ seen now. Some (record { layout = layout; path = [] })) (AtRoot layout) to names.old names.new block.old block.new) }
    ensures front { StandInFront names.old names.new block.old block.new }
{
    let to = names.place()?;
    block.push(Inst::Root { to, layout })?;
    Ok(to)
}

/// The place, or none if the index isn't in the extent of an axis, from 0.
pub fn checked(
    names: &mut Names,
    block: &mut Items<Inst>,
    place: u32,
    axis: u32,
    extent: u32,
    index: u32,
) -> Result<u32, Memory>
    ensures puts { IfOk result (λ to. PutsPlace (λ place_to. v.Check place_to place axis extent index) to names.old names.new block.old block.new) }
    ensures reaches { IfOk result (λ to. (shapes : List Shape) → Reaches shapes (λ seen now. check extent (now.regs index) (now.places place)) (AtPlace place) to names.old names.new block.old block.new) }
    ensures front { StandInFront names.old names.new block.old block.new }
{
    let to = names.place()?;
    block.push(Inst::Check {
        to,
        place,
        axis,
        extent,
        index,
    })?;
    Ok(to)
}

/// The place one step down a node of a kind, with its number from 1, by an offset.
pub fn stepped(
    names: &mut Names,
    block: &mut Items<Inst>,
    kind: Kind,
    place: u32,
    node: u32,
    offset: u32,
) -> Result<u32, Memory>
    ensures puts { IfOk result (λ to. PutsPlace (λ place_to. child_inst kind place_to place node offset) to names.old names.new block.old block.new) }
    ensures reaches { IfOk result (λ to. (shapes : List Shape) → Reaches shapes (λ seen now. down seen.shapes node (now.regs offset) (now.places place)) (AtPlace place) to names.old names.new block.old block.new) }
    ensures front { StandInFront names.old names.new block.old block.new }
{
    let to = names.place()?;
    block.push(step(kind, to, place, node, offset))?;
    Ok(to)
}

/// The instruction for one step down a node of a kind.
fn step(kind: Kind, to: u32, place: u32, node: u32, offset: u32) -> Inst
    ensures { result ≡ child_inst kind to place node offset }
{
    match kind {
        Kind::Dense | Kind::Pointer => Inst::Child {
            to,
            place,
            node,
            offset,
        },
        Kind::Hash => Inst::HashChild {
            to,
            place,
            node,
            offset,
        },
        Kind::Bitmasked => Inst::MaskBit {
            to,
            place,
            node,
            offset,
        },
        Kind::Dynamic => Inst::DynCell {
            to,
            place,
            node,
            offset,
        },
    }
}

/// A register with the value of a field, of type `ty`, at a place, where the index registers name the coordinate that is meant.
pub fn read_cell(
    names: &mut Names,
    block: &mut Items<Inst>,
    ty: Ty,
    place: u32,
    layout: u32,
    field: u32,
    index: Items<u32>,
) -> Result<u32, Memory>
    ensures puts { IfOk result (λ to. PutsReg ty (λ reg. v.ReadCell reg place layout field index) to names.old names.new block.old block.new) }
    ensures fetches { IfOk result (λ to. (shapes : List Shape) → Fetches shapes (λ seen now. cell_value seen layout field (at_of seen.shapes (now.places place))) (λ now. record { asks = false; layout = layout; place = now.places place; at = named_by index now }) to names.old names.new block.old block.new) }
    ensures front { StandInFront names.old names.new block.old block.new }
{
    let to = names.reg(ty)?;
    block.push(Inst::ReadCell {
        to,
        place,
        layout,
        field,
        index,
    })?;
    Ok(to)
}

/// A register, of type `ty`, that tells whether a place is active, where the index registers name the coordinate that is meant.
pub fn is_active(
    names: &mut Names,
    block: &mut Items<Inst>,
    ty: Ty,
    place: u32,
    index: Items<u32>,
) -> Result<u32, Memory>
    ensures puts { IfOk result (λ to. PutsReg ty (λ reg. v.IsActive reg place index) to names.old names.new block.old block.new) }
    ensures fetches { IfOk result (λ to. (shapes : List Shape) → Fetches shapes (λ seen now. flag (is_active_place seen (at_of seen.shapes (now.places place)) (now.places place))) (λ now. record { asks = true; layout = now.roots place; place = now.places place; at = named_by index now }) to names.old names.new block.old block.new) }
    ensures front { StandInFront names.old names.new block.old block.new }
{
    let to = names.reg(ty)?;
    block.push(Inst::IsActive { to, place, index })?;
    Ok(to)
}
