//! The instructions of operations and steps.
ghost use Rattle.std.specs.Prelude.{◌≡◌, ◌∷◌, [], List};
ghost use Rattle.sg_words.specs.declared.operators.Ty.{Ty};
ghost use Rattle.sg_ir.specs.Blocks.{Block, Spot, link};
ghost use Rattle.sg_simplify.specs.steps.Pass.{set_word};
ghost use Rattle.sg_simplify.specs.steps.Made.{TruthIs};

use sg_ir::{Descent, Inst, Op, Step};
use sg_words::Items;

/// The instruction that sets a register to an operation.
pub(crate) fn word_inst(to: u32, op: Op, index: Items<u32>) -> Inst
    ensures { (regs : List Ty) → TruthIs regs to op → (rest : Block) → link regs result rest ≡ set_word to op index rest }
{
    match op {
        Op::Const {
            word,
            truth: _truth,
        } => Inst::Const { to, word },
        Op::Var { var } => Inst::Var { to, var },
        Op::Bin { op, ty, a, b } => Inst::Bin { to, op, ty, a, b },
        Op::Un { op, ty, a } => Inst::Un { to, op, ty, a },
        Op::Mulq { a, b, s } => Inst::Mulq { to, a, b, s },
        Op::Extract { div, size, from } => Inst::Extract {
            to,
            div,
            size,
            from,
        },
        Op::Offset { high, size, low } => Inst::Offset {
            to,
            high,
            size,
            low,
        },
        Op::Read {
            place,
            layout,
            field,
        } => Inst::ReadCell {
            to,
            place,
            layout,
            field,
            index,
        },
        Op::Active { place } => Inst::IsActive { to, place, index },
        Op::OwnRead { layout, field } => Inst::OwnRead { to, layout, field },
    }
}

/// The instruction that sets a place to a step.
pub(crate) fn step_inst(to: u32, step: Step) -> Inst
    ensures { (regs : List Ty) → (rest : Block) → link regs result rest ≡ Spot to step rest }
{
    match step {
        Step::Root { layout } => Inst::Root { to, layout },
        Step::Check {
            place,
            axis,
            extent,
            index,
        } => Inst::Check {
            to,
            place,
            axis,
            extent,
            index,
        },
        Step::Down {
            descent,
            place,
            node,
            offset,
        } => match descent {
            Descent::Child => Inst::Child {
                to,
                place,
                node,
                offset,
            },
            Descent::HashChild => Inst::HashChild {
                to,
                place,
                node,
                offset,
            },
            Descent::MaskBit => Inst::MaskBit {
                to,
                place,
                node,
                offset,
            },
            Descent::DynCell => Inst::DynCell {
                to,
                place,
                node,
                offset,
            },
        },
    }
}
