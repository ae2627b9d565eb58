//! Operations that give an operand again, or a constant.
ghost use Rattle.std.specs.Prelude.{◌≡◌};
ghost use Rattle.sg_simplify.specs.steps.Pass.{operand_again, plainest};
ghost use Rattle.sg_simplify.specs.steps.Made.{next_of, HasTruth};

use crate::made::Made;
use sg_ir::Op;
use sg_words::Ty;

impl Made {
    /// The operand whose word an operation gives again: the whole of a word below the size, or what 0 is added to.
    pub fn operand_again(&self, op: Op) -> Option<u32>
        ensures { result ≡ operand_again (next_of self.now) op }
    {
        match op {
            Op::Extract { div, size, from } => {
                if div == 1 && self.span(from).is_within(size) {
                    Some(from)
                } else {
                    None
                }
            }
            Op::Offset { high, size, low } => {
                if self.span(high).is_within(1) {
                    Some(low)
                } else if size == 1 && self.span(low).is_within(1) {
                    Some(high)
                } else {
                    None
                }
            }
            _ => None,
        }
    }
}

/// The operation in its plainest form: a word modulo 1 is 0.
pub(crate) fn plainest(ty: Ty, op: Op) -> Op
    ensures plain { result ≡ plainest ty op }
    ensures truth { HasTruth ty op → HasTruth ty result }
{
    match op {
        Op::Extract {
            div: _div,
            size: 1,
            from: _from,
        } => Op::Const {
            word: 0,
            truth: ty == Ty::Bool,
        },
        _ => op,
    }
}
