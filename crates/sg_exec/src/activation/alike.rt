//! Whether a slice wants the same at all points.

ghost use Rattle.std.specs.Prelude.{◌≡◌, false};
ghost use Rattle.sg_exec.specs.steps.Alike.{reads_point, BlockIsAlike, InstIsAlike};

use sg_ir::Inst;

/// How many variables may be those of a point: as many as a coordinate may have parts.
const POINT_PARTS: u32 = 3;

/// Whether something in a block reads a variable of the point, or the point's own cell. Where the answer is no, it wants the same at all points.
#[cycle(reading)]
pub(crate) fn block_reads_point(block: &[Inst]) -> bool
    ensures { result ≡ false → BlockIsAlike block.now }
{
    for inst in block {
        if inst_reads_point(inst) {
            return true;
        }
    }
    false
}

/// The same of one instruction.
#[cycle(reading)]
fn inst_reads_point(inst: &Inst) -> bool
    ensures { result ≡ false → InstIsAlike inst.now }
{
    match inst {
        Inst::If {
            cond: _cond,
            yes,
            no,
        } => { block_reads_point(yes.as_slice()) || block_reads_point(no.as_slice()) }
        Inst::For {
            var: _var,
            lo: _lo,
            hi: _hi,
            body,
        } => block_reads_point(body.as_slice()),
        _ => reads_point(inst),
    }
}

/// Whether an instruction reads a variable of the point, or its own cell, or has a block that may.
fn reads_point(inst: &Inst) -> bool
    ensures { result ≡ reads_point inst.now }
{
    match inst {
        Inst::Var { to: _to, var } => *var < POINT_PARTS,
        Inst::OwnRead { .. } => true,
        Inst::If { .. } => true,
        Inst::For { .. } => true,
        _ => false,
    }
}
