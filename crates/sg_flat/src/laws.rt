//! Laws of writes and of boxes. Each function does nothing: what it ensures is the law, for whoever reasons about runs.
ghost use Rattle.std.specs.Prelude.{ℕ, List};
ghost use Rattle.sg_coord.specs.declared.coord.Coord.{Coord};
ghost use Rattle.sg_words.specs.declared.operators.Ty.{Ty};
ghost use Rattle.sg_words.specs.declared.operators.AccOp.{AccOp};
ghost use Rattle.sg_flat.specs.declared.effects.Write.{Write};
ghost use Rattle.sg_flat.specs.Laws.{LastValueStays, ContributionsFold, BoxIsRanges, BoxIsInOrder};
ghost use Rattle.sg_flat.specs.Wants.{OutsideIsWanted, MeaningIsOfWants, UnwrittenStays};

use sg_layout::laws::{closure_members, need_grows};

/// Own writes to a cell leave the last value.
pub fn last_value_stays()
    ensures { (ty : Ty) (old : ℕ) (writes : List Write) → LastValueStays ty old writes }
{}

/// Contributions to a cell by one operator leave its fold over the old word and their values.
pub fn contributions_fold()
    ensures { (op : AccOp) (ty : Ty) (old : ℕ) (writes : List Write) → ContributionsFold op ty old writes }
{}

/// The points of a box are the coordinates in its ranges, each once, in row order.
pub fn box_in_order()
    ensures points { (lo hi : Coord) → BoxIsRanges lo hi }
    ensures in_order { (lo hi : Coord) → BoxIsInOrder lo hi }
{}

/// The first write outside is among those that pass a test, where all others are inside.
pub fn outside_is_wanted()
    ensures { OutsideIsWanted }
{}

/// Iterations that want what others write are refused alike, and leave the same active coordinates.
pub fn meaning_is_of_wants()
    ensures { MeaningIsOfWants }
{
    // for the laws that they ensure
    need_grows();
    closure_members();
}

/// A layout into which no write goes is after the run as it was.
#[tactic(auto, using(crate::proofs::Unwritten::unwritten_stays))]
pub fn unwritten_stays()
    ensures { UnwrittenStays }
{}
