ghost use Rattle.std.specs.Prelude.{◌≡◌};
ghost use Rattle.std.specs.List.{list_any};
ghost use Rattle.sg_types.specs.Values as values;
ghost use Rattle.sg_types.specs.Written as written;
ghost use Rattle.sg_flat.specs.declared.effects.Way.TheVariants.{Acc};
ghost use Rattle.sg_admit.specs.Rules as rules;
ghost use Rattle.sg_admit.specs.Rules.{is_of_field};

use sg_flat::Way;
use sg_words::AccOp;

/// A field, by its layout and its place there, and a way in which a kernel writes it.
#[derive(Clone, Copy, Debug, PartialEq, Eq)]
pub struct FieldWay {
    pub layout: u32,
    pub place: u32,
    pub way: Way,
}

impl FieldWay {
    pub(crate) fn is_of(&self, layout: u32, place: u32) -> bool
        ensures { result ≡ is_of_field layout place self.now }
    {
        self.layout == layout && self.place == place
    }
}

/// Whether a field is written.
pub(crate) fn is_noted(ways: &[FieldWay], layout: u32, place: u32) -> bool
    ensures { result ≡ list_any (is_of_field layout place) ways.now }
{
    ways.iter().any(|it| it.is_of(layout, place))
}

/// Whether a field is own-written.
pub(crate) fn has_own(ways: &[FieldWay], layout: u32, place: u32) -> bool
    ensures { result ≡ rules.has_own ways.now layout place }
{
    ways.iter()
        .any(|it| it.is_of(layout, place) && is_own(it.way))
}

/// Whether a field is accumulated.
pub(crate) fn has_acc(ways: &[FieldWay], layout: u32, place: u32) -> bool
    ensures { result ≡ rules.has_acc ways.now layout place }
{
    ways.iter()
        .any(|it| it.is_of(layout, place) && !is_own(it.way))
}

pub(crate) fn is_own(way: Way) -> bool
    ensures { result ≡ values.is_own way }
{
    match way {
        Way::Own => true,
        Way::Acc(_) => false,
    }
}

pub(crate) fn same_way(x: Way, y: Way) -> bool
    ensures { result ≡ written.same_way x y }
{
    match x {
        Way::Own => is_own(y),
        Way::Acc(op) => accumulates(op, y),
    }
}

fn accumulates(op: AccOp, way: Way) -> bool
    ensures { result ≡ written.same_way (Acc op) way }
{
    match way {
        Way::Own => false,
        Way::Acc(other) => same_op(op, other),
    }
}

fn same_op(x: AccOp, y: AccOp) -> bool
    ensures { result ≡ written.same_acc x y }
{
    match x {
        AccOp::Add => matches!(y, AccOp::Add),
        AccOp::Min => matches!(y, AccOp::Min),
        AccOp::Max => matches!(y, AccOp::Max),
        AccOp::Or => matches!(y, AccOp::Or),
        AccOp::And => matches!(y, AccOp::And),
        AccOp::Xor => matches!(y, AccOp::Xor),
    }
}
