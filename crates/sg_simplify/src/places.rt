//! The place of an access, built anew from its index registers.
ghost use Rattle.std.specs.Prelude.{◌≡◌, ◌≤◌, ◌+◌, ◌∷◌, ℕ, length, IfOk};
ghost use Rattle.sg_simplify.specs.steps.Pass.{Making, checks_made, descended, offset, offset_made, part, place_made, descent_of};
ghost use Rattle.sg_simplify.specs.steps.Made.{given_in, check_in, AreWide, Goes};

use crate::given::Given;
use crate::made::Made;
use sg_ir::place::extent_over;
use sg_ir::{Descent, Inst, Op, Step};
use sg_layout::{Kind, NodeShape, extent_in};
use sg_words::{Items, Memory, Ty};

impl Made {
    /// The place of an access by index registers: the root of its layout, after the checks of those axes where the span of the index
    /// isn't within the extent, and down all nodes.
    pub fn place(
        &mut self,
        given: &Given,
        number: u32,
        index: &[u32],
        out: &mut Items<Inst>,
    ) -> Result<u32, Memory>
        ensures { IfOk result (λ to. (go : ℕ → Making) → Goes self.old self.new out.old out.new (place_made (given_in given.now) number index.now go) (go to)) }
    {
        let Some(layout) = given.layout(number) else {
            return Ok(0);
        };
        let extents = layout.extents();
        let root = self.stepped(Step::Root { layout: number }, out)?;
        let inside = self.checked(0, &[extents.a, extents.b, extents.c], index, root, out)?;
        self.descended(
            given,
            1,
            layout.shape().nodes.as_slice(),
            index,
            inside,
            out,
        )
    }

    /// The place after the needed checks of axes with these extents, of which the first has this number.
    fn checked(
        &mut self,
        axis: u32,
        extents: &[u32],
        index: &[u32],
        place: u32,
        out: &mut Items<Inst>,
    ) -> Result<u32, Memory>
        requires few { axis + length extents.now ≤ 3 }
        ensures { IfOk result (λ to. (go : ℕ → Making) → Goes self.old self.new out.old out.new (checks_made axis extents.now index.now place go) (go to)) }
    {
        let [extent, extents @ ..] = extents else {
            return Ok(place);
        };
        let [first, rest @ ..] = index else {
            return Ok(place);
        };
        let next = self.check(axis, *extent, *first, place, out)?;
        self.checked(axis + 1, extents, rest, next, out)
    }

    /// The place after the check of an axis, where the span of the index isn't within the extent.
    fn check(
        &mut self,
        axis: u32,
        extent: u32,
        index: u32,
        place: u32,
        out: &mut Items<Inst>,
    ) -> Result<u32, Memory>
        ensures { IfOk result (λ to. (go : ℕ → Making) → Goes self.old self.new out.old out.new (check_in axis extent index place go) (go to)) }
    {
        if self.span(index).is_within(extent) {
            return Ok(place);
        }
        let step = Step::Check {
            place,
            axis,
            extent,
            index,
        };
        self.stepped(step, out)
    }

    /// The place down these nodes, of which the first has this number.
    fn descended(
        &mut self,
        given: &Given,
        number: u32,
        nodes: &[NodeShape],
        index: &[u32],
        place: u32,
        out: &mut Items<Inst>,
    ) -> Result<u32, Memory>
        requires few { number + length nodes.now ≤ 7 }
        requires wide { AreWide nodes.now }
        ensures { IfOk result (λ to. (go : ℕ → Making) → Goes self.old self.new out.old out.new (descended (given_in given.now) nodes.now number index.now place go) (go to)) }
    {
        let [node, later @ ..] = nodes else {
            return Ok(place);
        };
        let offset = self.offset(given, node, later, index, out)?;
        let step = Step::Down {
            descent: descent_of(node.kind),
            place,
            node: number,
            offset,
        };
        let next = self.stepped(step, out)?;
        self.descended(given, number + 1, later, index, next, out)
    }

    /// A register with the offset of the index words at a node.
    fn offset(
        &mut self,
        given: &Given,
        node: &NodeShape,
        later: &[NodeShape],
        index: &[u32],
        out: &mut Items<Inst>,
    ) -> Result<u32, Memory>
        requires wide { AreWide (node.now ∷ later.now) }
        ensures { IfOk result (λ to. (go : ℕ → Making) → Goes self.old self.new out.old out.new (offset (given_in given.now) node.now later.now index.now go) (go to)) }
    {
        let [first, rest @ ..] = index else {
            return Ok(0);
        };
        let high = self.part(given, node, later, 1, *first, out)?;
        self.joined(given, node, later, 2, rest, high, out)
    }

    /// A register with the offset that goes on from `high` by the axes from this one on, counted from 1.
    fn joined(
        &mut self,
        given: &Given,
        node: &NodeShape,
        later: &[NodeShape],
        axis: u32,
        index: &[u32],
        high: u32,
        out: &mut Items<Inst>,
    ) -> Result<u32, Memory>
        requires wide { AreWide (node.now ∷ later.now) }
        requires first { 1 ≤ axis }
        ensures { IfOk result (λ to. (go : ℕ → Making) → Goes self.old self.new out.old out.new (offset_made (given_in given.now) node.now later.now axis index.now high go) (go to)) }
    {
        let [first, rest @ ..] = index else {
            return Ok(high);
        };
        let low = self.part(given, node, later, axis, *first, out)?;
        let size = extent_in(node.sizes.as_slice(), axis);
        let op = Op::Offset { high, size, low };
        let next = self.taken(given, Ty::U32, op, Items::new(given.alloc), out)?;
        let Some(following) = axis.checked_add(1) else {
            return Err(Memory);
        };
        self.joined(given, node, later, following, rest, next, out)
    }

    /// A register with the part of an index word on an axis at a node.
    fn part(
        &mut self,
        given: &Given,
        node: &NodeShape,
        later: &[NodeShape],
        axis: u32,
        from: u32,
        out: &mut Items<Inst>,
    ) -> Result<u32, Memory>
        requires wide { AreWide (node.now ∷ later.now) }
        requires first { 1 ≤ axis }
        ensures { IfOk result (λ to. (go : ℕ → Making) → Goes self.old self.new out.old out.new (part (given_in given.now) node.now later.now axis from go) (go to)) }
    {
        let div = extent_over(later, axis);
        let size = extent_in(node.sizes.as_slice(), axis);
        let op = Op::Extract { div, size, from };
        self.taken(given, Ty::U32, op, Items::new(given.alloc), out)
    }
}

/// The step down a node of a kind.
fn descent_of(kind: Kind) -> Descent
    ensures { result ≡ descent_of kind }
{
    match kind {
        Kind::Dense | Kind::Pointer => Descent::Child,
        Kind::Hash => Descent::HashChild,
        Kind::Bitmasked => Descent::MaskBit,
        Kind::Dynamic => Descent::DynCell,
    }
}
