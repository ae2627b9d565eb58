//! The first statement that breaks a rule, and the smallest rule that it breaks.

ghost use Rattle.std.specs.Prelude.{◌≡◌, ◌≤◌, ◌∷◌, [], true, not, ◌&&◌, ◌||◌, map};
ghost use Rattle.std.specs.List.{list_all};
ghost use Rattle.sg_admit.specs.declared.faults.Reading.TheVariants as looks;
ghost use Rattle.sg_admit.specs.Limits.{most_loop_turns};
ghost use Rattle.sg_admit.specs.Lines.{Around, Writes, Opens, line_of, nothing_round, domain_ranges, stmt_lines, block_lines, kernel_lines};
ghost use Rattle.sg_admit.specs.Clean.{is_clean};
ghost use Rattle.sg_admit.specs.Bounds.{is_constant_range};
ghost use Rattle.sg_types.specs.Values.{is_own as spec_is_own};
ghost use Rattle.sg_admit.specs.Slices.{may_activate};
ghost use Rattle.sg_admit.specs.Rules.{has_good_asks, has_good_reads, is_first, is_unwritten, name_of, are_names as spec_are_names};
ghost use Rattle.sg_admit.specs.Admission.{first_broken, line_fault, first_fault};
ghost use Rattle.sg_admit.specs.steps.Marked.{unclean_of, marked_facts};
ghost use Rattle.sg_admit.specs.steps.Reading.{IsRound, good_by, is_askable_range, is_good_range};

use crate::admitted::AdmitFault;
use crate::bounds::{are_constant, turns_of, turns_within};
use crate::marks::Marks;
use crate::neutral::are_names;
use crate::ways::{is_own, same_way};
use sg_flat::Way;
use sg_types::{Form, TypedDomain, TypedExpr, TypedKernel, TypedKind, TypedRange, TypedStmt};

/// The fields whose reads a rule looks at: those that the kernel own-writes, or those that it accumulates.
#[derive(Clone, Copy)]
pub(crate) enum Reading {
    Own,
    Accumulated,
}

impl Marks {
    /// Whether a read is good by the rule, where it is known whether its indices are the loop's variables.
    fn is_good(&self, reading: Reading, layout: u32, place: u32, named: bool) -> bool
        ensures { result ≡ good_by (marked_facts self.now) reading layout place named }
    {
        match reading {
            Reading::Own => !self.has_own(layout, place) || named,
            Reading::Accumulated => !self.has_acc(layout, place),
        }
    }

    #[cycle(good)]
    fn good_reads(&self, reading: Reading, expr: &TypedExpr) -> bool
        ensures { result ≡ has_good_reads self.now.vars (good_by (marked_facts self.now) reading) expr.now }
    {
        match &expr.form {
            Form::Literal(_word) => true,
            Form::Constant(_word) => true,
            Form::Var(_var) => true,
            Form::Read {
                layout,
                place,
                index,
            } => {
                let named = are_names(self.vars, index.as_slice());
                self.is_good(reading, *layout, *place, named)
                    && self.all_good(reading, index.as_slice())
            }
            Form::Paren(inner) => self.good_reads(reading, inner.get()),
            Form::Un { op: _op, of } => self.good_reads(reading, of.get()),
            Form::Bin {
                op: _op,
                left,
                right,
            } => self.good_reads(reading, left.get()) && self.good_reads(reading, right.get()),
            Form::Mulq { a, b, s } => {
                self.good_reads(reading, a.get())
                    && (self.good_reads(reading, b.get()) && self.good_reads(reading, s.get()))
            }
            Form::Convert(inner) => self.good_reads(reading, inner.get()),
            Form::Active {
                layout: _layout,
                index,
            } => self.all_good(reading, index.as_slice()),
        }
    }

    #[cycle(good)]
    fn all_good(&self, reading: Reading, exprs: &[TypedExpr]) -> bool
        ensures { result ≡ list_all (has_good_reads self.now.vars (good_by (marked_facts self.now) reading)) exprs.now }
    {
        for expr in exprs {
            if !self.good_reads(reading, expr) {
                return false;
            }
        }
        true
    }

    /// The fault of a `let`, an assignment or an `if` with this expression.
    fn expr_fault(&self, number: u32, expr: &TypedExpr) -> Option<AdmitFault>
        ensures { result ≡ first_broken number 1 (true
            ∷ has_good_reads self.now.vars (good_by (marked_facts self.now) looks.Own) expr.now
            ∷ has_good_reads self.now.vars (good_by (marked_facts self.now) looks.Accumulated) expr.now
            ∷ true ∷ true
            ∷ has_good_asks (is_unwritten (marked_facts self.now)) expr.now ∷ []) }
    {
        let own = self.good_reads(Reading::Own, expr);
        let acc = self.good_reads(Reading::Accumulated, expr);
        let unwritten = self.asks_unwritten(expr);
        broken(number, true, own, acc, true, true, unwritten)
    }

    /// Whether a write is in the way in which its field is written first.
    fn keeps_way(&self, layout: u32, place: u32, way: Way) -> bool
        ensures { result ≡ is_first ((marked_facts self.now).first layout place) way }
    {
        match self.first_way(layout, place) {
            Some(first) => same_way(first, way),
            None => true,
        }
    }

    fn is_in_place(&self, way: Way, index: &[TypedExpr]) -> bool
        ensures { result ≡ (not (spec_is_own way) || spec_are_names self.now.vars 0 (map name_of index.now)) }
    {
        !is_own(way) || are_names(self.vars, index)
    }

    fn is_good_write(&self, reading: Reading, index: &[TypedExpr], value: &TypedExpr) -> bool
        ensures { result ≡ (list_all (has_good_reads self.now.vars (good_by (marked_facts self.now) reading)) index.now
            && has_good_reads self.now.vars (good_by (marked_facts self.now) reading) value.now) }
    {
        self.all_good(reading, index) && self.good_reads(reading, value)
    }

    fn is_own_good(&self, way: Way, index: &[TypedExpr], value: &TypedExpr) -> bool
        ensures { result ≡ ((not (spec_is_own way) || spec_are_names self.now.vars 0 (map name_of index.now))
            && (list_all (has_good_reads self.now.vars (good_by (marked_facts self.now) looks.Own)) index.now
            && has_good_reads self.now.vars (good_by (marked_facts self.now) looks.Own) value.now)) }
    {
        self.is_in_place(way, index) && self.is_good_write(Reading::Own, index, value)
    }

    fn is_foreseen(&self, layout: u32, way: Way, index: &[TypedExpr], clean: bool) -> bool
        ensures { result ≡ (not (may_activate self.now.walked layout way)
            || (list_all (is_clean (unclean_of self.now)) index.now && clean)) }
    {
        !self.may_activate(layout, way) || (self.all_clean(index) && clean)
    }

    /// Whether the conditions round what stands in an `if` are clean, where it is known of those round the `if`.
    fn is_clean_within(&self, condition: &TypedExpr, clean: bool) -> bool
        ensures { result ≡ (is_clean (unclean_of self.now) condition.now && clean) }
    {
        self.is_clean(condition) && clean
    }

    /// The fault of a write, where it is known whether all conditions round it are clean.
    fn write_fault(
        &self,
        number: u32,
        layout: u32,
        place: u32,
        index: &[TypedExpr],
        way: Way,
        value: &TypedExpr,
        clean: bool,
    ) -> Option<AdmitFault>
        ensures { (around : Around) → list_all (is_clean (unclean_of self.now)) around.conditions ≡ clean
            → result ≡ line_fault (marked_facts self.now) (line_of number around (Writes layout place index.now way value.now)) }
    {
        let one_way = self.keeps_way(layout, place, way);
        let own = self.is_own_good(way, index, value);
        let acc = self.is_good_write(Reading::Accumulated, index, value);
        let foreseen = self.is_foreseen(layout, way, index, clean);
        let unwritten = self.is_askable_write(index, value);
        broken(number, one_way, own, acc, foreseen, true, unwritten)
    }

    fn is_good_range(&self, reading: Reading, range: &TypedRange) -> bool
        ensures { result ≡ is_good_range self.now.vars (good_by (marked_facts self.now) reading) range.now }
    {
        self.good_reads(reading, &range.lo) && self.good_reads(reading, &range.hi)
    }

    fn are_good_ranges(&self, reading: Reading, ranges: &[TypedRange]) -> bool
        ensures { result ≡ list_all (is_good_range self.now.vars (good_by (marked_facts self.now) reading)) ranges.now }
    {
        for range in ranges {
            if !self.is_good_range(reading, range) {
                return false;
            }
        }
        true
    }

    /// The fault of an inner loop, where it is known whether it is bounded.
    fn range_fault(&self, number: u32, range: &TypedRange, bounded: bool) -> Option<AdmitFault>
        ensures { result ≡ first_broken number 1 (true
            ∷ is_good_range self.now.vars (good_by (marked_facts self.now) looks.Own) range.now
            ∷ is_good_range self.now.vars (good_by (marked_facts self.now) looks.Accumulated) range.now
            ∷ true ∷ bounded
            ∷ is_askable_range (is_unwritten (marked_facts self.now)) range.now ∷ []) }
    {
        let own = self.is_good_range(Reading::Own, range);
        let acc = self.is_good_range(Reading::Accumulated, range);
        let unwritten = self.is_askable_range(range);
        broken(number, true, own, acc, true, bounded, unwritten)
    }

    /// The fault of the kernel's loop.
    fn ranges_fault(&self, ranges: &[TypedRange]) -> Option<AdmitFault>
        ensures { result ≡ first_broken 0 1 (true
            ∷ list_all (is_good_range self.now.vars (good_by (marked_facts self.now) looks.Own)) ranges.now
            ∷ list_all (is_good_range self.now.vars (good_by (marked_facts self.now) looks.Accumulated)) ranges.now
            ∷ true ∷ list_all is_constant_range ranges.now
            ∷ list_all (is_askable_range (is_unwritten (marked_facts self.now))) ranges.now ∷ []) }
    {
        let own = self.are_good_ranges(Reading::Own, ranges);
        let acc = self.are_good_ranges(Reading::Accumulated, ranges);
        let unwritten = self.are_askable_ranges(ranges);
        broken(0, true, own, acc, true, are_constant(ranges), unwritten)
    }
}

/// The smallest rule that isn't kept.
fn broken(
    stmt: u32,
    one_way: bool,
    own: bool,
    unaccumulated: bool,
    foreseen: bool,
    bounded: bool,
    unwritten: bool,
) -> Option<AdmitFault>
    ensures { result ≡ first_broken stmt 1 (one_way ∷ own ∷ unaccumulated ∷ foreseen ∷ bounded ∷ unwritten ∷ []) }
{
    let rule = if !one_way {
        1
    } else if !own {
        2
    } else if !unaccumulated {
        3
    } else if !foreseen {
        4
    } else if !bounded {
        5
    } else if !unwritten {
        6
    } else {
        return None;
    };
    Some(AdmitFault::Rule { stmt, rule })
}

impl Marks {
    /// The first fault of a block.
    #[cycle(faults)]
    pub fn block_fault(
        &self,
        block: &[TypedStmt],
        clean: bool,
        depth: usize,
        turns: u64,
    ) -> Option<AdmitFault>
        requires { turns ≤ most_loop_turns }
        ensures { (around : Around) → IsRound self.now clean depth turns around
            → result ≡ first_fault (marked_facts self.now) (block_lines block.now around) }
    {
        for stmt in block {
            if let Some(fault) = self.stmt_fault(stmt, clean, depth, turns) {
                return Some(fault);
            }
        }
        None
    }

    #[cycle(faults)]
    fn stmt_fault(
        &self,
        stmt: &TypedStmt,
        clean: bool,
        depth: usize,
        turns: u64,
    ) -> Option<AdmitFault>
        requires { turns ≤ most_loop_turns }
        ensures { (around : Around) → IsRound self.now clean depth turns around
            → result ≡ first_fault (marked_facts self.now) (stmt_lines stmt.now around) }
    {
        match &stmt.kind {
            TypedKind::Let { var: _var, value } => self.expr_fault(stmt.number, value),
            TypedKind::Assign { var: _var, value } => self.expr_fault(stmt.number, value),
            TypedKind::Write {
                layout,
                place,
                index,
                way,
                value,
            } => self.write_fault(
                stmt.number,
                *layout,
                *place,
                index.as_slice(),
                *way,
                value,
                clean,
            ),
            TypedKind::If {
                cond,
                yes,
                no,
                has_else: _has_else,
            } => {
                if let Some(fault) = self.expr_fault(stmt.number, cond) {
                    return Some(fault);
                }
                let inside = self.is_clean_within(cond, clean);
                if let Some(fault) = self.block_fault(yes.as_slice(), inside, depth, turns) {
                    return Some(fault);
                }
                self.block_fault(no.as_slice(), inside, depth, turns)
            }
            TypedKind::For {
                var: _var,
                range,
                body,
            } => {
                let inside = turns_within(depth, turns, turns_of(range));
                if let Some(fault) = self.range_fault(stmt.number, range, inside.is_some()) {
                    return Some(fault);
                }
                match inside {
                    Some(product) => self.block_fault(body.as_slice(), clean, depth + 1, product),
                    None => None,
                }
            }
        }
    }

    fn domain_fault(&self, domain: &TypedDomain) -> Option<AdmitFault>
        ensures { result ≡ line_fault (marked_facts self.now) (line_of 0 nothing_round (Opens (domain_ranges domain.now))) }
    {
        match domain {
            TypedDomain::Walk(_layout) => None,
            TypedDomain::Ranges(ranges) => self.ranges_fault(ranges.as_slice()),
        }
    }

    /// The first fault of a kernel.
    pub fn kernel_fault(&self, kernel: &TypedKernel) -> Option<AdmitFault>
        ensures { result ≡ first_fault (marked_facts self.now) (kernel_lines kernel.now) }
    {
        match self.domain_fault(&kernel.domain) {
            Some(fault) => Some(fault),
            None => self.block_fault(kernel.body.as_slice(), true, 0, 1),
        }
    }
}
