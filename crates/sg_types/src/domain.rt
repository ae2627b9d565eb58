//! The loops of kernels: their variables and what they go over.

ghost use Rattle.std.specs.Prelude.{◌≡◌, map, IfOk};
ghost use Rattle.std.specs.List.{list_all, list_any};
ghost use Rattle.sg_words.specs.Answers.{Answers};
ghost use Rattle.sg_ast.specs.Token as tokens;
ghost use Rattle.sg_names.specs.Names as repeats;
ghost use Rattle.sg_types.specs.Expressions.{all_some, equals_some};
ghost use Rattle.sg_types.specs.Statements as stmts;
ghost use Rattle.sg_types.specs.Programs as spec;
ghost use Rattle.sg_types.specs.steps.Views.{known_view};

use crate::fault::TypeFault;
use crate::known::Known;
use crate::scope::Scope;
use crate::typed::{TypedDomain, TypedRange};
use crate::wrongs::Wrongs;
use sg_ast::{DomainDecl, KernelDecl, Name, RangeDecl};
use sg_words::{Items, Memory, Stop};

impl<'a> Known<'a> {
    /// The loop of a kernel, which is statement 0.
    pub fn loop_part(&self, kernel: &KernelDecl) -> Result<TypedDomain, Stop<TypeFault>>
        ensures { Answers result
            (stmts.stmt_fault (known_view self.now) 0 (spec.loop_part (known_view self.now) kernel.now)) }
    {
        let vars = kernel.vars.as_slice();
        let typed = self.typed_domain(&kernel.domain)?;
        let wrongs = Wrongs {
            unknown: !self.knows_domain(&kernel.domain),
            twice: has_repeat(vars) || self.any_earlier(vars),
            fixed: false,
            miscounted: !self.counts_domain(vars.len(), &kernel.domain),
        };
        self.judge(0, wrongs, typed)
    }

    fn any_earlier(&self, names: &[Name]) -> bool
        ensures { result ≡ spec.any_earlier (known_view self.now) names.now }
    {
        for name in names {
            if self.earlier_constant(name).is_some() {
                return true;
            }
        }
        false
    }

    fn knows_domain(&self, domain: &DomainDecl) -> bool
        ensures { result ≡ spec.knows_domain (known_view self.now) domain.now }
    {
        match domain {
            DomainDecl::Layout(name) => self.names.layout(name).is_some(),
            DomainDecl::Ranges(ranges) => {
                self.knows_ranges(&Scope::new(self.alloc), ranges.as_slice())
            }
        }
    }

    fn knows_ranges(&self, scope: &Scope, ranges: &[RangeDecl]) -> bool
        ensures { result ≡ list_all (stmts.knows_range (known_view self.now) scope.now) ranges.now }
    {
        for range in ranges {
            if !self.knows_range(scope, range) {
                return false;
            }
        }
        true
    }

    fn counts_domain(&self, vars: usize, domain: &DomainDecl) -> bool
        ensures { result ≡ spec.counts_domain (known_view self.now) vars domain.now }
    {
        match domain {
            DomainDecl::Layout(name) => self.layout_has_axes(name, vars),
            DomainDecl::Ranges(ranges) => {
                ranges.len() == vars && self.counts_ranges(ranges.as_slice())
            }
        }
    }

    fn layout_has_axes(&self, layout: &Name, count: usize) -> bool
        ensures { result ≡ equals_some (spec.layout_axes self.now.names.now layout.now) count }
    {
        match self.names.layout(layout) {
            Some(number) => self.names.axes(number) as usize == count,
            None => false,
        }
    }

    fn counts_ranges(&self, ranges: &[RangeDecl]) -> bool
        ensures { result ≡ list_all (stmts.counts_range (known_view self.now)) ranges.now }
    {
        for range in ranges {
            if !self.counts_range(range) {
                return false;
            }
        }
        true
    }

    fn typed_domain(&self, domain: &DomainDecl) -> Result<Option<TypedDomain>, Memory>
        ensures { IfOk result (λ typed. typed ≡ spec.typed_domain (known_view self.now) domain.now) }
    {
        match domain {
            DomainDecl::Layout(name) => match self.names.layout(name) {
                Some(number) => Ok(Some(TypedDomain::Walk(number))),
                None => Ok(None),
            },
            DomainDecl::Ranges(ranges) => {
                match self.typed_ranges(&Scope::new(self.alloc), ranges.as_slice())? {
                    Some(typed) => Ok(Some(TypedDomain::Ranges(typed))),
                    None => Ok(None),
                }
            }
        }
    }

    fn typed_ranges(
        &self,
        scope: &Scope,
        ranges: &[RangeDecl],
    ) -> Result<Option<Items<TypedRange>>, Memory>
        ensures { IfOk result (λ typed. typed ≡
            all_some (map (stmts.typed_range (known_view self.now) scope.now) ranges.now)) }
    {
        let mut typed = Items::new(self.alloc);
        for range in ranges {
            let Some(next) = self.typed_range(scope, range)? else {
                return Ok(None);
            };
            typed.push(next)?;
        }
        Ok(Some(typed))
    }
}

/// Whether a name stands twice in a list.
fn has_repeat(names: &[Name]) -> bool
    ensures { result ≡ repeats.has_repeat names.now }
{
    match names {
        [] => false,
        [first, rest @ ..] => has_name(rest, first) || has_repeat(rest),
    }
}

fn has_name(names: &[Name], name: &Name) -> bool
    ensures { result ≡ list_any (tokens.same_name name.now) names.now }
{
    for other in names {
        if name.is(other) {
            return true;
        }
    }
    false
}
