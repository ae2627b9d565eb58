//! The domains of kernels: the walked layout, or a box.

ghost use Rattle.std.specs.Prelude.{◌≡◌, ◌<◌, ◌≤◌, ◌*◌, ◌^◌, true, length, map, get_or, nat_le};
ghost use Rattle.std.specs.List.{list_all};
ghost use Rattle.sg_types.specs.Values.{coord_of};
ghost use Rattle.sg_admit.specs.Limits.{most_box_points};
ghost use Rattle.sg_admit.specs.Lines.{domain_ranges};
ghost use Rattle.sg_admit.specs.Bounds as spec;
ghost use Rattle.sg_admit.specs.steps.Corners.{bound_of, IsCounted, corner_of};

use crate::constants::constant;
use sg_coord::Coord;
use sg_flat::Domain;
use sg_types::{TypedDomain, TypedExpr, TypedKernel, TypedRange};

/// How many points a kernel's box may have.
const MOST_POINTS: u64 = 1 << 20;

/// The walked layout, or the box of the bounds' values.
pub(crate) fn constant_domain(kernel: &TypedKernel) -> Domain
    requires counted { IsCounted kernel.now.vars kernel.now.domain }
    requires constant { list_all spec.is_constant_range (domain_ranges kernel.now.domain) ≡ true }
    ensures { result ≡ spec.constant_domain kernel.now }
{
    match &kernel.domain {
        TypedDomain::Walk(layout) => Domain::Walk { layout: *layout },
        TypedDomain::Ranges(ranges) => Domain::Range {
            lo: corner(kernel.vars, ranges.as_slice(), false),
            hi: corner(kernel.vars, ranges.as_slice(), true),
        },
    }
}

/// The lower or the upper bounds of ranges as a coordinate.
fn corner(n: u32, ranges: &[TypedRange], upper: bool) -> Coord
    requires counted { length ranges.now ≡ n }
    requires constant { list_all spec.is_constant_range ranges.now ≡ true }
    ensures { result ≡ corner_of upper ranges.now }
{
    Coord {
        n,
        a: word_at(ranges, 0, upper).cast_signed(),
        b: word_at(ranges, 1, upper).cast_signed(),
        c: word_at(ranges, 2, upper).cast_signed(),
    }
}

/// The word of a bound of the range with this number; 0 if there is none.
fn word_at(ranges: &[TypedRange], axis: usize, upper: bool) -> u32
    requires { list_all spec.is_constant_range ranges.now ≡ true }
    ensures { result ≡ get_or (map (λ range. spec.constant_word (bound_of upper range)) ranges.now) axis 0 }
{
    match ranges.get(axis) {
        Some(range) => constant(bound(range, upper)).unwrap_or(0),
        None => 0,
    }
}

fn bound(range: &TypedRange, upper: bool) -> &TypedExpr
    ensures { result.now ≡ bound_of upper range.now }
{
    if upper { &range.hi } else { &range.lo }
}

/// Whether a box has at most as many points as it may have.
pub(crate) fn is_small(domain: &Domain) -> bool
    ensures { result ≡ nat_le (spec.box_size domain.now) most_box_points }
{
    match domain {
        Domain::Walk { layout: _layout } => true,
        Domain::Range { lo, hi } => {
            let a = side(lo.n >= 1, lo.a, hi.a);
            let b = side(lo.n >= 2, lo.b, hi.b);
            let c = side(lo.n >= 3, lo.c, hi.c);
            is_small_product(a, b, c)
        }
    }
}

/// The length of one side; 1 on an axis that isn't there.
fn side(used: bool, lo: i32, hi: i32) -> u64
    ensures value { result ≡ spec.side_of used lo hi }
    ensures few { result < 2 ^ 32 }
{
    if used {
        let length = i64::from(hi) - i64::from(lo);
        if length < 0 { 0 } else { length as u64 }
    } else {
        1
    }
}

fn is_small_product(a: u64, b: u64, c: u64) -> bool
    requires a { a < 2 ^ 32 }
    requires b { b < 2 ^ 32 }
    requires c { c < 2 ^ 32 }
    ensures { result ≡ nat_le (a * (b * c)) most_box_points }
{
    if c == 0 {
        return true;
    }
    let face = a * b;
    face <= MOST_POINTS && face * c <= MOST_POINTS
}
