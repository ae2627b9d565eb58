//! Spans: intervals of whole numbers in which the words of registers lie.
ghost use Rattle.std.specs.Prelude.{◌≡◌, ◌+ℤ◌, ◌-ℤ◌, ◌*ℤ◌, int_le};
ghost use Rattle.sg_words.specs.declared.operators.Ty.TheVariants as ty;
ghost use Rattle.sg_words.specs.declared.operators.BinOp.TheVariants as bin;
ghost use Rattle.sg_ir.specs.Span as spec;
ghost use Rattle.sg_ir.specs.Trimmed as trimmed;

/// An interval of numbers of an i32, with both ends.
#[derive(Clone, Copy, Debug, PartialEq, Eq)]
pub struct Span {
    pub lo: i32,
    pub hi: i32,
}

impl Span {
    /// All numbers of an i32.
    pub fn whole() -> Span
        ensures { result ≡ spec.whole_i32 }
    {
        Span {
            lo: i32::MIN,
            hi: i32::MAX,
        }
    }

    /// One number.
    pub fn only(number: i32) -> Span
        ensures { result ≡ spec.only number }
    {
        Span {
            lo: number,
            hi: number,
        }
    }

    /// The numbers from `lo` up to below `hi`; 0 alone if there are none.
    pub fn range(lo: i32, hi: i32) -> Span
        ensures { result ≡ spec.range_span lo hi }
    {
        if lo < hi {
            Span { lo, hi: hi - 1 }
        } else {
            Span::only(0)
        }
    }

    /// The sums of numbers of two spans; all of i32 where one is no i32.
    pub fn sum(self, other: Span) -> Span
        ensures { result ≡ spec.bin_span bin.Add ty.I32 self other }
    {
        cut(plus(self.lo, other.lo), plus(self.hi, other.hi))
    }

    /// The differences of numbers of two spans; all of i32 where one is no i32.
    pub fn difference(self, other: Span) -> Span
        ensures { result ≡ spec.bin_span bin.Sub ty.I32 self other }
    {
        cut(minus(self.lo, other.hi), minus(self.hi, other.lo))
    }

    /// The products of numbers of two spans; all of i32 where one is no i32.
    pub fn product(self, other: Span) -> Span
        ensures { result ≡ spec.bin_span bin.Mul ty.I32 self other }
    {
        let a = times(self.lo, other.lo);
        let b = times(self.lo, other.hi);
        let c = times(self.hi, other.lo);
        let d = times(self.hi, other.hi);
        cut(least_of(a, b, c, d), greatest_of(a, b, c, d))
    }

    /// Whether every number is from 0 to below the extent.
    pub fn is_within(self, extent: u32) -> bool
        ensures { result ≡ trimmed.is_within extent self }
    {
        0 <= self.lo && (self.hi as i64) < extent as i64
    }
}

/// The interval if both ends are numbers of an i32, else all of them.
fn cut(lo: i64, hi: i64) -> Span
    ensures { result ≡ spec.cut_to_i32 lo hi }
{
    match (i32::try_from(lo), i32::try_from(hi)) {
        (Ok(lo), Ok(hi)) => Span { lo, hi },
        _ => Span::whole(),
    }
}

fn least(a: i64, b: i64) -> i64
    ensures { result ≡ spec.lesser_of a b }
{
    if a <= b { a } else { b }
}

fn greatest(a: i64, b: i64) -> i64
    ensures { result ≡ spec.greater_of a b }
{
    if a <= b { b } else { a }
}

fn least_of(a: i64, b: i64, c: i64, d: i64) -> i64
    ensures { result ≡ spec.lesser_of (spec.lesser_of a b) (spec.lesser_of c d) }
{
    least(least(a, b), least(c, d))
}

fn greatest_of(a: i64, b: i64, c: i64, d: i64) -> i64
    ensures { result ≡ spec.greater_of (spec.greater_of a b) (spec.greater_of c d) }
{
    greatest(greatest(a, b), greatest(c, d))
}

fn plus(a: i32, b: i32) -> i64
    ensures { result ≡ a +ℤ b }
{
    a as i64 + b as i64
}

fn minus(a: i32, b: i32) -> i64
    ensures { result ≡ a -ℤ b }
{
    a as i64 - b as i64
}

fn times(a: i32, b: i32) -> i64
    ensures { result ≡ a *ℤ b }
{
    a as i64 * b as i64
}
