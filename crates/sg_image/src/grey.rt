ghost use Rattle.std.specs.Prelude.{◌≡◌, ◌^◌, ◌≤◌, ◌<◌, pos, neg_ℤ, ◌-ℤ◌, ◌≤ℤ◌, ◌<ℤ◌};
ghost use Rattle.sg_words.specs.Words.{number};
ghost use Rattle.sg_coord.specs.Coord.{count_of};
ghost use Rattle.sg_image.specs.Grey.{grey_of};

use sg_words::{Ty, number};

/// The numbers between which greys lie, and the type of the words that stand for numbers.
#[derive(Clone, Copy, Debug)]
pub(crate) struct Shades {
    pub(crate) ty: Ty,
    pub(crate) lo: i64,
    pub(crate) hi: i64,
    ghost rising: { lo <ℤ hi },
    ghost lo_low: { neg_ℤ (pos (2 ^ 32)) ≤ℤ lo },
    ghost hi_high: { hi ≤ℤ pos (2 ^ 32) },
}

impl Shades {
    /// The grey of a word: 0 for numbers up to `lo`, 255 from `hi` on, and in proportion between them, rounded down.
    pub(crate) fn grey(&self, word: u32) -> u64
        ensures { result ≡ grey_of self.now.lo self.now.hi (number self.now.ty word) }
    {
        let number = number(self.ty, word);
        if number <= self.lo {
            0
        } else if number >= self.hi {
            255
        } else {
            above(self.lo, number) * 255 / above(self.lo, self.hi)
        }
    }
}

/// How far a number is above a lower one.
fn above(lower: i64, number: i64) -> u64
    requires above { lower <ℤ number }
    requires low { neg_ℤ (pos (2 ^ 32)) ≤ℤ lower }
    requires high { number ≤ℤ pos (2 ^ 32) }
    ensures value { result ≡ count_of (number -ℤ lower) }
    ensures some { 0 < result }
    ensures most { result ≤ 2 ^ 33 }
{
    (number - lower) as u64
}
