//! Quotients and remainders of whole numbers. By a power of two no division is needed; of small words by small numbers neither.

ghost use Rattle.std.specs.Prelude.{◌≡◌, ◌+◌, ◌/◌, ◌%◌, ◌≤◌, ◌<◌, ◌^◌, ℕ, true, bit_and};

/// A word divided by a number, rounded down, and 0 if the number is 0.
#[inline(always)]
pub fn quotient(word: u32, div: u32) -> u32
    ensures { result ≡ word / div }
{
    let shift = div.trailing_zeros();
    if shift < 32 && 1_u32 << shift == div {
        return word >> shift;
    }
    if div == 0 { 0 } else { word / div }
}

/// A word modulo a number, and the word itself where the number is 0.
#[inline(always)]
pub fn remainder(word: u32, size: u32) -> u32
    ensures { result ≡ word % size }
{
    let shift = size.trailing_zeros();
    if shift < 32 && 1_u32 << shift == size {
        return word & (size - 1);
    }
    if size == 0 { word } else { word % size }
}

/// A word's digit: divided by `div`, modulo `size`.
#[inline(always)]
pub fn digit(word: u32, div: u32, size: u32) -> u32
    ensures { result ≡ word / div % size }
{
    remainder(quotient(word, div), size)
}

/// A number of rows divided by another, rounded down, and 0 if that is 0.
#[inline(always)]
pub fn wide_quotient(number: usize, div: usize) -> usize
    ensures { result ≡ number / div }
{
    let shift = div.trailing_zeros();
    if shift < 64 && 1_usize << shift == div {
        return number >> shift;
    }
    if div == 0 { 0 } else { number / div }
}

/// A number of rows modulo another, and the number itself if that is 0.
#[inline(always)]
pub fn wide_remainder(number: usize, size: usize) -> usize
    ensures { result ≡ number % size }
{
    let shift = size.trailing_zeros();
    if shift < 64 && 1_usize << shift == size {
        return number & (size - 1);
    }
    if size == 0 { number } else { number % size }
}

/// The greatest divisor and modulus by which digits are found by products.
const MOST: u32 = 1 << 15;

/// The least word whose digits aren't.
const TOO_LARGE: u32 = 1 << 16;

/// A small word divided by a small divisor: by a product with 2^31 over the divisor, rounded up, and a shift.
#[inline(always)]
fn quotient_by(word: u32, div: u32, over: u32) -> u32
    requires small { word < 2 ^ 16 }
    requires some { 1 ≤ div }
    requires few { div ≤ 2 ^ 15 }
    requires is { over ≡ 2 ^ 31 / div + 1 }
    ensures { result ≡ word / div }
{
    let _div = div;
    ((word as u64 * over as u64) >> 31) as u32
}

/// A divisor and a modulus, by which digits of words are found: by a shift and a mask if both are powers of two; else by two products if both
/// are from 1 to 2^15 and the word is below 2^16. Which it is, is asked once.
#[derive(Clone, Copy, Debug, PartialEq, Eq)]
pub struct Digits {
    pub div: u32,
    pub size: u32,
    by_shift: bool,
    shift: u32,
    mask: u32,
    by_product: bool,
    over_div: u32,
    over_size: u32,
    ghost small: { shift < 32 },
    ghost shifts: { by_shift ≡ true → (word : ℕ) → bit_and (word / 2 ^ shift) mask ≡ word / div % size },
    ghost div_some: { by_product ≡ true → 1 ≤ div },
    ghost div_few: { by_product ≡ true → div ≤ 2 ^ 15 },
    ghost div_is: { by_product ≡ true → over_div ≡ 2 ^ 31 / div + 1 },
    ghost size_some: { by_product ≡ true → 1 ≤ size },
    ghost size_few: { by_product ≡ true → size ≤ 2 ^ 15 },
    ghost size_is: { by_product ≡ true → over_size ≡ 2 ^ 31 / size + 1 },
}

impl Digits {
    ghost use Rattle.std.specs.Prelude.{◌≡◌, ◌/◌, ◌%◌};

    /// The digits by a divisor and a modulus.
    pub fn of(div: u32, size: u32) -> Digits
        ensures div { result.div ≡ div }
        ensures size { result.size ≡ size }
    {
        let shift = div.trailing_zeros();
        let bits = size.trailing_zeros();
        if shift < 32 && bits < 32 && 1_u32 << shift == div && 1_u32 << bits == size {
            return Digits {
                div,
                size,
                by_shift: true,
                shift,
                mask: size - 1,
                by_product: false,
                over_div: 0,
                over_size: 0,
            };
        }
        if 1 <= div && div <= MOST && 1 <= size && size <= MOST {
            return Digits {
                div,
                size,
                by_shift: false,
                shift: 0,
                mask: 0,
                by_product: true,
                over_div: 0x8000_0000 / div + 1,
                over_size: 0x8000_0000 / size + 1,
            };
        }
        Digits {
            div,
            size,
            by_shift: false,
            shift: 0,
            mask: 0,
            by_product: false,
            over_div: 0,
            over_size: 0,
        }
    }

    /// A word's digit: divided by the divisor, by the modulus.
    #[inline(always)]
    pub fn digit(&self, word: u32) -> u32
        ensures { result ≡ word / self.now.div % self.now.size }
    {
        if self.by_shift {
            return (word >> self.shift) & self.mask;
        }
        if self.by_product && word < TOO_LARGE {
            let high = quotient_by(word, self.div, self.over_div);
            return high - quotient_by(high, self.size, self.over_size) * self.size;
        }
        digit(word, self.div, self.size)
    }
}
