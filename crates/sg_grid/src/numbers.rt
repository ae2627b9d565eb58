//! Numbers at the front of a grid text.

ghost use Rattle.std.specs.Prelude.{◌≡◌, ◌≤◌, ◌^◌, min, length, IfSome, IsTrue};
ghost use Rattle.std.specs.Char.{is_ascii_digit};
ghost use Rattle.std.specs.List.{prefix_len};
ghost use Rattle.sg_grid.specs.Fronts as spec;
ghost use Rattle.sg_grid.specs.steps.Finding.{Finds, Leaves};

use sg_words::Ty;

/// As large as a number counts; no number of a grid text reaches it.
const PAST_NUMBERS: u64 = 1 << 32;

/// What stands after a text, where the bytes begin with it.
#[tactic(auto, unfolding(crate::specs::Fronts::rest_after))]
pub fn rest_after<'a>(text: &[u8], bytes: &'a [u8]) -> Option<&'a [u8]>
    ensures { Leaves result (spec.rest_after text.now bytes.now) }
{
    if bytes.starts_with(text) {
        Some(&bytes[text.len()..])
    } else {
        None
    }
}

/// How many digits stand at the front.
fn digits_at(bytes: &[u8]) -> usize
    ensures value { result ≡ prefix_len is_ascii_digit bytes.now }
    ensures within { result ≤ length bytes.now }
{
    bytes.iter().take_while(|b| b.is_ascii_digit()).count()
}

/// The number that digits spell, or `PAST_NUMBERS` if it is larger.
fn number_of_digits(digits: &[u8]) -> u64
    ensures { result ≡ min (spec.number_of_digits digits.now) (2 ^ 32) }
{
    let mut value = 0u64;
    for digit in digits {
        value = (10 * value + u64::from(digit.saturating_sub(b'0'))).min(PAST_NUMBERS);
    }
    value
}

/// A number without a sign, at most `PAST_NUMBERS`, and what stands after it.
#[tactic(auto, unfolding(crate::specs::Fronts::count_at))]
pub fn count_at(bytes: &[u8]) -> Option<(u64, &[u8])>
    ensures value { Finds result (spec.count_at bytes.now) }
    ensures most { IfSome result (λ found. found.0 ≤ 2 ^ 32) }
{
    let (digits, rest) = bytes.split_at(digits_at(bytes));
    if digits.is_empty() || (digits.len() != 1 && digits[0] == b'0') {
        return None;
    }
    Some((number_of_digits(digits), rest))
}

/// A number with or without `-`, and what stands after it.
#[tactic(auto, unfolding(crate::specs::Fronts::number_at))]
fn number_at(bytes: &[u8]) -> Option<(i64, &[u8])>
    ensures { Finds result (spec.number_at bytes.now) }
{
    match rest_after(b"-", bytes) {
        Some(magnitude) => {
            let (count, rest) = count_at(magnitude)?;
            if count == 0 {
                return None;
            }
            Some((-(count as i64), rest))
        }
        None => {
            let (count, rest) = count_at(bytes)?;
            Some((count as i64, rest))
        }
    }
}

/// Whether words of the type stand for the number.
fn is_of_type(ty: Ty, number: i64) -> bool
    ensures { result ≡ spec.is_of_type ty number }
{
    match ty {
        Ty::I32 => -0x8000_0000 <= number && number < 0x8000_0000,
        Ty::U32 | Ty::Bool => 0 <= number && number < 0x1_0000_0000,
    }
}

/// A number of the type with a text after it, and what stands after that.
#[tactic(auto, unfolding(crate::specs::Fronts::number_before))]
pub fn number_before<'a>(ty: Ty, text: &[u8], bytes: &'a [u8]) -> Option<(i64, &'a [u8])>
    ensures value { Finds result (spec.number_before ty text.now bytes.now) }
    ensures of_type { IfSome result (λ found. IsTrue (spec.is_of_type ty found.0)) }
{
    let (number, rest) = number_at(bytes)?;
    let rest = rest_after(text, rest)?;
    if is_of_type(ty, number) {
        Some((number, rest))
    } else {
        None
    }
}
