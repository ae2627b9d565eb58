//! The number of the generated program, as a word.

ghost use Rattle.std.specs.Prelude.{◌≡◌, ◌^◌, min};
ghost use Rattle.std.specs.Char.{is_ascii_digit};
ghost use Rattle.std.specs.List.{list_all};
ghost use Rattle.sg_lexer.specs.Lexing as lexing;
ghost use Rattle.sparsegrid.specs.Words as spec;

/// As large as a number counts; no number of a generated program reaches it.
const PAST_NUMBERS: u64 = 1 << 32;

fn are_digits(bytes: &[u8]) -> bool
    ensures { result ≡ list_all is_ascii_digit bytes.now }
{
    for byte in bytes {
        if !byte.is_ascii_digit() {
            return false;
        }
    }
    true
}

/// Whether bytes are a decimal number: `0`, or digits without a leading zero.
fn is_decimal(bytes: &[u8]) -> bool
    ensures { result ≡ lexing.is_decimal bytes.now }
{
    if bytes.is_empty() || (bytes.len() != 1 && bytes[0] == b'0') {
        return false;
    }
    are_digits(bytes)
}

/// The number that digits spell, or `PAST_NUMBERS` if it is larger.
fn decimal_value(digits: &[u8]) -> u64
    ensures { result ≡ min (lexing.decimal_value digits.now) (2 ^ 32) }
{
    let mut value = 0u64;
    for digit in digits {
        value = (10 * value + u64::from(digit.saturating_sub(b'0'))).min(PAST_NUMBERS);
    }
    value
}

/// The number that is written in decimal, without a sign and without a leading zero, if it is below 2^32.
pub(crate) fn gen_number(text: &[u8]) -> Option<u32>
    ensures { result ≡ spec.gen_number text.now }
{
    if !is_decimal(text) {
        return None;
    }
    let value = decimal_value(text);
    if value < PAST_NUMBERS {
        Some(value as u32)
    } else {
        None
    }
}
