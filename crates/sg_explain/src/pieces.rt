//! Where bytes are no tokens.

use crate::cuts::{bytes_behind, front_bytes};
use crate::place::Place;

/// How many tokens a file may have, and how many bytes a name.
const MOST_TOKENS: usize = 16384;

const LONGEST_NAME: usize = 32;

/// The greatest numbers without a `u` behind them, and with one.
const MOST_SIGNED: u64 = 2147483648;

const MOST_UNSIGNED: u64 = 4294967295;

/// Whether a byte stands in names and numbers.
fn is_inner(byte: u8) -> bool {
    byte.is_ascii_alphanumeric() || byte == b'_'
}

/// Whether a byte is white space.
fn is_space(byte: u8) -> bool {
    matches!(byte, b' ' | b'\t' | b'\r' | b'\n')
}

/// Whether bytes begin with a comment.
fn begins_comment(bytes: &[u8]) -> bool {
    match bytes {
        [first, second, ..] => *first == b'/' && *second == b'/',
        _ => false,
    }
}

/// How many bytes of white space and of comments stand in front.
fn gap_len(bytes: &[u8]) -> usize {
    let mut comment = false;
    let mut len: usize = 0;
    let mut rest = bytes;
    while let [first, more @ ..] = rest {
        if comment {
            comment = *first != b'\n';
        } else if begins_comment(rest) {
            comment = true;
        } else if !is_space(*first) {
            break;
        }
        len = len.saturating_add(1);
        rest = more;
    }
    len
}

/// How many letters, digits and `_` stand in front.
fn run_len(bytes: &[u8]) -> usize {
    bytes.iter().take_while(|byte| is_inner(**byte)).count()
}

/// Whether two bytes are a sign together.
fn is_double(first: u8, second: u8) -> bool {
    match second {
        b'=' => matches!(first, b'=' | b'!' | b'<' | b'>' | b'+' | b'|' | b'&' | b'^'),
        b'.' | b'&' | b'|' | b'<' | b'>' => first == second,
        _ => false,
    }
}

/// Whether a byte is a sign by itself.
fn is_single(byte: u8) -> bool {
    matches!(
        byte,
        b'{' | b'}'
            | b'('
            | b')'
            | b'['
            | b']'
            | b';'
            | b','
            | b':'
            | b'='
            | b'<'
            | b'>'
            | b'+'
            | b'-'
            | b'*'
            | b'/'
            | b'%'
            | b'&'
            | b'|'
            | b'^'
            | b'~'
            | b'!'
    )
}

/// How many bytes the sign in front has, 0 where none is there.
fn sign_len(bytes: &[u8]) -> usize {
    match bytes {
        [first, second, ..] if is_double(*first, *second) => 2,
        [first, ..] if is_single(*first) => 1,
        _ => 0,
    }
}

/// How many bytes the character in front has.
fn character_len(bytes: &[u8]) -> usize {
    bytes
        .iter()
        .skip(1)
        .take_while(|byte| **byte >= 128 && **byte < 192)
        .count()
        .saturating_add(1)
}

/// The value of digits, or none where something else stands there or it is too great.
fn value_of(digits: &[u8]) -> Option<u64> {
    let mut value: u64 = 0;
    for digit in digits {
        if !digit.is_ascii_digit() {
            return None;
        }
        value = value
            .checked_mul(10)?
            .checked_add(digit.wrapping_sub(b'0') as u64)?;
    }
    Some(value)
}

/// Whether digits are the word of a number up to a greatest one.
fn is_up_to(digits: &[u8], most: u64) -> bool {
    match digits {
        [] => false,
        [first, _, ..] if *first == b'0' => false,
        _ => match value_of(digits) {
            Some(value) => value <= most,
            None => false,
        },
    }
}

/// Whether a run of letters, digits and `_` is a token: a number where it begins with a digit, else a name that isn't too long.
fn is_run_token(run: &[u8]) -> bool {
    match run {
        [first, ..] if !first.is_ascii_digit() => run.len() <= LONGEST_NAME,
        [digits @ .., last] if *last == b'u' => is_up_to(digits, MOST_UNSIGNED),
        _ => is_up_to(run, MOST_SIGNED),
    }
}

/// How many bytes the first token has, or what stands in its place, and whether it is one.
fn first_token(bytes: &[u8]) -> (usize, bool) {
    let run = run_len(bytes);
    if run > 0 {
        return (run, is_run_token(front_bytes(bytes, run)));
    }
    match sign_len(bytes) {
        0 => (character_len(bytes), false),
        len => (len, true),
    }
}

/// The first bytes of a file that are no token, or the first token that is one too many.
pub(crate) fn fault_place(bytes: &[u8]) -> Option<Place> {
    let mut from: usize = 0;
    let mut rest = bytes;
    for number in 0..MOST_TOKENS + 1 {
        let gap = gap_len(rest);
        let found = bytes_behind(rest, gap);
        if found.is_empty() {
            break;
        }
        from = from.saturating_add(gap);
        let (len, good) = first_token(found);
        let to = from.saturating_add(len);
        if !good || number == MOST_TOKENS {
            return Some(Place {
                from: u32::try_from(from).ok()?,
                to: u32::try_from(to).ok()?,
            });
        }
        from = to;
        rest = bytes_behind(found, len);
    }
    None
}
