//! What a line of a journal says.

ghost use Rattle.std.specs.Prelude.{◌≡◌, ◌≤◌, ◌<◌, ◌^◌, min, length, IfSome};
ghost use Rattle.std.specs.Char.{is_ascii_digit};
ghost use Rattle.std.specs.List.{prefix_len};
ghost use Rattle.sg_audit.specs.Reading as spec;
ghost use Rattle.sg_audit.specs.steps.Finding.{CutsFirst, Finds, Leaves, end_of, is_in_line};

use sg_journal::{Line, Link};

/// What a line says: a take or a free, the end, or nothing that a journal has.
#[derive(Clone, Copy, Debug, PartialEq, Eq)]
pub(crate) enum Entry {
    Written(Line),
    End,
    Bad,
}

/// The numbers with which a take and a free begin.
#[derive(Clone, Copy, Debug, PartialEq, Eq)]
pub(crate) struct Numbered {
    pub(crate) layout: u32,
    pub(crate) node: u32,
    pub(crate) number: u32,
}

/// As large as a number counts.
const PAST_NUMBERS: u64 = 1 << 32;

/// The first line with its newline, if it has one, and what stands behind it. None where there are no bytes.
pub(crate) fn first_line(bytes: &[u8]) -> Option<(&[u8], &[u8])>
    ensures { CutsFirst bytes.now result }
{
    if bytes.is_empty() {
        return None;
    }
    Some(bytes.split_at(line_end(bytes)))
}

/// How many bytes stand up to the first newline, with it.
fn line_end(bytes: &[u8]) -> usize
    ensures { result ≡ end_of bytes.now }
{
    (line_length(bytes) + 1).min(bytes.len())
}

/// How many bytes stand before the first newline.
fn line_length(bytes: &[u8]) -> usize
    ensures value { result ≡ prefix_len is_in_line bytes.now }
    ensures within { result ≤ length bytes.now }
{
    bytes.iter().take_while(|b| **b != b'\n').count()
}

/// What the text of a line says.
pub(crate) fn entry_of(text: &[u8]) -> Entry
    ensures { result ≡ spec.entry_of text.now }
{
    if let Some(rest) = rest_after(b"take", text) {
        return written_or_bad(take_at(rest));
    }
    if let Some(rest) = rest_after(b"free", text) {
        return written_or_bad(free_at(rest));
    }
    if text == b"end\n".as_slice() {
        Entry::End
    } else {
        Entry::Bad
    }
}

fn written_or_bad(line: Option<Line>) -> Entry
    ensures { result ≡ spec.written_or_bad line }
{
    match line {
        Some(line) => Entry::Written(line),
        None => Entry::Bad,
    }
}

/// A take behind its first word.
#[tactic(auto, unfolding(crate::specs::Reading::take_at))]
fn take_at(bytes: &[u8]) -> Option<Line>
    ensures { result ≡ spec.take_at bytes.now }
{
    let (named, rest) = numbered_at(bytes)?;
    let (parent, rest) = number_at(rest)?;
    let (slot, rest) = number_at(rest)?;
    if rest == b"\n".as_slice() {
        Some(Line::Take(Link {
            layout: named.layout,
            node: named.node,
            number: named.number,
            parent,
            slot,
        }))
    } else {
        None
    }
}

/// A free behind its first word.
#[tactic(auto, unfolding(crate::specs::Reading::free_at))]
fn free_at(bytes: &[u8]) -> Option<Line>
    ensures { result ≡ spec.free_at bytes.now }
{
    let (named, rest) = numbered_at(bytes)?;
    if rest == b"\n".as_slice() {
        Some(Line::Free {
            layout: named.layout,
            node: named.node,
            number: named.number,
        })
    } else {
        None
    }
}

/// The numbers with which a line begins, behind its first word, and what stands behind them.
#[tactic(auto, unfolding(crate::specs::Reading::numbered_at))]
fn numbered_at(bytes: &[u8]) -> Option<(Numbered, &[u8])>
    ensures { Finds result (spec.numbered_at bytes.now) }
{
    let (layout, rest) = number_at(bytes)?;
    let (node, rest) = number_at(rest)?;
    let (number, rest) = number_at(rest)?;
    Some((
        Numbered {
            layout,
            node,
            number,
        },
        rest,
    ))
}

/// A number behind a space, and what stands behind it.
#[tactic(auto, unfolding(crate::specs::Reading::number_at))]
fn number_at(bytes: &[u8]) -> Option<(u32, &[u8])>
    ensures { Finds result (spec.number_at bytes.now) }
{
    numeral_at(rest_after(b" ", bytes)?)
}

/// A number, and what stands behind it.
#[tactic(auto, unfolding(crate::specs::Reading::numeral_at))]
fn numeral_at(bytes: &[u8]) -> Option<(u32, &[u8])>
    ensures { Finds result (spec.numeral_at bytes.now) }
{
    let (digits, rest) = bytes.split_at(digits_at(bytes));
    if digits.is_empty() || (digits.len() != 1 && digits[0] == b'0') {
        return None;
    }
    let number = number_of_digits(digits);
    if number < PAST_NUMBERS {
        Some((number as u32, rest))
    } else {
        None
    }
}

/// How many digits stand at the front.
fn digits_at(bytes: &[u8]) -> usize
    ensures value { result ≡ prefix_len is_ascii_digit bytes.now }
    ensures within { result ≤ length bytes.now }
{
    bytes.iter().take_while(|b| b.is_ascii_digit()).count()
}

/// The number that digits spell, or `PAST_NUMBERS` if it is larger.
fn number_of_digits(digits: &[u8]) -> u64
    ensures { result ≡ min (spec.number_of_digits digits.now) (2 ^ 32) }
{
    let mut value = 0u64;
    for digit in digits {
        value = (10 * value + u64::from(digit.saturating_sub(b'0'))).min(PAST_NUMBERS);
    }
    value
}

/// What stands behind a text, where the bytes begin with it.
#[tactic(auto, unfolding(crate::specs::Reading::rest_after))]
fn rest_after<'a>(text: &[u8], bytes: &'a [u8]) -> Option<&'a [u8]>
    ensures { Leaves result (spec.rest_after text.now bytes.now) }
{
    if bytes.starts_with(text) {
        Some(&bytes[text.len()..])
    } else {
        None
    }
}
