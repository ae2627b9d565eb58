//! The items of a file's tokens.

ghost use Rattle.std.specs.Prelude.{◌≡◌, ◌+◌, ◌≤◌, ◌<◌, ◌∷◌, option_map, slice_get, length};
ghost use Rattle.sg_ast.specs.Items as items;
ghost use Rattle.sg_explain.specs.KernelItems.{kernel_items, begins_kernel};
ghost use Rattle.sg_explain.specs.Fronts.{items_before};
ghost use Rattle.sg_explain.specs.Places.{statement_place};
ghost use Rattle.sg_explain.specs.steps.ItemLengths.{item_length};

use crate::parts::{head_place, part};
use crate::place::Place;
use sg_ast::{Sign, Spanned, Token, Word};

/// Whether an item ends with a token, where so many braces are open.
fn ends_item(braces: usize, token: &Token) -> bool
    ensures { result ≡ items.ends_item braces token.now }
{
    match token {
        Token::Sign(Sign::Semicolon) => braces == 0,
        Token::Sign(Sign::CloseBrace) => braces <= 1,
        _ => false,
    }
}

/// How many braces are open behind a token.
fn open_after(braces: usize, token: &Token) -> usize
    requires { braces < 18446744073709551615 }
    ensures { result ≡ items.open_after braces token.now }
{
    match token {
        Token::Sign(Sign::OpenBrace) => braces + 1,
        Token::Sign(Sign::CloseBrace) => braces.saturating_sub(1),
        _ => braces,
    }
}

/// How many tokens the first item has.
fn item_len(tokens: &[Spanned]) -> usize
    requires { 0 < length tokens.now }
    ensures some { 0 < result }
    ensures length { result ≡ item_length (λ spanned. spanned.token) 0 tokens.now }
    ensures within { result ≤ length tokens.now }
{
    let mut braces: usize = 0;
    let mut len: usize = 0;
    let mut rest = tokens;
    while let [first, more @ ..] = rest {
        len += 1;
        if ends_item(braces, &first.token) {
            return len;
        }
        braces = open_after(braces, &first.token);
        rest = more;
    }
    len
}

/// The first item, and the tokens behind it.
pub(crate) fn next_item(tokens: &[Spanned]) -> (&[Spanned], &[Spanned])
    requires { 0 < length tokens.now }
    ensures cut { items.items_of tokens.now ≡ result.0.now ∷ items.items_of result.1.now }
    ensures shorter { length result.1.now < length tokens.now }
    ensures lengths { length result.0.now + length result.1.now ≡ length tokens.now }
{
    let len = item_len(tokens);
    (&tokens[..len], &tokens[len..])
}

/// How many tokens the items in front of the one of this number, from 1, have.
pub(crate) fn item_begin(tokens: &[Spanned], number: u32) -> usize
    ensures count { result ≡ length (items_before tokens.now number) }
    ensures within { result ≤ length tokens.now }
{
    let mut left = number.saturating_sub(1);
    let mut taken: usize = 0;
    let mut rest = tokens;
    while left > 0 && !rest.is_empty() {
        let (item, behind) = next_item(rest);
        taken += item.len();
        left -= 1;
        rest = behind;
    }
    taken
}

/// Whether an item declares a kernel.
fn begins_kernel(item: &[Spanned]) -> bool
    ensures { result ≡ begins_kernel (items.kinds item.now) }
{
    match item {
        [first, ..] => matches!(first.token, Token::Word(Word::Kernel)),
        _ => false,
    }
}

/// The item that declares the kernel of this number, from 0.
pub fn kernel_item(tokens: &[Spanned], kernel: usize) -> Option<&[Spanned]>
    ensures { option_map (λ item. item.now) result ≡ slice_get (kernel_items (items.items_of tokens.now)) kernel }
{
    let mut left = kernel;
    let mut rest = tokens;
    while !rest.is_empty() {
        let (item, behind) = next_item(rest);
        if begins_kernel(item) {
            if left == 0 {
                return Some(item);
            }
            left -= 1;
        }
        rest = behind;
    }
    None
}

/// The bytes of the head of a statement: of the kernel of this number, from 0, its loop, which is statement 0, or the statement of this
/// number. None where there is none.
pub fn statement_place(tokens: &[Spanned], kernel: u32, number: u32) -> Option<Place>
    ensures { result ≡ statement_place tokens.now kernel number }
{
    let item = kernel_item(tokens, kernel as usize)?;
    let part = part(item, number as usize)?;
    head_place(part)
}
