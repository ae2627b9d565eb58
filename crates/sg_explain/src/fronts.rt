//! Up to which token some file of the grammar goes: an ending is made for the tokens before it, and the whole is parsed.

ghost use Rattle.std.specs.Prelude.{◌≡◌, ◌≤◌, ℕ, true, length, take, drop, IfOk, Ok, Err};
ghost use Rattle.sg_ast.specs.declared.token.Tokens.{Tokens};
ghost use Rattle.sg_ast.specs.Items.{kinds};
ghost use Rattle.sg_lexer.specs.Lexing.{tokens};
ghost use Rattle.sg_lexer.specs.Limits.{most_file_bytes};
ghost use Rattle.sg_parser.specs.Parsed.{program_of};
ghost use Rattle.sg_parser.specs.declared.program.ParseFault.TheVariants as fault;
ghost use Rattle.sg_explain.specs.Fronts.{IsFront, IsReadUpTo, end_of, first_place};
ghost use Rattle.sg_explain.specs.steps.Certified.{IsCertified, KeepsFronts};

use crate::endings::endings;
use crate::items::item_begin;
use crate::place::Place;
use crate::reading::Reading;
use crate::want::Want;
use sg_ast::{Spanned, Tokens};
use sg_lexer::lex;
use sg_parser::parse;
use sg_words::{Items, Memory, Stop};
use std::alloc::Global;

/// How many tokens a file may have.
const MOST_TOKENS: usize = 16384;

/// How often what is left is halved: a file has fewer than 2^15 tokens.
const MOST_HALVINGS: u32 = 16;

/// Whether some file of the grammar is found that begins with these tokens. An ending is added to them.
fn goes_on(alloc: Global, tokens: Tokens, wants: &[Want]) -> Result<bool, Memory>
    ensures { IfOk result (λ found. found ≡ true → IsFront (kinds tokens.list)) }
{
    // for the law that it ensures
    sg_parser::laws::parsed_is_spelled();
    let more = endings(alloc, wants)?;
    let mut list = tokens.list;
    list.append(more)?;
    if list.len() > MOST_TOKENS {
        return Ok(false);
    }
    let whole = Tokens { list };
    match parse(alloc, &whole) {
        Ok(_program) => Ok(true),
        Err(Stop::Refused(_)) => Ok(false),
        Err(Stop::Memory) => Err(Memory),
    }
}

/// Leaves out all tokens but so many.
fn cut(list: &mut Items<Spanned>, taken: usize)
    ensures { list.new ≡ take taken list.old }
{
    for _turn in 0..list.len() {
        if list.len() <= taken {
            break;
        }
        let _last = list.pop();
    }
}

/// Whether some file of the grammar is found that begins with so many tokens of a file.
fn is_front(alloc: Global, bytes: &[u8], taken: usize) -> Result<bool, Memory>
    requires { length bytes.now ≤ most_file_bytes }
    ensures { IfOk result (λ found. found ≡ true → IsCertified bytes.now taken) }
{
    match lex(alloc, bytes) {
        Ok(tokens) => {
            let mut list = tokens.list;
            cut(&mut list, taken);
            let reading = Reading::of(alloc, list.as_slice())?;
            goes_on(alloc, Tokens { list }, reading.wants.list.as_slice())
        }
        Err(Stop::Refused(_)) => Ok(false),
        Err(Stop::Memory) => Err(Memory),
    }
}

/// The greatest number from `least` to `most` of tokens with which some file of the grammar begins, as far as it is found, where one
/// begins with `least`.
fn last_front(alloc: Global, bytes: &[u8], least: usize, most: usize) -> Result<usize, Memory>
    requires few { length bytes.now ≤ most_file_bytes }
    requires order { least ≤ most }
    ensures above { IfOk result (λ last. least ≤ last) }
    ensures below { IfOk result (λ last. last ≤ most) }
    ensures fronts { IfOk result (λ last. KeepsFronts bytes.now least last) }
{
    if is_front(alloc, bytes, most)? {
        return Ok(most);
    }
    let mut low = least;
    let mut high = most;
    for _turn in 0..MOST_HALVINGS {
        if high <= low {
            break;
        }
        let middle = high - (high - low) / 2;
        if is_front(alloc, bytes, middle)? {
            low = middle;
        } else {
            high = middle - 1;
        }
    }
    Ok(low)
}

/// The bytes of the token behind so many, or the place behind all where they end.
fn stop_place(tokens: &[Spanned], taken: usize) -> Place
    requires { taken ≤ length tokens.now }
    ensures { result ≡ first_place (end_of 0 (take taken tokens.now)) (drop taken tokens.now) }
{
    let (before, behind) = (&tokens[..taken], &tokens[taken..]);
    match behind {
        [next, ..] => Place {
            from: next.start,
            to: next.end,
        },
        _ => {
            let end = end_of(before);
            Place { from: end, to: end }
        }
    }
}

/// Where tokens end, 0 for none.
fn end_of(tokens: &[Spanned]) -> u32
    ensures { result ≡ end_of 0 tokens.now }
{
    let mut end: u32 = 0;
    let mut rest = tokens;
    while let [first, more @ ..] = rest {
        end = first.end;
        rest = more;
    }
    end
}

/// The token with which no form goes on in the item of this number, from 1, as far as it is found: some file of the grammar begins with
/// the tokens before it. The list has the tokens of the bytes.
pub(crate) fn syntax_place(
    alloc: Global,
    bytes: &[u8],
    list: &[Spanned],
    number: u32,
) -> Result<Place, Memory>
    requires { length bytes.now ≤ most_file_bytes }
    ensures { IfOk result (λ place. (found : Tokens) (line : ℕ) → tokens bytes.now ≡ Ok found → found.list ≡ list.now
        → program_of list.now ≡ Err (fault.Syntax number line) → IsReadUpTo list.now number place) }
{
    // for the law that it ensures
    sg_parser::laws::first_fault_is_named();
    let least = item_begin(list, number);
    let reading = Reading::of(alloc, list)?;
    let most = if reading.taken < least {
        least
    } else {
        reading.taken
    };
    let last = last_front(alloc, bytes, least, most)?;
    Ok(stop_place(list, last))
}
