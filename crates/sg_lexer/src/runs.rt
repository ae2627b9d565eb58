//! Runs of letters, digits and `_`: names, reserved words and numbers.

ghost use Rattle.std.specs.Prelude.{◌≡◌, ◌<◌, length};
ghost use Rattle.sg_words.specs.Answers.{Answers};
ghost use Rattle.sg_ast.specs.Limits.{max_number};
ghost use Rattle.sg_lexer.specs.Lexing as spec;

use crate::fault::LexFault;
use crate::spelling::reserved_word;
use sg_ast::{Name, Token};
use sg_words::{Items, Stop};
use std::alloc::Global;

/// The most bytes of a name.
pub(crate) const NAME_BYTES: usize = 32;

#[tactic(auto, unfolding(crate::specs::Lexing::name_token))]
fn name_token(alloc: Global, line: u32, run: &[u8]) -> Result<Token, Stop<LexFault>>
    ensures { Answers result (spec.name_token line run.now) }
{
    if NAME_BYTES < run.len() {
        return Err(Stop::Refused(LexFault::LongName { line }));
    }
    match reserved_word(run) {
        Some(word) => Ok(Token::Word(word)),
        None => Ok(Token::Name(Name {
            text: Items::from_slice(alloc, run)?,
        })),
    }
}

/// The greatest number, by whether a `u` stands after it.
fn limit(unsigned: bool) -> u64
    ensures { result ≡ max_number unsigned }
{
    if unsigned {
        4_294_967_295
    } else {
        2_147_483_648
    }
}

/// The number of these digits, if it is within its limit.
#[tactic(auto, unfolding(crate::specs::Lexing::number_as))]
fn number_as(line: u32, unsigned: bool, digits: &[u8]) -> Result<Token, Stop<LexFault>>
    ensures { Answers result (spec.number_as line unsigned digits.now) }
{
    let bad = LexFault::BadNumber { line };
    if digits.is_empty() || (digits.len() != 1 && digits[0] == b'0') {
        return Err(Stop::Refused(bad));
    }
    let limit = limit(unsigned);
    let mut value = 0u64;
    for digit in digits {
        if !digit.is_ascii_digit() {
            return Err(Stop::Refused(bad));
        }
        value = 10 * value + u64::from(*digit - b'0');
        if limit < value {
            return Err(Stop::Refused(bad));
        }
    }
    Ok(Token::Number {
        value: value as u32,
        unsigned,
    })
}

#[tactic(auto, unfolding(crate::specs::Lexing::number_token))]
fn number_token(line: u32, run: &[u8]) -> Result<Token, Stop<LexFault>>
    ensures { Answers result (spec.number_token line run.now) }
{
    if run.ends_with(b"u") {
        number_as(line, true, &run[..run.len() - 1])
    } else {
        number_as(line, false, run)
    }
}

/// The token of a whole run.
#[tactic(auto, unfolding(crate::specs::Lexing::run_token))]
pub(crate) fn run_token(alloc: Global, line: u32, run: &[u8]) -> Result<Token, Stop<LexFault>>
    requires { 0 < length run.now }
    ensures { Answers result (spec.run_token line run.now) }
{
    if run[0].is_ascii_digit() {
        number_token(line, run)
    } else {
        name_token(alloc, line, run)
    }
}
