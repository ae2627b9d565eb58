//! The piece at the front of some bytes: white space, a comment or a token.

ghost use Rattle.std.specs.Prelude.{◌≡◌, ◌<◌, ◌≤◌, ◌==◌, true, length, slice_index, count_by, IfOk};
ghost use Rattle.std.specs.List.{prefix_len};
ghost use Rattle.sg_words.specs.Answers.{Answers};
ghost use Rattle.sg_lexer.specs.Alphabet as alphabet;
ghost use Rattle.sg_lexer.specs.Lexing as spec;

use crate::fault::LexFault;
use crate::runs::run_token;
use crate::spelling::{sign_at, sign_text};
use sg_ast::Token;
use sg_words::Stop;
use std::alloc::Global;

/// The most tokens of a file.
const TOKENS: usize = 16_384;

fn is_space(b: u8) -> bool
    ensures { result ≡ alphabet.is_space b }
{
    b == b' ' || b == b'\t' || b == b'\r' || b == b'\n'
}

fn is_inner(b: u8) -> bool
    ensures { result ≡ alphabet.is_inner b }
{
    b.is_ascii_alphanumeric() || b == b'_'
}

/// The bytes of the run at the front.
#[tactic(auto, using(crate::proofs::Prefixes::prefix_some))]
fn run_len(bytes: &[u8]) -> usize
    requires { 0 < length bytes.now }
    ensures value { result ≡ prefix_len alphabet.is_inner bytes.now }
    ensures within { result ≤ length bytes.now }
    ensures some { alphabet.is_inner (slice_index bytes.now 0) ≡ true → 0 < result }
{
    bytes.iter().take_while(|b| is_inner(**b)).count()
}

/// The bytes before the first newline.
#[tactic(auto, using(crate::proofs::Prefixes::prefix_some))]
fn line_len(bytes: &[u8]) -> usize
    requires { 0 < length bytes.now }
    ensures value { result ≡ prefix_len spec.is_in_line bytes.now }
    ensures within { result ≤ length bytes.now }
    ensures some { spec.is_in_line (slice_index bytes.now 0) ≡ true → 0 < result }
{
    bytes.iter().take_while(|b| **b != b'\n').count()
}

/// How many newlines there are.
pub(crate) fn newlines(bytes: &[u8]) -> usize
    ensures value { result ≡ count_by (λ b. b == 10) bytes.now }
    ensures within { result ≤ length bytes.now }
{
    bytes.iter().filter(|b| **b == b'\n').count()
}

/// How many bytes the piece at the front takes, and its token, if it is one.
#[tactic(auto, unfolding(crate::specs::Lexing::piece))]
pub(crate) fn piece(
    alloc: Global,
    line: u32,
    count: usize,
    bytes: &[u8],
) -> Result<(usize, Option<Token>), Stop<LexFault>>
    requires { 0 < length bytes.now }
    ensures answer { Answers result (spec.piece line count bytes.now) }
    ensures within { IfOk result (λ p. (0 < p.0) × (p.0 ≤ length bytes.now)) }
{
    if is_space(bytes[0]) {
        return Ok((1, None));
    }
    if bytes.starts_with(b"//") {
        return Ok((line_len(bytes), None));
    }
    if is_inner(bytes[0]) {
        if TOKENS <= count {
            return Err(Stop::Refused(LexFault::TooManyTokens));
        }
        let len = run_len(bytes);
        let token = run_token(alloc, line, &bytes[..len])?;
        return Ok((len, Some(token)));
    }
    let Some(sign) = sign_at(bytes) else {
        return Err(Stop::Refused(LexFault::BadByte { line }));
    };
    if TOKENS <= count {
        return Err(Stop::Refused(LexFault::TooManyTokens));
    }
    Ok((sign_text(sign).len(), Some(Token::Sign(sign))))
}
