//! Why a file is refused, and where.

ghost use Rattle.std.specs.Prelude.{◌≡◌, ◌≤◌, length, Ok, IfOk};
ghost use Rattle.sg_lexer.specs.Limits.{most_file_bytes};
ghost use Rattle.sg_lexer.specs.Lexing.{tokens};
ghost use Rattle.sg_ast.specs.declared.token.Tokens.{Tokens};
ghost use Rattle.sg_explain.specs.Explained.{Explains};
ghost use Rattle.sg_explain.specs.steps.TokenPlaces.{IsIn};

use crate::fronts::syntax_place;
use crate::items::statement_place;
use crate::laws::refusals_are_shown;
use crate::others::other_place;
use crate::place::Place;
use sg_admit::AdmitFault;
use sg_ast::Spanned;
use sg_lexer::lex;
use sg_parser::ParseFault;
use sg_session::{Refusal, compile};
use sg_words::{Memory, Stop};
use std::alloc::Global;

/// The refusal of a file, and the bytes of it that it is about, where it is about some.
#[derive(Clone, Copy, Debug, PartialEq, Eq)]
pub struct Explained {
    pub refusal: Refusal,
    pub place: Option<Place>,
}

/// Why a file is refused before any of its commands runs, or none where it isn't. Fails if memory runs out.
pub fn explain(alloc: Global, bytes: &[u8]) -> Result<Option<Explained>, Memory>
    requires { length bytes.now ≤ most_file_bytes }
    ensures { IfOk result (Explains bytes.now) }
{
    match compile(alloc, bytes) {
        Ok(_compiled) => Ok(None),
        Err(Stop::Memory) => Err(Memory),
        Err(Stop::Refused(refusal)) => {
            // for the law that it ensures
            refusals_are_shown();
            let place = place_of(alloc, bytes, refusal)?;
            Ok(Some(Explained { refusal, place }))
        }
    }
}

/// Where in a file a refusal of it is.
fn place_of(alloc: Global, bytes: &[u8], refusal: Refusal) -> Result<Option<Place>, Memory>
    requires { length bytes.now ≤ most_file_bytes }
    ensures { IfOk result (λ place. (found : Tokens) → tokens bytes.now ≡ Ok found → IsIn found.list refusal place) }
{
    match lex(alloc, bytes) {
        Ok(tokens) => place_in(alloc, bytes, tokens.list.as_slice(), refusal),
        Err(Stop::Refused(_)) => Ok(None),
        Err(Stop::Memory) => Err(Memory),
    }
}

/// Where in the tokens of a file a refusal of it is. The list has the tokens of the bytes.
fn place_in(
    alloc: Global,
    bytes: &[u8],
    list: &[Spanned],
    refusal: Refusal,
) -> Result<Option<Place>, Memory>
    requires { length bytes.now ≤ most_file_bytes }
    ensures { IfOk result (λ place. (found : Tokens) → tokens bytes.now ≡ Ok found → found.list ≡ list.now → IsIn list.now refusal place) }
{
    match refusal {
        Refusal::Parse(ParseFault::Syntax { item, line: _ }) => {
            let place = syntax_place(alloc, bytes, list, item)?;
            Ok(Some(place))
        }
        Refusal::Types(fault) => Ok(statement_place(list, fault.kernel, fault.stmt)),
        Refusal::Admit {
            kernel,
            fault: AdmitFault::Rule { stmt, rule: _ },
        } => Ok(statement_place(list, kernel, stmt)),
        Refusal::Admit {
            kernel,
            fault: AdmitFault::BoxTooLarge,
        } => Ok(statement_place(list, kernel, 0)),
        _ => Ok(other_place(list, refusal)),
    }
}
