//! The closest place that is told of a refusal: a token within what is proved to be refused.

ghost use Rattle.std.specs.Prelude.{◌≤◌, length};
ghost use Rattle.sg_lexer.specs.Limits.{most_file_bytes};

use crate::names::place_of;
use crate::others::{item_at, layout_front};
use crate::pieces::fault_place;
use crate::place::Place;
use crate::refused::Explained;
use crate::scope::unknown_local;
use crate::storage::largest_layout;
use sg_ast::Spanned;
use sg_lexer::lex;
use sg_parser::ParseFault;
use sg_session::Refusal;
use sg_words::{Memory, Stop};
use std::alloc::Global;

/// The closest place of a refusal of a file: bytes that are no token, a plain name that stands for nothing, or the place that is told; the
/// first token of the item where no place of a fault of syntax is.
pub fn closest(alloc: Global, bytes: &[u8], told: Explained) -> Result<Option<Place>, Memory>
    requires { length bytes.now ≤ most_file_bytes }
{
    match lex(alloc, bytes) {
        Ok(tokens) => match told.refusal {
            Refusal::Words => words_place(alloc, bytes, tokens.list.as_slice()),
            _ => Ok(closest_in(tokens.list.as_slice(), told)),
        },
        Err(Stop::Refused(_)) => Ok(fault_place(bytes)),
        Err(Stop::Memory) => Err(Memory),
    }
}

/// The closest place of a refusal in the tokens of its file.
fn closest_in(tokens: &[Spanned], told: Explained) -> Option<Place> {
    match told.refusal {
        Refusal::Types(fault) if fault.code == 4 => {
            match unknown_local(tokens, fault.kernel, fault.stmt) {
                Some(unknown) => Some(unknown.place),
                None => told.place,
            }
        }
        Refusal::Parse(ParseFault::Syntax { item, line: _ }) => match told.place {
            Some(place) => Some(place),
            None => first_place(tokens, item),
        },
        _ => told.place,
    }
}

/// The word and the name of the layout that takes the most words.
fn words_place(alloc: Global, bytes: &[u8], tokens: &[Spanned]) -> Result<Option<Place>, Memory>
    requires { length bytes.now ≤ most_file_bytes }
{
    match largest_layout(alloc, bytes)? {
        Some(largest) => Ok(layout_front(tokens, largest.layout)),
        None => Ok(None),
    }
}

/// The first token of the item of a number, from 1.
fn first_place(tokens: &[Spanned], item: u32) -> Option<Place> {
    let (_, here) = item_at(tokens, item)?;
    let [first, ..] = here else {
        return None;
    };
    Some(place_of(first))
}
