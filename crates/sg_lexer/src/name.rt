//! Which texts are names.

ghost use Rattle.std.specs.Prelude.{◌≡◌, ◌||◌};
ghost use Rattle.std.specs.Char.{is_ascii_digit};
ghost use Rattle.std.specs.List.{list_all};
ghost use Rattle.sg_ast.specs.Token.{begins_name, is_name_form, is_name};

use crate::runs::NAME_BYTES;
use crate::spelling::reserved_word;

fn begins_name(byte: u8) -> bool
    ensures { result ≡ begins_name byte }
{
    byte.is_ascii_alphabetic() || byte == b'_'
}

fn goes_on(bytes: &[u8]) -> bool
    ensures { result ≡ list_all (λ byte. begins_name byte || is_ascii_digit byte) bytes.now }
{
    for byte in bytes {
        if !begins_name(*byte) && !byte.is_ascii_digit() {
            return false;
        }
    }
    true
}

/// Whether the bytes begin with a letter or `_`, and go on with letters, digits and `_`.
fn is_name_form(text: &[u8]) -> bool
    ensures { result ≡ is_name_form text.now }
{
    match text {
        [] => false,
        [first, rest @ ..] => begins_name(*first) && goes_on(rest),
    }
}

/// Whether the bytes are a name: of the form of names, at most 32 of them, and no reserved word.
#[tactic(auto, unfolding(sg_ast::specs::Token::is_name), using(crate::proofs::Tables::found_word_reserved))]
pub fn is_name(text: &[u8]) -> bool
    ensures { result ≡ is_name (record { text = text.now }) }
{
    is_name_form(text) && (text.len() <= NAME_BYTES && reserved_word(text).is_none())
}
