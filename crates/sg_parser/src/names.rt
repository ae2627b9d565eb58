//! Names, and which bytes make one.

ghost use Rattle.std.specs.Prelude.{◌≡◌, ◌||◌, bytes_eq};
ghost use Rattle.std.specs.Char.{is_ascii_digit};
ghost use Rattle.std.specs.List.{list_all, list_any};
ghost use Rattle.sg_ast.specs.Token as spec;

use sg_ast::Name;

/// The reserved words, none of which is a name.
const RESERVED: [&[u8]; 33] = [
    b"const",
    b"layout",
    b"field",
    b"kernel",
    b"for",
    b"in",
    b"if",
    b"else",
    b"let",
    b"true",
    b"false",
    b"i32",
    b"u32",
    b"bool",
    b"min",
    b"max",
    b"mulq",
    b"active",
    b"dense",
    b"hash",
    b"pointer",
    b"bitmasked",
    b"dynamic",
    b"cap",
    b"chunk",
    b"load",
    b"run",
    b"times",
    b"dump",
    b"image",
    b"stats",
    b"prune",
    b"clear",
];

/// How many bytes a name has at most.
const NAME_BYTES: usize = 32;

fn begins_name(byte: u8) -> bool
    ensures { result ≡ spec.begins_name byte }
{
    byte.is_ascii_alphabetic() || byte == b'_'
}

fn is_name_form(text: &[u8]) -> bool
    ensures { result ≡ spec.is_name_form text.now }
{
    match text {
        [first, rest @ ..] => begins_name(*first) && goes_on(rest),
        [] => false,
    }
}

fn goes_on(text: &[u8]) -> bool
    ensures { result ≡ list_all (λ byte. spec.begins_name byte || is_ascii_digit byte) text.now }
{
    text.iter()
        .all(|byte| begins_name(*byte) || byte.is_ascii_digit())
}

fn is_one_of(text: &[u8], words: &[&[u8]]) -> bool
    ensures { result ≡ list_any (λ word. bytes_eq word.now text.now) words.now }
{
    words.iter().any(|word| *word == text)
}

#[tactic(auto, unfolding(sg_ast::specs::Token::is_reserved))]
fn is_reserved(text: &[u8]) -> bool
    ensures { result ≡ spec.is_reserved text.now }
{
    is_one_of(text, &RESERVED)
}

/// Whether the bytes are those of a name: of its form, not too long, and no reserved word.
#[tactic(auto, unfolding(sg_ast::specs::Token::is_name))]
pub(crate) fn is_name(name: &Name) -> bool
    ensures { result ≡ spec.is_name name.now }
{
    let text = name.text.as_slice();
    is_name_form(text) && text.len() <= NAME_BYTES && !is_reserved(text)
}
