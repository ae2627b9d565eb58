//! The spellings of reserved words and signs.

ghost use Rattle.std.specs.Prelude.{◌≡◌, ◌<◌, ◌≤◌, length, map, IfSome};
ghost use Rattle.sg_lexer.specs.Alphabet as spec;

use sg_ast::{Sign, Word};

const WORDS: [(&[u8], Word); 33] = [
    (b"const", Word::Const),
    (b"layout", Word::Layout),
    (b"field", Word::Field),
    (b"kernel", Word::Kernel),
    (b"for", Word::For),
    (b"in", Word::In),
    (b"if", Word::If),
    (b"else", Word::Else),
    (b"let", Word::Let),
    (b"true", Word::True),
    (b"false", Word::False),
    (b"i32", Word::I32),
    (b"u32", Word::U32),
    (b"bool", Word::Bool),
    (b"min", Word::Min),
    (b"max", Word::Max),
    (b"mulq", Word::Mulq),
    (b"active", Word::Active),
    (b"dense", Word::Dense),
    (b"hash", Word::Hash),
    (b"pointer", Word::Pointer),
    (b"bitmasked", Word::Bitmasked),
    (b"dynamic", Word::Dynamic),
    (b"cap", Word::Cap),
    (b"chunk", Word::Chunk),
    (b"load", Word::Load),
    (b"run", Word::Run),
    (b"times", Word::Times),
    (b"dump", Word::Dump),
    (b"image", Word::Image),
    (b"stats", Word::Stats),
    (b"prune", Word::Prune),
    (b"clear", Word::Clear),
];

fn lookup(mut table: &[(&[u8], Word)], text: &[u8]) -> Option<Word>
    ensures { result ≡ spec.lookup (map (λ k. (k.0.now, k.1)) table.entry.now) text.now }
{
    while let [entry, rest @ ..] = table {
        if entry.0 == text {
            return Some(entry.1);
        }
        table = rest;
    }
    None
}

/// The reserved word of this spelling.
#[tactic(auto, unfolding(crate::specs::Alphabet::reserved_word))]
pub(crate) fn reserved_word(text: &[u8]) -> Option<Word>
    ensures { result ≡ spec.reserved_word text.now }
{
    lookup(&WORDS, text)
}

/// The spelling of a sign.
pub(crate) fn sign_text(sign: Sign) -> &'static [u8]
    ensures value { result.now ≡ spec.sign_text sign }
    ensures some { 0 < length result.now }
{
    match sign {
        Sign::DotDot => b"..",
        Sign::EqualEqual => b"==",
        Sign::NotEqual => b"!=",
        Sign::LessEqual => b"<=",
        Sign::GreaterEqual => b">=",
        Sign::AndAnd => b"&&",
        Sign::OrOr => b"||",
        Sign::ShiftLeft => b"<<",
        Sign::ShiftRight => b">>",
        Sign::PlusEqual => b"+=",
        Sign::OrEqual => b"|=",
        Sign::AndEqual => b"&=",
        Sign::CaretEqual => b"^=",
        Sign::OpenBrace => b"{",
        Sign::CloseBrace => b"}",
        Sign::OpenParen => b"(",
        Sign::CloseParen => b")",
        Sign::OpenBracket => b"[",
        Sign::CloseBracket => b"]",
        Sign::Semicolon => b";",
        Sign::Comma => b",",
        Sign::Colon => b":",
        Sign::Equal => b"=",
        Sign::Less => b"<",
        Sign::Greater => b">",
        Sign::Plus => b"+",
        Sign::Minus => b"-",
        Sign::Star => b"*",
        Sign::Slash => b"/",
        Sign::Percent => b"%",
        Sign::And => b"&",
        Sign::Or => b"|",
        Sign::Caret => b"^",
        Sign::Tilde => b"~",
        Sign::Not => b"!",
    }
}

/// The longest sign that the bytes begin with.
#[tactic(auto, unfolding(crate::specs::Alphabet::sign_at))]
pub(crate) fn sign_at(bytes: &[u8]) -> Option<Sign>
    ensures value { result ≡ spec.sign_at bytes.now }
    ensures within { IfSome result (λ s. length (spec.sign_text s) ≤ length bytes.now) }
{
    match bytes {
        [b'.', b'.', ..] => Some(Sign::DotDot),
        [b'=', b'=', ..] => Some(Sign::EqualEqual),
        [b'!', b'=', ..] => Some(Sign::NotEqual),
        [b'<', b'=', ..] => Some(Sign::LessEqual),
        [b'>', b'=', ..] => Some(Sign::GreaterEqual),
        [b'&', b'&', ..] => Some(Sign::AndAnd),
        [b'|', b'|', ..] => Some(Sign::OrOr),
        [b'<', b'<', ..] => Some(Sign::ShiftLeft),
        [b'>', b'>', ..] => Some(Sign::ShiftRight),
        [b'+', b'=', ..] => Some(Sign::PlusEqual),
        [b'|', b'=', ..] => Some(Sign::OrEqual),
        [b'&', b'=', ..] => Some(Sign::AndEqual),
        [b'^', b'=', ..] => Some(Sign::CaretEqual),
        [b'{', ..] => Some(Sign::OpenBrace),
        [b'}', ..] => Some(Sign::CloseBrace),
        [b'(', ..] => Some(Sign::OpenParen),
        [b')', ..] => Some(Sign::CloseParen),
        [b'[', ..] => Some(Sign::OpenBracket),
        [b']', ..] => Some(Sign::CloseBracket),
        [b';', ..] => Some(Sign::Semicolon),
        [b',', ..] => Some(Sign::Comma),
        [b':', ..] => Some(Sign::Colon),
        [b'=', ..] => Some(Sign::Equal),
        [b'<', ..] => Some(Sign::Less),
        [b'>', ..] => Some(Sign::Greater),
        [b'+', ..] => Some(Sign::Plus),
        [b'-', ..] => Some(Sign::Minus),
        [b'*', ..] => Some(Sign::Star),
        [b'/', ..] => Some(Sign::Slash),
        [b'%', ..] => Some(Sign::Percent),
        [b'&', ..] => Some(Sign::And),
        [b'|', ..] => Some(Sign::Or),
        [b'^', ..] => Some(Sign::Caret),
        [b'~', ..] => Some(Sign::Tilde),
        [b'!', ..] => Some(Sign::Not),
        _ => None,
    }
}
