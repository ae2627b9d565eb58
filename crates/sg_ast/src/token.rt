ghost use Rattle.std.specs.Prelude.{◌≡◌, IfOk};
ghost use Rattle.sg_ast.specs.Token.{same_name};

use sg_words::{Items, Memory};
use std::alloc::Global;

/// A name: ASCII letters, digits and `_`, not beginning with a digit, at most 32 bytes, and no reserved word.
#[derive(Debug, Drop)]
pub struct Name {
    pub text: Items<u8>,
}

impl Name {
    /// A name of its own with the same bytes. Fails if memory runs out.
    pub fn copy(&self, alloc: Global) -> Result<Name, Memory>
        ensures { IfOk result (λ copy. copy ≡ self.now) }
    {
        Ok(Name {
            text: Items::from_slice(alloc, self.text.as_slice())?,
        })
    }

    /// Whether the two names are the same bytes.
    pub fn is(&self, other: &Name) -> bool
        ensures { result ≡ same_name self.now other.now }
    {
        self.text.as_slice() == other.text.as_slice()
    }
}

/// A reserved word.
#[derive(Clone, Copy, Debug, PartialEq, Eq)]
pub enum Word {
    Const,
    Layout,
    Field,
    Kernel,
    For,
    In,
    If,
    Else,
    Let,
    True,
    False,
    I32,
    U32,
    Bool,
    Min,
    Max,
    Mulq,
    Active,
    Dense,
    Hash,
    Pointer,
    Bitmasked,
    Dynamic,
    Cap,
    Chunk,
    Load,
    Run,
    Times,
    Dump,
    Image,
    Stats,
    Prune,
    Clear,
}

/// A sign, named as it is read: `Equal` is `=`, `EqualEqual` is `==`, `Not` is `!`, `Or` is `|` and `OrOr` is `||`.
#[derive(Clone, Copy, Debug, PartialEq, Eq)]
pub enum Sign {
    OpenBrace,
    CloseBrace,
    OpenParen,
    CloseParen,
    OpenBracket,
    CloseBracket,
    Semicolon,
    Comma,
    Colon,
    DotDot,
    Equal,
    EqualEqual,
    NotEqual,
    Less,
    LessEqual,
    Greater,
    GreaterEqual,
    Plus,
    Minus,
    Star,
    Slash,
    Percent,
    And,
    Or,
    Caret,
    Tilde,
    Not,
    AndAnd,
    OrOr,
    ShiftLeft,
    ShiftRight,
    PlusEqual,
    OrEqual,
    AndEqual,
    CaretEqual,
}

/// A token. A number has its value, and whether a `u` stands after it.
#[derive(Debug, Drop)]
pub enum Token {
    Name(Name),
    Word(Word),
    Number { value: u32, unsigned: bool },
    Sign(Sign),
}

/// A token with the bytes from `start` up to below `end` that spell it, and its line, from 1.
#[derive(Debug, Drop)]
pub struct Spanned {
    pub token: Token,
    pub start: u32,
    pub end: u32,
    pub line: u32,
}

/// The tokens of a file, in order.
#[derive(Debug, Drop)]
pub struct Tokens {
    pub list: Items<Spanned>,
}
