//! What is wrong where reading stops in a statement or at a single token.

use crate::kinds::{
    begins_command, begins_item, compares, computes, contributes, is_sign, is_some_sign, is_word,
};
use crate::want::Want;
use sg_ast::{Sign, Token, Word};

/// What is said of a place, and what to write there.
#[derive(Clone, Copy)]
pub(crate) struct Advice {
    pub sentence: &'static str,
    pub instead: &'static str,
}

/// Where reading stops: the token there, the tokens beside it, and what may stand there.
#[derive(Clone, Copy)]
pub(crate) struct Stop<'a> {
    pub before: Option<&'a Token>,
    pub at: &'a Token,
    pub behind: Option<&'a Token>,
    pub want: Want,
}

/// What is said where a `{` is wanted.
pub(crate) fn block_advice(stop: &Stop) -> Advice {
    let at = stop.at;
    if is_word(at, Word::If) {
        Advice {
            sentence: "there is no `else if`: behind `else` stands a block",
            instead: "else { if .. { .. } }",
        }
    } else if is_sign(at, Sign::Equal) {
        Advice {
            sentence: "`=` writes, and `==` compares",
            instead: "if i == 3 { .. }",
        }
    } else if compares(at) {
        CHAINED
    } else if is_sign(at, Sign::DotDot) {
        Advice {
            sentence: "a range has two bounds, and steps by 1",
            instead: "for k in 0..4 { let n = 2 * k; .. }",
        }
    } else if is_sign(at, Sign::Comma) {
        Advice {
            sentence: "a box has at most 3 ranges, and an inner loop has one variable and one range",
            instead: "for a in 0..4 { for b in 0..4 { .. } }",
        }
    } else if is_sign(at, Sign::OpenBrace) {
        BLOCKS
    } else {
        Advice {
            sentence: "a `{` is missing before this: the statements of an `if`, an `else` or a loop stand in braces",
            instead: "if i > 1 { x[i] = 1; }",
        }
    }
}

/// What is said of a block that is too deep.
pub(crate) const BLOCKS: Advice = Advice {
    sentence: "blocks nest at most 16 deep",
    instead: "conditions that are joined by `&&`, or a second kernel",
};

/// What is said of a comparison of a comparison.
const CHAINED: Advice = Advice {
    sentence: "comparisons don't chain",
    instead: "0 < i && i < 3",
};

/// What is said where a statement is wanted.
pub(crate) fn statement_advice(at: &Token) -> Advice {
    if begins_item(at) || begins_command(at) {
        Advice {
            sentence: "a `}` is missing before this: the word begins an item or a command, and a kernel above is still open",
            instead: "}",
        }
    } else if is_word(at, Word::Else) {
        Advice {
            sentence: "no `if` ends before this `else`",
            instead: "if .. { .. } else { .. }",
        }
    } else if is_sign(at, Sign::Semicolon) {
        Advice {
            sentence: "this `;` ends nothing",
            instead: "nothing: leave it out",
        }
    } else {
        Advice {
            sentence: "no statement begins with this",
            instead: "let h = ..; h = ..; x[i] = ..; x[i] += ..; if .. { .. } for k in 0..4 { .. }",
        }
    }
}

/// What is said behind the name at the front of a statement.
pub(crate) fn written_advice(at: &Token) -> Advice {
    if contributes(at) || computes(at) {
        Advice {
            sentence: "a local is assigned by `=` alone",
            instead: "n = n + 1;",
        }
    } else if is_sign(at, Sign::OpenParen) {
        Advice {
            sentence: "nothing is called by itself: a statement is a local, an assignment, a write, `if` or `for`",
            instead: "let h = ..; h = ..; x[i] = ..; x[i] += ..; if .. { .. } for k in 0..4 { .. }",
        }
    } else {
        Advice {
            sentence: "behind a name at the front of a statement stands `=`, or the indices of a field",
            instead: "h = ..; x[i] = ..;",
        }
    }
}

/// What is said where a way of writing is wanted.
pub(crate) fn way_advice(stop: &Stop) -> Advice {
    if is_sign(stop.at, Sign::Minus) && is_some_sign(stop.behind, Sign::Equal) {
        Advice {
            sentence: "there is no `-=`: a write is `=`, `+=`, `|=`, `&=`, `^=`, `min=` or `max=`",
            instead: "x[i] += -1; or, at the iteration's own place, x[i] = x[i] - 1;",
        }
    } else if computes(stop.at) {
        Advice {
            sentence: "a write is `=`, `+=`, `|=`, `&=`, `^=`, `min=` or `max=`",
            instead: "at the iteration's own place, x[i] = x[i] * 2;",
        }
    } else {
        Advice {
            sentence: "a way of writing is wanted here: `=`, `+=`, `|=`, `&=`, `^=`, `min=` or `max=`",
            instead: "x[i] = 1;",
        }
    }
}

/// What is said where an expression is wanted.
pub(crate) fn operand_advice(at: &Token) -> Advice {
    match at {
        Token::Word(_) => Advice {
            sentence: "an expression is wanted, and this word is reserved",
            instead: "another name",
        },
        _ if is_sign(at, Sign::Plus) => Advice {
            sentence: "there is no `+` before a number",
            instead: "x[i] + 1, or 1",
        },
        _ if is_sign(at, Sign::Equal) => Advice {
            sentence: "an expression is wanted before this: `==`, `<=` and `>=` are one sign each",
            instead: "i == 3, i <= 3",
        },
        _ => Advice {
            sentence: "an expression is missing before this",
            instead: "a number, a name, a read, `active(x[i])`, a call, or one in parentheses",
        },
    }
}

/// What is said where a number is wanted.
pub(crate) fn number_advice(want: Want, at: &Token) -> Option<Advice> {
    match (want, at) {
        (Want::Number, _) => Some(Advice {
            sentence: "a constant is one number, with a `-` before it or not",
            instead: "const M = 64;",
        }),
        (
            _,
            Token::Number {
                value: _,
                unsigned: _,
            },
        ) => Some(Advice {
            sentence: "this number has no `u`",
            instead: "the number without `u`",
        }),
        (Want::Plain, _) => Some(Advice {
            sentence: "the turns of a `times` are a number: no constant and no expression",
            instead: "times 8 { run k; }",
        }),
        _ => Some(Advice {
            sentence: "a size is wanted here: a number, or the name of a constant",
            instead: "dense(i: 8); pointer(i: 8) cap 4;",
        }),
    }
}

/// What is said where a name is wanted.
pub(crate) fn name_advice(at: &Token) -> Option<Advice> {
    match at {
        Token::Word(_) => Some(Advice {
            sentence: "a name is wanted, and this word is reserved",
            instead: "another name",
        }),
        _ => None,
    }
}

/// What is said where a sign is wanted.
pub(crate) fn sign_advice(sign: Sign, stop: &Stop) -> Option<Advice> {
    let at = stop.at;
    match sign {
        Sign::Equal if is_sign(at, Sign::Colon) => Some(Advice {
            sentence: "a type isn't written here: it is that of the value",
            instead: "let x = 1;",
        }),
        Sign::CloseParen if is_sign(at, Sign::Comma) => Some(Advice {
            sentence: "too many stand here: at most 3 axes, 2 arguments of `min` and `max`, 3 of `mulq`, 1 of `i32` and `u32`",
            instead: "layout A(i, j, k), min(min(a, b), c)",
        }),
        Sign::OpenBrace if is_sign(at, Sign::OpenParen) => Some(Advice {
            sentence: "a kernel has no arguments",
            instead: "kernel k { for i in A { .. } }",
        }),
        _ if compares(at) => Some(CHAINED),
        Sign::Semicolon if computes(at) => Some(Advice {
            sentence: "one number stands here, and no expression",
            instead: "the number itself",
        }),
        Sign::DotDot => Some(Advice {
            sentence: "a `..` is missing before this: a loop goes over a range, and a kernel's own loop over ranges or a layout",
            instead: "for k in 0..4 { .. }",
        }),
        _ => None,
    }
}

/// What is said where a word is wanted.
pub(crate) fn word_advice(word: Word, at: &Token) -> Option<Advice> {
    match word {
        Word::Cap => Some(Advice {
            sentence: "this node has a cap, behind its axes or its chunk",
            instead: "pointer(i: 4) cap 2; hash(i: 4) cap 2; dynamic(i: 8) chunk 4 cap 2;",
        }),
        Word::Chunk => Some(Advice {
            sentence: "a dynamic node has a chunk and a cap",
            instead: "dynamic(i: 8) chunk 4 cap 2;",
        }),
        Word::For => Some(Advice {
            sentence: "a kernel is one loop, and all else stands in it",
            instead: "kernel k { for i in A { .. } }",
        }),
        Word::In if is_sign(at, Sign::Comma) => Some(Advice {
            sentence: "a kernel's loop has at most 3 variables, and an inner one has 1",
            instead: "for a in 0..4 { for b in 0..4 { .. } }",
        }),
        _ => None,
    }
}

/// What is missing where something is wanted, where it isn't something that may be left out.
pub(crate) fn missing(want: Want) -> Option<&'static str> {
    match want {
        Want::Sign(sign) => sign_text(sign),
        Want::Word(Word::In) => Some("`in`"),
        Want::Word(Word::For) => Some("`for`"),
        Want::Word(Word::Cap) => Some("`cap`"),
        Want::Word(Word::Chunk) => Some("`chunk`"),
        Want::Name => Some("a name"),
        Want::Number | Want::Plain | Want::Bound { negative: _ } => Some("a number"),
        Want::Size => Some("a size"),
        Want::FieldType => Some("`i32` or `u32`"),
        Want::Commands { one: true } => Some("a command"),
        Want::Commands { one: false } | Want::Fields { one: false } | Want::Statements => Some(
            "`}`",
        ),
        Want::Nodes { most: 6 } => Some("a node"),
        Want::Fields { one: true } => Some("a field"),
        Want::Domain => Some("a layout or a range"),
        Want::Range => Some("a range"),
        Want::Block => Some("a block `{ .. }`"),
        Want::Written => Some("`=`"),
        Want::Way => Some("`=`, `+=`, `|=`, `&=`, `^=`, `min=` or `max=`"),
        Want::Expr | Want::Operand => Some("an expression"),
        Want::MoreIndices => Some("`]`"),
        Want::MoreArguments { left } if left > 0 => Some("an argument"),
        _ => None,
    }
}

/// A sign that may be missing.
fn sign_text(sign: Sign) -> Option<&'static str> {
    match sign {
        Sign::Semicolon => Some("`;`"),
        Sign::OpenBrace => Some("`{`"),
        Sign::CloseBrace => Some("`}`"),
        Sign::OpenParen => Some("`(`"),
        Sign::CloseParen => Some("`)`"),
        Sign::CloseBracket => Some("`]`"),
        Sign::Colon => Some("`:`"),
        Sign::Equal => Some("`=`"),
        Sign::DotDot => Some("`..`"),
        _ => None,
    }
}
