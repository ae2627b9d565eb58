//! Bytes, and the tokens that they are.

use sg_ast::{Sign, Spanned, Token, Tokens, Word};
use sg_lexer::lex;
use sg_words::Stop;
use std::alloc::Global;
use std::test::Fail;

fn text(alloc: Global, token: &Token) -> Result<String, Fail> {
    Ok(match token {
        Token::Name(name) => {
            let name = std::str::from_utf8(name.text.as_slice())?;
            format!(in alloc; "name {name}")?
        }
        Token::Word(word) => format!(in alloc; "{word:?}")?,
        Token::Number { value, unsigned } => format!(in alloc; "{value} {unsigned}")?,
        Token::Sign(sign) => format!(in alloc; "{sign:?}")?,
    })
}

// The tokens, or why there are none.
fn answer(alloc: Global, bytes: &[u8]) -> Result<Result<Tokens, String>, Fail> {
    if 65_536 < bytes.len() {
        return Ok(Err(format!(in alloc; "too long")?));
    }
    match lex(alloc, bytes) {
        Ok(tokens) => Ok(Ok(tokens)),
        Err(Stop::Memory) => Ok(Err(format!(in alloc; "memory")?)),
        Err(Stop::Refused(fault)) => Ok(Err(format!(in alloc; "{fault:?}")?)),
    }
}

// Each token with its span and line, or the fault.
fn shown(alloc: Global, bytes: &[u8]) -> Result<String, Fail> {
    let tokens = match answer(alloc, bytes)? {
        Ok(tokens) => tokens,
        Err(fault) => return Ok(fault),
    };
    let mut all = String::new(alloc);
    for spanned in tokens.list.as_slice() {
        let Spanned {
            start,
            end,
            line,
            ..
        } = spanned;
        let token = text(alloc, &spanned.token)?;
        all.push_str(&format!(in alloc; "{token} {start}..{end} {line};")?)?;
    }
    Ok(all)
}

// How many tokens there are, or the fault.
fn counted(alloc: Global, bytes: &[u8]) -> Result<String, Fail> {
    match answer(alloc, bytes)? {
        Ok(tokens) => Ok(format!(in alloc; "{}", tokens.list.len())?),
        Err(fault) => Ok(fault),
    }
}

static SIGNS: [(&[u8], Sign); 35] = [
    (b"..", Sign::DotDot),
    (b"==", Sign::EqualEqual),
    (b"!=", Sign::NotEqual),
    (b"<=", Sign::LessEqual),
    (b">=", Sign::GreaterEqual),
    (b"&&", Sign::AndAnd),
    (b"||", Sign::OrOr),
    (b"<<", Sign::ShiftLeft),
    (b">>", Sign::ShiftRight),
    (b"+=", Sign::PlusEqual),
    (b"|=", Sign::OrEqual),
    (b"&=", Sign::AndEqual),
    (b"^=", Sign::CaretEqual),
    (b"{", Sign::OpenBrace),
    (b"}", Sign::CloseBrace),
    (b"(", Sign::OpenParen),
    (b")", Sign::CloseParen),
    (b"[", Sign::OpenBracket),
    (b"]", Sign::CloseBracket),
    (b";", Sign::Semicolon),
    (b",", Sign::Comma),
    (b":", Sign::Colon),
    (b"=", Sign::Equal),
    (b"<", Sign::Less),
    (b">", Sign::Greater),
    (b"+", Sign::Plus),
    (b"-", Sign::Minus),
    (b"*", Sign::Star),
    (b"/", Sign::Slash),
    (b"%", Sign::Percent),
    (b"&", Sign::And),
    (b"|", Sign::Or),
    (b"^", Sign::Caret),
    (b"~", Sign::Tilde),
    (b"!", Sign::Not),
];

static WORDS: [(&[u8], Word); 33] = [
    (b"const", Word::Const),
    (b"layout", Word::Layout),
    (b"field", Word::Field),
    (b"kernel", Word::Kernel),
    (b"for", Word::For),
    (b"in", Word::In),
    (b"if", Word::If),
    (b"else", Word::Else),
    (b"let", Word::Let),
    (b"true", Word::True),
    (b"false", Word::False),
    (b"i32", Word::I32),
    (b"u32", Word::U32),
    (b"bool", Word::Bool),
    (b"min", Word::Min),
    (b"max", Word::Max),
    (b"mulq", Word::Mulq),
    (b"active", Word::Active),
    (b"dense", Word::Dense),
    (b"hash", Word::Hash),
    (b"pointer", Word::Pointer),
    (b"bitmasked", Word::Bitmasked),
    (b"dynamic", Word::Dynamic),
    (b"cap", Word::Cap),
    (b"chunk", Word::Chunk),
    (b"load", Word::Load),
    (b"run", Word::Run),
    (b"times", Word::Times),
    (b"dump", Word::Dump),
    (b"image", Word::Image),
    (b"stats", Word::Stats),
    (b"prune", Word::Prune),
    (b"clear", Word::Clear),
];

static CASES: [(&[u8], &str); 44] = [
    (b"", ""),
    (b"0..4", "0 false 0..1 1;DotDot 1..3 1;4 false 3..4 1;"),
    (b"0 ..4", "0 false 0..1 1;DotDot 2..4 1;4 false 4..5 1;"),
    (b"4u..", "4 true 0..2 1;DotDot 2..4 1;"),
    (b"1u2", "BadNumber { line: 1 }"),
    (b"00", "BadNumber { line: 1 }"),
    (b"07", "BadNumber { line: 1 }"),
    (b"0x1", "BadNumber { line: 1 }"),
    (b"1_000", "BadNumber { line: 1 }"),
    (b"1uu", "BadNumber { line: 1 }"),
    (b"0u", "0 true 0..2 1;"),
    (b"2147483648", "2147483648 false 0..10 1;"),
    (b"2147483649", "BadNumber { line: 1 }"),
    (b"4294967295u", "4294967295 true 0..11 1;"),
    (b"4294967296u", "BadNumber { line: 1 }"),
    (
        b"123456789012345678901234567890123456",
        "BadNumber { line: 1 }",
    ),
    (b"a//b", "name a 0..1 1;"),
    (b"a/b", "name a 0..1 1;Slash 1..2 1;name b 2..3 1;"),
    (b"a///b\nc", "name a 0..1 1;name c 6..7 2;"),
    (b"// nothing", ""),
    (b"//\r@ still", ""),
    (b"/", "Slash 0..1 1;"),
    (b"\r\n\tu\r\n_9", "name u 3..4 2;name _9 6..8 3;"),
    (b"const N = 3;\n@", "BadByte { line: 2 }"),
    (b"//@\n\n@", "BadByte { line: 3 }"),
    (b"// \xc3\xa9\xff\0\x80", ""),
    (b"\xc3\xa9", "BadByte { line: 1 }"),
    (b"x\x80", "BadByte { line: 1 }"),
    (b"\0", "BadByte { line: 1 }"),
    (b"\x0c", "BadByte { line: 1 }"),
    (b"\"", "BadByte { line: 1 }"),
    (b".", "BadByte { line: 1 }"),
    (b"...", "BadByte { line: 1 }"),
    (b"....", "DotDot 0..2 1;DotDot 2..4 1;"),
    (b"a.b", "BadByte { line: 1 }"),
    (b"<<=", "ShiftLeft 0..2 1;Equal 2..3 1;"),
    (b">>>", "ShiftRight 0..2 1;Greater 2..3 1;"),
    (b"^^=", "Caret 0..1 1;CaretEqual 1..3 1;"),
    (b"constant", "name constant 0..8 1;"),
    (b"cons", "name cons 0..4 1;"),
    (b"u3 i320", "name u3 0..2 1;name i320 3..7 1;"),
    (
        b"abcdefghijklmnopqrstuvwxyz_23456",
        "name abcdefghijklmnopqrstuvwxyz_23456 0..32 1;",
    ),
    (b"abcdefghijklmnopqrstuvwxyz_234567", "LongName { line: 1 }"),
    (b"x//\n\n7x", "BadNumber { line: 3 }"),
];

// 65,536 times a byte
static FILLED: [(u8, &str); 4] = [
    (b' ', "0"),
    (b'/', "0"),
    (b'a', "LongName { line: 1 }"),
    (b'0', "BadNumber { line: 1 }"),
];

// bytes after 16,384 semicolons
static BEHIND: [(&[u8], &str); 7] = [
    (b";", "TooManyTokens"),
    (b"a", "TooManyTokens"),
    (b"0", "TooManyTokens"),
    (b"@", "BadByte { line: 1 }"),
    (b" // more\n", "16384"),
    (b" // more\n00", "TooManyTokens"),
    (b" // more\n.0", "BadByte { line: 2 }"),
];

#[test]
fn signs_and_words(rt: HostRuntime) -> Result<(), Fail> {
    let alloc = rt.alloc();
    for (bytes, sign) in &SIGNS {
        let want = format!(in alloc; "{sign:?} 0..{} 1;", bytes.len())?;
        assert_eq!(rt; shown(alloc, bytes)?, want);
    }
    for (bytes, word) in &WORDS {
        let want = format!(in alloc; "{word:?} 0..{} 1;", bytes.len())?;
        assert_eq!(rt; shown(alloc, bytes)?, want);
    }
    Ok(())
}

#[test]
fn tokens_and_faults(rt: HostRuntime) -> Result<(), Fail> {
    let alloc = rt.alloc();
    for (bytes, want) in &CASES {
        assert_eq!(rt; shown(alloc, bytes)?.as_str(), *want);
    }
    Ok(())
}

#[test]
fn sizes(rt: HostRuntime) -> Result<(), Fail> {
    let alloc = rt.alloc();
    for (byte, want) in &FILLED {
        assert_eq!(rt;
            counted(alloc, &vec![in alloc; *byte; 65_536]?)?.as_str(),
            *want
        );
    }
    let mut semicolons = vec![in alloc; b';'; 16_384]?;
    assert_eq!(rt; counted(alloc, &semicolons)?.as_str(), "16384");
    for (more, want) in &BEHIND {
        semicolons.extend_from_slice(more)?;
        assert_eq!(rt; counted(alloc, &semicolons)?.as_str(), *want);
        semicolons.truncate(16_384);
    }
    Ok(())
}
