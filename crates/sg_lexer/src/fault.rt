/// Why bytes are no tokens. Lines are numbered from 1.
#[derive(Clone, Copy, Debug, PartialEq, Eq)]
pub enum LexFault {
    /// A byte that begins no token, comment or white space.
    BadByte { line: u32 },
    /// A run of letters, digits and `_` that begins with a digit and is no number.
    BadNumber { line: u32 },
    /// A name of more than 32 bytes.
    LongName { line: u32 },
    /// More than 16,384 tokens.
    TooManyTokens,
}
