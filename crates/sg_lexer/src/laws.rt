//! What is proved of the tokens, apart from the way they are found: each law is the contract of a function that
//! does nothing.

ghost use Rattle.sg_lexer.specs.Laws.{AnsweredAreTokens, TokensAreAnswered, FirstFaultIsAnswered};
ghost use Rattle.sg_lexer.specs.Laws.{AnsweredAreFew, SpelledAreReadAgain};

/// What `lex` answers are the tokens of the bytes.
pub fn answered_are_tokens()
    ensures { AnsweredAreTokens }
{}

/// The tokens of the bytes are what `lex` answers, so that no other list is.
pub fn tokens_are_answered()
    ensures { TokensAreAnswered }
{}

/// A fault is the first: all is well up to its place; and the first fault is answered.
pub fn first_fault_is_answered()
    ensures { FirstFaultIsAnswered }
{}

/// There are no more tokens than the limit.
pub fn answered_are_few()
    ensures { AnsweredAreFew }
{}

/// Tokens that are spelled with a space between each two are read again.
pub fn spelled_are_read_again()
    ensures { SpelledAreReadAgain }
{}
