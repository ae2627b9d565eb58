//! What may stand in a kernel: blocks, statements and expressions, and single tokens anywhere.

use crate::kinds::is_sign;
use crate::want::{Step, Want, is_single};
use crate::wants::{MOST_BLOCKS, Wants};
use sg_ast::{Sign, Token, Word};
use sg_words::Memory;

impl Wants {
    /// The begin of a block.
    pub(crate) fn block(&mut self, token: &Token) -> Result<Step, Memory> {
        match token {
            Token::Sign(Sign::OpenBrace) if self.blocks < MOST_BLOCKS => {
                self.blocks += 1;
                self.open(&[Want::Statements], Step::Taken)
            }
            _ => Ok(Step::Stopped),
        }
    }

    /// A statement, by its first token, or the end of its block.
    pub(crate) fn statement(&mut self, token: &Token) -> Result<Step, Memory> {
        let then = Want::Statements;
        let end = Want::Sign(Sign::Semicolon);
        match token {
            Token::Sign(Sign::CloseBrace) => {
                self.blocks = self.blocks.saturating_sub(1);
                Ok(Step::Taken)
            }
            Token::Name(_) => self.open(&[Want::Written, Want::Expr, end, then], Step::Taken),
            Token::Word(Word::Let) => {
                self.open(
                    &[Want::Name, Want::Sign(Sign::Equal), Want::Expr, end, then],
                    Step::Taken,
                )
            }
            Token::Word(Word::If) => self.open(
                &[Want::Expr, Want::Block, Want::Else, then],
                Step::Taken,
            ),
            Token::Word(Word::For) => self.open(
                &[
                    Want::Name,
                    Want::Word(Word::In),
                    Want::Range,
                    Want::Block,
                    then,
                ],
                Step::Taken,
            ),
            _ => Ok(Step::Stopped),
        }
    }

    /// Behind the name at the front of a statement: indices and a way of writing, or `=`.
    pub(crate) fn written(&mut self, token: &Token) -> Result<Step, Memory> {
        match token {
            Token::Sign(Sign::OpenBracket) => {
                self.open(&[Want::Expr, Want::MoreIndices, Want::Way], Step::Taken)
            }
            Token::Sign(Sign::Equal) => Ok(Step::Taken),
            _ => Ok(Step::Stopped),
        }
    }

    /// `=`, `+=`, `|=`, `&=`, `^=`, `min=` or `max=`.
    pub(crate) fn way(&mut self, token: &Token) -> Result<Step, Memory> {
        match token {
            Token::Sign(
                Sign::Equal | Sign::PlusEqual | Sign::OrEqual | Sign::AndEqual | Sign::CaretEqual,
            ) => Ok(Step::Taken),
            Token::Word(Word::Min | Word::Max) => self.open(
                &[Want::Sign(Sign::Equal)],
                Step::Taken,
            ),
            _ => Ok(Step::Stopped),
        }
    }

    /// `else` and a block, or nothing.
    pub(crate) fn otherwise(&mut self, token: &Token) -> Result<Step, Memory> {
        match token {
            Token::Word(Word::Else) => self.open(&[Want::Block], Step::Taken),
            _ => Ok(Step::Opened),
        }
    }

    /// An expression without an operator between two, by its first token.
    pub(crate) fn operand(&mut self, token: &Token) -> Result<Step, Memory> {
        match token {
            Token::Number {
                value: _,
                unsigned: _,
            } => Ok(Step::Taken),
            Token::Word(Word::True | Word::False) => Ok(Step::Taken),
            Token::Name(_) => self.open(&[Want::Access], Step::Taken),
            Token::Sign(Sign::OpenParen) => {
                self.open(&[Want::Expr, Want::Sign(Sign::CloseParen)], Step::Taken)
            }
            Token::Sign(Sign::Minus | Sign::Tilde | Sign::Not) => self.open(
                &[Want::Operand],
                Step::Taken,
            ),
            Token::Word(Word::I32 | Word::U32) => self.call(0),
            Token::Word(Word::Min | Word::Max) => self.call(1),
            Token::Word(Word::Mulq) => self.call(2),
            Token::Word(Word::Active) => self.open(
                &[
                    Want::Sign(Sign::OpenParen),
                    Want::Name,
                    Want::Sign(Sign::OpenBracket),
                    Want::Expr,
                    Want::MoreIndices,
                    Want::Sign(Sign::CloseParen),
                ],
                Step::Taken,
            ),
            _ => Ok(Step::Stopped),
        }
    }

    /// A call of one argument and so many more.
    pub(crate) fn call(&mut self, more: u8) -> Result<Step, Memory> {
        self.open(
            &[
                Want::Sign(Sign::OpenParen),
                Want::Expr,
                Want::MoreArguments { left: more },
                Want::Sign(Sign::CloseParen),
            ],
            Step::Taken,
        )
    }

    /// An operator and an operand, or nothing. A comparison of what a comparison gives stands in parentheses.
    pub(crate) fn operator(&mut self, compared: bool, token: &Token) -> Result<Step, Memory> {
        let Token::Sign(sign) = token else {
            return Ok(Step::Opened);
        };
        match sign {
            Sign::AndAnd | Sign::OrOr => {
                self.open(
                    &[Want::Operand, Want::MoreOperands { compared: false }],
                    Step::Taken,
                )
            }
            Sign::EqualEqual
            | Sign::NotEqual
            | Sign::Less
            | Sign::LessEqual
            | Sign::Greater
            | Sign::GreaterEqual => {
                if compared {
                    return Ok(Step::Opened);
                }
                self.open(
                    &[Want::Operand, Want::MoreOperands { compared: true }],
                    Step::Taken,
                )
            }
            Sign::Or
            | Sign::Caret
            | Sign::And
            | Sign::ShiftLeft
            | Sign::ShiftRight
            | Sign::Plus
            | Sign::Minus
            | Sign::Star
            | Sign::Slash
            | Sign::Percent => self.open(
                &[Want::Operand, Want::MoreOperands { compared }],
                Step::Taken,
            ),
            _ => Ok(Step::Opened),
        }
    }

    /// A single token, or one more of a list.
    pub(crate) fn more(&mut self, want: Want, token: &Token) -> Result<Step, Memory> {
        let comma = is_sign(token, Sign::Comma);
        match want {
            Want::MoreNames { most } if comma && most > 0 => self.open(
                &[Want::Name, Want::MoreNames { most: most - 1 }],
                Step::Taken,
            ),
            Want::MoreSizes { most } if comma && most > 0 => self.open(
                &[
                    Want::Name,
                    Want::Sign(Sign::Colon),
                    Want::Size,
                    Want::MoreSizes { most: most - 1 },
                ],
                Step::Taken,
            ),
            Want::MoreRanges { most } if comma && most > 0 => self.open(
                &[Want::Range, Want::MoreRanges { most: most - 1 }],
                Step::Taken,
            ),
            Want::MoreIndices if comma => self.open(&[Want::Expr, Want::MoreIndices], Step::Taken),
            Want::MoreArguments { left } if comma && left > 0 => self.open(
                &[Want::Expr, Want::MoreArguments { left: left - 1 }],
                Step::Taken,
            ),
            Want::MoreArguments { left } if left > 0 => Ok(Step::Stopped),
            Want::MoreIndices => self.open(&[Want::Sign(Sign::CloseBracket)], Step::Opened),
            Want::MoreNames { most: _ }
            | Want::MoreSizes { most: _ }
            | Want::MoreRanges { most: _ }
            | Want::MoreArguments { left: _ } => Ok(Step::Opened),
            Want::Sizes => self.open(
                &[
                    Want::Sign(Sign::OpenParen),
                    Want::Name,
                    Want::Sign(Sign::Colon),
                    Want::Size,
                    Want::MoreSizes { most: 2 },
                    Want::Sign(Sign::CloseParen),
                ],
                Step::Opened,
            ),
            Want::Access => match token {
                Token::Sign(Sign::OpenBracket) => self.open(
                    &[Want::Expr, Want::MoreIndices],
                    Step::Taken,
                ),
                _ => Ok(Step::Opened),
            },
            Want::Bound { negative: false } if is_sign(token, Sign::Minus) => {
                self.open(&[Want::Bound { negative: true }], Step::Taken)
            }
            Want::Minus => Ok(if is_sign(token, Sign::Minus) {
                Step::Taken
            } else {
                Step::Opened
            }),
            _ => Ok(if is_single(want, token) {
                Step::Taken
            } else {
                Step::Stopped
            }),
        }
    }
}
