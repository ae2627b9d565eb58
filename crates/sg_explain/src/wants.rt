//! What may stand behind what was read: items, layouts and commands.

use crate::want::{Step, Want};
use sg_ast::{Sign, Token, Word};
use sg_words::Memory;
use std::alloc::Global;

/// What may stand behind what was read, the next last, and how many blocks are open.
#[derive(Drop)]
pub struct Wants {
    pub list: Vec<Want>,
    pub(crate) blocks: u32,
}

/// How many blocks may be open in a kernel.
pub(crate) const MOST_BLOCKS: u32 = 16;

impl Wants {
    /// Puts wants in the place of one.
    pub(crate) fn open(&mut self, wants: &[Want], step: Step) -> Result<Step, Memory> {
        for want in wants.iter().rev() {
            self.list.push(*want)?;
        }
        Ok(step)
    }

    /// What comes of a token where something may stand.
    pub(crate) fn step(
        &mut self,
        want: Want,
        token: &Token,
        behind: Option<&Token>,
    ) -> Result<Step, Memory> {
        match want {
            Want::Items => self.item(token),
            Want::Commands { one } => self.command(one, token),
            Want::Nodes { most } => self.node(most, token),
            Want::Fields { one } => self.field(one, token),
            Want::Domain => self.domain(token, behind),
            Want::Block => self.block(token),
            Want::Statements => self.statement(token),
            Want::Written => self.written(token),
            Want::Way => self.way(token),
            Want::Else => self.otherwise(token),
            Want::Operand => self.operand(token),
            Want::MoreOperands { compared } => self.operator(compared, token),
            Want::Expr => self.open(
                &[Want::Operand, Want::MoreOperands { compared: false }],
                Step::Opened,
            ),
            Want::Range => self.open(
                &[Want::Expr, Want::Sign(Sign::DotDot), Want::Expr],
                Step::Opened,
            ),
            _ => self.more(want, token),
        }
    }

    /// An item, by its first word.
    fn item(&mut self, token: &Token) -> Result<Step, Memory> {
        match token {
            Token::Word(Word::Const) => self.open(
                &[
                    Want::Name,
                    Want::Sign(Sign::Equal),
                    Want::Minus,
                    Want::Number,
                    Want::Sign(Sign::Semicolon),
                    Want::Items,
                ],
                Step::Taken,
            ),
            Token::Word(Word::Layout) => self.open(
                &[
                    Want::Name,
                    Want::Sign(Sign::OpenParen),
                    Want::Name,
                    Want::MoreNames { most: 2 },
                    Want::Sign(Sign::CloseParen),
                    Want::Sign(Sign::OpenBrace),
                    Want::Nodes { most: 6 },
                    Want::Fields { one: true },
                    Want::Items,
                ],
                Step::Taken,
            ),
            Token::Word(Word::Kernel) => self.open(
                &[
                    Want::Name,
                    Want::Sign(Sign::OpenBrace),
                    Want::Word(Word::For),
                    Want::Name,
                    Want::MoreNames { most: 2 },
                    Want::Word(Word::In),
                    Want::Domain,
                    Want::Block,
                    Want::Sign(Sign::CloseBrace),
                    Want::Items,
                ],
                Step::Taken,
            ),
            Token::Word(Word::Times) => self.open(
                &[
                    Want::Plain,
                    Want::Sign(Sign::OpenBrace),
                    Want::Commands { one: true },
                    Want::Items,
                ],
                Step::Taken,
            ),
            _ => self.simple(token, Want::Items),
        }
    }

    /// A command other than `times`, by its first word, and then something else.
    fn simple(&mut self, token: &Token, then: Want) -> Result<Step, Memory> {
        match token {
            Token::Word(
                Word::Load | Word::Run | Word::Dump | Word::Stats | Word::Prune | Word::Clear,
            ) => {
                self.open(
                    &[Want::Name, Want::Sign(Sign::Semicolon), then],
                    Step::Taken,
                )
            }
            Token::Word(Word::Image) => self.open(
                &[
                    Want::Name,
                    Want::Bound { negative: false },
                    Want::Bound { negative: false },
                    Want::Sign(Sign::Semicolon),
                    then,
                ],
                Step::Taken,
            ),
            _ => Ok(Step::Stopped),
        }
    }

    /// The commands of a `times`, or their end.
    fn command(&mut self, one: bool, token: &Token) -> Result<Step, Memory> {
        match token {
            Token::Sign(Sign::CloseBrace) if !one => Ok(Step::Taken),
            _ => self.simple(token, Want::Commands { one: false }),
        }
    }

    /// A node, by its word; behind the first also the fields.
    fn node(&mut self, most: u8, token: &Token) -> Result<Step, Memory> {
        let then = Want::Nodes {
            most: most.saturating_sub(1),
        };
        match token {
            Token::Word(Word::Field) if most < 6 => Ok(Step::Opened),
            _ if most == 0 => Ok(Step::Stopped),
            Token::Word(Word::Dense | Word::Bitmasked) => {
                self.open(
                    &[Want::Sizes, Want::Sign(Sign::Semicolon), then],
                    Step::Taken,
                )
            }
            Token::Word(Word::Pointer | Word::Hash) => self.open(
                &[
                    Want::Sizes,
                    Want::Word(Word::Cap),
                    Want::Size,
                    Want::Sign(Sign::Semicolon),
                    then,
                ],
                Step::Taken,
            ),
            Token::Word(Word::Dynamic) => self.open(
                &[
                    Want::Sizes,
                    Want::Word(Word::Chunk),
                    Want::Size,
                    Want::Word(Word::Cap),
                    Want::Size,
                    Want::Sign(Sign::Semicolon),
                    then,
                ],
                Step::Taken,
            ),
            _ => Ok(Step::Stopped),
        }
    }

    /// The fields of a layout, or their end.
    fn field(&mut self, one: bool, token: &Token) -> Result<Step, Memory> {
        match token {
            Token::Sign(Sign::CloseBrace) if !one => Ok(Step::Taken),
            Token::Word(Word::Field) => self.open(
                &[
                    Want::Name,
                    Want::Sign(Sign::Colon),
                    Want::FieldType,
                    Want::Sign(Sign::Semicolon),
                    Want::Fields { one: false },
                ],
                Step::Taken,
            ),
            _ => Ok(Step::Stopped),
        }
    }

    /// What a kernel's loop goes over: a name before a `{` is that of a layout.
    fn domain(&mut self, token: &Token, behind: Option<&Token>) -> Result<Step, Memory> {
        match (token, behind) {
            (Token::Name(_), Some(Token::Sign(Sign::OpenBrace))) => Ok(Step::Taken),
            _ => self.open(&[Want::Range, Want::MoreRanges { most: 2 }], Step::Opened),
        }
    }
}
