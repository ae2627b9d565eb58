//! What may stand somewhere in a file.

use sg_ast::{Sign, Token, Word};

/// What may stand somewhere in a file.
#[derive(Clone, Copy)]
pub enum Want {
    Sign(Sign),
    Word(Word),
    Name,
    /// A number, with or without `u`.
    Number,
    /// A number without `u`.
    Plain,
    /// A number without `u`, or the name of a constant.
    Size,
    /// `i32` or `u32`.
    FieldType,
    /// Items up to the end of the file.
    Items,
    /// A `-` or nothing.
    Minus,
    /// A bound of an image; whether a `-` stands before it.
    Bound { negative: bool },
    /// Commands up to a `}`, at least one where it says so.
    Commands { one: bool },
    /// Names behind commas, at most so many.
    MoreNames { most: u8 },
    /// Nodes up to the fields, at most so many.
    Nodes { most: u8 },
    /// Axes with sizes in parentheses.
    Sizes,
    /// Axes with sizes behind commas, at most so many.
    MoreSizes { most: u8 },
    /// Fields up to a `}`, at least one where it says so.
    Fields { one: bool },
    /// A layout's name before a `{`, or ranges.
    Domain,
    Range,
    /// Ranges behind commas, at most so many.
    MoreRanges { most: u8 },
    /// `{`, statements and `}`.
    Block,
    /// Statements up to a `}`.
    Statements,
    /// `else` and a block, or nothing.
    Else,
    /// What stands behind the name at the front of a statement.
    Written,
    /// `=`, `+=`, `|=`, `&=`, `^=`, `min=` or `max=`.
    Way,
    Expr,
    /// An expression without an operator between two.
    Operand,
    /// Operators with operands; whether a comparison went before.
    MoreOperands { compared: bool },
    /// Indices, or nothing, behind a name.
    Access,
    /// Expressions behind commas up to a `]`.
    MoreIndices,
    /// So many expressions, each behind a comma.
    MoreArguments { left: u8 },
}

/// What came of a step: a token was taken, other wants stand in the place of the one, or no form goes on.
#[derive(Clone, Copy)]
pub enum Step {
    Taken,
    Opened,
    Stopped,
}

/// Whether a token is one that may stand where a single one is wanted.
pub(crate) fn is_single(want: Want, token: &Token) -> bool {
    match (want, token) {
        (Want::Sign(wanted), Token::Sign(sign)) => wanted == *sign,
        (Want::Word(wanted), Token::Word(word)) => wanted == *word,
        (Want::Name, Token::Name(_)) => true,
        (
            Want::Number,
            Token::Number {
                value: _,
                unsigned: _,
            },
        ) => true,
        (Want::Plain, Token::Number { value: _, unsigned }) => !*unsigned,
        (Want::Size, Token::Number { value: _, unsigned }) => !*unsigned,
        (Want::Size, Token::Name(_)) => true,
        (Want::FieldType, Token::Word(Word::I32 | Word::U32)) => true,
        (Want::Bound { negative }, Token::Number { value, unsigned }) => {
            *unsigned == (*value > 2147483648) && !(negative && *value == 0)
        }
        _ => false,
    }
}
