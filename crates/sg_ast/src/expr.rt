use crate::token::Name;
use sg_words::{BinOp, Boxed, Items, UnOp};

/// An expression as it is written: parentheses are nodes of the tree.
#[derive(Debug, Drop)]
pub enum Expr {
    Number {
        value: u32,
        unsigned: bool,
    },
    Truth(bool),
    Name(Name),
    Read {
        field: Name,
        index: Items<Expr>,
    },
    Paren(Boxed<Expr>),
    Un {
        op: UnOp,
        of: Boxed<Expr>,
    },
    Bin {
        op: BinOp,
        left: Boxed<Expr>,
        right: Boxed<Expr>,
    },
    Call {
        callee: Callee,
        args: Items<Expr>,
    },
    Active {
        field: Name,
        index: Items<Expr>,
    },
}

/// What is called: `Min` and `Max` take two arguments, `Mulq` three, and the conversions `I32` and `U32` one.
#[derive(Clone, Copy, Debug, PartialEq, Eq)]
pub enum Callee {
    Min,
    Max,
    Mulq,
    I32,
    U32,
}
