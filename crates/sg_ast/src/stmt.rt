use crate::expr::Expr;
use crate::token::Name;
use sg_words::{AccOp, Items};

/// A statement of a kernel.
#[derive(Debug, Drop)]
pub enum Stmt {
    Let {
        name: Name,
        value: Expr,
    },
    Assign {
        name: Name,
        value: Expr,
    },
    Write {
        field: Name,
        index: Items<Expr>,
        way: WayDecl,
        value: Expr,
    },
    If {
        cond: Expr,
        yes: Items<Stmt>,
        no: Option<Items<Stmt>>,
    },
    For {
        name: Name,
        range: RangeDecl,
        body: Items<Stmt>,
    },
}

/// How a write joins its value to the cell: `=` sets it, and `+=`, `min=`, `max=`, `|=`, `&=` and `^=` accumulate.
#[derive(Clone, Copy, Debug, PartialEq, Eq)]
pub enum WayDecl {
    Own,
    Acc(AccOp),
}

/// `LO..HI`, without `HI` itself.
#[derive(Debug, Drop)]
pub struct RangeDecl {
    pub lo: Expr,
    pub hi: Expr,
}
