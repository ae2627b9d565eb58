/// The type of a word: a signed or unsigned number of 32 bits, or a truth value (0 or 1).
#[derive(Clone, Copy, Debug, PartialEq, Eq)]
pub enum Ty {
    I32,
    U32,
    Bool,
}

/// An operator on two words. `LAnd` and `LOr` are `&&` and `||`.
#[derive(Clone, Copy, Debug, PartialEq, Eq)]
pub enum BinOp {
    Add,
    Sub,
    Mul,
    Div,
    Rem,
    And,
    Or,
    Xor,
    LAnd,
    LOr,
    Shl,
    Shr,
    Min,
    Max,
    Eq,
    Ne,
    Lt,
    Le,
    Gt,
    Ge,
}

/// An operator on one word. `Not` is `~`, `LNot` is `!`.
#[derive(Clone, Copy, Debug, PartialEq, Eq)]
pub enum UnOp {
    Neg,
    Not,
    LNot,
}

/// How an accumulation joins a contribution to the old value.
#[derive(Clone, Copy, Debug, PartialEq, Eq)]
pub enum AccOp {
    Add,
    Min,
    Max,
    Or,
    And,
    Xor,
}
