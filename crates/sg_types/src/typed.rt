use sg_flat::Way;
use sg_words::{BinOp, Boxed, Items, Ty, UnOp};

/// The kernels of a program in order of declaration, typed.
#[derive(Debug, Drop)]
pub struct Typed {
    pub kernels: Items<TypedKernel>,
}

/// A kernel with numbers for names. `vars` variables belong to its loop, and `types` has the type of each variable.
#[derive(Debug, Drop)]
pub struct TypedKernel {
    pub vars: u32,
    pub domain: TypedDomain,
    pub types: Items<Ty>,
    pub body: Items<TypedStmt>,
}

/// What a kernel's loop goes over: the active coordinates of the layout with this number, or the points of a box.
#[derive(Debug, Drop)]
pub enum TypedDomain {
    Walk(u32),
    Ranges(Items<TypedRange>),
}

/// The numbers from `lo` up to below `hi`.
#[derive(Debug, Drop)]
pub struct TypedRange {
    pub lo: TypedExpr,
    pub hi: TypedExpr,
}

/// A statement with its number. Statements are numbered from 1 by their first tokens; 0 is the kernel's loop.
#[cycle(typed_stmt)]
#[derive(Debug, Drop)]
pub struct TypedStmt {
    pub number: u32,
    pub kind: TypedKind,
}

/// A statement without its number. A missing `else` is an empty list and no `has_else`.
#[cycle(typed_stmt)]
#[derive(Debug, Drop)]
pub enum TypedKind {
    Let {
        var: u32,
        value: TypedExpr,
    },
    Assign {
        var: u32,
        value: TypedExpr,
    },
    Write {
        layout: u32,
        place: u32,
        index: Items<TypedExpr>,
        way: Way,
        value: TypedExpr,
    },
    If {
        cond: TypedExpr,
        yes: Items<TypedStmt>,
        no: Items<TypedStmt>,
        has_else: bool,
    },
    For {
        var: u32,
        range: TypedRange,
        body: Items<TypedStmt>,
    },
}

/// An expression with its type.
#[cycle(typed_expr)]
#[derive(Debug, Drop)]
pub struct TypedExpr {
    pub ty: Ty,
    pub form: Form,
}

/// An expression without its type. `Literal` and `Constant` hold words; `min` and `max` are operators.
#[cycle(typed_expr)]
#[derive(Debug, Drop)]
pub enum Form {
    Literal(u32),
    Constant(u32),
    Var(u32),
    Read {
        layout: u32,
        place: u32,
        index: Items<TypedExpr>,
    },
    Paren(Boxed<TypedExpr>),
    Un {
        op: UnOp,
        of: Boxed<TypedExpr>,
    },
    Bin {
        op: BinOp,
        left: Boxed<TypedExpr>,
        right: Boxed<TypedExpr>,
    },
    Mulq {
        a: Boxed<TypedExpr>,
        b: Boxed<TypedExpr>,
        s: Boxed<TypedExpr>,
    },
    Convert(Boxed<TypedExpr>),
    Active {
        layout: u32,
        index: Items<TypedExpr>,
    },
}
