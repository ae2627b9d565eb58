use sg_words::{BinOp, Ty, UnOp};

/// What an instruction sets a register to, without the number of the register. Where registers and places are the same, two equal
/// operations that are pure give the same word. `truth` says of a constant that its register is one of truth values.
#[derive(Clone, Copy, Debug, PartialEq, Eq)]
#[derive_where(Hash)]
pub enum Op {
    Const {
        word: u32,
        truth: bool,
    },
    Var {
        var: u32,
    },
    Bin {
        #[derive_where(skip(Hash))]
        op: BinOp,
        #[derive_where(skip(Hash))]
        ty: Ty,
        a: u32,
        b: u32,
    },
    Un {
        #[derive_where(skip(Hash))]
        op: UnOp,
        #[derive_where(skip(Hash))]
        ty: Ty,
        a: u32,
    },
    Mulq {
        a: u32,
        b: u32,
        s: u32,
    },
    Extract {
        div: u32,
        size: u32,
        from: u32,
    },
    Offset {
        high: u32,
        size: u32,
        low: u32,
    },
    Read {
        place: u32,
        layout: u32,
        field: u32,
    },
    Active {
        place: u32,
    },
    OwnRead {
        layout: u32,
        field: u32,
    },
}

/// The instruction that goes down a node.
#[derive(Clone, Copy, Debug, PartialEq, Eq, Hash)]
pub enum Descent {
    Child,
    HashChild,
    MaskBit,
    DynCell,
}

/// What an instruction sets a place to, without the number of the place.
#[derive(Clone, Copy, Debug, PartialEq, Eq, Hash)]
pub enum Step {
    Root {
        layout: u32,
    },
    Check {
        place: u32,
        axis: u32,
        extent: u32,
        index: u32,
    },
    Down {
        descent: Descent,
        place: u32,
        node: u32,
        offset: u32,
    },
}
