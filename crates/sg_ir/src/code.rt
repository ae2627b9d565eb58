use sg_flat::Domain;
use sg_words::{AccOp, BinOp, Items, Ty, UnOp};

/// Access code: the type of each register, how many places there are, the type of each variable, and the instructions in order.
/// The variables of the kernel's loop come first.
#[derive(Debug, Drop)]
pub struct Code {
    pub regs: Items<Ty>,
    pub places: u32,
    pub vars: Items<Ty>,
    pub body: Items<Inst>,
}

/// A kernel's code: `slice` says where an iteration may activate, `code` what it writes, `domain` which iterations there are.
#[derive(Debug, Drop)]
pub struct KernelCode {
    pub slice: Code,
    pub code: Code,
    pub domain: Domain,
}

/// One instruction. `to` is the register or the place that it sets. Layouts, the fields of a layout and the axes of `Check` are
/// numbered from 0, nodes from 1. An `index` has a register for each axis, and names the coordinate that is meant.
#[derive(Debug, Drop)]
pub enum Inst {
    /// The word.
    Const {
        to: u32,
        word: u32,
    },
    /// The variable's word.
    Var {
        to: u32,
        var: u32,
    },
    /// The variable becomes the word.
    Set {
        var: u32,
        from: u32,
    },
    /// The operator on two words, in the type.
    Bin {
        to: u32,
        op: BinOp,
        ty: Ty,
        a: u32,
        b: u32,
    },
    /// The operator on one word.
    Un {
        to: u32,
        op: UnOp,
        ty: Ty,
        a: u32,
    },
    /// The product of `a` and `b`, shifted down by `s`.
    Mulq {
        to: u32,
        a: u32,
        b: u32,
        s: u32,
    },
    /// The root of the layout.
    Root {
        to: u32,
        layout: u32,
    },
    /// The place, or none if the index, as an i32, isn't from 0 to below the extent of the axis.
    Check {
        to: u32,
        place: u32,
        axis: u32,
        extent: u32,
        index: u32,
    },
    /// The word divided by `div`, modulo `size`.
    Extract {
        to: u32,
        div: u32,
        size: u32,
        from: u32,
    },
    /// `high` times `size` plus `low`, modulo 2^32.
    Offset {
        to: u32,
        high: u32,
        size: u32,
        low: u32,
    },
    /// The slot of a dense or a pointer node; none if a pointer has no child.
    Child {
        to: u32,
        place: u32,
        node: u32,
        offset: u32,
    },
    /// The container of the key, or none.
    HashChild {
        to: u32,
        place: u32,
        node: u32,
        offset: u32,
    },
    /// The slot, or none if its bit is off.
    MaskBit {
        to: u32,
        place: u32,
        node: u32,
        offset: u32,
    },
    /// The element, or none past the length.
    DynCell {
        to: u32,
        place: u32,
        node: u32,
        offset: u32,
    },
    /// The value of the field at the place; 0 for none.
    ReadCell {
        to: u32,
        place: u32,
        layout: u32,
        field: u32,
        index: Items<u32>,
    },
    /// 1 if the place isn't none and its coordinate is active at the kernel's start, else 0.
    IsActive {
        to: u32,
        place: u32,
        index: Items<u32>,
    },
    /// The value of the field in the iteration's own cell.
    OwnRead {
        to: u32,
        layout: u32,
        field: u32,
    },
    /// A write of the field in the iteration's own cell, by a statement.
    OwnWrite {
        layout: u32,
        field: u32,
        from: u32,
        stmt: u32,
    },
    /// A contribution to the field at the place, by a statement.
    Acc {
        op: AccOp,
        layout: u32,
        field: u32,
        place: u32,
        from: u32,
        index: Items<u32>,
        stmt: u32,
    },
    /// A coordinate that a statement wants to be active.
    Want {
        layout: u32,
        index: Items<u32>,
        stmt: u32,
    },
    /// The first block where the word isn't 0, else the second.
    If {
        cond: u32,
        yes: Items<Inst>,
        no: Items<Inst>,
    },
    /// The body once for each number from `lo` up to below `hi`, which is the variable's word.
    For {
        var: u32,
        lo: i32,
        hi: i32,
        body: Items<Inst>,
    },
}
