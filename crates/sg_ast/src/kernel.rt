use crate::stmt::{RangeDecl, Stmt};
use crate::token::Name;
use sg_words::Items;

/// `kernel NAME { for VARS in DOMAIN { BODY } }`.
#[derive(Debug, Drop)]
pub struct KernelDecl {
    pub name: Name,
    pub vars: Items<Name>,
    pub domain: DomainDecl,
    pub body: Items<Stmt>,
}

/// What a kernel's loop goes over: the active coordinates of a layout, or the points of a box.
#[derive(Debug, Drop)]
pub enum DomainDecl {
    Layout(Name),
    Ranges(Items<RangeDecl>),
}
