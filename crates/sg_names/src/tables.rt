use crate::table::Named;
use sg_ast::{FieldDecl, Name};
use sg_words::Ty;

/// What a constant stands for. Its type is `I32` or `U32`.
#[derive(Clone, Copy, Debug, PartialEq, Eq)]
pub struct Constant {
    pub word: u32,
    pub ty: Ty,
}

/// Where a field is: its number over the whole program, its layout's number, its place among the fields of its layout, each from
/// 0, and its type.
#[derive(Clone, Copy, Debug, PartialEq, Eq)]
pub struct FieldAt {
    pub number: u32,
    pub layout: u32,
    pub place: u32,
    pub ty: Ty,
}

/// A constant with its name.
#[derive(Debug, Drop)]
pub struct NamedConstant {
    pub name: Name,
    pub constant: Constant,
}

/// A layout's name, and how many axes it has.
#[derive(Debug, Drop)]
pub struct NamedLayout {
    pub name: Name,
    pub axes: u32,
}

/// A field with its name.
#[derive(Debug, Drop)]
pub struct NamedField {
    pub name: Name,
    pub at: FieldAt,
}

impl Named for NamedConstant {
    ghost name_of = { λ named. named.name };

    fn name(&self) -> &Name {
        &self.name
    }
}

impl Named for NamedLayout {
    ghost name_of = { λ named. named.name };

    fn name(&self) -> &Name {
        &self.name
    }
}

impl Named for NamedField {
    ghost name_of = { λ named. named.name };

    fn name(&self) -> &Name {
        &self.name
    }
}

impl Named for Name {
    ghost name_of = { λ name. name };

    fn name(&self) -> &Name {
        self
    }
}

impl Named for FieldDecl {
    ghost name_of = { λ field. field.name };

    fn name(&self) -> &Name {
        &self.name
    }
}
