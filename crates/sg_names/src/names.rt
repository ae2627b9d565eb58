ghost use Rattle.std.specs.Prelude.{◌≡◌, ◌+◌, ◌^◌, ◌≤◌, ◌<◌, ◌++◌, false, map, length, find, None, Some, IfOk, OnOk};
ghost use Rattle.std.specs.List.{AllByRecursion};
ghost use Rattle.sg_ast.specs.declared.program.Item.TheVariants as item;
ghost use Rattle.sg_ast.specs.Limits.{most_tokens};
ghost use Rattle.sg_words.specs.Answers.{Answers};
ghost use Rattle.sg_ast.specs.Token.{same_name};
ghost use Rattle.sg_names.specs.Tables.{no_tables, is_known, constant_named, layout_named, field_named, kernel_named, constant_number_of, layout_name_of, field_name_of, kernel_name_of, axes_of};
ghost use Rattle.sg_names.specs.Declares.{constant_of, declare, fields_from};
ghost use Rattle.sg_names.specs.Names.{tables_of, is_no_size, is_no_layout, is_no_field, is_no_kernel, has_repeat, declares_twice, first_past, too_many};
ghost use Rattle.sg_names.specs.steps.Room.{AreFew};

use crate::check::{commands_in, fault_of};
use crate::fault::{NameFault, Which};
use crate::table::Table;
use crate::tables::{Constant, FieldAt, NamedConstant, NamedField, NamedLayout};
use sg_ast::{ConstDecl, FieldDecl, Item, LayoutDecl, Name, Program};
use sg_words::{Items, Memory, Stop, Ty, UnOp, apply_un};
use std::alloc::Global;
use std::marker::Model;

/// How many layouts, fields, kernels and commands a program may have.
const MOST_LAYOUTS: usize = 8;

const MOST_FIELDS: usize = 16;

const MOST_KERNELS: usize = 16;

const MOST_COMMANDS: u32 = 64;

/// The constants, layouts, fields and kernels of a program, in order of declaration.
#[derive(Drop)]
pub struct Names {
    constants: Table<NamedConstant>,
    layouts: Table<NamedLayout>,
    fields: Table<NamedField>,
    kernels: Table<Name>,
}

impl Model for Names {
    ghost use Rattle.sg_names.specs.Tables.{Tables};

    ghost Value = { Tables };

    ghost view = { λ names. record { constants = names.constants; layouts = names.layouts; fields = names.fields; kernels = names.kernels } };
}

/// The names of a program, or its first fault: that of the first item that has one, in it `Unknown`, then `Twice`, then `TooMany`.
pub fn name_tables(alloc: Global, program: &Program) -> Result<Names, Stop<NameFault>>
    requires { length program.now.items ≤ most_tokens }
    ensures { Answers result (tables_of program.now) }
{
    let mut names = Names::new(alloc);
    let mut commands = 0;
    for (place, item) in program.items.as_slice().iter().enumerate() {
        let number = place as u32 + 1;
        if let Some(fault) = fault_of(alloc, &names, commands, number, item)? {
            return Err(Stop::Refused(fault));
        }
        names.declare(alloc, item)?;
        commands += commands_in(item);
    }
    Ok(names)
}

impl Names {
    /// What the constant of this name stands for.
    pub fn constant(&self, name: &Name) -> Option<Constant>
        ensures { result ≡ constant_named self.now name.now }
    {
        self.constants.get(name).map(|named| named.constant)
    }

    /// The place of the constant of this name among the constants, from 0.
    pub fn constant_number(&self, name: &Name) -> Option<u32>
        ensures { result ≡ constant_number_of self.now name.now }
    {
        self.constants.number(name)
    }

    /// The number of the layout of this name.
    pub fn layout(&self, name: &Name) -> Option<u32>
        ensures { result ≡ layout_named self.now name.now }
    {
        self.layouts.number(name)
    }

    /// Where the field of this name is.
    pub fn field(&self, name: &Name) -> Option<FieldAt>
        ensures { result ≡ field_named self.now name.now }
    {
        self.fields.get(name).map(|named| named.at)
    }

    /// The number of the kernel of this name.
    pub fn kernel(&self, name: &Name) -> Option<u32>
        ensures { result ≡ kernel_named self.now name.now }
    {
        self.kernels.number(name)
    }

    /// The name of the layout with this number.
    pub fn layout_name(&self, number: u32) -> &Name
        requires { number < length self.now.layouts }
        ensures { layout_name_of self.now number ≡ Some result.now }
    {
        &self.layouts.at(number).name
    }

    /// The name of the field with this number.
    pub fn field_name(&self, number: u32) -> &Name
        requires { number < length self.now.fields }
        ensures { field_name_of self.now number ≡ Some result.now }
    {
        &self.fields.at(number).name
    }

    /// The name of the kernel with this number.
    pub fn kernel_name(&self, number: u32) -> &Name
        requires { number < length self.now.kernels }
        ensures { kernel_name_of self.now number ≡ Some result.now }
    {
        self.kernels.at(number)
    }

    /// How many axes the layout with this number has.
    pub fn axes(&self, layout: u32) -> u32
        requires { layout < length self.now.layouts }
        ensures { axes_of self.now layout ≡ Some result }
    {
        self.layouts.at(layout).axes
    }

    fn new(alloc: Global) -> Names
        ensures { result ≡ no_tables }
    {
        Names {
            constants: Table::new(alloc),
            layouts: Table::new(alloc),
            fields: Table::new(alloc),
            kernels: Table::new(alloc),
        }
    }

    /// Whether the name is declared, as whatever.
    pub(crate) fn knows(&self, name: &Name) -> bool
        ensures { result ≡ is_known self.now name.now }
    {
        self.constant(name).is_some()
            || self.layout(name).is_some()
            || self.field(name).is_some()
            || self.kernel(name).is_some()
    }

    /// Whether the name is no constant that serves as a size: one of type `I32`.
    pub(crate) fn lacks_size(&self, name: &Name) -> bool
        ensures { result ≡ is_no_size self.now name.now }
    {
        match self.constant(name) {
            None => true,
            Some(constant) => constant.ty != Ty::I32,
        }
    }

    /// Whether the name is no layout.
    pub(crate) fn lacks_layout(&self, name: &Name) -> bool
        ensures { result ≡ is_no_layout self.now name.now }
    {
        self.layout(name).is_none()
    }

    /// Whether the name is no field.
    pub(crate) fn lacks_field(&self, name: &Name) -> bool
        ensures { result ≡ is_no_field self.now name.now }
    {
        self.field(name).is_none()
    }

    /// Whether the name is no kernel.
    pub(crate) fn lacks_kernel(&self, name: &Name) -> bool
        ensures { result ≡ is_no_kernel self.now name.now }
    {
        self.kernel(name).is_none()
    }

    /// What there is too much of once the item is declared, where so many commands stand up to its end.
    pub(crate) fn too_many(&self, item: &Item, commands: u32) -> Option<Which>
        ensures { result ≡ too_many (declare self.now item.now) commands }
    {
        let layouts = self.layouts.len();
        let fields = self.fields.len();
        let kernels = self.kernels.len();
        match item {
            Item::Const(_) | Item::Command(_) => first_past(layouts, fields, kernels, commands),
            Item::Layout(decl) => {
                let more = decl.fields.as_slice().len();
                first_past(layouts + 1, fields + more, kernels, commands)
            }
            Item::Kernel(_) => first_past(layouts, fields, kernels + 1, commands),
        }
    }

    /// Puts what the item declares at the ends of the tables.
    fn declare(&mut self, alloc: Global, item: &Item) -> Result<(), Memory>
        requires once { declares_twice self.old item.now ≡ false }
        requires few { AreFew (declare self.old item.now) }
        ensures { OnOk result (self.new ≡ declare self.old item.now) }
    {
        match item {
            Item::Const(decl) => self.declare_constant(alloc, decl),
            Item::Layout(decl) => self.declare_layout(alloc, decl),
            Item::Kernel(decl) => self.kernels.push(alloc, decl.name.copy(alloc)?),
            Item::Command(_) => Ok(()),
        }
    }

    fn declare_constant(&mut self, alloc: Global, decl: &ConstDecl) -> Result<(), Memory>
        requires once { declares_twice self.old (item.Const decl.now) ≡ false }
        requires few { AreFew (declare self.old (item.Const decl.now)) }
        ensures { OnOk result (self.new ≡ declare self.old (item.Const decl.now)) }
    {
        let name = decl.name.copy(alloc)?;
        let constant = constant_of(decl);
        self.constants.push(alloc, NamedConstant { name, constant })
    }

    fn declare_layout(&mut self, alloc: Global, decl: &LayoutDecl) -> Result<(), Memory>
        requires once { declares_twice self.old (item.Layout decl.now) ≡ false }
        requires few { AreFew (declare self.old (item.Layout decl.now)) }
        ensures { OnOk result (self.new ≡ declare self.old (item.Layout decl.now)) }
    {
        let layout = self.layouts.len() as u32;
        let Ok(axes) = u32::try_from(decl.axes.len()) else {
            return Err(Memory);
        };
        let name = decl.name.copy(alloc)?;
        self.layouts.push(alloc, NamedLayout { name, axes })?;
        push_fields(&mut self.fields, alloc, layout, decl.fields.as_slice())
    }
}

/// The first of the four numbers that passes its limit.
fn first_past(layouts: usize, fields: usize, kernels: usize, commands: u32) -> Option<Which>
    ensures { result ≡ first_past layouts fields kernels commands }
{
    if layouts > MOST_LAYOUTS {
        Some(Which::Layouts)
    } else if fields > MOST_FIELDS {
        Some(Which::Fields)
    } else if kernels > MOST_KERNELS {
        Some(Which::Kernels)
    } else if commands > MOST_COMMANDS {
        Some(Which::Commands)
    } else {
        None
    }
}

/// What a constant stands for.
fn constant_of(decl: &ConstDecl) -> Constant
    ensures { result ≡ constant_of decl.now }
{
    let word = if decl.minus {
        apply_un(UnOp::Neg, decl.value)
    } else {
        decl.value
    };
    let ty = if decl.unsigned { Ty::U32 } else { Ty::I32 };
    Constant { word, ty }
}

/// Puts the fields of the layout with this number at the end of the table.
fn push_fields(
    fields: &mut Table<NamedField>,
    alloc: Global,
    layout: u32,
    decls: &[FieldDecl],
) -> Result<(), Memory>
    requires new { AllByRecursion (λ decl. find (λ named. same_name decl.name named.name) fields.old ≡ None) decls.now }
    requires distinct { has_repeat (map (λ decl. decl.name) decls.now) ≡ false }
    requires room { length fields.old + length decls.now < 2 ^ 32 }
    ensures { OnOk result (fields.new ≡ fields.old ++ fields_from layout (length fields.old) 0 decls.now) }
{
    for (place, decl) in decls.iter().enumerate() {
        let at = FieldAt {
            number: fields.len() as u32,
            layout,
            place: place as u32,
            ty: decl.ty,
        };
        let name = decl.name.copy(alloc)?;
        fields.push(alloc, NamedField { name, at })?;
    }
    Ok(())
}
