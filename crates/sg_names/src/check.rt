//! What is wrong with an item, where the names of the items before it are known.

ghost use Rattle.std.specs.Prelude.{◌≡◌, ◌||◌, ◌≤◌, ◌<◌, ◌^◌, ◌-◌, min, map, length, IfOk};
ghost use Rattle.std.specs.List.{list_any};
ghost use Rattle.sg_ast.specs.declared.program.Item.TheVariants as item;
ghost use Rattle.sg_ast.specs.Token.{same_name};
ghost use Rattle.sg_names.specs.Limits.{most_commands};
ghost use Rattle.sg_names.specs.Tables.{is_known};
ghost use Rattle.sg_names.specs.Declares.{commands_in};
ghost use Rattle.sg_names.specs.Names.{declares_twice, fault_in};

use crate::commands::command_count;
use crate::fault::NameFault;
use crate::names::Names;
use crate::repeats::has_repeat;
use crate::uses::uses_unknown;
use sg_ast::{FieldDecl, Item, LayoutDecl, Name};
use sg_words::Memory;
use std::alloc::Global;

/// The fault of the item with this number: `Unknown`, then `Twice`, then `TooMany`. `commands` is how many commands stand before it.
pub fn fault_of(
    alloc: Global,
    names: &Names,
    commands: u32,
    number: u32,
    item: &Item,
) -> Result<Option<NameFault>, Memory>
    requires { commands ≤ most_commands }
    ensures { IfOk result (λ fault. fault ≡ fault_in names.now commands number item.now) }
{
    if uses_unknown(names, item) {
        return Ok(Some(NameFault::Unknown { item: number }));
    }
    if declares_twice(alloc, names, item)? {
        return Ok(Some(NameFault::Twice { item: number }));
    }
    match names.too_many(item, commands.saturating_add(commands_in(item))) {
        None => Ok(None),
        Some(which) => Ok(Some(NameFault::TooMany { which })),
    }
}

/// How many commands an item has; at most the greatest u32.
pub fn commands_in(item: &Item) -> u32
    ensures { result ≡ min (commands_in item.now) (2 ^ 32 - 1) }
{
    match item {
        Item::Const(_) | Item::Layout(_) | Item::Kernel(_) => 0,
        Item::Command(command) => command_count(command),
    }
}

/// Whether a name that the item declares is known or stands twice in it, or an axis stands twice in its list.
fn declares_twice(alloc: Global, names: &Names, item: &Item) -> Result<bool, Memory>
    ensures { IfOk result (λ twice. twice ≡ declares_twice names.now item.now) }
{
    match item {
        Item::Const(decl) => Ok(names.knows(&decl.name)),
        Item::Layout(decl) => layout_twice(alloc, names, decl),
        Item::Kernel(decl) => Ok(names.knows(&decl.name)),
        Item::Command(_) => Ok(false),
    }
}

fn layout_twice(alloc: Global, names: &Names, decl: &LayoutDecl) -> Result<bool, Memory>
    ensures { IfOk result (λ twice. twice ≡ declares_twice names.now (item.Layout decl.now)) }
{
    if names_twice(names, decl) {
        return Ok(true);
    }
    Ok(has_repeat(alloc, decl.fields.as_slice())? || has_repeat(alloc, decl.axes.as_slice())?)
}

/// Whether the layout's name or a field's is known, or the layout's name is that of a field.
fn names_twice(names: &Names, decl: &LayoutDecl) -> bool
    ensures { result ≡ (is_known names.now decl.now.name || (list_any (λ field. is_known names.now field.name) decl.now.fields
        || list_any (λ field. same_name decl.now.name field.name) decl.now.fields)) }
{
    let fields = decl.fields.as_slice();
    names.knows(&decl.name) || (any_known(names, fields) || is_among(&decl.name, fields))
}

fn any_known(names: &Names, fields: &[FieldDecl]) -> bool
    ensures { result ≡ list_any (λ field. is_known names.now field.name) fields.now }
{
    fields.iter().any(|field| names.knows(&field.name))
}

fn is_among(name: &Name, fields: &[FieldDecl]) -> bool
    ensures { result ≡ list_any (λ field. same_name name.now field.name) fields.now }
{
    fields.iter().any(|field| name.is(&field.name))
}
