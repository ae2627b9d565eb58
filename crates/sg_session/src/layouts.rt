//! The layouts of a program.

ghost use Rattle.std.specs.Prelude.{◌≡◌, ◌≤◌, ◌<◌, ◌+◌, ◌^◌, [], ◌∷◌, true, Ok, length, map};
ghost use Rattle.sg_words.specs.Answers.{Answers, AnswersAs};
ghost use Rattle.sg_words.specs.Results.{fault_as};
ghost use Rattle.sg_ast.specs.Limits.{most_tokens};
ghost use Rattle.sg_layout.specs.Rules.{is_declared, checked_shape};
ghost use Rattle.sg_names.specs.Laws.{layout_decls};
ghost use Rattle.sg_names.specs.Names.{tables_of};
ghost use Rattle.sg_names.specs.Shapes.{shape_of};
ghost use Rattle.sg_session.specs.declared.refusal.Refusal.TheVariants as refusal;
ghost use Rattle.sg_session.specs.Compiling.{layouts_of, checked_layouts};
ghost use Rattle.sg_session.specs.Spelled.{IsSpelled};
ghost use Rattle.sg_session.specs.steps.Taking.{are_declared, TakesLayout};

use crate::refusal::Refusal;
use sg_ast::{Item, LayoutDecl, Program};
use sg_layout::{Layout, Layouts, TooLarge, check_layout, check_total};
use sg_names::Names;
use sg_words::{Items, Stop};
use std::alloc::Global;

/// The layouts that a program declares, in order; or the fault of the first that has one, and after all of them that they have too many
/// storage words.
#[tactic(auto, unfolding(crate::specs::Compiling::layouts_of))]
pub fn layouts_of(alloc: Global, program: &Program, names: &Names) -> Result<Layouts, Stop<Refusal>>
    requires spelled { IsSpelled program.now }
    requires names { tables_of program.now ≡ Ok names.now }
    ensures { AnswersAs (λ layouts. layouts.list) result (layouts_of names.now program.now) }
{
    let layouts = checked_layouts(alloc, program.items.as_slice(), names)?;
    match check_total(&layouts) {
        Ok(()) => Ok(layouts),
        Err(TooLarge) => Err(Stop::Refused(Refusal::Words)),
    }
}

/// The layouts that items declare, each with its number from 0.
fn checked_layouts(alloc: Global, items: &[Item], names: &Names) -> Result<Layouts, Stop<Refusal>>
    requires declared { are_declared names.now items.now ≡ true }
    requires few { length items.now ≤ most_tokens }
    ensures { AnswersAs (λ layouts. layouts.list) result
        (checked_layouts 0 (map (shape_of names.now) (layout_decls items.now))) }
{
    let mut list = Items::new(alloc);
    for item in items {
        take_layout(alloc, names, item, &mut list)?;
    }
    Ok(Layouts { list })
}

/// Adds the layout that an item declares, if it declares one.
fn take_layout(
    alloc: Global,
    names: &Names,
    item: &Item,
    list: &mut Items<Layout>,
) -> Result<(), Stop<Refusal>>
    requires declared { are_declared names.now (item.now ∷ []) ≡ true }
    requires few { length list.old < 2 ^ 32 }
    ensures takes { TakesLayout names.now item.now list.old list.new result }
    ensures few { length list.new ≤ length list.old + 1 }
{
    match item {
        Item::Const(_) => Ok(()),
        Item::Kernel(_) => Ok(()),
        Item::Command(_) => Ok(()),
        Item::Layout(decl) => {
            let number = list.len() as u32;
            match checked_layout(alloc, number, names, decl) {
                Ok(layout) => {
                    list.push(layout)?;
                    Ok(())
                }
                Err(why) => Err(why),
            }
        }
    }
}

/// A declared layout with this number.
fn checked_layout(
    alloc: Global,
    number: u32,
    names: &Names,
    decl: &LayoutDecl,
) -> Result<Layout, Stop<Refusal>>
    requires { is_declared (shape_of names.now decl.now) ≡ true }
    ensures { Answers result (fault_as (refusal.Layout number) (checked_shape (shape_of names.now decl.now))) }
{
    let shape = names.shape(alloc, decl)?;
    match check_layout(alloc, &shape) {
        Ok(layout) => Ok(layout),
        Err(Stop::Refused(fault)) => Err(Stop::Refused(Refusal::Layout {
            layout: number,
            fault,
        })),
        Err(Stop::Memory) => Err(Stop::Memory),
    }
}
