//! The rules of commands.

ghost use Rattle.std.specs.Prelude.{◌≡◌, ◌≤◌, ◌+◌, length};
ghost use Rattle.std.specs.Option.{option_copied};
ghost use Rattle.sg_ast.specs.Limits.{most_tokens};
ghost use Rattle.sg_ast.specs.declared.command.Command.{out-Command};
ghost use Rattle.sg_session.specs.CommandRules as spec;

use crate::refusal::Refusal;
use sg_ast::{Command, Item, Name};
use sg_layout::{Layout, Layouts};
use sg_names::Names;

/// The most turns of a `times`.
const MOST_TIMES: u32 = 1000;

/// The most points of an image.
const MOST_IMAGE_POINTS: u32 = 1 << 20;

/// The names and the layouts of a program, by which its commands are judged.
#[derive(Clone, Copy)]
pub struct Judge<'a> {
    pub names: &'a Names,
    pub layouts: &'a Layouts,
}

impl<'a> Judge<'a> {
    ghost use Rattle.std.specs.Prelude.{◌≡◌, ◌≤◌, length};
    ghost use Rattle.std.specs.Option.{option_copied};
    ghost use Rattle.sg_ast.specs.Limits.{most_tokens};
    ghost use Rattle.sg_ast.specs.declared.command.Command.{out-Command};
    ghost use Rattle.sg_session.specs.CommandRules as spec;

    /// The refusal of the first item that has one.
    pub fn commands_refusal(&self, items: &[Item]) -> Option<Refusal>
        requires { length items.now ≤ most_tokens }
        ensures { result ≡ spec.commands_refusal self.now.names.now self.now.layouts.now.list 1 items.now }
    {
        let mut number = 1;
        for item in items {
            if let Some(refusal) = self.item_refusal(number, item) {
                return Some(refusal);
            }
            number += 1;
        }
        None
    }

    fn item_refusal(&self, number: u32, item: &Item) -> Option<Refusal>
        ensures { result ≡ spec.item_refusal self.now.names.now self.now.layouts.now.list number item.now }
    {
        match item {
            Item::Const(_) | Item::Layout(_) | Item::Kernel(_) => None,
            Item::Command(command) => self.command_refusal(number, command),
        }
    }

    fn command_refusal(&self, number: u32, command: &Command) -> Option<Refusal>
        ensures { result ≡ spec.layer_refusal self.now.names.now self.now.layouts.now.list number (out-Command command.now) }
    {
        if self.breaks_rule(command) {
            Some(Refusal::Command { item: number })
        } else if is_long(command) {
            Some(Refusal::Times)
        } else if self.has_large_image(command) {
            Some(Refusal::Image)
        } else {
            None
        }
    }

    fn breaks_rule(&self, command: &Command) -> bool
        ensures { result ≡ spec.breaks_layer self.now.names.now self.now.layouts.now.list (out-Command command.now) }
    {
        match command {
            Command::Times { number, body } => *number == 0 || self.some_breaks(body.as_slice()),
            _ => self.breaks_simple(command),
        }
    }

    fn some_breaks(&self, body: &[Command]) -> bool
        ensures { result ≡ spec.some_breaks self.now.names.now self.now.layouts.now.list body.now }
    {
        for command in body {
            if self.breaks_simple(command) {
                return true;
            }
        }
        false
    }

    fn breaks_simple(&self, command: &Command) -> bool
        ensures { result ≡ spec.breaks_simple self.now.names.now self.now.layouts.now.list (out-Command command.now) }
    {
        match command {
            Command::Image { field, lo, hi } => !has_two_axes(self.layout_of(field))
                || !(*lo < *hi),
            _ => false,
        }
    }

    fn has_large_image(&self, command: &Command) -> bool
        ensures { result ≡ spec.is_large_layer self.now.names.now self.now.layouts.now.list (out-Command command.now) }
    {
        match command {
            Command::Times { number: _, body } => self.some_is_large(body.as_slice()),
            _ => self.is_large_image(command),
        }
    }

    fn some_is_large(&self, body: &[Command]) -> bool
        ensures { result ≡ spec.some_is_large self.now.names.now self.now.layouts.now.list body.now }
    {
        for command in body {
            if self.is_large_image(command) {
                return true;
            }
        }
        false
    }

    fn is_large_image(&self, command: &Command) -> bool
        ensures { result ≡ spec.is_large_simple self.now.names.now self.now.layouts.now.list (out-Command command.now) }
    {
        match command {
            Command::Image {
                field,
                lo: _,
                hi: _,
            } => is_large(self.layout_of(field)),
            _ => false,
        }
    }

    /// The layout of the field of this name.
    fn layout_of(&self, field: &Name) -> Option<&'a Layout>
        ensures { option_copied result ≡ spec.shape_of_field self.now.names.now self.now.layouts.now.list field.now }
    {
        let at = self.names.field(field)?;
        self.layouts.list.get(at.layout as usize)
    }
}

fn is_long(command: &Command) -> bool
    ensures { result ≡ spec.is_long (out-Command command.now) }
{
    match command {
        Command::Times { number, body: _ } => *number > MOST_TIMES,
        _ => false,
    }
}

fn has_two_axes(layout: Option<&Layout>) -> bool
    ensures { result ≡ spec.has_two_axes (option_copied layout.entry) }
{
    match layout {
        Some(layout) => layout.shape().axes == 2,
        None => false,
    }
}

fn is_large(layout: Option<&Layout>) -> bool
    ensures { result ≡ spec.is_large (option_copied layout.entry) }
{
    match layout {
        Some(layout) => layout.extents().volume() > MOST_IMAGE_POINTS,
        None => false,
    }
}
