//! What commands need, and how many they are.

ghost use Rattle.std.specs.Prelude.{◌≡◌, ◌^◌, ◌-◌, min, map, sum};
ghost use Rattle.std.specs.List.{list_any};
ghost use Rattle.sg_ast.specs.declared.program.Item.TheVariants as item;
ghost use Rattle.sg_names.specs.Declares.{command_count};
ghost use Rattle.sg_names.specs.Names.{uses_unknown};

use crate::names::Names;
use sg_ast::Command;

/// Whether a command names nothing of the kind that it needs.
#[cycle(needs)]
pub fn needs_unknown(names: &Names, command: &Command) -> bool
    ensures { result ≡ uses_unknown names.now (item.Command command.now) }
{
    match command {
        Command::Load(field) | Command::Dump(field) | Command::Image { field, .. } => {
            names.lacks_field(field)
        }
        Command::Run(kernel) => names.lacks_kernel(kernel),
        Command::Times { body, .. } => any_needs_unknown(names, body.as_slice()),
        Command::Stats(layout) | Command::Prune(layout) | Command::Clear(layout) => {
            names.lacks_layout(layout)
        }
    }
}

#[cycle(needs)]
fn any_needs_unknown(names: &Names, body: &[Command]) -> bool
    ensures { result ≡ list_any (λ command. uses_unknown names.now (item.Command command)) body.now }
{
    for command in body {
        if needs_unknown(names, command) {
            return true;
        }
    }
    false
}

/// How many commands a command is, those inside counted; at most the greatest u32.
#[cycle(counts)]
pub fn command_count(command: &Command) -> u32
    ensures { result ≡ min (command_count command.now) (2 ^ 32 - 1) }
{
    match command {
        Command::Times { body, .. } => body_count(body.as_slice()).saturating_add(1),
        _ => 1,
    }
}

#[cycle(counts)]
fn body_count(body: &[Command]) -> u32
    ensures { result ≡ min (sum (map command_count body.now)) (2 ^ 32 - 1) }
{
    let mut count = 0u32;
    for command in body {
        count = count.saturating_add(command_count(command));
    }
    count
}
