// Commands without action, and whether the monitor earns rewards for them.

ghost use Rattle.std.specs.Prelude.{◌≡◌, is_none, map};
ghost use Rattle.std.specs.List.{list_any};
ghost use Rattle.prism_tree.specs.Syntax as prism;
ghost use Rattle.prism_tree.specs.Syntax.{file_of};
ghost use Rattle.name_table.specs.Asks.{bodies};
ghost use Rattle.name_table.specs.Gathered.{body_in};
ghost use Rattle.jani_translation.specs.Automata.{has_items, for_silent, has_silent, earns_silently};

use crate::rewards::{Wanted, has_items};
use name_table::commands_of;
use prism_tree::{PrismCommand, PrismFile, PrismModule};

/// Whether a module has a command without action.
pub fn has_silent(m: &PrismModule) -> bool
    ensures { result ≡ has_silent (body_in m.now) }
{
    is_some_silent(commands_of(m))
}

/// Whether one of the commands has no action.
fn is_some_silent(commands: &[PrismCommand]) -> bool
    ensures { result ≡ list_any (λ c. is_none c.action) (map prism.command_of commands.now) }
{
    commands.iter().any(|c| c.action.is_none())
}

/// Whether there are items for commands without action, and such a command.
pub fn earns_silently(file: &PrismFile) -> bool
    ensures { result ≡ earns_silently (file_of file.now) }
{
    let items = has_silent_items(file);
    let commands = has_silent_modules(file);
    items && commands
}

/// Whether some structure has items for commands without action.
fn has_silent_items(file: &PrismFile) -> bool
    ensures { result ≡ has_items for_silent (file_of file.now) }
{
    let wanted = Wanted::Silent;
    has_items(&wanted, file.rewards.as_slice())
}

/// Whether some module of the file has a command without action.
fn has_silent_modules(file: &PrismFile) -> bool
    ensures { result ≡ list_any has_silent (bodies (file_of file.now)) }
{
    is_some_module_silent(file.modules.as_slice())
}

/// Whether some module has a command without action.
fn is_some_module_silent(modules: &[PrismModule]) -> bool
    ensures { result ≡ list_any has_silent (map body_in modules.now) }
{
    modules.iter().any(|m| has_silent(m))
}
