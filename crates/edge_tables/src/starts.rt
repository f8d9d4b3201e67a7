// Where a file begins.

ghost use Rattle.std.specs.Prelude.{◌≡◌, ◌+◌, ◌||◌, length, map, nat_lt};
ghost use Rattle.std.specs.List.{list_any};
ghost use Rattle.jani_tree.specs.Syntax.{file_of};
ghost use Rattle.jani_loops.specs.Elements.{element_view};
ghost use Rattle.jani_meaning.specs.Elements.{elements, has_several_starts, lasting as lasting_of};
ghost use Rattle.jani_meaning.specs.Scene.{begins_anywhere, has_condition};
ghost use Rattle.name_table.specs.JaniParts.{owned_of};
ghost use Rattle.prism_translation.specs.Refused.{has_many_starts};

use jani_loops::ElementAutomaton;
use jani_tree::JaniFile;
use name_table::OwnedVar;

/// Whether a file has an initial condition, where these are its elements and its variables that are not transient:
/// a restriction, an element that may begin in several locations, or a variable that may begin with any value. (jani-model
/// specification, version 1: "Models", "restrict-initial".)
pub fn has_condition(file: &JaniFile, automata: &[ElementAutomaton], lasting: &[OwnedVar]) -> bool
    requires automata { map element_view automata.now ≡ elements (file_of file.now) }
    requires lasting { map owned_of lasting.now ≡ lasting_of (file_of file.now) }
    ensures { result ≡ has_condition (file_of file.now) }
{
    file.restrict.is_some() || begins_openly(automata, lasting)
}

/// Whether an element may begin in several locations, or a variable with any value.
fn begins_openly(automata: &[ElementAutomaton], lasting: &[OwnedVar]) -> bool
    ensures { result ≡
        (list_any (λ a. has_several_starts (element_view a)) automata.now || list_any (λ o. begins_anywhere (owned_of o)) lasting.now) }
{
    some_several(automata) || some_anywhere(lasting)
}

fn some_several(automata: &[ElementAutomaton]) -> bool
    ensures { result ≡ list_any (λ a. has_several_starts (element_view a)) automata.now }
{
    automata.iter().any(|a| a.initial().len() > 1)
}

fn some_anywhere(lasting: &[OwnedVar]) -> bool
    ensures { result ≡ list_any (λ o. begins_anywhere (owned_of o)) lasting.now }
{
    lasting.iter().any(|o| o.var.start.is_none())
}

/// Whether the initial condition of the translation would have too many parts, or one of its parts would. (This project's own rule.)
pub fn has_many_starts(file: &JaniFile, automata: &[ElementAutomaton], lasting: &[OwnedVar]) -> bool
    requires automata { map element_view automata.now ≡ elements (file_of file.now) }
    requires lasting { map owned_of lasting.now ≡ lasting_of (file_of file.now) }
    ensures { result ≡ has_many_starts (file_of file.now) }
{
    has_condition(file, automata, lasting)
        && (some_crowded(automata) || is_above_1024(file.elements.len(), lasting.len()))
}

/// Whether an automaton has more than 1,024 initial locations.
fn some_crowded(automata: &[ElementAutomaton]) -> bool
    ensures { result ≡ list_any (λ a. nat_lt 1024 (length (element_view a).initial)) automata.now }
{
    automata.iter().any(|a| a.initial().len() > 1024)
}

fn is_above_1024(a: usize, b: usize) -> bool
    ensures { result ≡ nat_lt 1024 (a + b) }
{
    a > 1024 || b > 1024 - a
}
