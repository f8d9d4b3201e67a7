// Elements as they take part, without a loop made.

ghost use Rattle.std.specs.Prelude.{◌≡◌, map};
ghost use Rattle.jani_tree.specs.Syntax.{location_of, var_of};
ghost use Rattle.jani_loops.specs.Elements.{element_view};

use bridge_io::Named;
use jani_tree::{JaniAutomaton, JaniLocation, JaniVar};

/// An element as it takes part: its automaton, and the actions that it accepts in each of its locations besides what its edges do.
#[derive(Clone, Copy)]
pub struct ElementAutomaton<'a> {
    pub automaton: &'a JaniAutomaton,
    pub accepts: &'a [Named],
}

impl<'a> ElementAutomaton<'a> {
    /// The name of its automaton.
    pub fn name(&self) -> &'a Named
        ensures { result.now ≡ (element_view self.now).name }
    {
        &self.automaton.name
    }

    /// Its own variables.
    pub fn variables(&self) -> &'a [JaniVar]
        ensures { map var_of result.now ≡ (element_view self.now).variables }
    {
        self.automaton.variables.as_slice()
    }

    /// Its locations.
    pub fn locations(&self) -> &'a [JaniLocation]
        ensures { map location_of result.now ≡ (element_view self.now).locations }
    {
        self.automaton.locations.as_slice()
    }

    /// The locations that it may begin in.
    pub fn initial(&self) -> &'a [Named]
        ensures { result.now ≡ (element_view self.now).initial }
    {
        self.automaton.initial.as_slice()
    }
}
