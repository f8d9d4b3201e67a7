// The numbers of variables, by the elements that they belong to and by their names.

ghost use Rattle.std.specs.Prelude.{◌≡◌, ◌<◌, List, ℕ, Some, None, length, map, bytes_eq, if◌then◌else◌, IfOk, OnOk};
ghost use Rattle.std.specs.Option.{option_or};
ghost use Rattle.jani_meaning.specs.Elements.{is_own, is_global};
ghost use Rattle.name_rules.specs.Names.{under};
ghost use Rattle.name_table.specs.JaniParts.{owned_of};
ghost use Rattle.edge_tables.specs.Places.{own_in, place_in, only_then, is_named_own, ArePlaces};

use name_rules::NameMap;
use name_table::OwnedVar;
use std::alloc::{AllocError, Global};

/// The numbers of variables in a list of them, those of global variables apart.
#[derive(Drop)]
pub struct Places<'a> {
    own: Vec<NameMap<'a, usize>>,
    global: NameMap<'a, usize>,
}

impl<'a> Places<'a> {
    /// Those in this list; where two have one name and one owner, the first counts. `Err` is want of memory.
    pub fn of(alloc: Global, vars: &[OwnedVar<'a>]) -> Result<Places<'a>, AllocError>
        ensures { IfOk result (λ p. ArePlaces p (map owned_of vars.now)) }
    {
        let mut all = Places {
            own: Vec::new(alloc),
            global: NameMap::new(alloc),
        };
        for i in 0..vars.len() {
            all.add(alloc, i, &vars[i])?;
        }
        Ok(all)
    }

    /// Adds the number of a variable, if none stands there.
    fn add(&mut self, alloc: Global, number: usize, var: &OwnedVar<'a>) -> Result<(), AllocError>
        ensures own { OnOk result ((k : ℕ) (x : List ℕ) →
            own_in self.new k x ≡ option_or (own_in self.old k x) (only_then (is_own k x (owned_of var.now)) number)) }
        ensures global { OnOk result ((x : List ℕ) →
            under self.new.global x ≡ option_or (under self.old.global x) (only_then (is_global x (owned_of var.now)) number)) }
    {
        let name = var.var.name.name.as_str();
        match var.owner {
            None => put_number(&mut self.global, name, number),
            Some(k) => self.add_own(alloc, k, name, number),
        }
    }

    /// Adds the number of a variable of an element, if none stands there.
    fn add_own(
        &mut self,
        alloc: Global,
        element: usize,
        name: &'a str,
        number: usize,
    ) -> Result<(), AllocError>
        ensures own { OnOk result ((k : ℕ) (x : List ℕ) →
            own_in self.new k x ≡ option_or (own_in self.old k x) (only_then (is_named_own element name.now k x) number)) }
        ensures global { OnOk result (self.new.global ≡ self.old.global) }
    {
        self.grow(alloc, element)?;
        put_number(&mut self.own[element], name, number)?;
        Ok(())
    }

    /// Makes room for an element.
    fn grow(&mut self, alloc: Global, element: usize) -> Result<(), AllocError>
        ensures room { OnOk result (element < length self.new.own.items) }
        ensures own { OnOk result ((k : ℕ) (x : List ℕ) → own_in self.new k x ≡ own_in self.old k x) }
        ensures global { OnOk result (self.new.global ≡ self.old.global) }
    {
        'grow: while self.own.len() <= element {
            self.own.push(NameMap::new(alloc))?;
        }
        Ok(())
    }

    /// The number of the variable that a name stands for in an element: its own one, else the global one.
    #[tactic(auto, unfolding(crate::specs::Places::place_in))]
    pub fn place(&self, element: usize, name: &str) -> Option<usize>
        ensures { result ≡ place_in self.now element name.now }
    {
        match self.own_place(element, name) {
            Some(i) => Some(i),
            None => self.global.get(name),
        }
    }

    /// The number of an element's own variable.
    fn own_place(&self, element: usize, name: &str) -> Option<usize>
        ensures { result ≡ own_in self.now element name.now }
    {
        match self.own.get(element) {
            Some(names) => names.get(name),
            None => None,
        }
    }
}

/// Puts a number under a name, if none stands there.
fn put_number<'a>(
    numbers: &mut NameMap<'a, usize>,
    name: &'a str,
    number: usize,
) -> Result<(), AllocError>
    ensures { OnOk result ((x : List ℕ) →
        under numbers.new x ≡ option_or (under numbers.old x) (only_then (bytes_eq name.now x) number)) }
{
    numbers.put_first(name, number)
}
