// Which elements write which variables.

ghost use Rattle.std.specs.Prelude.{◌≡◌, ◌<◌, ℕ, length, nat_eq, map, IfOk, OnOk};
ghost use Rattle.std.specs.List.{list_any};
ghost use Rattle.jani_tree.specs.Syntax as jani;
ghost use Rattle.edge_tables.specs.Elements.{some_write, is_to};
ghost use Rattle.module_parts.specs.Code.{file_in, IsReady, element_of};
ghost use Rattle.module_parts.specs.Writers.{with_writer, with_if, home_for, writers_at, writers_through};

use crate::element::Element;
use crate::entries::Names;
use jani_tree::{JaniDestination, JaniEdge, JaniWrite};
use std::alloc::{AllocError, Global};

/// The elements that write a variable: none, one, or several.
#[derive(Clone, Copy)]
pub(crate) enum Writers {
    Nobody,
    One(usize),
    Several,
}

impl Writers {
    /// These, and this element.
    fn with(self, element: usize) -> Writers
        ensures { result ≡ with_writer element self }
    {
        match self {
            Writers::Nobody => Writers::One(element),
            Writers::One(other) => {
                if other == element {
                    Writers::One(other)
                } else {
                    Writers::Several
                }
            }
            Writers::Several => Writers::Several,
        }
    }

    /// The element whose module has a global variable that these write: the one that alone writes it, the first element where
    /// none does; no module has one that several write.
    pub(crate) fn home(self) -> Option<usize>
        ensures { result ≡ home_for self }
    {
        match self {
            Writers::Nobody => Some(0),
            Writers::One(element) => Some(element),
            Writers::Several => None,
        }
    }
}

/// The writers of each variable that is not transient, by its number.
#[derive(Drop)]
pub struct WriterTable {
    writers: Vec<Writers>,
}

impl WriterTable {
    /// Those that the edges of these elements have.
    pub fn of(alloc: Global, names: &Names, elements: &[Element]) -> Result<WriterTable, AllocError>
        requires { IsReady names.now }
        ensures { IfOk result (λ t. (i : ℕ) → writers_at t i ≡ writers_through (file_in names.now) i (map element_of elements.now)) }
    {
        let mut all = WriterTable {
            writers: Vec::new(alloc),
        };
        for el in elements {
            all.add_element(names, el)?;
        }
        Ok(all)
    }

    /// The writers of the variable of this number.
    pub(crate) fn get(&self, number: usize) -> Writers
        ensures { result ≡ writers_at self.now number }
    {
        match self.writers.get(number) {
            Some(writers) => *writers,
            None => Writers::Nobody,
        }
    }

    /// Adds an element to the writers of what its edges assign: loops assign nothing.
    fn add_element(&mut self, names: &Names, el: &Element) -> Result<(), AllocError>
        requires { IsReady names.now }
        ensures { OnOk result ((i : ℕ) → writers_at self.new i ≡
            with_if (list_any (some_write (is_to (file_in names.now) i el.now.number)) (element_of el.now).automaton.edges) el.now.number (writers_at self.old i)) }
    {
        for e in el.automaton.automaton.edges.as_slice() {
            self.add_edge(names, el.number, e)?;
        }
        Ok(())
    }

    /// Adds an element to the writers of what an edge of it assigns.
    fn add_edge(&mut self, names: &Names, element: usize, e: &JaniEdge) -> Result<(), AllocError>
        requires { IsReady names.now }
        ensures { OnOk result ((i : ℕ) → writers_at self.new i ≡
            with_if (some_write (is_to (file_in names.now) i element) (jani.edge_of e.now)) element (writers_at self.old i)) }
    {
        for d in e.destinations.as_slice() {
            self.add_destination(names, element, d)?;
        }
        Ok(())
    }

    /// Adds an element to the writers of what a destination assigns.
    fn add_destination(
        &mut self,
        names: &Names,
        element: usize,
        d: &JaniDestination,
    ) -> Result<(), AllocError>
        requires { IsReady names.now }
        ensures { OnOk result ((i : ℕ) → writers_at self.new i ≡
            with_if (list_any (is_to (file_in names.now) i element) (jani.destination_of d.now).writes) element (writers_at self.old i)) }
    {
        for w in d.writes.as_slice() {
            self.add_write(names, element, w)?;
        }
        Ok(())
    }

    /// Adds an element to the writers of what it assigns, if that is not transient.
    fn add_write(&mut self, names: &Names, element: usize, w: &JaniWrite) -> Result<(), AllocError>
        requires { IsReady names.now }
        ensures { OnOk result ((i : ℕ) → writers_at self.new i ≡
            with_if (is_to (file_in names.now) i element (jani.write_of w.now)) element (writers_at self.old i)) }
    {
        match names.lasting.place(element, w.target.name.as_str()) {
            Some(number) => self.add(number, element),
            None => Ok(()),
        }
    }

    /// Adds an element to the writers of the variable of this number.
    fn add(&mut self, number: usize, element: usize) -> Result<(), AllocError>
        ensures { OnOk result ((i : ℕ) → writers_at self.new i ≡ with_if (nat_eq i number) element (writers_at self.old i)) }
    {
        self.grow(number)?;
        self.writers[number] = self.writers[number].with(element);
        Ok(())
    }

    /// Makes room for a number.
    fn grow(&mut self, number: usize) -> Result<(), AllocError>
        ensures room { OnOk result (number < length self.new.writers.items) }
        ensures same { OnOk result ((i : ℕ) → writers_at self.new i ≡ writers_at self.old i) }
    {
        'grow: while self.writers.len() <= number {
            self.writers.push(Writers::Nobody)?;
        }
        Ok(())
    }
}
