// The new names of a file.

ghost use Rattle.std.specs.Prelude.{◌≡◌};
ghost use Rattle.name_table.specs.PrismAsks.{name_at, outside};
ghost use Rattle.module_parts.specs.Code.{file_in, value_in, constant_in};

use edge_tables::Places;
use jani_tree::JaniFile;
use name_rules::NameMap;
use name_table::Entry;

/// The entries of a file by their classes.
#[derive(Drop)]
pub struct Classes<'a> {
    pub constants: &'a [Entry],
    pub variables: &'a [Entry],
    pub locations: &'a [Entry],
    pub modules: &'a [Entry],
    pub labels: &'a [Entry],
    pub rewards: &'a [Entry],
    pub actions: &'a [Entry],
}

/// What the names of a file become: its entries, and the numbers of its variables that are not transient and of its constants; and
/// whether it has an initial condition.
#[derive(Drop)]
pub struct Names<'a> {
    pub file: &'a JaniFile,
    pub entries: Classes<'a>,
    pub lasting: Places<'a>,
    pub constants: NameMap<'a, usize>,
    pub has_condition: bool,
}

impl<'a> Names<'a> {
    /// What a name becomes in an expression of an element; a name that stands for nothing becomes the empty one.
    pub fn value(&self, element: usize, name: &str) -> &str
        ensures { result.now ≡ value_in self.now element name.now }
    {
        match self.lasting.place(element, name) {
            Some(i) => name_at(self.entries.variables, i),
            None => self.constant(name),
        }
    }

    /// The number that no element has: outside of elements only global names are known.
    pub fn outside(&self) -> usize
        ensures { result ≡ outside (file_in self.now) }
    {
        self.file.elements.len()
    }

    /// What the name of a constant becomes.
    fn constant(&self, name: &str) -> &str
        ensures { result.now ≡ constant_in self.now name.now }
    {
        match self.constants.get(name) {
            Some(i) => name_at(self.entries.constants, i),
            None => "",
        }
    }
}

/// The name of an entry, empty where there is none.
pub fn name_at(entries: &[Entry], i: usize) -> &str
    ensures { result.now ≡ name_at entries.now i }
{
    match entries.get(i) {
        Some(e) => e.name.as_str(),
        None => "",
    }
}
