// The entries of a table.

use crate::class::NameClass;
use bridge_io::Text;

/// An entry with its new name, and whether that is the old one that was kept. Contracts speak of lists of these.
pub struct Entry {
    /// what is named
    pub class: NameClass,
    /// the new name
    pub name: Text,
    /// whether the old name was kept
    pub kept: bool,
}

// Written out, so that it is proved here, and not in each crate that holds one.
impl Drop for Entry {
    fn drop(self) {
        let Entry {
            class: _,
            name,
            kept: _,
        } = self;
        drop(name);
    }
}
