// Which declarations use a name. Nothing but time rests on it: what is looked at by these places first is looked at once more until
// nothing is added, and ranks that are given by them are looked at too. So nothing here has a contract.

use crate::declarations::Declaration;
use crate::map::NameMap;
use std::alloc::{AllocError, Global};

/// The declarations that use each name, of those that have no places.
#[derive(Drop)]
pub(crate) struct Users<'a> {
    last: NameMap<'a, usize>,
    uses: Vec<Use>,
}

// The declaration at a place uses a name, and this is the number of the use of the same name before it, if there is one.
#[derive(Clone, Copy)]
struct Use {
    place: usize,
    before: Option<usize>,
}

impl<'a> Users<'a> {
    /// Those of these that are not placed. No contract is needed: nothing but time rests on them.
    pub(crate) fn of(
        alloc: Global,
        all: &[Declaration<'a>],
        placed: &[bool],
    ) -> Result<Users<'a>, AllocError> {
        let mut users = Users {
            last: NameMap::new(alloc),
            uses: Vec::new(alloc),
        };
        for (place, declaration) in all.iter().enumerate() {
            if let Some(false) = placed.get(place).copied() {
                users.add_uses(declaration, place)?;
            }
        }
        Ok(users)
    }

    // Adds the declaration at a place to the users of all that it uses. No contract is needed: nothing but time rests on it.
    fn add_uses(&mut self, declaration: &Declaration<'a>, place: usize) -> Result<(), AllocError> {
        for name in &declaration.uses {
            self.add(*name, place)?;
        }
        Ok(())
    }

    // Adds the declaration at a place to the users of a name. No contract is needed: nothing but time rests on it.
    fn add(&mut self, name: &'a str, place: usize) -> Result<(), AllocError> {
        let number = self.uses.len();
        let before = self.last.get(name);
        self.last.put(name, number)?;
        self.uses.push(Use { place, before })?;
        Ok(())
    }

    /// Adds the places of those that use a name. No contract is needed: `add_found` tries each place by itself, and `add_some` all.
    pub(crate) fn push_users(&self, name: &str, places: &mut Vec<usize>) -> Result<(), AllocError> {
        let mut next = self.last.get(name);
        for _ in 0..self.uses.len() {
            let Some(number) = next else {
                break;
            };
            let Some(found) = self.uses.get(number) else {
                break;
            };
            places.push(found.place)?;
            next = found.before;
        }
        Ok(())
    }
}
