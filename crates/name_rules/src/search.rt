// An order of declarations in which most come after what they use. Nothing but time rests on it: `place_all` places them in whatever
// order it is given, and says of its own turns that each stands behind what it uses. So nothing here has a contract.

use crate::declarations::Declaration;
use crate::map::NameMap;
use bridge_io::together;
use std::alloc::{AllocError, Global};

// The name that is declared first at a place is to be gone into, or all that its declarations use was gone into.
#[derive(Clone, Copy)]
enum Visit {
    Enter(usize),
    Leave(usize),
}

// What is left to do, which names were entered, by their first places, and the places that were left.
#[derive(Drop)]
struct Search {
    visits: Vec<Visit>,
    entered: Vec<bool>,
    left: Vec<usize>,
}

/// The places of these declarations as a search by depth leaves them, those of one name together: what leads round in no
/// circle is left after all that it leads to. No contract is needed: `place_all` and `are_falling` hold for any places.
pub(crate) fn by_depth(alloc: Global, all: &[Declaration]) -> Result<Vec<usize>, AllocError> {
    let (search, places) = together(Search::of(alloc, all.len()), Places::of(alloc, all))?;
    search.left_of(all, &places)
}

impl Search {
    // Nothing to do, and nothing done, with room for so many places. No contract is needed: only the order rests on it.
    fn of(alloc: Global, count: usize) -> Result<Search, AllocError> {
        let visits = Vec::with_capacity(alloc, count);
        let left = Vec::with_capacity(alloc, count);
        let entered = vec![in alloc; false; count];
        let ((visits, left), entered) = together(together(visits, left), entered)?;
        Ok(Search {
            visits,
            entered,
            left,
        })
    }

    // The places that are left once all names were gone into. No contract is needed: they are the order itself.
    fn left_of(mut self, all: &[Declaration], places: &Places) -> Result<Vec<usize>, AllocError> {
        let visited = self.visit_all(all, places);
        visited.and(Ok(self.left))
    }

    // Goes into all names. No contract is needed: only the order rests on it.
    fn visit_all(&mut self, all: &[Declaration], places: &Places) -> Result<(), AllocError> {
        for i in (0..all.len()).rev() {
            if places.first.get(all[i].name) == Some(i) {
                self.visits.push(Visit::Enter(i))?;
            }
        }
        self.run(all, places)
    }

    // Goes on until nothing is left to do. No contract is needed: only the order rests on it.
    fn run(&mut self, all: &[Declaration], places: &Places) -> Result<(), AllocError> {
        for _ in 0..usize::MAX {
            let Some(visit) = self.visits.pop() else {
                break;
            };
            self.go_on(all, places, visit)?;
        }
        Ok(())
    }

    // One step more. No contract is needed: only the order rests on it.
    fn go_on(
        &mut self,
        all: &[Declaration],
        places: &Places,
        visit: Visit,
    ) -> Result<(), AllocError> {
        match visit {
            Visit::Enter(first) => self.enter(all, places, first),
            Visit::Leave(first) => self.leave(places, first),
        }
    }

    // What is entered the first time is left later, after all that it uses. No contract is needed: only the order rests on it.
    fn enter(
        &mut self,
        all: &[Declaration],
        places: &Places,
        first: usize,
    ) -> Result<(), AllocError> {
        match self.entered.get_mut(first) {
            Some(flag) if !*flag => *flag = true,
            _ => return Ok(()),
        }
        self.visits.push(Visit::Leave(first))?;
        let mut next = Some(first);
        for _ in 0..all.len() {
            let Some(i) = next else {
                break;
            };
            self.push_uses(all, places, i)?;
            next = places.after(i);
        }
        Ok(())
    }

    // Leaves the places of a name. No contract is needed: only the order rests on it.
    fn leave(&mut self, places: &Places, first: usize) -> Result<(), AllocError> {
        let mut next = Some(first);
        for _ in 0..self.entered.len() {
            let Some(i) = next else {
                break;
            };
            self.left.push(i)?;
            next = places.after(i);
        }
        Ok(())
    }

    // The names that the declaration at a place uses are to be gone into. No contract is needed: only the order rests on it.
    fn push_uses(
        &mut self,
        all: &[Declaration],
        places: &Places,
        i: usize,
    ) -> Result<(), AllocError> {
        if let Some(declaration) = all.get(i) {
            for name in &declaration.uses {
                if let Some(first) = places.first.get(*name) {
                    self.visits.push(Visit::Enter(first))?;
                }
            }
        }
        Ok(())
    }
}

// The first place of each name, and the next of the same name after each place.
#[derive(Drop)]
struct Places<'a> {
    first: NameMap<'a, usize>,
    next: Vec<Option<usize>>,
}

impl<'a> Places<'a> {
    // Those of these declarations. No contract is needed: only the order rests on them.
    fn of(alloc: Global, all: &[Declaration<'a>]) -> Result<Places<'a>, AllocError> {
        let mut places = Places {
            first: NameMap::new(alloc),
            next: vec![in alloc; None; all.len()]?,
        };
        let noted = places.note_all(all);
        noted.and(Ok(places))
    }

    // Notes all, from the last on. No contract is needed: only the order rests on it.
    fn note_all(&mut self, all: &[Declaration<'a>]) -> Result<(), AllocError> {
        for i in (0..all.len()).rev() {
            let after = self.first.get(all[i].name);
            self.first.put(all[i].name, i)?;
            if let Some(next) = self.next.get_mut(i) {
                *next = after;
            }
        }
        Ok(())
    }

    // The next place of the same name. No contract is needed: only the order rests on it.
    fn after(&self, i: usize) -> Option<usize> {
        self.next.get(i).copied().flatten()
    }
}
