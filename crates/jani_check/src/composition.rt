// The composition of a file: its elements and vectors.

ghost use Rattle.std.specs.Prelude.{◌≡◌, is_some, IfOk};
ghost use Rattle.std.specs.List.{list_any};
ghost use Rattle.name_rules.specs.Least.{soonest};
ghost use Rattle.jani_tree.specs.Syntax.{file_of};
ghost use Rattle.jani_check.specs.NameFaults.{composition_faults};

use crate::doubled::judge_names_of;
use bridge_io::{Fault, Named, Reason};
use jani_tree::{JaniFile, JaniVector};
use name_rules::{Judged, Rule, judge_each, sooner_if};
use std::alloc::Global;

/// The least of a fault that was found before and those of the elements and of the forms of vectors.
pub(crate) fn judge_composition(alloc: Global, file: &JaniFile, before: Option<Fault>) -> Judged
    ensures { IfOk result (λ best. best ≡ soonest before (composition_faults (file_of file.now))) }
{
    let elements = file.elements.as_slice();
    let among = judge_names_of(alloc, Reason::RepeatedAutomaton, elements, before)?;
    let count = file.elements.len();
    let some = sooner_if(count == 0, file.elements_at, Reason::Nothing, among);
    judge_each(alloc, &Forms { count }, file.vectors.as_slice(), some)
}

// The forms of vectors, which have a part for each of so many elements.
#[derive(Drop)]
struct Forms {
    count: usize,
}

impl Rule<JaniVector> for Forms {
    ghost use Rattle.jani_tree.specs.Syntax.{Vector, vector_of};
    ghost use Rattle.jani_check.specs.NameFaults.{bad_vector};

    ghost Seen = { Vector };

    ghost view = { vector_of };

    ghost faults = { λ r. bad_vector r.count };

    fn judge(&self, _alloc: Global, v: &JaniVector, best: Option<Fault>) -> Judged {
        let bad = v.parts.len() != self.count || !takes_part(v.parts.as_slice());
        Ok(sooner_if(bad, v.at, Reason::BadVector, best))
    }
}

// Whether some element takes part.
fn takes_part(parts: &[Option<Named>]) -> bool
    ensures { result ≡ list_any is_some parts.now }
{
    parts.iter().any(|part| part.is_some())
}
