// Files of paths carried from one model to its counterpart.

ghost use Rattle.std.specs.Prelude.{IfOk};
ghost use Rattle.std.specs.Option.{IfSome};
ghost use Rattle.std.specs.List.{AllByRecursion as Each};
ghost use Rattle.path_carry.specs.Carried.{CarriedToJani, CarriedToPrism, CarriesFile};
ghost use Rattle.path_carry.specs.Kept.{AcceptsAlike, Keeps};
ghost use Rattle.carry_maps.specs.Maps.{AreSameBy, HasLabels};
ghost use Rattle.path_carry.specs.Texts.{HeaderIsLine, IsShort};

use crate::data::Carried;
use crate::paths::{path_to_jani, path_to_prism};
use bridge_io::Refused;
use carry_maps::CarryMap;
use process_core::Steps;
use row_check::{form_laws, read_path, verdict_laws};
use state_choices::GroupedSteps;
use std::alloc::Global;

/// The path of a PRISM model as a path of the JANI model that is the same by the map. `No` exactly where a state isn't one of the
/// PRISM model or a label is none of its actions, at the first such line; never `Wide` or `TooMany`. What is written is the
/// text of a path there exactly where the path is one here. Where the names of the map are short and the header there is a line, it can be
/// read again, and is accepted there exactly where the path is accepted here. `At` exactly where a line breaks the form of path files, at
/// the first such line.
pub fn carry_to_jani<S: Steps, T: Steps>(
    alloc: Global,
    prism: &S,
    jani: &T,
    map: &CarryMap,
    path: &[u8],
) -> Result<Carried, Refused>
    requires same { AreSameBy map.now (S.process prism.now) (T.process jani.now) }
    requires labels { HasLabels map.now.labels }
    ensures carried { CarriesFile (CarriedToJani (S.process prism.now) (T.process jani.now) map.now) (S.process prism.now) path.now result }
    ensures accepted { IfOk result (AcceptsAlike (S.process prism.now) (T.process jani.now) path.now) }
    ensures kept { Each (λ p. IfSome p.jani IsShort) map.now.labels → HeaderIsLine (T.process jani.now) → IfOk result (Keeps (S.process prism.now) (T.process jani.now) path.now) }
{
    form_laws();
    verdict_laws();
    match read_path(alloc, prism, path) {
        Ok(path) => match path_to_jani(alloc, prism, jani, map, &path) {
            Ok(carried) => Ok(carried),
            Err(e) => Err(Refused::Memory(e)),
        },
        Err(fail) => Err(fail),
    }
}

/// The path of a JANI model as a path of the PRISM model that is the same by the map. `No` exactly where a state isn't one of the
/// JANI model or a label is none of a pair, at the first such line; else `Wide` and `TooMany` exactly where the choices of the PRISM
/// model answer so at a state from which a step is taken, at the first such state. Of several actions for one label that of the
/// first good choice with the step is taken, and the first where there is none. What is written is the text of a path there exactly
/// where the path is one here. Where the names of the map are short and the header there is a line, it can be read again, and is accepted
/// there exactly where the path is accepted here. `At` exactly where a line breaks the form of path files, at the first such line.
pub fn carry_to_prism<S: Steps, T: GroupedSteps>(
    alloc: Global,
    jani: &S,
    prism: &T,
    map: &CarryMap,
    path: &[u8],
) -> Result<Carried, Refused>
    requires same { AreSameBy map.now (T.process prism.now) (S.process jani.now) }
    ensures carried { CarriesFile (CarriedToPrism (S.process jani.now) (T.process prism.now) map.now) (S.process jani.now) path.now result }
    ensures accepted { IfOk result (AcceptsAlike (S.process jani.now) (T.process prism.now) path.now) }
    ensures kept { Each (λ p. IsShort p.prism) map.now.labels → HeaderIsLine (T.process prism.now) → IfOk result (Keeps (S.process jani.now) (T.process prism.now) path.now) }
{
    form_laws();
    verdict_laws();
    match read_path(alloc, jani, path) {
        Ok(path) => match path_to_prism(alloc, jani, prism, map, &path) {
            Ok(carried) => Ok(carried),
            Err(e) => Err(Refused::Memory(e)),
        },
        Err(fail) => Err(fail),
    }
}
