//! Paths carried from PRISM models.
ghost use Rattle.std.specs.Prelude.{◌≡◌, ◌∷◌, ℕ, List, [], IfOk};
ghost use Rattle.prism_names.specs.Flat.{flat};
ghost use Rattle.prism_print.specs.Same.{bare_file};
ghost use Rattle.prism_tree.specs.Syntax as prism;
ghost use Rattle.prism_instance.specs.Described.{prism_description};
ghost use Rattle.jani_tree.specs.Syntax as jani;
ghost use Rattle.jani_instance.specs.Described.{jani_description};
ghost use Rattle.short_names.specs.ShortNames.{HasShortNames};
ghost use Rattle.short_names.specs.TranslationLaws.{IsHeld};
ghost use Rattle.command_words.specs.Words as words;
ghost use Rattle.command_words.specs.Words.{carrying_of};
ghost use Rattle.command_words.specs.declared.request.Lang.TheVariants.{Prism};
ghost use Rattle.instance_start.specs.Description.{Description};
ghost use Rattle.instance_start.specs.Given.{given_by};
ghost use Rattle.model_files.specs.PrismFile.{IsReadPrism};
ghost use Rattle.model_process.specs.Constants.{good_front};
ghost use Rattle.model_process.specs.Starts.{Begins, IsBehind};
ghost use Rattle.path_carry.specs.Carried.{CarriedToJani};
ghost use Rattle.prism_to_jani.specs.Maps.{IsMapToJani};
ghost use Rattle.model_carrying.specs.Counterparts.{IsJaniCounterpart};
ghost use Rattle.model_carrying.specs.Ends.{CarriesOn};
ghost use Rattle.model_carrying.specs.Pairs.{ArePaired, BeginsBoth, CarriesFor, CarriesOnModels, CarriesOnProcesses, IsPairToJani, MayBothToJani, MayCarryToJani, MayMeetToJani, StartsThere, counterpart_of};
ghost use Rattle.model_carrying.specs.Values.{values_there};

use crate::ending::carry_ending;
use crate::laws::{together_law, values_law};
use crate::starting::both;
use crate::values::values_there;
use bridge_io::{List, Refused};
use carry_maps::CarryMap;
use command_words::Carrying;
use jani_check::CheckedJani;
use jani_instance::{open_constants as jani_constants, start_jani};
use model_process::{ClaimRefused, Ending, Unstarted, at_file, begun, good_front};
use path_carry::carry_to_jani;
use prism_check::{CheckedPrism, FlatPrism, flatten};
use prism_instance::{described_law, open_constants as prism_constants, start_prism};
use prism_to_jani::{carry_law, flat_carry_map, flat_to_jani};
use process_core::{Given, StartFail, Steps};
use short_names::{prism_names_law, translated_names_law};
use std::alloc::{AllocError, Global};

/// How it ends on a PRISM model, of which this is what reading it came to, and on the bytes of a path.
pub(crate) fn from_prism(
    alloc: Global,
    next: usize,
    carrying: &Carrying,
    model: Result<CheckedPrism, Refused>,
    path: &[u8],
) -> Result<Ending, ClaimRefused>
    requires lang { carrying.now.lang ≡ Prism }
    requires behind { IsBehind 4 (carrying_of carrying.now).given next }
    requires read { (bytes : List ℕ) × IsReadPrism bytes model }
    ensures { (bytes : List ℕ) → IsReadPrism bytes model → CarriesOn (carrying_of carrying.now) (bytes ∷ path.now ∷ []) result }
{
    prism_names_law();
    let checked = match model {
        Ok(checked) => checked,
        Err(refused) => return Err(at_file(0, refused)),
    };
    on_checked(alloc, next, carrying, &checked, path)
}

/// The same of a judged file whose names are short.
fn on_checked(
    alloc: Global,
    next: usize,
    carrying: &Carrying,
    checked: &CheckedPrism,
    path: &[u8],
) -> Result<Ending, ClaimRefused>
    requires lang { carrying.now.lang ≡ Prism }
    requires behind { IsBehind 4 (carrying_of carrying.now).given next }
    requires names { HasShortNames checked.now.file }
    ensures { CarriesFor (IsJaniCounterpart checked.now.file) (λ f. ⊥) (prism_description checked.now.file) (carrying_of carrying.now) path.now result }
{
    let written = flatten(alloc, checked)?;
    on_written(alloc, next, carrying, checked, &written, path)
}

/// The same, where this is the file with its formulas and its copies of modules written out.
fn on_written(
    alloc: Global,
    next: usize,
    carrying: &Carrying,
    checked: &CheckedPrism,
    written: &FlatPrism,
    path: &[u8],
) -> Result<Ending, ClaimRefused>
    requires lang { carrying.now.lang ≡ Prism }
    requires behind { IsBehind 4 (carrying_of carrying.now).given next }
    requires names { HasShortNames checked.now.file }
    requires written { bare_file written.now ≡ bare_file (flat checked.now.file) }
    ensures { CarriesFor (IsJaniCounterpart checked.now.file) (λ f. ⊥) (prism_description checked.now.file) (carrying_of carrying.now) path.now result }
{
    described_law();
    carry_law();
    translated_names_law();
    checked.file();
    written.file();
    let model = flat_to_jani(alloc, checked, written)?;
    held(&model);
    let map = flat_carry_map(alloc, written)?;
    by_map(alloc, next, carrying, written, &model, &map, path)
}

/// Each list of a file that the program holds has fewer than 2 ^ 64 members. Nothing is done but that they are counted.
fn held(model: &CheckedJani)
    ensures { IsHeld (jani.file_of model.now) }
{
    let file = model.file();
    let _actions = file.actions.len();
    let _constants = file.constants.len();
    let _variables = file.variables.len();
    let _automata = file.automata.len();
}

/// The same, where this is the JANI file that it is translated to, and their states and labels go with each other so.
fn by_map(
    alloc: Global,
    next: usize,
    carrying: &Carrying,
    written: &FlatPrism,
    model: &CheckedJani,
    map: &CarryMap,
    path: &[u8],
) -> Result<Ending, ClaimRefused>
    requires lang { carrying.now.lang ≡ Prism }
    requires behind { IsBehind 4 (carrying_of carrying.now).given next }
    requires pair { (old : prism.File) × IsPairToJani old written.now (jani.file_of model.now) }
    requires map { IsMapToJani written.now map.now }
    ensures { CarriesOnModels (prism_description written.now) (counterpart_of (jani_description (jani.file_of model.now)) map.now) (carrying_of carrying.now) path.now result }
{
    let given = good_front(alloc, carrying.given.as_slice())?;
    under(
        alloc,
        next,
        carrying,
        written,
        model,
        map,
        given.as_slice(),
        path,
    )
}

/// The same under these values, those before the first that is past the bound.
fn under(
    alloc: Global,
    next: usize,
    carrying: &Carrying,
    written: &FlatPrism,
    model: &CheckedJani,
    map: &CarryMap,
    given: &[Given],
    path: &[u8],
) -> Result<Ending, ClaimRefused>
    requires lang { carrying.now.lang ≡ Prism }
    requires behind { IsBehind 4 (carrying_of carrying.now).given next }
    requires pair { (old : prism.File) × IsPairToJani old written.now (jani.file_of model.now) }
    requires map { IsMapToJani written.now map.now }
    requires front { given.now ≡ good_front (carrying_of carrying.now).given }
    ensures { CarriesOnModels (prism_description written.now) (counterpart_of (jani_description (jani.file_of model.now)) map.now) (carrying_of carrying.now) path.now result }
{
    described_law();
    values_law();
    together_law();
    carry_law();
    let values_there = given_there(alloc, written, model, given)?;
    let values = carrying.given.as_slice();
    let started = start_prism(alloc, written, given);
    let here = begun(alloc, next, values, given.len(), started);
    let there = start_jani(alloc, model, values_there.as_slice());
    through(alloc, here, there, map, path)
}

/// The values that are given for the constants of a file, given for those of its translation.
fn given_there(
    alloc: Global,
    written: &FlatPrism,
    model: &CheckedJani,
    given: &[Given],
) -> Result<List<Given>, AllocError>
    ensures { IfOk result (λ gs. gs ≡ values_there (prism_description written.now).constants (jani_description (jani.file_of model.now)).constants (given_by given.now)) }
{
    let here = prism_constants(alloc, written.file().constants.as_slice())?;
    let there = jani_constants(alloc, model.file().constants.as_slice())?;
    values_there(alloc, here.as_slice(), there.as_slice(), given)
}

/// How it ends with what starting each answers.
fn through<S: Steps + Drop, T: Steps + Drop>(
    alloc: Global,
    here: Result<S, Unstarted>,
    there: Result<T, StartFail>,
    map: &CarryMap,
    path: &[u8],
) -> Result<Ending, ClaimRefused>
    requires { MayMeetToJani S.process T.process map.now here there }
    ensures { (d e : Description) (c : words.Carrying) → c.lang ≡ Prism → ArePaired d (counterpart_of e map.now) c.given → Begins S.process d 4 c.given here
        → StartsThere T.process d (counterpart_of e map.now) c.given there → CarriesOnModels d (counterpart_of e map.now) c path.now result }
{
    let both = both(alloc, here, there);
    ended(alloc, both, map, path)
}

/// How it ends with both started, or before that.
fn ended<S: Steps + Drop, T: Steps + Drop>(
    alloc: Global,
    begun: Result<(S, T), Unstarted>,
    map: &CarryMap,
    path: &[u8],
) -> Result<Ending, ClaimRefused>
    requires { MayBothToJani S.process T.process map.now begun }
    ensures { (d e : Description) (c : words.Carrying) → c.lang ≡ Prism → BeginsBoth S.process T.process d (counterpart_of e map.now) c begun
        → CarriesOnModels d (counterpart_of e map.now) c path.now result }
{
    match begun {
        Ok((here, there)) => carried(alloc, &here, &there, map, path),
        Err(Unstarted::Ended(ending)) => Ok(ending),
        Err(Unstarted::Memory(e)) => Err(ClaimRefused::Memory(e)),
    }
}

/// How it ends with both processes.
fn carried<S: Steps, T: Steps>(
    alloc: Global,
    prism: &S,
    jani: &T,
    map: &CarryMap,
    path: &[u8],
) -> Result<Ending, ClaimRefused>
    requires { MayCarryToJani (S.process prism.now) (T.process jani.now) map.now }
    ensures { CarriesOnProcesses (CarriedToJani (S.process prism.now) (T.process jani.now) map.now) (S.process prism.now) (T.process jani.now) path.now result }
{
    let carried = match carry_to_jani(alloc, prism, jani, map, path) {
        Ok(carried) => carried,
        Err(refused) => return Err(at_file(1, refused)),
    };
    let ending = carry_ending(alloc, carried)?;
    Ok(ending)
}
