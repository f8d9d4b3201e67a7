//! Paths carried from JANI models.
ghost use Rattle.std.specs.Prelude.{◌≡◌, ◌∷◌, ℕ, List, [], IfErr, IfOk};
ghost use Rattle.std.specs.List.{AllByRecursion as Each};
ghost use Rattle.prism_tree.specs.Syntax as prism;
ghost use Rattle.prism_check.specs.Checked.{Checked};
ghost use Rattle.prism_check.specs.Clean.{IsClean};
ghost use Rattle.prism_check.specs.SizeFaults.{size_faults};
ghost use Rattle.prism_instance.specs.Described.{prism_description};
ghost use Rattle.jani_tree.specs.Syntax as jani;
ghost use Rattle.jani_instance.specs.Described.{jani_description};
ghost use Rattle.command_words.specs.Words as words;
ghost use Rattle.command_words.specs.Words.{carrying_of};
ghost use Rattle.command_words.specs.declared.request.Lang.TheVariants.{Jani};
ghost use Rattle.instance_start.specs.Description.{Description};
ghost use Rattle.instance_start.specs.Given.{given_by};
ghost use Rattle.model_files.specs.JaniFile.{IsReadJani};
ghost use Rattle.model_process.specs.Constants.{good_front};
ghost use Rattle.model_process.specs.Starts.{Begins, IsBehind};
ghost use Rattle.path_carry.specs.Carried.{CarriedToPrism};
ghost use Rattle.path_carry.specs.Texts.{IsShort};
ghost use Rattle.jani_to_prism.specs.Maps.{IsMapToPrism};
ghost use Rattle.model_carrying.specs.Counterparts.{IsPrismCounterpart};
ghost use Rattle.model_carrying.specs.Ends.{CarriesOn};
ghost use Rattle.model_carrying.specs.Pairs.{ArePaired, BeginsBoth, CarriesFor, CarriesOnModels, CarriesOnProcesses, IsPairToPrism, IsUntranslated, IsWrittenFor, MayBothToPrism, MayCarryToPrism, MayMeetToPrism, StartsThere, PassesSize, RefusesCounterpart, counterpart_of};
ghost use Rattle.model_carrying.specs.Values.{values_there};

use crate::ending::carry_ending;
use crate::laws::{together_law, values_law};
use crate::starting::both;
use crate::values::values_there;
use bridge_io::{Fault, List, Reason, Refused};
use carry_maps::CarryMap;
use command_words::Carrying;
use jani_check::CheckedJani;
use jani_instance::{open_constants as jani_constants, start_jani};
use jani_to_prism::{carry_law, carry_map, to_prism};
use model_process::{ClaimRefused, Ending, Unstarted, at_file, begun, good_front};
use path_carry::carry_to_prism;
use prism_check::{CheckedPrism, FlatPrism, check_prism, flatten};
use prism_instance::{described_law, open_constants as prism_constants, start_prism};
use prism_tree::PrismFile;
use process_core::{Given, StartFail, Steps};
use state_choices::GroupedSteps;
use std::alloc::{AllocError, Global};

/// How it ends on a JANI model, of which this is what reading it came to, and on the bytes of a path.
pub(crate) fn from_jani(
    alloc: Global,
    next: usize,
    carrying: &Carrying,
    model: Result<CheckedJani, Refused>,
    path: &[u8],
) -> Result<Ending, ClaimRefused>
    requires lang { carrying.now.lang ≡ Jani }
    requires behind { IsBehind 4 (carrying_of carrying.now).given next }
    ensures { (bytes : List ℕ) → IsReadJani bytes model → CarriesOn (carrying_of carrying.now) (bytes ∷ path.now ∷ []) result }
{
    let checked = match model {
        Ok(checked) => checked,
        Err(refused) => return Err(at_file(0, refused)),
    };
    on_checked(alloc, next, carrying, &checked, path)
}

/// The same of a judged file.
fn on_checked(
    alloc: Global,
    next: usize,
    carrying: &Carrying,
    checked: &CheckedJani,
    path: &[u8],
) -> Result<Ending, ClaimRefused>
    requires lang { carrying.now.lang ≡ Jani }
    requires behind { IsBehind 4 (carrying_of carrying.now).given next }
    ensures { CarriesFor (IsPrismCounterpart (jani.file_of checked.now)) (IsUntranslated (jani.file_of checked.now)) (jani_description (jani.file_of checked.now)) (carrying_of carrying.now) path.now result }
{
    described_law();
    checked.file();
    let written = match counterpart(alloc, checked) {
        Ok(written) => written,
        Err(refused) => return Err(at_file(0, refused)),
    };
    written.file();
    let map = carry_map(alloc, checked)?;
    by_map(alloc, next, carrying, checked, &written, &map, path)
}

/// The PRISM file that a judged file is translated to, with nothing left to be written out. `Err` is want of memory; or the least fault of the
/// translation; or that what it gives passes a limit.
fn counterpart(alloc: Global, checked: &CheckedJani) -> Result<FlatPrism, Refused>
    ensures ok { IfOk result (IsWrittenFor (jani.file_of checked.now)) }
    ensures refused { IfErr result (RefusesCounterpart (jani.file_of checked.now)) }
{
    let text = match to_prism(alloc, checked) {
        Ok(text) => text,
        Err(refused) => return Err(refused),
    };
    let judged = match judged(alloc, text.file) {
        Ok(judged) => judged,
        Err(refused) => return Err(refused),
    };
    let written = flatten(alloc, &judged)?;
    Ok(written)
}

/// A file without a fault of form, names or types, judged: a limit that it passes is told at the first byte.
fn judged(alloc: Global, file: PrismFile) -> Result<CheckedPrism, Refused>
    requires { IsClean (prism.file_of file) }
    ensures ok { IfOk result (λ (c : Checked). (c.file ≡ prism.file_of file) × (size_faults (prism.file_of file) ≡ [])) }
    ensures refused { IfErr result (PassesSize (prism.file_of file)) }
{
    match check_prism(alloc, file) {
        Ok(judged) => Ok(judged),
        Err(Refused::Memory(e)) => Err(Refused::Memory(e)),
        Err(Refused::At(_)) => Err(Refused::At(Fault {
            reason: Reason::TooLarge,
            at: 0,
        })),
    }
}

/// How it ends, where this is the PRISM file that the JANI file is translated to, and their states and labels go with each other so.
fn by_map(
    alloc: Global,
    next: usize,
    carrying: &Carrying,
    model: &CheckedJani,
    written: &FlatPrism,
    map: &CarryMap,
    path: &[u8],
) -> Result<Ending, ClaimRefused>
    requires lang { carrying.now.lang ≡ Jani }
    requires behind { IsBehind 4 (carrying_of carrying.now).given next }
    requires pair { (new : prism.File) × IsPairToPrism (jani.file_of model.now) new written.now }
    requires map { IsMapToPrism (jani.file_of model.now) map.now }
    requires short { Each (λ p. IsShort p.prism) map.now.labels }
    ensures { CarriesOnModels (jani_description (jani.file_of model.now)) (counterpart_of (prism_description written.now) map.now) (carrying_of carrying.now) path.now result }
{
    let given = good_front(alloc, carrying.given.as_slice())?;
    under(
        alloc,
        next,
        carrying,
        model,
        written,
        map,
        given.as_slice(),
        path,
    )
}

/// The same under these values, those before the first that is past the bound.
fn under(
    alloc: Global,
    next: usize,
    carrying: &Carrying,
    model: &CheckedJani,
    written: &FlatPrism,
    map: &CarryMap,
    given: &[Given],
    path: &[u8],
) -> Result<Ending, ClaimRefused>
    requires lang { carrying.now.lang ≡ Jani }
    requires behind { IsBehind 4 (carrying_of carrying.now).given next }
    requires pair { (new : prism.File) × IsPairToPrism (jani.file_of model.now) new written.now }
    requires map { IsMapToPrism (jani.file_of model.now) map.now }
    requires short { Each (λ p. IsShort p.prism) map.now.labels }
    requires front { given.now ≡ good_front (carrying_of carrying.now).given }
    ensures { CarriesOnModels (jani_description (jani.file_of model.now)) (counterpart_of (prism_description written.now) map.now) (carrying_of carrying.now) path.now result }
{
    described_law();
    values_law();
    together_law();
    carry_law();
    let values_there = given_there(alloc, model, written, given)?;
    let values = carrying.given.as_slice();
    let started = start_jani(alloc, model, given);
    let here = begun(alloc, next, values, given.len(), started);
    let there = start_prism(alloc, written, values_there.as_slice());
    through(alloc, here, there, map, path)
}

/// The values that are given for the constants of a file, given for those of its translation.
fn given_there(
    alloc: Global,
    model: &CheckedJani,
    written: &FlatPrism,
    given: &[Given],
) -> Result<List<Given>, AllocError>
    ensures { IfOk result (λ gs. gs ≡ values_there (jani_description (jani.file_of model.now)).constants (prism_description written.now).constants (given_by given.now)) }
{
    let here = jani_constants(alloc, model.file().constants.as_slice())?;
    let there = prism_constants(alloc, written.file().constants.as_slice())?;
    values_there(alloc, here.as_slice(), there.as_slice(), given)
}

/// How it ends with what starting each answers.
fn through<S: Steps + Drop, T: GroupedSteps + Drop>(
    alloc: Global,
    here: Result<S, Unstarted>,
    there: Result<T, StartFail>,
    map: &CarryMap,
    path: &[u8],
) -> Result<Ending, ClaimRefused>
    requires { MayMeetToPrism S.process T.process map.now here there }
    ensures { (d e : Description) (c : words.Carrying) → c.lang ≡ Jani → ArePaired d (counterpart_of e map.now) c.given → Begins S.process d 4 c.given here
        → StartsThere T.process d (counterpart_of e map.now) c.given there → CarriesOnModels d (counterpart_of e map.now) c path.now result }
{
    let both = both(alloc, here, there);
    ended(alloc, both, map, path)
}

/// How it ends with both started, or before that.
fn ended<S: Steps + Drop, T: GroupedSteps + Drop>(
    alloc: Global,
    begun: Result<(S, T), Unstarted>,
    map: &CarryMap,
    path: &[u8],
) -> Result<Ending, ClaimRefused>
    requires { MayBothToPrism S.process T.process map.now begun }
    ensures { (d e : Description) (c : words.Carrying) → c.lang ≡ Jani → BeginsBoth S.process T.process d (counterpart_of e map.now) c begun
        → CarriesOnModels d (counterpart_of e map.now) c path.now result }
{
    match begun {
        Ok((here, there)) => carried(alloc, &here, &there, map, path),
        Err(Unstarted::Ended(ending)) => Ok(ending),
        Err(Unstarted::Memory(e)) => Err(ClaimRefused::Memory(e)),
    }
}

/// How it ends with both processes.
fn carried<S: Steps, T: GroupedSteps>(
    alloc: Global,
    jani: &S,
    prism: &T,
    map: &CarryMap,
    path: &[u8],
) -> Result<Ending, ClaimRefused>
    requires { MayCarryToPrism (S.process jani.now) (T.process prism.now) map.now }
    ensures { CarriesOnProcesses (CarriedToPrism (S.process jani.now) (T.process prism.now) map.now) (S.process jani.now) (T.process prism.now) path.now result }
{
    let carried = match carry_to_prism(alloc, jani, prism, map, path) {
        Ok(carried) => carried,
        Err(refused) => return Err(at_file(1, refused)),
    };
    let ending = carry_ending(alloc, carried)?;
    Ok(ending)
}
