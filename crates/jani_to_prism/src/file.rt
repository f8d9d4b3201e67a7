// The file that a JANI file is translated to, under its new names.

ghost use Rattle.std.specs.Prelude.{◌≡◌, ℕ, map, IfOk};
ghost use Rattle.std.specs.List.{All};
ghost use Rattle.std.specs.Option.{option_map};
ghost use Rattle.op_trees.specs.Tree.{tree};
ghost use Rattle.prism_tree.specs.Syntax as prism;
ghost use Rattle.process_core.specs.Instance.{numbered};
ghost use Rattle.prism_targets.specs.Conditions.{condition};
ghost use Rattle.prism_targets.specs.Elements.{elements, lasting_variables};
ghost use Rattle.prism_targets.specs.Targets.{targets};
ghost use Rattle.prism_targets.specs.Translated.{translated_by};
ghost use Rattle.prism_targets.specs.Code.{element_served};
ghost use Rattle.prism_targets.specs.Serving.{target_in, served_in, IsServing};
ghost use Rattle.jani_meaning.specs.Elements.{lasting as lasting_of_file, labels as labels_of, structures as structures_of};
ghost use Rattle.name_table.specs.JaniParts.{owned_of};
ghost use Rattle.gathering.specs.Lists.{list_for};
ghost use Rattle.prism_modules.specs.Code.{file_in, names_in, IsReady, element_of, IsElement, HasActions, lasting_of};
ghost use Rattle.jani_to_prism.specs.Gains.{gain_of, gains_of};
ghost use Rattle.prism_modules.specs.Homes.{AreWriters};
ghost use Rattle.prism_modules.specs.Gathered.{AreGathered};
ghost use Rattle.prism_modules.specs.Shapes.{FitElements};
ghost use Rattle.jani_to_prism.specs.Given.{AreGiven};
ghost use Rattle.jani_to_prism.specs.Parts.{globals_in, modules_in, labels_in, rewards_in};

use crate::gains::{Gain, gains};
use crate::given::GivenTable;
use crate::initial::condition;
use crate::labels::labels;
use crate::rewards::structures;
use bridge_io::{List, together};
use gathering::NumberLists;
use name_table::OwnedVar;
use prism_modules::{
    Element, FileParts, LastingVar, Names, WriterTable, at_home, constants, globals,
    lasting_variables, modules,
};
use prism_targets::{ElementServing, Places, Serving, Target};
use prism_tree::{PrismExpr, PrismFile, PrismLabel, PrismModule, PrismRewards, PrismVar};
use std::alloc::{AllocError, Global};

/// The variables that stay global, and the modules.
#[derive(Drop)]
struct GlobalsAndModules {
    globals: List<PrismVar>,
    modules: List<PrismModule>,
}

/// The labels and the reward structures.
#[derive(Drop)]
struct LabelsAndRewards {
    labels: List<PrismLabel>,
    rewards: List<PrismRewards>,
}

/// The writers of variables.
pub(crate) fn writers(
    alloc: Global,
    names: &Names,
    els: &[Element],
) -> Result<WriterTable, AllocError>
    requires names { IsReady names.now }
    requires elements { map element_of els.now ≡ elements (file_in names.now) }
    ensures { IfOk result (λ t. AreWriters t (file_in names.now)) }
{
    let table = WriterTable::of(alloc, names, els)?;
    Ok(table)
}

/// The modules, by the writers of variables.
fn modules_by(
    alloc: Global,
    names: &Names,
    els: &[Element],
    writers: &WriterTable,
    vars: &[LastingVar],
    serving: &[ElementServing],
) -> Result<List<PrismModule>, AllocError>
    requires names { IsReady names.now }
    requires actions { HasActions names.now }
    requires elements { map element_of els.now ≡ elements (file_in names.now) }
    requires located { All IsElement els.now }
    requires writers { AreWriters writers.now (file_in names.now) }
    requires vars { map lasting_of vars.now ≡ lasting_variables (file_in names.now) }
    requires shapes { FitElements serving.now els.now }
    requires serving { map element_served serving.now ≡ map (served_in (file_in names.now)) (elements (file_in names.now)) }
    ensures { IfOk result (λ ms. map prism.module_of ms ≡ modules_in (file_in names.now) (names_in names.now)) }
{
    let homes = at_home(alloc, names, writers, vars)?;
    modules(alloc, names, els, &homes, serving)
}

/// The variables that stay global, and the modules.
fn moving(
    alloc: Global,
    names: &Names,
    els: &[Element],
    vars: &[LastingVar],
    serving: &[ElementServing],
) -> Result<GlobalsAndModules, AllocError>
    requires names { IsReady names.now }
    requires actions { HasActions names.now }
    requires elements { map element_of els.now ≡ elements (file_in names.now) }
    requires located { All IsElement els.now }
    requires vars { map lasting_of vars.now ≡ lasting_variables (file_in names.now) }
    requires shapes { FitElements serving.now els.now }
    requires serving { map element_served serving.now ≡ map (served_in (file_in names.now)) (elements (file_in names.now)) }
    ensures globals { IfOk result (λ m. map prism.var_of m.globals ≡ globals_in (file_in names.now) (names_in names.now)) }
    ensures modules { IfOk result (λ m. map prism.module_of m.modules ≡ modules_in (file_in names.now) (names_in names.now)) }
{
    let writers = writers(alloc, names, els)?;
    let modules = modules_by(alloc, names, els, &writers, vars, serving);
    let (globals, modules) = together(globals(alloc, names, &writers, vars), modules)?;
    Ok(GlobalsAndModules { globals, modules })
}

/// What structures get by targets.
fn gains_by<'a>(
    alloc: Global,
    names: &Names,
    els: &[Element<'a>],
    vars: &[OwnedVar],
    made: &[Target],
) -> Result<NumberLists<Gain<'a>>, AllocError>
    requires elements { map element_of els.now ≡ elements (file_in names.now) }
    requires vars { map owned_of vars.now ≡ structures_of (file_in names.now) }
    requires targets { map (target_in (file_in names.now)) made.now ≡ targets (file_in names.now) }
    ensures { IfOk result (λ b. (j : ℕ) → map gain_of (list_for b j) ≡ numbered (λ i t. gains_of (file_in names.now) j i t.maker) 0 (targets (file_in names.now))) }
{
    let places = Places::of(alloc, vars)?;
    gains(alloc, names, els, &places, made)
}

/// The reward structures, by what locations give.
fn rewards_by(
    alloc: Global,
    names: &Names,
    els: &[Element],
    table: &GivenTable,
    vars: &[OwnedVar],
    made: &[Target],
) -> Result<List<PrismRewards>, AllocError>
    requires names { IsReady names.now }
    requires actions { HasActions names.now }
    requires elements { map element_of els.now ≡ elements (file_in names.now) }
    requires given { AreGiven table.now (elements (file_in names.now)) }
    requires vars { map owned_of vars.now ≡ structures_of (file_in names.now) }
    requires targets { map (target_in (file_in names.now)) made.now ≡ targets (file_in names.now) }
    ensures { IfOk result (λ rs. map prism.rewards_of rs ≡ rewards_in (file_in names.now) (names_in names.now)) }
{
    let gains = gains_by(alloc, names, els, vars, made)?;
    structures(alloc, names, table, &gains, vars)
}

/// The table of what locations give.
fn given<'s, 'a>(
    alloc: Global,
    names: &Names,
    els: &'s [Element<'a>],
) -> Result<GivenTable<'s, 'a>, AllocError>
    requires elements { map element_of els.now ≡ elements (file_in names.now) }
    ensures { IfOk result (λ t. AreGiven t (elements (file_in names.now))) }
{
    let table = GivenTable::of(alloc, els)?;
    Ok(table)
}

/// The labels and the reward structures.
fn marks(
    alloc: Global,
    names: &Names,
    els: &[Element],
    label_vars: &[OwnedVar],
    vars: &[OwnedVar],
    made: &[Target],
) -> Result<LabelsAndRewards, AllocError>
    requires names { IsReady names.now }
    requires actions { HasActions names.now }
    requires elements { map element_of els.now ≡ elements (file_in names.now) }
    requires labels { map owned_of label_vars.now ≡ labels_of (file_in names.now) }
    requires vars { map owned_of vars.now ≡ structures_of (file_in names.now) }
    requires targets { map (target_in (file_in names.now)) made.now ≡ targets (file_in names.now) }
    ensures labels { IfOk result (λ m. map prism.label_of m.labels ≡ labels_in (file_in names.now) (names_in names.now)) }
    ensures rewards { IfOk result (λ m. map prism.rewards_of m.rewards ≡ rewards_in (file_in names.now) (names_in names.now)) }
{
    let table = given(alloc, names, els)?;
    marks_by(alloc, names, els, &table, label_vars, vars, made)
}

/// The same by what locations give.
fn marks_by(
    alloc: Global,
    names: &Names,
    els: &[Element],
    table: &GivenTable,
    label_vars: &[OwnedVar],
    vars: &[OwnedVar],
    made: &[Target],
) -> Result<LabelsAndRewards, AllocError>
    requires names { IsReady names.now }
    requires actions { HasActions names.now }
    requires elements { map element_of els.now ≡ elements (file_in names.now) }
    requires given { AreGiven table.now (elements (file_in names.now)) }
    requires labels { map owned_of label_vars.now ≡ labels_of (file_in names.now) }
    requires vars { map owned_of vars.now ≡ structures_of (file_in names.now) }
    requires targets { map (target_in (file_in names.now)) made.now ≡ targets (file_in names.now) }
    ensures labels { IfOk result (λ m. map prism.label_of m.labels ≡ labels_in (file_in names.now) (names_in names.now)) }
    ensures rewards { IfOk result (λ m. map prism.rewards_of m.rewards ≡ rewards_in (file_in names.now) (names_in names.now)) }
{
    let labels = labels(alloc, names, table, label_vars);
    let (labels, rewards) = together(labels, rewards_by(alloc, names, els, table, vars, made))?;
    Ok(LabelsAndRewards { labels, rewards })
}

/// The variables that stay global and the modules, by the parts of the file.
fn moving_by(
    alloc: Global,
    names: &Names,
    els: &[Element],
    lasting: &[OwnedVar],
    serving: &[ElementServing],
) -> Result<GlobalsAndModules, AllocError>
    requires names { IsReady names.now }
    requires actions { HasActions names.now }
    requires elements { map element_of els.now ≡ elements (file_in names.now) }
    requires located { All IsElement els.now }
    requires lasting { map owned_of lasting.now ≡ lasting_of_file (file_in names.now) }
    requires shapes { FitElements serving.now els.now }
    requires serving { map element_served serving.now ≡ map (served_in (file_in names.now)) (elements (file_in names.now)) }
    ensures globals { IfOk result (λ m. map prism.var_of m.globals ≡ globals_in (file_in names.now) (names_in names.now)) }
    ensures modules { IfOk result (λ m. map prism.module_of m.modules ≡ modules_in (file_in names.now) (names_in names.now)) }
{
    let vars = lasting_variables(alloc, lasting)?;
    moving(alloc, names, els, vars.as_slice(), serving)
}

/// The initial condition, by the parts of the file.
fn condition_by(
    alloc: Global,
    names: &Names,
    els: &[Element],
    lasting: &[OwnedVar],
) -> Result<Option<PrismExpr>, AllocError>
    requires names { IsReady names.now }
    requires elements { map element_of els.now ≡ elements (file_in names.now) }
    requires located { All IsElement els.now }
    requires lasting { map owned_of lasting.now ≡ lasting_of_file (file_in names.now) }
    ensures { IfOk result (λ r. option_map tree r ≡ condition (file_in names.now) (names_in names.now)) }
{
    let vars = lasting_variables(alloc, lasting)?;
    condition(alloc, names, els, vars.as_slice())
}

/// The file under its new names, where these are its elements, its parts, and what its edges serve.
pub(crate) fn file_by(
    alloc: Global,
    names: &Names,
    els: &[Element],
    parts: &FileParts,
    serving: &Serving,
) -> Result<PrismFile, AllocError>
    requires names { IsReady names.now }
    requires actions { HasActions names.now }
    requires elements { map element_of els.now ≡ elements (file_in names.now) }
    requires located { All IsElement els.now }
    requires parts { AreGathered parts.now (file_in names.now) }
    requires serving { IsServing (file_in names.now) serving.now }
    requires shapes { FitElements serving.now.elements.items els.now }
    ensures { IfOk result (λ r. prism.file_of r ≡ translated_by (names_in names.now) (file_in names.now)) }
{
    let moving = moving_by(
        alloc,
        names,
        els,
        parts.lasting.as_slice(),
        serving.elements.as_slice(),
    );
    let marks = marks(
        alloc,
        names,
        els,
        parts.labels.as_slice(),
        parts.structures.as_slice(),
        serving.targets.as_slice(),
    );
    let init = condition_by(alloc, names, els, parts.lasting.as_slice());
    let marked = together(moving, marks);
    let (init, (constants, (moving, marks))) = together(
        init,
        together(constants(alloc, names), marked),
    )?;
    Ok(PrismFile {
        constants,
        globals: moving.globals,
        formulas: List::new(alloc),
        modules: moving.modules,
        labels: marks.labels,
        rewards: marks.rewards,
        init,
        end: 0,
    })
}
