//! A file that is started under given constants.
ghost use Rattle.std.specs.Prelude.{◌≡◌, ◌++◌, [], IfOk, MatchResult, None, map};
ghost use Rattle.op_trees.specs.Seen.{Seen, known};
ghost use Rattle.process_core.specs.Ready.{Name};
ghost use Rattle.name_rules.specs.Circles.{AreTurns};
ghost use Rattle.name_rules.specs.Names.{under};
ghost use Rattle.prism_check.specs.Scene.{column, columns_of, has_condition, scene};
ghost use Rattle.prism_names.specs.Names.{unchanged};
ghost use Rattle.state_choices.specs.Views.{seen_of};
ghost use Rattle.prism_tree.specs.Syntax.{const_of, file_of, label_of, rewards_of};
ghost use Rattle.instance_start.specs.Columns.{AreColumns, column_of, constant_of, trimmed_column, value_at, variable_of};
ghost use Rattle.instance_start.specs.Firsts.{BeginRight};
ghost use Rattle.instance_start.specs.Given.{given_by, misfit};
ghost use Rattle.instance_start.specs.Started.{FailsIn, Starts};
ghost use Rattle.prism_instance.specs.Built.{AreParts};
ghost use Rattle.prism_instance.specs.Constants.{AreConstants, HasWideConstant, declared_const, narrow_value};
ghost use Rattle.prism_instance.specs.Described.{described, mark_names, opened, prism_description, structure_name};
ghost use Rattle.prism_instance.specs.Instance.{process_of};
ghost use Rattle.prism_instance.specs.Knowing.{IsFixed, IsKnown};
ghost use Rattle.prism_instance.specs.Places.{constant_place};
ghost use Rattle.prism_instance.specs.Variables.{all_variables, vars_of};
ghost use Rattle.prism_instance.specs.Views.{names_by, FindsIn};
ghost use Rattle.prism_check.specs.Flattened.{IsFlat};

use crate::constants::{constant_order, constant_values, constants_alone};
use crate::model::{PrismInstance, PrismModel};
use crate::parts::{Parts, built};
use crate::places::{constant_places, places};
use crate::state_names::StateNames;
use crate::variables::{all_variables, variables_under};
use bridge_io::{List, Text};
use instance_start::{Column, Constant, Place, Variable, columns, given_values, misfit};
use name_rules::NameMap;
use network::{Instance, Network};
use op_trees::{EvalFail, Value};
use prism_check::FlatPrism;
use prism_tree::{PrismConst, PrismFile, PrismLabel, PrismRewards, PrismVar};
use process_core::{Given, StartFail};
use std::alloc::{AllocError, Global};

/// A file under given constants, as a process that can be stepped: or the first given constant that doesn't fit, else whether
/// something is wide, else the faults of the instance.
pub fn start_prism<'a>(
    alloc: Global,
    flat: &'a FlatPrism,
    given: &'a [Given],
) -> Result<PrismInstance<'a>, StartFail>
    ensures { Starts process_of (prism_description flat.now) given.now result }
{
    let file = flat.file();
    let opens = match open_constants(alloc, file.constants.as_slice()) {
        Ok(opens) => opens,
        Err(e) => return Err(StartFail::Memory(e)),
    };
    match misfit(alloc, opens.as_slice(), given) {
        Err(e) => Err(StartFail::Memory(e)),
        Ok(first) => match first {
            Some(i) => Err(StartFail::Word(i)),
            None => start_fitting(alloc, flat, given, opens.as_slice()),
        },
    }
}

/// The same where the given constants fit.
fn start_fitting<'a>(
    alloc: Global,
    flat: &'a FlatPrism,
    given: &'a [Given],
    opens: &[Constant<'a>],
) -> Result<PrismInstance<'a>, StartFail>
    requires opens { map constant_of opens.now ≡ map opened (flat.now).constants }
    requires fits { misfit (map opened (flat.now).constants) given.now ≡ None }
    ensures { Starts process_of (prism_description flat.now) given.now result }
{
    let file = flat.file();
    match what_is_known(alloc, file, given, opens) {
        Err(e) => Err(e),
        Ok(known) => match start_known(alloc, flat, given, known) {
            Err(e) => Err(StartFail::Memory(e)),
            Ok(instance) => Ok(instance),
        },
    }
}

/// The same where all is known that the given constants decide.
fn start_known<'a>(
    alloc: Global,
    flat: &'a FlatPrism,
    given: &'a [Given],
    known: Known<'a>,
) -> Result<PrismInstance<'a>, AllocError>
    requires known { IsKnown flat.now (given_by given.now) known }
    requires begin { BeginRight (columns_of flat.now (given_by given.now)) }
    ensures { IfOk result (λ i. process_of i ≡ described flat.now (given_by given.now)) }
{
    let fixed = what_is_fixed(alloc, flat.file(), &known)?;
    Ok(instance_of(alloc, flat, given, known, fixed))
}

/// The instance of what is known and fixed.
fn instance_of<'a>(
    alloc: Global,
    flat: &'a FlatPrism,
    given: &'a [Given],
    known: Known<'a>,
    fixed: Fixed<'a>,
) -> PrismInstance<'a>
    requires known { IsKnown flat.now (given_by given.now) known }
    requires fixed { IsFixed flat.now known fixed }
    requires begin { BeginRight (columns_of flat.now (given_by given.now)) }
    ensures { process_of result ≡ described flat.now (given_by given.now) }
{
    let file = flat.file();
    let Fixed {
        parts,
        marks,
        texts,
    } = fixed;
    let Parts {
        store,
        choosing,
        marking,
    } = parts;
    Instance {
        model: PrismModel { flat, given },
        network: Network {
            alloc,
            store,
            constants: known.constants,
            columns: known.columns,
            texts,
            components: choosing.components,
            vectors: choosing.vectors,
            rewards: file.rewards.len(),
            silent: choosing.silent,
            labels: marking.labels,
            sums: marking.sums,
            structures: Vec::new(alloc),
            marks,
            starts: Vec::new(alloc),
            condition: marking.condition,
            has_condition: file.init.is_some(),
        },
    }
}

/// The constants, each with its type, and whether it is left open. `Err` is want of memory.
pub fn open_constants(alloc: Global, constants: &[PrismConst]) -> Result<Vec<Constant>, AllocError>
    ensures { IfOk result (λ cs. map constant_of cs.items ≡ map opened (map const_of constants.now)) }
{
    let mut all = Vec::with_capacity(alloc, constants.len())?;
    for constant in constants {
        all.push(Constant {
            name: &constant.name.name,
            ty: constant.ty,
            is_open: constant.value.is_none(),
        })?;
    }
    Ok(all)
}

/// What is known of a file under given constants: where names stand, the values of the constants, and the columns.
#[derive(Drop)]
pub(crate) struct Known<'a> {
    pub(crate) places: NameMap<'a, Place>,
    pub(crate) constants: Vec<Option<Value>>,
    pub(crate) columns: Vec<Column<'a>>,
}

/// What is known of a file under given constants, or why it doesn't start.
pub(crate) fn what_is_known<'a>(
    alloc: Global,
    file: &'a PrismFile,
    given: &[Given],
    opens: &[Constant<'a>],
) -> Result<Known<'a>, StartFail>
    requires flat { IsFlat (file_of file.now) }
    requires opens { map constant_of opens.now ≡ map opened (map const_of file.now.constants) }
    ensures { MatchResult result (IsKnown (file_of file.now) (given_by given.now)) (FailsIn (map opened (map const_of file.now.constants)) (scene (file_of file.now) (given_by given.now))) }
{
    let table = known_constants(alloc, file, given)?;
    let columns = known_columns(alloc, file, given, opens, table.as_slice())?;
    match places(alloc, columns.as_slice(), file.constants.as_slice()) {
        Err(e) => Err(StartFail::Memory(e)),
        Ok(places) => Ok(Known {
            places,
            constants: table,
            columns,
        }),
    }
}

/// The values of the constants. `Wide` where one is.
fn known_constants(
    alloc: Global,
    file: &PrismFile,
    given: &[Given],
) -> Result<Vec<Option<Value>>, StartFail>
    requires { IsFlat (file_of file.now) }
    ensures { MatchResult result (λ t. AreConstants (file_of file.now) (given_by given.now) t.items) (HasWideConstant (file_of file.now) (given_by given.now)) }
{
    let constants = file.constants.as_slice();
    let order = match constant_order(alloc, constants) {
        Ok(order) => order,
        Err(e) => return Err(StartFail::Memory(e)),
    };
    match given_values(alloc, given) {
        Err(e) => Err(StartFail::Memory(e)),
        Ok(values) => ordered_constants(alloc, file, &values, order.as_slice()),
    }
}

/// The same in an order in which each stands behind those that its value needs.
fn ordered_constants(
    alloc: Global,
    file: &PrismFile,
    given: &NameMap<Value>,
    order: &[usize],
) -> Result<Vec<Option<Value>>, StartFail>
    requires flat { IsFlat (file_of file.now) }
    requires turns { AreTurns (map declared_const (map const_of file.now.constants)) order.now }
    ensures { MatchResult result (λ t. AreConstants (file_of file.now) (under given.now) t.items) (HasWideConstant (file_of file.now) (under given.now)) }
{
    match constant_places(alloc, file.constants.as_slice()) {
        Err(e) => Err(StartFail::Memory(e)),
        Ok(places) => constant_values(alloc, file, given, &places, order),
    }
}

/// The columns, or why there are none.
fn known_columns<'a>(
    alloc: Global,
    file: &'a PrismFile,
    given: &[Given],
    opens: &[Constant<'a>],
    table: &[Option<Value>],
) -> Result<Vec<Column<'a>>, StartFail>
    requires flat { IsFlat (file_of file.now) }
    requires opens { map constant_of opens.now ≡ map opened (map const_of file.now.constants) }
    requires constants { AreConstants (file_of file.now) (given_by given.now) table.now }
    ensures { MatchResult result (λ cs. AreColumns (scene (file_of file.now) (given_by given.now)) (map column_of cs.items))
        (FailsIn (map opened (map const_of file.now.constants)) (scene (file_of file.now) (given_by given.now))) }
{
    let values = match answers(alloc, table) {
        Ok(values) => values,
        Err(e) => return Err(StartFail::Memory(e)),
    };
    match known_variables(alloc, file, table) {
        Err(e) => Err(StartFail::Memory(e)),
        Ok(variables) => columns(
            alloc,
            file.init.is_some(),
            opens,
            values.as_slice(),
            variables.as_slice(),
        ),
    }
}

/// The values of constants as evaluations answer them.
fn answers(
    alloc: Global,
    table: &[Option<Value>],
) -> Result<Vec<Result<Value, EvalFail>>, AllocError>
    ensures { IfOk result (λ rs. map seen_of rs.items ≡ map narrow_value table.now) }
{
    let mut all = Vec::with_capacity(alloc, table.len())?;
    for value in table {
        all.push(answer(*value))?;
    }
    Ok(all)
}

fn answer(value: Option<Value>) -> Result<Value, EvalFail>
    ensures { seen_of result ≡ narrow_value value }
{
    match value {
        Some(value) => Ok(value),
        None => Err(EvalFail::Undef),
    }
}

/// What the variables come out as, by the values of the constants.
fn known_variables<'a>(
    alloc: Global,
    file: &'a PrismFile,
    table: &[Option<Value>],
) -> Result<Vec<Variable<'a>>, AllocError>
    ensures { IfOk result (λ xs. (names : Name → Seen) → ((x : Name) → known (value_at [] table.now (constant_place 0 (map const_of file.now.constants) x)) ≡ names x) →
        map variable_of xs.items ≡ map (λ x. trimmed_column (column (has_condition (file_of file.now)) unchanged names x)) (all_variables (file_of file.now))) }
{
    let places = constant_places(alloc, file.constants.as_slice())?;
    let variables = all_variables(alloc, file)?;
    variables_by(
        alloc,
        file.init.is_some(),
        variables.as_slice(),
        &places,
        table,
    )
}

fn variables_by<'a>(
    alloc: Global,
    has_condition: bool,
    variables: &[&'a PrismVar],
    places: &NameMap<Place>,
    table: &[Option<Value>],
) -> Result<Vec<Variable<'a>>, AllocError>
    ensures { IfOk result (λ xs. map variable_of xs.items ≡ map (λ x. trimmed_column (column has_condition unchanged (names_by places.now table.now) x)) (vars_of variables.now)) }
{
    let run = constants_alone(places, table);
    variables_under(alloc, has_condition, variables, &run)
}

/// What of a file doesn't change from state to state: the parts of its network, and the names of the marks and of the columns.
#[derive(Drop)]
pub(crate) struct Fixed<'a> {
    pub(crate) parts: Parts<'a>,
    pub(crate) marks: Vec<&'a str>,
    pub(crate) texts: List<Text>,
}

fn what_is_fixed<'a>(
    alloc: Global,
    file: &'a PrismFile,
    known: &Known,
) -> Result<Fixed<'a>, AllocError>
    requires { FindsIn known.now.places known.now.columns.items }
    ensures { IfOk result (IsFixed (file_of file.now) known.now) }
{
    let marks = marks(alloc, file)?;
    let texts = texts(alloc, known.columns.as_slice())?;
    let parts = known_parts(alloc, file, known)?;
    Ok(Fixed {
        parts,
        marks,
        texts,
    })
}

/// The parts of its network, where names stand where they are known to.
fn known_parts<'a>(
    alloc: Global,
    file: &'a PrismFile,
    known: &Known,
) -> Result<Parts<'a>, AllocError>
    requires { FindsIn known.now.places known.now.columns.items }
    ensures { IfOk result (AreParts (file_of file.now) (λ x. under known.now.places x) (map column_of known.now.columns.items)) }
{
    let names = StateNames {
        places: &known.places,
        columns: known.columns.as_slice(),
    };
    built(alloc, file, &names)
}

/// The names of the columns.
fn texts(alloc: Global, columns: &[Column]) -> Result<List<Text>, AllocError>
    ensures { IfOk result (λ ts. ts ≡ map (λ c. c.name) (map column_of columns.now)) }
{
    let mut all = List::with_capacity(alloc, columns.len())?;
    for column in columns {
        let text = Text::copy_of(alloc, column.name.as_str())?;
        all.push(text)?;
    }
    Ok(all)
}

/// The names of the marks: those of the labels, then those of the reward structures.
fn marks(alloc: Global, file: &PrismFile) -> Result<Vec<&str>, AllocError>
    ensures { IfOk result (λ ns. map (λ n. n.now) ns.items ≡ mark_names (file_of file.now)) }
{
    let mut names = Vec::new(alloc);
    add_labels(file.labels.as_slice(), &mut names)?;
    add_structures(file.rewards.as_slice(), &mut names)?;
    Ok(names)
}

fn add_labels<'a>(labels: &'a [PrismLabel], names: &mut Vec<&'a str>) -> Result<(), AllocError>
    ensures { IfOk result (λ u. map (λ n. n.now) names.new.items ≡ map (λ n. n.now) names.old.items ++ map (λ l. l.name.name) (map label_of labels.now)) }
{
    for label in labels {
        names.push(label.name.name.as_str())?;
    }
    Ok(())
}

fn add_structures<'a>(
    rewards: &'a [PrismRewards],
    names: &mut Vec<&'a str>,
) -> Result<(), AllocError>
    ensures { IfOk result (λ u. map (λ n. n.now) names.new.items ≡ map (λ n. n.now) names.old.items ++ map (λ r. structure_name r.name) (map rewards_of rewards.now)) }
{
    for structure in rewards {
        names.push(structure_text(structure))?;
    }
    Ok(())
}

fn structure_text(structure: &PrismRewards) -> &str
    ensures { result.now ≡ structure_name structure.now.name }
{
    match &structure.name {
        Some(name) => name.name.as_str(),
        None => "",
    }
}
