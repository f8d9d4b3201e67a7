//! A file that is started under given constants.
ghost use Rattle.std.specs.Prelude.{◌≡◌, ◌++◌, [], ℕ, List, IfOk, MatchResult, None, Some, map};
ghost use Rattle.name_rules.specs.Names.{under};
ghost use Rattle.process_core.specs.Instance.{Valuation};
ghost use Rattle.jani_check.specs.Faults.{IsChecked};
ghost use Rattle.jani_meaning.specs.Scene.{columns_of, scene};
ghost use Rattle.jani_tree.specs.Syntax.{const_of, file_of};
ghost use Rattle.instance_start.specs.Columns.{AreColumns, column_of, constant_of};
ghost use Rattle.instance_start.specs.Firsts.{BeginRight};
ghost use Rattle.instance_start.specs.Given.{given_by, misfit};
ghost use Rattle.instance_start.specs.Started.{FailsIn, Starts};
ghost use Rattle.jani_meaning.specs.Elements.{elements, variables as all_variables};
ghost use Rattle.jani_loops.specs.Looped.{IsLooped};
ghost use Rattle.jani_instance.specs.Actions.{IsBasis};
ghost use Rattle.jani_instance.specs.Built.{global_place};
ghost use Rattle.jani_instance.specs.Constants.{Tabled, constant_place};
ghost use Rattle.jani_instance.specs.Described.{described, jani_description};
ghost use Rattle.jani_instance.specs.Instance.{process_of};
ghost use Rattle.jani_instance.specs.Knowing.{AreKinds, AreNamed, HasRoom, HasWideConstant, IsBuilt, IsKnown, AreLinked, IsListed, IsPreparedOf, opened};
ghost use Rattle.jani_instance.specs.Parts.{automaton_at, owned_at};

use crate::acting::{Basis, actions};
use crate::columns::variables_of;
use crate::constants::{constant_table, constant_values};
use crate::data::{Element, InitialLocations, NamedElement, Transient, Vector};
use crate::initial::{has_condition, initial_locations};
use crate::instance::JaniInstance;
use crate::located::elements;
use crate::parts::{
    Owned, Part, add_constants, global_places, labels, lasting, parts, structures, variables,
};
use crate::prepare;
use crate::run::constants_alone;
use crate::transients::transients;
use crate::vectors::vectors;
use bridge_io::{List, together};
use expr_store::{ExprId, ExprStore};
use instance_start::{Column, Constant, Place, columns, given_values, misfit};
use jani_check::CheckedJani;
use jani_loops::{EVALUATED, looped};
use jani_table::JaniOp;
use jani_tree::{JaniAutomaton, JaniConst, JaniExpr, JaniFile};
use name_rules::NameMap;
use op_trees::Value;
use process_core::{Given, StartFail};
use std::alloc::{AllocError, Global};

/// A judged file under given constants, as a process that can be stepped: or the first given constant that doesn't fit, else
/// whether something is wide, else the faults of the instance.
pub fn start_jani<'a>(
    alloc: Global,
    checked: &'a CheckedJani,
    given: &'a [Given],
) -> Result<JaniInstance<'a>, StartFail>
    ensures { Starts process_of (jani_description (file_of checked.now)) given.now result }
{
    let file = checked.file();
    let opens = match open_constants(alloc, file.constants.as_slice()) {
        Ok(opens) => opens,
        Err(e) => return Err(StartFail::Memory(e)),
    };
    match misfit(alloc, opens.as_slice(), given) {
        Err(e) => Err(StartFail::Memory(e)),
        Ok(first) => match first {
            Some(i) => Err(StartFail::Word(i)),
            None => start_fitting(alloc, checked, given, opens.as_slice()),
        },
    }
}

/// The same where the given constants fit. Loops are kept while the instance is made.
fn start_fitting<'a>(
    alloc: Global,
    checked: &'a CheckedJani,
    given: &'a [Given],
    opens: &[Constant<'a>],
) -> Result<JaniInstance<'a>, StartFail>
    requires opens { map constant_of opens.now ≡ map opened (file_of checked.now).constants }
    requires fits { misfit (map opened (file_of checked.now).constants) given.now ≡ None }
    ensures { Starts process_of (jani_description (file_of checked.now)) given.now result }
{
    match looped(alloc, checked.file(), EVALUATED) {
        Err(e) => Err(StartFail::Memory(e)),
        Ok(all) => start_looped(alloc, checked, given, opens, &all),
    }
}

/// The same from the automata of the elements with loops, if there are loops.
fn start_looped<'a>(
    alloc: Global,
    checked: &'a CheckedJani,
    given: &'a [Given],
    opens: &[Constant<'a>],
    looped: &Option<List<JaniAutomaton>>,
) -> Result<JaniInstance<'a>, StartFail>
    requires opens { map constant_of opens.now ≡ map opened (file_of checked.now).constants }
    requires fits { misfit (map opened (file_of checked.now).constants) given.now ≡ None }
    requires looped { IsLooped (file_of checked.now) looped.now }
    ensures { Starts process_of (jani_description (file_of checked.now)) given.now result }
{
    match what_is_listed(alloc, checked.file(), looped) {
        Err(e) => Err(StartFail::Memory(e)),
        Ok(listed) => start_listed(alloc, checked, given, opens, &listed),
    }
}

/// The same from the elements and the variables.
fn start_listed<'a: 'e, 'e>(
    alloc: Global,
    checked: &'a CheckedJani,
    given: &'a [Given],
    opens: &[Constant<'a>],
    listed: &Listed<'a, 'e>,
) -> Result<JaniInstance<'a>, StartFail>
    requires opens { map constant_of opens.now ≡ map opened (file_of checked.now).constants }
    requires fits { misfit (map opened (file_of checked.now).constants) given.now ≡ None }
    requires listed { IsListed (file_of checked.now) listed.now }
    ensures { Starts process_of (jani_description (file_of checked.now)) given.now result }
{
    let file = checked.file();
    match what_is_known(alloc, file, given, opens, listed) {
        Err(e) => Err(e),
        Ok(known) => match what_is_built(alloc, file, listed, &known) {
            Err(e) => Err(StartFail::Memory(e)),
            Ok(built) => Ok(instance_of(checked, given, known, built)),
        },
    }
}

/// The instance of what is known and built.
fn instance_of<'a>(
    checked: &'a CheckedJani,
    given: &'a [Given],
    known: Known<'a>,
    built: Built<'a>,
) -> JaniInstance<'a>
    requires checked { IsChecked (file_of checked.now) }
    requires known { IsKnown (file_of checked.now) (given_by given.now) known }
    requires built { IsBuilt (file_of checked.now) (given_by given.now) built }
    requires begin { BeginRight (columns_of (file_of checked.now) (given_by given.now)) }
    ensures { process_of result ≡ described (file_of checked.now) (given_by given.now) }
{
    let prepared = built.prepared;
    JaniInstance {
        checked,
        given,
        store: prepared.store,
        constants: known.constants,
        columns: known.columns,
        elements: prepared.elements,
        vectors: built.vectors,
        labels: built.labels,
        transients: prepared.transients,
        places: known.places,
        initial_locations: built.initial_locations,
        has_condition: built.has_condition,
    }
}

/// The constants, each with its type, and whether it is left open. `Err` is want of memory.
pub fn open_constants(alloc: Global, constants: &[JaniConst]) -> Result<Vec<Constant>, AllocError>
    ensures { IfOk result (λ cs. map constant_of cs.items ≡ map opened (map const_of constants.now)) }
{
    let mut all = Vec::with_capacity(alloc, constants.len())?;
    for constant in constants {
        all.push(Constant {
            name: &constant.name.name,
            ty: constant.ty,
            is_open: constant.value.is_none(),
        })?;
    }
    Ok(all)
}

// ---- whatever the given constants are

/// Variables of each kind.
#[derive(Drop)]
pub(crate) struct Kinds<'a> {
    pub(crate) lasting: Vec<Owned<'a>>,
    pub(crate) labels: Vec<Owned<'a>>,
    pub(crate) structures: Vec<Owned<'a>>,
}

/// The elements of a file, its variables, where its constants stand, and whether it has an initial condition.
#[derive(Drop)]
pub(crate) struct Listed<'a, 'e> {
    pub(crate) parts: Vec<Part<'a, 'e>>,
    pub(crate) kinds: Kinds<'a>,
    pub(crate) constants: NameMap<'a, Place>,
    pub(crate) has_condition: bool,
}

fn what_is_listed<'a: 'e, 'e>(
    alloc: Global,
    file: &'a JaniFile,
    looped: &'e Option<List<JaniAutomaton>>,
) -> Result<Listed<'a, 'e>, AllocError>
    requires { IsLooped (file_of file.now) looped.now }
    ensures { IfOk result (IsListed (file_of file.now)) }
{
    let parts = parts(alloc, file, looped)?;
    let kinds = kinds_of(alloc, file, parts.as_slice())?;
    let constants = constant_places(alloc, file.constants.as_slice())?;
    let has_condition = has_condition(file, parts.as_slice(), kinds.lasting.as_slice());
    Ok(Listed {
        parts,
        kinds,
        constants,
        has_condition,
    })
}

fn kinds_of<'a, 'e>(
    alloc: Global,
    file: &'a JaniFile,
    parts: &[Part<'a, 'e>],
) -> Result<Kinds<'a>, AllocError>
    requires { map automaton_at parts.now ≡ elements (file_of file.now) }
    ensures { IfOk result (AreKinds (all_variables (file_of file.now))) }
{
    let all = variables(alloc, file.variables.as_slice(), parts)?;
    each_kind(alloc, all.as_slice())
}

fn each_kind<'a>(alloc: Global, all: &[Owned<'a>]) -> Result<Kinds<'a>, AllocError>
    ensures { IfOk result (AreKinds (map owned_at all.now)) }
{
    let lasting = lasting(alloc, all)?;
    let labels = labels(alloc, all)?;
    let structures = structures(alloc, all)?;
    Ok(Kinds {
        lasting,
        labels,
        structures,
    })
}

/// Where the constants stand.
fn constant_places<'a>(
    alloc: Global,
    constants: &'a [JaniConst],
) -> Result<NameMap<'a, Place>, AllocError>
    ensures { IfOk result (λ m. (x : List ℕ) → under m x ≡ constant_place (map const_of constants.now) x) }
{
    let mut places = NameMap::new(alloc);
    add_constants(&mut places, constants)?;
    Ok(places)
}

// ---- under given constants

/// Where global names stand, the values of the constants, and the columns.
#[derive(Drop)]
pub(crate) struct Known<'a> {
    pub(crate) places: NameMap<'a, Place>,
    pub(crate) constants: Vec<Option<Value>>,
    pub(crate) columns: Vec<Column<'a>>,
}

/// What is known of a file under given constants, or why it doesn't start.
fn what_is_known<'a, 'e>(
    alloc: Global,
    file: &'a JaniFile,
    given: &[Given],
    opens: &[Constant<'a>],
    listed: &Listed<'a, 'e>,
) -> Result<Known<'a>, StartFail>
    requires opens { map constant_of opens.now ≡ map opened (file_of file.now).constants }
    requires listed { IsListed (file_of file.now) listed.now }
    ensures { MatchResult result (IsKnown (file_of file.now) (given_by given.now)) (FailsIn (map opened (file_of file.now).constants) (scene (file_of file.now) (given_by given.now))) }
{
    match given_values(alloc, given) {
        Err(e) => Err(StartFail::Memory(e)),
        Ok(values) => known_under(alloc, file, &values, opens, listed),
    }
}

/// The same under the values that are given for names.
fn known_under<'a, 'e>(
    alloc: Global,
    file: &'a JaniFile,
    given: &NameMap<Value>,
    opens: &[Constant<'a>],
    listed: &Listed<'a, 'e>,
) -> Result<Known<'a>, StartFail>
    requires opens { map constant_of opens.now ≡ map opened (file_of file.now).constants }
    requires listed { IsListed (file_of file.now) listed.now }
    ensures { MatchResult result (IsKnown (file_of file.now) (under given.now)) (FailsIn (map opened (file_of file.now).constants) (scene (file_of file.now) (under given.now))) }
{
    let table = known_constants(alloc, file, given, &listed.constants)?;
    let columns = known_columns(alloc, file, given, opens, listed, table.as_slice())?;
    let _count = columns.as_slice().len();
    match places(alloc, file, listed) {
        Err(e) => Err(StartFail::Memory(e)),
        Ok(places) => Ok(Known {
            places,
            constants: table,
            columns,
        }),
    }
}

/// The values of the constants. `Wide` where one is.
fn known_constants(
    alloc: Global,
    file: &JaniFile,
    given: &NameMap<Value>,
    places: &NameMap<Place>,
) -> Result<Vec<Option<Value>>, StartFail>
    requires { (x : List ℕ) → under places.now x ≡ constant_place (map const_of file.now.constants) x }
    ensures { MatchResult result (λ t. Tabled (file_of file.now) (under given.now) (Some t.items)) (HasWideConstant (file_of file.now) (under given.now)) }
{
    match constant_table(alloc, file, given, places) {
        Err(e) => Err(StartFail::Memory(e)),
        Ok(table) => match table {
            None => Err(StartFail::Wide),
            Some(table) => Ok(table),
        },
    }
}

/// The columns, or why there are none.
fn known_columns<'a, 'e>(
    alloc: Global,
    file: &'a JaniFile,
    given: &NameMap<Value>,
    opens: &[Constant<'a>],
    listed: &Listed<'a, 'e>,
    table: &[Option<Value>],
) -> Result<Vec<Column<'a>>, StartFail>
    requires opens { map constant_of opens.now ≡ map opened (file_of file.now).constants }
    requires listed { IsListed (file_of file.now) listed.now }
    requires constants { Tabled (file_of file.now) (under given.now) (Some table.now) }
    ensures { MatchResult result (λ cs. AreColumns (scene (file_of file.now) (under given.now)) (map column_of cs.items))
        (FailsIn (map opened (file_of file.now).constants) (scene (file_of file.now) (under given.now))) }
{
    let values = match constant_values(
        alloc,
        file.constants.as_slice(),
        given,
        &listed.constants,
        table,
    ) {
        Ok(values) => values,
        Err(e) => return Err(StartFail::Memory(e)),
    };
    let condition = listed.has_condition;
    let run = constants_alone(&listed.constants, table);
    match variables_of(
        alloc,
        listed.parts.as_slice(),
        listed.kinds.lasting.as_slice(),
        &run,
    ) {
        Err(e) => Err(StartFail::Memory(e)),
        Ok(vars) => columns(alloc, condition, opens, values.as_slice(), vars.as_slice()),
    }
}

/// Where global names stand: behind the locations of the elements.
fn places<'a: 'n, 'e, 'n>(
    alloc: Global,
    file: &'n JaniFile,
    listed: &Listed<'a, 'e>,
) -> Result<NameMap<'n, Place>, AllocError>
    requires listed { IsListed (file_of file.now) listed.now }
    requires room { HasRoom (file_of file.now) }
    ensures { IfOk result (λ m. (x : List ℕ) → under m x ≡ global_place (file_of file.now) x) }
{
    let first = listed.parts.as_slice().len();
    let mut places = global_places(alloc, listed.kinds.lasting.as_slice(), first)?;
    add_constants(&mut places, file.constants.as_slice())?;
    Ok(places)
}

// ---- elements, vectors and transient variables

/// Elements and transient variables, and the store in which their expressions stand.
#[derive(Drop)]
pub(crate) struct Prepared<'a> {
    pub(crate) store: ExprStore<JaniOp>,
    pub(crate) elements: Vec<Element>,
    pub(crate) transients: Vec<Transient<'a, ExprId>>,
}

/// What an instance keeps besides.
#[derive(Drop)]
pub(crate) struct Built<'a> {
    pub(crate) prepared: Prepared<'a>,
    pub(crate) vectors: Vec<Vector<'a>>,
    pub(crate) labels: usize,
    pub(crate) initial_locations: Vec<InitialLocations>,
    pub(crate) has_condition: bool,
}

/// What is made with the values of the constants. Where global names stand is told once more, by names that live as long as the
/// loops, since a map of names is not lent for a shorter time than its own.
fn what_is_built<'a: 'e, 'e>(
    alloc: Global,
    file: &'a JaniFile,
    listed: &Listed<'a, 'e>,
    known: &Known<'a>,
) -> Result<Built<'a>, AllocError>
    requires checked { IsChecked (file_of file.now) }
    requires listed { IsListed (file_of file.now) listed.now }
    requires room { HasRoom (file_of file.now) }
    ensures { (v : Valuation) → Tabled (file_of file.now) v (Some known.now.constants.items) → IfOk result (IsBuilt (file_of file.now) v) }
{
    let transients = known_transients(alloc, file, listed, known.constants.as_slice())?;
    let lent: &'e JaniFile = file;
    let places: NameMap<'e, Place> = places(alloc, lent, listed)?;
    let linked = what_is_linked(alloc, file, listed, &places)?;
    let prepared = what_is_prepared(
        alloc,
        linked.elements.as_slice(),
        transients.as_slice(),
        &places,
    )?;
    Ok(Built {
        prepared,
        vectors: linked.vectors,
        labels: listed.kinds.labels.as_slice().len(),
        initial_locations: linked.initial_locations,
        has_condition: listed.has_condition,
    })
}

/// Names resolved to places.
fn what_is_prepared<'a, 'e>(
    alloc: Global,
    these: &[NamedElement<'e>],
    variables: &[Transient<'a, &JaniExpr>],
    places: &NameMap<'e, Place>,
) -> Result<Prepared<'a>, AllocError>
    ensures { IfOk result (IsPreparedOf places.now these.now variables.now) }
{
    let mut store = ExprStore::new(alloc);
    let elements = prepare::elements(alloc, these, places, &mut store)?;
    let transients = prepare::transients(alloc, variables, these, places, &mut store)?;
    Ok(Prepared {
        store,
        elements,
        transients,
    })
}

/// The labels and the reward structures, by the values of the constants.
fn known_transients<'a, 'e>(
    alloc: Global,
    file: &'a JaniFile,
    listed: &Listed<'a, 'e>,
    table: &[Option<Value>],
) -> Result<Vec<Transient<'a, &'a JaniExpr>>, AllocError>
    requires { IsListed (file_of file.now) listed.now }
    ensures { (v : Valuation) → Tabled (file_of file.now) v (Some table.now) → IfOk result (λ ts. AreNamed (file_of file.now) v ts.items) }
{
    let run = constants_alone(&listed.constants, table);
    transients(
        alloc,
        listed.parts.as_slice(),
        listed.kinds.labels.as_slice(),
        listed.kinds.structures.as_slice(),
        &run,
    )
}

/// The elements, before their names are resolved, the vectors, and the initial locations.
#[derive(Drop)]
pub(crate) struct Linked<'a, 'e> {
    pub(crate) elements: Vec<NamedElement<'e>>,
    pub(crate) vectors: Vec<Vector<'a>>,
    pub(crate) initial_locations: Vec<InitialLocations>,
}

fn what_is_linked<'a: 'e, 'e>(
    alloc: Global,
    file: &'a JaniFile,
    listed: &Listed<'a, 'e>,
    places: &NameMap<'e, Place>,
) -> Result<Linked<'a, 'e>, AllocError>
    requires listed { IsListed (file_of file.now) listed.now }
    requires room { HasRoom (file_of file.now) }
    requires places { (x : List ℕ) → under places.now x ≡ global_place (file_of file.now) x }
    ensures { IfOk result (AreLinked (file_of file.now)) }
{
    let actions = actions(alloc, listed.parts.as_slice())?;
    let basis = Basis {
        file,
        parts: listed.parts.as_slice(),
        actions: actions.as_slice(),
        lasting: listed.kinds.lasting.as_slice(),
        structures: listed.kinds.structures.as_slice(),
        places,
    };
    linked_on(alloc, file, &basis)
}

/// The same on what elements and vectors are built of.
fn linked_on<'a, 's, 'e>(
    alloc: Global,
    file: &'a JaniFile,
    basis: &Basis<'s, 'e>,
) -> Result<Linked<'a, 'e>, AllocError>
    requires basis { IsBasis basis.now }
    requires file { file_of basis.now.file.now ≡ file_of file.now }
    ensures { IfOk result (AreLinked (file_of basis.now.file.now)) }
{
    let elements = elements(alloc, basis)?;
    let initial = initial_locations(alloc, basis.parts);
    let vectors = vectors(alloc, file.vectors.as_slice(), basis);
    let (vectors, initial_locations) = together(vectors, initial)?;
    Ok(Linked {
        elements,
        vectors,
        initial_locations,
    })
}
