// Constants, variables, the initial condition, labels and reward structures.

ghost use Rattle.std.specs.Prelude.{◌≡◌, ◌++◌, Some, map, IfOk, OnOk};
ghost use Rattle.std.specs.List.{zip};
ghost use Rattle.std.specs.Option.{option_map};
ghost use Rattle.op_trees.specs.Tree.{tree};
ghost use Rattle.prism_tree.specs.Syntax as prism;
ghost use Rattle.jani_tree.specs.Syntax as jani;
ghost use Rattle.jani_edges.specs.Parts.{instead, note, constant, kind_of, start_of, start_under, unless_always, restriction, variable, label, structure};
ghost use Rattle.jani_edges.specs.Code.{name_in};

use bridge_io::{List, Named, Text, together};
use gathering::shorter;
use jani_edges::{Names, NewNameMap, falsehood, image_if, instead_if, nought};
use jani_tree::{JaniConst, JaniExpr, JaniKind, JaniVar};
use name_table::{Entry, instead};
use prism_images::image;
use prism_tree::{PrismConst, PrismExpr, PrismLabel, PrismRange, PrismRewards, PrismVar};
use std::alloc::{AllocError, Global};

// ---- names

/// The comment of a made name, of what it names and its old name; a name that was kept has none.
fn note(alloc: Global, what: &str, old: &Text, e: &Entry) -> Result<Option<Text>, AllocError>
    ensures { IfOk result (λ r. r ≡ note what.now (Some old.now) e.now) }
{
    if e.kept {
        return Ok(None);
    }
    let mut text = String::from_str(alloc, what)?;
    text.push_str(old.as_str())?;
    Ok(Some(Text::from_string(text)?))
}

/// The comment of a reward structure, which may have had no name.
fn note_if(
    alloc: Global,
    what: &str,
    old: &Option<Named>,
    e: &Entry,
) -> Result<Option<Text>, AllocError>
    ensures { IfOk result (λ r. r ≡ note what.now (option_map (λ n. n.name) old.now) e.now) }
{
    if e.kept {
        return Ok(None);
    }
    match old {
        None => Ok(Some(Text::copy_of(alloc, what)?)),
        Some(n) => {
            let all = note(alloc, what, &n.name, e)?;
            Ok(all)
        }
    }
}

/// The name that stands in place of an old one, and its comment.
fn noted(
    alloc: Global,
    what: &str,
    old: &Named,
    e: &Entry,
) -> Result<(Named, Option<Text>), AllocError>
    ensures { IfOk result (λ r. (r.0 ≡ instead old.now e.now.name) × (r.1 ≡ note what.now (Some old.now.name) e.now)) }
{
    let name = instead(alloc, old, e.name.as_str());
    together(name, note(alloc, what, &old.name, e))
}

// ---- constants and variables

/// A constant keeps its type.
fn constant(
    alloc: Global,
    c: &PrismConst,
    e: &Entry,
    names: &NewNameMap,
) -> Result<JaniConst, AllocError>
    ensures { IfOk result (λ r. jani.const_of r ≡ constant (name_in names.now) (prism.const_of c.now) e.now) }
{
    let names_of_it = noted(alloc, "constant:", &c.name, e);
    let ((name, note), value) = together(names_of_it, image_if(alloc, &c.value, names))?;
    Ok(JaniConst {
        name,
        ty: c.ty,
        note,
        value,
    })
}

/// A variable with a range is bounded, any other is boolean.
fn kind_of(
    alloc: Global,
    range: &Option<PrismRange>,
    names: &NewNameMap,
) -> Result<JaniKind, AllocError>
    ensures { IfOk result (λ r. jani.kind_of r ≡ kind_of (name_in names.now) (option_map prism.range_of range.now)) }
{
    match range {
        None => Ok(JaniKind::Bool),
        Some(r) => {
            let (low, high) = together(image(alloc, &r.low, names), image(alloc, &r.high, names))?;
            Ok(JaniKind::Bounded(low, high))
        }
    }
}

/// The first value: that of `init`, else the low bound, else false.
fn start_of(alloc: Global, x: &PrismVar, names: &NewNameMap) -> Result<JaniExpr, AllocError>
    ensures { IfOk result (λ r. tree r ≡ start_of (name_in names.now) (option_map tree x.now.start) (option_map prism.range_of x.now.range)) }
{
    match (&x.start, &x.range) {
        (Some(e), _) => {
            let new = image(alloc, e, names)?;
            Ok(new)
        }
        (None, Some(r)) => {
            let new = image(alloc, &r.low, names)?;
            Ok(new)
        }
        (None, None) => Ok(falsehood()),
    }
}

/// The first value, in a file without an initial condition.
fn start_under(
    alloc: Global,
    has_condition: bool,
    x: &PrismVar,
    names: &NewNameMap,
) -> Result<Option<JaniExpr>, AllocError>
    ensures { IfOk result (λ r. option_map tree r ≡ start_under (name_in names.now) has_condition (option_map tree x.now.start) (option_map prism.range_of x.now.range)) }
{
    if has_condition {
        return Ok(None);
    }
    let first = start_of(alloc, x, names)?;
    Ok(Some(first))
}

/// A variable.
fn variable(
    alloc: Global,
    has_condition: bool,
    x: &PrismVar,
    e: &Entry,
    names: &NewNameMap,
) -> Result<JaniVar, AllocError>
    ensures { IfOk result (λ r. jani.var_of r ≡ variable (name_in names.now) has_condition (prism.var_of x.now) e.now) }
{
    let start = start_under(alloc, has_condition, x, names);
    let values = together(start, kind_of(alloc, &x.range, names));
    let ((name, note), (start, kind)) = together(noted(alloc, "variable:", &x.name, e), values)?;
    Ok(JaniVar {
        name,
        note,
        start,
        kind,
        kind_at: 0,
        transient: false,
    })
}

/// The constants.
pub fn constants(
    alloc: Global,
    constants: &[PrismConst],
    entries: &[Entry],
    names: &NewNameMap,
) -> Result<List<JaniConst>, AllocError>
    ensures { IfOk result (λ all. map jani.const_of all ≡
        map (λ p. constant (name_in names.now) p.0 p.1) (zip (map prism.const_of constants.now) entries.now)) }
{
    let mut all = List::new(alloc);
    let count = shorter(constants.len(), entries.len());
    for i in 0..count {
        all.push(constant(alloc, &constants[i], &entries[i], names)?)?;
    }
    Ok(all)
}

/// The global variables: those of the file, then its labels, then its reward structures.
pub fn global_variables(
    alloc: Global,
    has_condition: bool,
    vars: &[&PrismVar],
    labels: &[PrismLabel],
    rewards: &[PrismRewards],
    names: &Names,
) -> Result<List<JaniVar>, AllocError>
    ensures { IfOk result (λ all. map jani.var_of all ≡
        map (λ p. variable (name_in names.now.value) has_condition p.0 p.1) (zip (map (λ x. prism.var_of x.now) vars.now) names.now.variables.now)
        ++ (map (λ p. label p.0 p.1) (zip (map prism.label_of labels.now) names.now.labels.now)
        ++ map (λ p. structure p.0 p.1) (zip (map prism.rewards_of rewards.now) names.now.rewards.now))) }
{
    let mut all = List::new(alloc);
    add_variables(
        alloc,
        &mut all,
        has_condition,
        vars,
        names.variables,
        &names.value,
    )?;
    add_labels(alloc, &mut all, labels, names.labels)?;
    add_structures(alloc, &mut all, rewards, names.rewards)?;
    Ok(all)
}

/// Adds variables.
fn add_variables(
    alloc: Global,
    all: &mut List<JaniVar>,
    has_condition: bool,
    vars: &[&PrismVar],
    entries: &[Entry],
    names: &NewNameMap,
) -> Result<(), AllocError>
    ensures { OnOk result (map jani.var_of all.new ≡ map jani.var_of all.old ++
        map (λ p. variable (name_in names.now) has_condition p.0 p.1) (zip (map (λ x. prism.var_of x.now) vars.now) entries.now)) }
{
    let count = shorter(vars.len(), entries.len());
    for i in 0..count {
        all.push(variable(alloc, has_condition, vars[i], &entries[i], names)?)?;
    }
    Ok(())
}

// ---- the initial condition

/// No condition where it is the literal true.
fn unless_always(e: JaniExpr) -> Option<JaniExpr>
    ensures { option_map tree result ≡ unless_always (tree e) }
{
    match e {
        JaniExpr::Truth(_, true) => None,
        other => Some(other),
    }
}

/// What restricts the initial states.
pub fn restriction(
    alloc: Global,
    init: &Option<PrismExpr>,
    names: &NewNameMap,
) -> Result<Option<JaniExpr>, AllocError>
    ensures { IfOk result (λ r. option_map tree r ≡ restriction (name_in names.now) (option_map tree init.now)) }
{
    match init {
        None => Ok(None),
        Some(e) => {
            let new = image(alloc, e, names)?;
            Ok(unless_always(new))
        }
    }
}

// ---- labels and reward structures

/// A label is a boolean transient variable, first false.
fn label(alloc: Global, l: &PrismLabel, e: &Entry) -> Result<JaniVar, AllocError>
    ensures { IfOk result (λ r. jani.var_of r ≡ label (prism.label_of l.now) e.now) }
{
    let (name, note) = noted(alloc, "label:", &l.name, e)?;
    Ok(JaniVar {
        name,
        note,
        kind: JaniKind::Bool,
        kind_at: 0,
        transient: true,
        start: Some(falsehood()),
    })
}

/// A reward structure is a real transient variable, first 0.
fn structure(alloc: Global, r: &PrismRewards, e: &Entry) -> Result<JaniVar, AllocError>
    ensures { IfOk result (λ x. jani.var_of x ≡ structure (prism.rewards_of r.now) e.now) }
{
    let name = instead_if(alloc, &r.name, e.name.as_str());
    let (name, note) = together(name, note_if(alloc, "reward:", &r.name, e))?;
    Ok(JaniVar {
        name,
        note,
        kind: JaniKind::Real,
        kind_at: 0,
        transient: true,
        start: Some(nought()),
    })
}

/// Adds labels.
fn add_labels(
    alloc: Global,
    all: &mut List<JaniVar>,
    labels: &[PrismLabel],
    entries: &[Entry],
) -> Result<(), AllocError>
    ensures { OnOk result (map jani.var_of all.new ≡ map jani.var_of all.old ++
        map (λ p. label p.0 p.1) (zip (map prism.label_of labels.now) entries.now)) }
{
    let count = shorter(labels.len(), entries.len());
    for i in 0..count {
        all.push(label(alloc, &labels[i], &entries[i])?)?;
    }
    Ok(())
}

/// Adds reward structures.
fn add_structures(
    alloc: Global,
    all: &mut List<JaniVar>,
    rewards: &[PrismRewards],
    entries: &[Entry],
) -> Result<(), AllocError>
    ensures { OnOk result (map jani.var_of all.new ≡ map jani.var_of all.old ++
        map (λ p. structure p.0 p.1) (zip (map prism.rewards_of rewards.now) entries.now)) }
{
    let count = shorter(rewards.len(), entries.len());
    for i in 0..count {
        all.push(structure(alloc, &rewards[i], &entries[i])?)?;
    }
    Ok(())
}
